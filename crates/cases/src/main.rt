// A checked run. Its file stdin holds inputs, each behind its length in four bytes; it prints the text of each and a line `--`. The file stdout is what
// the independent model prints (tests/target/release/checked): K9, annexure 1 of document 000, the example of document 01 cut off at every byte, and lists
// that give each number of refusal to each call that can get it.
#![tactic(auto)]

ghost use Rattle.std.specs.Prelude.{◌+◌, ◌≤◌, ◌<◌, length};

use std::io::{Print, Read};

// The length that stands at a place.
fn length_at(all: &[u8], at: usize) -> usize
    requires { at + 4 ≤ length all.now }
    ensures { result < 65536 }
{
    usize::from(u16::from_be_bytes([all[at + 2], all[at + 3]]))
}

// Writes the text of one input.
fn print_one(rt: HostRuntime, input: &[u8], out: &mut [u8]) {
    let len = report::print(input, out).unwrap_or(0);
    if len <= out.len() {
        let _text = rt.write_all(&out[..len]);
        let _end = rt.write_all(b"--\n");
    }
}

// Writes the text of each input.
fn print_all(rt: HostRuntime, all: &[u8], out: &mut [u8]) {
    let mut at: usize = 0;
    while 4 <= all.len() - at {
        let start = at + 4;
        let len = length_at(all, at);
        if all.len() - start < len {
            return;
        }
        at = start + len;
        print_one(rt, &all[start..at], out);
    }
}

// Reads from standard input until the buffer is full, the input ends or a read fails, and says how many bytes came.
fn read_all(rt: HostRuntime, all: &mut [u8]) -> usize
    ensures { result ≤ length all.new }
{
    let mut input = rt.stdin();
    let mut done: usize = 0;
    while done < all.len() {
        let n = input.read(&mut all[done..]).unwrap_or(0);
        if n == 0 {
            return done;
        }
        done += n;
    }
    done
}

fn main(rt: HostRuntime) {
    let mut all = [0u8; 65536];
    let n = read_all(rt, &mut all);
    let mut out = [0u8; 131072];
    print_all(rt, &all[0..n], &mut out);
}
