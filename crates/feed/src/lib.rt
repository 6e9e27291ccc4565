// What the programs share: a read behind the bytes that are kept, a write that is whole or failed, and the bytes that are kept moved to the
// buffer's front. No contract can say what is read or written; these say which bytes of the lent buffers may change. A read or a write that fails is told on
// standard error, behind a name that is handed over.
// Each program has its own loop around `read`. What it holds between two reads is its own, and one loop over a closure would ask each of them for the same
// invariant, about what the closure changes, and so would be no plainer.
#![tactic(auto)]

ghost use Rattle.std.specs.Prelude.{◌≡◌, ◌-◌, ◌≤◌, ◌<◌, IfOk, IsErr, is_ok, length, take};
ghost use Rattle.feed.specs.Feeds.{Reads, Slides};

use std::env::{Env, FillError};
use std::io;
use std::io::{ErrorKind, Print, Read, Stderr, Stdin, Stdout};

// The handles that let a program read and write its standard streams. They take no bytes.
#[derive(Clone, Copy)]
pub struct Streams {
    pub input: Stdin,
    pub output: Stdout,
    pub error: Stderr,
}

// The streams of a program.
pub fn streams_of(rt: HostRuntime) -> Streams {
    Streams {
        input: rt.stdin(),
        output: rt.stdout(),
        error: rt.stderr(),
    }
}

// A read or a write that failed. Why was told on standard error.
#[derive(Clone, Copy, Debug, PartialEq, Eq)]
pub struct Failed;

// Whether a call that failed so is to be made again: a signal came before it moved a byte.
fn again(error: io::Error) -> bool {
    error.kind() == ErrorKind::Interrupted
}

// Bytes on standard error. Where they can't be written, they are let go.
pub fn tell(streams: Streams, text: &[u8]) {
    let _told = streams.error.write_all(text);
}

// Why a read or a write failed, as a line on standard error behind the name.
fn fail(streams: Streams, name: &[u8], error: io::Error) -> Failed {
    tell(streams, name);
    tell(streams, b": ");
    let _told = streams.error.println(error);
    Failed
}

// One call, into the buffer from a place on.
fn read_once(streams: Streams, buf: &mut [u8], at: usize) -> io::Result<usize>
    requires { at ≤ length buf.old }
    ensures front { take at buf.new ≡ take at buf.old }
    ensures room { IfOk result (λ n. n ≤ length buf.old - at) }
{
    let part = &mut buf[at..];
    let mut input = streams.input;
    input.read(part)
}

// The same, made again where a signal interrupts it.
fn read_again(streams: Streams, buf: &mut [u8], at: usize) -> io::Result<usize>
    ensures front { take at buf.new ≡ take at buf.old }
    ensures room { IfOk result (λ n. n ≤ length buf.old - at) }
{
    if buf.len() < at {
        return Err(io::Error::from(ErrorKind::InvalidInput));
    }
    for _ in 0..u64::MAX {
        match read_once(streams, buf, at) {
            Ok(n) => return Ok(n),
            Err(error) if again(error) => {}
            Err(error) => return Err(error),
        }
    }
    Err(io::Error::from(ErrorKind::Interrupted))
}

// Reads from standard input into the buffer from a place on, and gives the number of bytes that came: none at the input's end. A read that fails is told on
// standard error behind the name that is handed over.
pub fn read(streams: Streams, buf: &mut [u8], at: usize, name: &[u8]) -> Result<usize, Failed>
    ensures { Reads at buf.old buf.new result }
{
    read_again(streams, buf, at).map_err(|error| fail(streams, name, error))
}

// Writes all of a text to standard output, or gives the error of the first call that fails, and what stands there is then a front of the text. A call
// that a signal interrupts is made again, however often; the `write_all` of std gives up in the end.
pub fn write(streams: Streams, text: &[u8]) -> io::Result<()> {
    let mut left = text;
    for _ in 0..u64::MAX {
        if left.is_empty() {
            return Ok(());
        }
        match streams.output.write_some(left) {
            Ok(0) => return Err(io::Error::from(ErrorKind::WriteZero)),
            Ok(n) => left = &left[n..],
            Err(error) if again(error) => {}
            Err(error) => return Err(error),
        }
    }
    Err(io::Error::from(ErrorKind::Interrupted))
}

// What a write gave, where its error is told on standard error behind the name.
fn told(streams: Streams, wrote: io::Result<()>, name: &[u8]) -> Result<(), Failed>
    ensures { is_ok result ≡ is_ok wrote }
{
    wrote.map_err(|error| fail(streams, name, error))
}

// Writes what stands in front of the place to standard output. A write that fails is told on standard error behind the name that is handed over. Where the place
// is behind the buffer nothing is written, nothing is told, and the write has failed.
pub fn flush(streams: Streams, out: &[u8], at: usize, name: &[u8]) -> Result<(), Failed>
    ensures { length out.now < at → IsErr result }
{
    if out.len() < at {
        return Err(Failed);
    }
    told(streams, write(streams, &out[..at]), name)
}

// How many words the program is called with; its own name counts as one.
pub fn word_count(rt: HostRuntime) -> usize {
    let mut first = [0u8; 1];
    for i in 0..usize::MAX {
        if let Err(FillError::NotPresent) = rt.arg(i, &mut first) {
            return i;
        }
    }
    usize::MAX
}

// The word with a number at the front of a buffer, and its length: 0 where there is no such word, or where it is longer than the buffer, since the programs take
// both as they take an empty word. It need not be text.
pub fn read_word(rt: HostRuntime, i: usize, buf: &mut [u8]) -> usize
    ensures { result ≤ length buf.new }
{
    rt.arg(i, buf).unwrap_or(0)
}

// Moves the bytes between two places to the front, and says how many they are. Where the places are not in order or behind the buffer, nothing moves.
// They are moved one by one, since with std's `copy_within` the archives for C would need `memmove` from outside.
pub fn slide(buf: &mut [u8], start: usize, end: usize) -> usize
    ensures { Slides start end buf.old buf.new result }
{
    if buf.len() < end {
        return 0;
    }
    if end < start {
        return 0;
    }
    let n = end - start;
    for i in 0..n {
        buf[i] = buf[start + i];
    }
    n
}
