// The loop of the program `ledger`: fields from standard input, and the text of document 01 to standard output. Everything that is printed is made by
// `report`: the loop reads as much as there is, has every whole field of it taken, writes the s lines at once, and keeps what is left for the next read.
// No contract can say what is read or written; that the text does not depend on where the reads end is `Streams` in the specs of `report`, and that
// the loop is that of `Streams` is `TakesTurn` and `FedTo` in the specs here. A read or a write that fails is told on standard error, and nothing more is written.
#![tactic(auto)]

ghost use Rattle.std.specs.Prelude.{◌*◌, ◌≤◌, IfOk, length, take};
ghost use Rattle.stream.specs.Turns.{TakesTurn, FedTo, Last, Ends};

use case::Case;
use feed::{Failed, Streams};

// What is held after a turn, how many bytes are kept at the buffer's front, and how many bytes of text are to be written.
#[derive(Clone, Copy)]
pub struct Turn {
    pub held: Option<Case>,
    pub len: usize,
    pub written: usize,
}

// What is held when the input has ended, and how many bytes of a field that is cut off are kept at the buffer's front.
#[derive(Clone, Copy)]
pub struct Rest {
    pub held: Option<Case>,
    pub len: usize,
}

// The bytes in front of a place taken: their whole fields with the text of their s lines, and what is left of them moved to the front.
fn take_turn(held: Option<Case>, buf: &mut [u8], end: usize, out: &mut [u8]) -> Turn
    requires { (end ≤ length buf.old) × (4 * end ≤ length out.old) }
    ensures { TakesTurn held (take end buf.old) buf.old buf.new out.old out.new result }
{
    let taken = report::take_part(held, &buf[..end], out);
    Turn {
        held: taken.held,
        len: feed::slide(buf, taken.used, end),
        written: taken.written,
    }
}

// Reads and takes until the input ends, or a read or a write fails.
fn take_input(streams: Streams, buf: &mut [u8], out: &mut [u8]) -> Result<Rest, Failed>
    requires { 4 * length buf.old ≤ length out.old }
    ensures { IfOk result (λ rest. FedTo buf.new rest.held rest.len) }
{
    let mut held: Option<Case> = None;
    let mut len: usize = 0;
    for _ in 0..u64::MAX {
        let more = feed::read(streams, buf, len, b"ledger: standard input")?;
        if more == 0 {
            return Ok(Rest { held, len });
        }
        let turn = take_turn(held, buf, len + more, out);
        held = turn.held;
        len = turn.len;
        feed::flush(streams, out, turn.written, b"ledger: standard output")?;
    }
    Err(Failed)
}

// The text behind the s lines of the whole fields: the s line of a field that is cut off, and the lines of the end.
fn last_text(held: Option<Case>, rest: &[u8], out: &mut [u8]) -> usize
    ensures { Last held rest.now out.old out.new result }
{
    let to = report::write_cut(rest, out, 0);
    report::write_end(held, out, to)
}

// The run up to its last write, and how many bytes of text at the buffer's front are then still to be written.
fn run_to_end(streams: Streams, buf: &mut [u8], out: &mut [u8]) -> Result<usize, Failed>
    requires { (4 * length buf.old ≤ length out.old) × (4096 ≤ length out.old) }
    ensures { Ends out.new result }
{
    let rest = take_input(streams, buf, out)?;
    Ok(last_text(rest.held, &buf[..rest.len], out))
}

// The whole run over two lent buffers: whether the input ended and all was written. Nothing is read where the first has less than the 65,538 bytes of the
// longest field, or the second less than four times those of the first.
pub fn run(streams: Streams, buf: &mut [u8], out: &mut [u8]) -> bool {
    if out.len() / 4 < buf.len() {
        return false;
    }
    if buf.len() < 65538 {
        return false;
    }
    match run_to_end(streams, buf, out) {
        Ok(len) => feed::flush(streams, out, len, b"ledger: standard output").is_ok(),
        Err(Failed) => false,
    }
}

// The same with buffers of its own: the body of the program `ledger`, and what the library for C exports, whose `main` can give a status.
pub fn ledger_stream(streams: Streams) -> bool {
    let mut buf = [0u8; 131072];
    let mut out = [0u8; 524288];
    run(streams, &mut buf, &mut out)
}
