// Text as fields, line by line. `take_some` has the whole contract of what is written; the loop reads as much as there is, has every line of it written, and keeps
// what is left for the next read. At the first line that is refused, and where the input cannot be read, the reading stops, and the fields end in one that
// is cut off, so that nobody takes them for the whole case.
#![tactic(auto)]

mod messages;

ghost use Rattle.std.specs.Prelude.{◌≡◌, ◌≤◌, IfOk, length, take};
ghost use Rattle.to_fields.specs.Lines.{line_read};
ghost use Rattle.to_fields.specs.Turns.{NoCall, IsLine, NextLine, WritesLines, WritesAllLines, TakesTurn, TakesInput, CutOff, Finishes, Ends};

use feed::{Failed, Streams};
use messages::Refusal;
use notation::{Read, Reason};
use text_lines::LONGEST;
use wire::Call;

// A line's bytes, and the call that it asks for; no bytes where it is not to be taken. No line has 0 bytes, and `size_within` says it so.
#[derive(Clone, Copy)]
struct Line {
    size: usize,
    call: Call,
}

// How many lines were written, the bytes that they took, and the bytes of their fields.
#[derive(Clone, Copy)]
pub struct Part {
    pub count: usize,
    pub used: usize,
    pub written: usize,
}

// The bytes of the lines that were written, the number of lines up to then, and whether the next line is refused.
#[derive(Clone, Copy)]
struct Wrote {
    used: usize,
    lines: u64,
    refused: bool,
}

// How many bytes are kept at the buffer's front after a turn, the number of lines, and whether the next line is refused.
#[derive(Clone, Copy)]
struct Turn {
    len: usize,
    lines: u64,
    refused: bool,
}

// How many bytes are kept at the buffer's front when the reading stops, the number of lines, and whether the input ended: where it did not, a line is refused or a
// read failed.
#[derive(Clone, Copy)]
struct Rest {
    len: usize,
    lines: u64,
    ended: bool,
}

// Whether all was read and is good, and how many bytes at the buffer's front are still to be written.
#[derive(Clone, Copy)]
struct Ending {
    good: bool,
    len: usize,
}

// The bytes that a field has at most.
const FIELD: usize = 64;

// ---- lines

// A line as it is read; one that is too long is refused.
fn read_piece(line: &[u8]) -> Read
    ensures { result ≡ line_read line.now }
{
    let n = text_lines::length_to(line);
    if LONGEST < n {
        return Read::Refused {
            at: LONGEST,
            reason: Reason::LineTooLong,
            tag: 0,
            item: 0,
        };
    }
    notation::read_line(&line[..n])
}

// A line of so many bytes that asks for no call.
fn no_call(size: usize) -> Line
    ensures { NoCall size result }
{
    Line {
        size,
        call: Call::Unknown,
    }
}

// A line of so many bytes by what it is read as.
fn line_of(size: usize, read: Read) -> Line
    ensures { IsLine size read result }
{
    match read {
        Read::Nothing => no_call(size),
        Read::Called(call) => Line { size, call },
        Read::Refused {
            at: _,
            reason: _,
            tag: _,
            item: _,
        } => no_call(0),
    }
}

// The line at the front, with no bytes where it is refused or not all there, or its field has no room.
fn next_line(last: bool, input: &[u8], room: usize) -> Line
    ensures { NextLine room last input.now result }
{
    if room < FIELD {
        return no_call(0);
    }
    let size = text_lines::line_size(last, input);
    let read = read_piece(&input[..size]);
    line_of(size, read)
}

// The lines at the front of some bytes, up to the first that is refused or not all there and as many as there is room for, as fields at the front of the buffer.
pub fn take_some(last: bool, input: &[u8], out: &mut [u8]) -> Part
    ensures { WritesLines last input.now out.old out.new result }
{
    let mut count: usize = 0;
    let mut used: usize = 0;
    let mut to: usize = 0;
    let mut line = next_line(last, input, out.len());
    while line.size != 0 {
        to = forms::write_call(line.call, out, to);
        used += line.size;
        count += 1;
        line = next_line(last, &input[used..], out.len() - to);
    }
    Part {
        count,
        used,
        written: to,
    }
}

// ---- the loop

// Every line at the front of some bytes written to standard output, a part at a time, up to the first that is refused or not all there, unless a write fails.
fn write_all(streams: Streams, first: u64, input: &[u8], out: &mut [u8]) -> Result<Wrote, Failed>
    requires { 64 ≤ length out.old }
    ensures { IfOk result (λ wrote. WritesAllLines first input.now wrote) }
{
    let mut lines = first;
    let mut used: usize = 0;
    loop {
        let part = take_some(false, &input[used..], out);
        let count = part.count;
        if count == 0 {
            let next = text_lines::line_size(false, &input[used..]);
            return Ok(Wrote {
                used,
                lines,
                refused: next != 0,
            });
        }
        used += part.used;
        lines = lines.wrapping_add(count as u64);
        feed::flush(streams, out, part.written, b"fields: standard output")?;
    }
}

// The bytes in front of a place taken: their lines written, and what is left of them moved to the front.
fn take_turn(
    streams: Streams,
    lines: u64,
    buf: &mut [u8],
    end: usize,
    out: &mut [u8],
) -> Result<Turn, Failed>
    requires { (end ≤ length buf.old) × (64 ≤ length out.old) }
    ensures { IfOk result (λ turn. TakesTurn lines (take end buf.old) buf.old buf.new turn) }
{
    let wrote = write_all(streams, lines, &buf[..end], out)?;
    Ok(Turn {
        len: feed::slide(buf, wrote.used, end),
        lines: wrote.lines,
        refused: wrote.refused,
    })
}

// Reads and takes until the input ends, a line is refused, or a read or a write fails. What a read brought is written before the next.
fn take_input(streams: Streams, buf: &mut [u8], out: &mut [u8]) -> Result<Rest, Failed>
    requires { 64 ≤ length out.old }
    ensures { IfOk result (λ rest. TakesInput buf.new rest) }
{
    let mut lines: u64 = 0;
    let mut len: usize = 0;
    for _ in 0..u64::MAX {
        let Ok(more) = feed::read(streams, buf, len, b"fields: standard input") else {
            break;
        };
        if more == 0 {
            return Ok(Rest {
                len,
                lines,
                ended: true,
            });
        }
        let turn = take_turn(streams, lines, buf, len + more, out)?;
        len = turn.len;
        lines = turn.lines;
        if turn.refused {
            break;
        }
    }
    Ok(Rest {
        len,
        lines,
        ended: false,
    })
}

// ---- the end

// The field that is cut off, at the front of the buffer: tag 0 and the greatest length, and behind it only the bytes of a message.
fn put_end(message: &[u8], out: &mut [u8]) -> usize
    requires { (length message.now ≤ 512) × (515 ≤ length out.old) }
    ensures { CutOff out.new result }
{
    let to = words::put(out, 0, b"\x00\xff\xff");
    words::put(out, to, message)
}

// A message as a line on standard error.
fn tell(streams: Streams, message: &[u8]) {
    feed::tell(streams, message);
    feed::tell(streams, b"\n");
}

// A line that is refused: told on standard error, and the fields end.
fn refuse_line(streams: Streams, number: u64, why: Refusal, line: &[u8], out: &mut [u8]) -> usize
    requires { 515 ≤ length out.old }
    ensures { CutOff out.new result }
{
    let mut note = [0u8; 512];
    let n = messages::write_message(&mut note, number, why, line).min(512);
    tell(streams, &note[..n]);
    put_end(&note[..n], out)
}

// The text could not be read to its end: the fields end.
fn refuse_text(out: &mut [u8]) -> usize
    requires { 515 ≤ length out.old }
    ensures { CutOff out.new result }
{
    put_end(b"the text could not be read to its end", out)
}

// The fields end where the first line that is left is refused, or where the text could not be read to its end.
fn refuse(streams: Streams, last: bool, lines: u64, text: &[u8], out: &mut [u8]) -> usize
    requires { 515 ≤ length out.old }
    ensures { CutOff out.new result }
{
    let size = text_lines::line_size(last, text);
    match read_piece(&text[..size]) {
        Read::Refused {
            at,
            reason,
            tag,
            item,
        } => {
            let why = Refusal {
                at,
                reason,
                tag,
                item,
            };
            refuse_line(streams, lines.wrapping_add(1), why, text, out)
        }
        _ => refuse_text(out),
    }
}

// What is still to be written of the lines that are left: the field of a last line, or a field that is cut off.
fn finish(streams: Streams, ended: bool, lines: u64, rest: &[u8], out: &mut [u8]) -> Ending
    requires { 515 ≤ length out.old }
    ensures { Finishes rest.now out.new result }
{
    if !ended {
        return Ending {
            good: false,
            len: refuse(streams, false, lines, rest, out),
        };
    }
    let part = take_some(true, rest, out);
    if part.used == rest.len() {
        return Ending {
            good: true,
            len: part.written,
        };
    }
    Ending {
        good: false,
        len: refuse(streams, true, lines, rest, out),
    }
}

// The run up to its last write.
fn run_to_end(streams: Streams, buf: &mut [u8], out: &mut [u8]) -> Result<Ending, Failed>
    requires { 515 ≤ length out.old }
    ensures { Ends out.new result }
{
    let rest = take_input(streams, buf, out)?;
    Ok(finish(streams, rest.ended, rest.lines, &buf[..rest.len], out))
}

// The whole run over two lent buffers: whether every line was read and written. Nothing is read where the first has less than the 65,537 bytes that tell a line that
// is too long, or the second less than the 515 bytes that a field and the message at the end can have.
pub fn run(streams: Streams, buf: &mut [u8], out: &mut [u8]) -> bool {
    if buf.len() < 65537 {
        return false;
    }
    if out.len() < 515 {
        return false;
    }
    let Ok(end) = run_to_end(streams, buf, out) else {
        return false;
    };
    let wrote = feed::flush(streams, out, end.len, b"fields: standard output");
    wrote.is_ok() && end.good
}
