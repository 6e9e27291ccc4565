// Fields as lines of text: a call as its line in the notation, and what is no call as a comment. `take_some` has the whole contract of what is written; the loop reads
// as much as there is, has every whole field of it written, and keeps what is left for the next read.
#![tactic(auto)]

ghost use Rattle.std.specs.Prelude.{◌≡◌, false, ◌++◌, ◌+◌, ◌*◌, ◌≤◌, ◌<◌, IfOk, length, take};
ghost use Rattle.input.specs.Fields.{front_size, rest};
ghost use Rattle.forms.specs.Put.{Put};
ghost use Rattle.feed.specs.Feeds.{Keeps};
ghost use Rattle.translation.specs.Writes.{WritesAll};
ghost use Rattle.to_text.specs.Texts.{hex_digit, hex_text, break_text, hex_from, comment, field_text};
ghost use Rattle.to_text.specs.Turns.{size_within, WritesFields, FedTo, cut_text, Ends};

use feed::{Failed, Streams};

// How many fields were written, the bytes that they took, and the bytes of their text.
#[derive(Clone, Copy)]
pub struct Part {
    pub count: usize,
    pub used: usize,
    pub written: usize,
}

// The bytes of the text that a field can have beside five for each of its own.
const LINE: usize = 8192;

// ---- what is no call, as a comment

// A digit in hexadecimal.
fn digit(d: u8) -> u8
    requires { d < 16 }
    ensures { result ≡ hex_digit d }
{
    if d < 10 { 48 + d } else { 87 + d }
}

// A byte in hexadecimal behind a space.
fn put_hex(b: u8, out: &mut [u8], at: usize) -> usize
    requires { at + 3 ≤ length out.old }
    ensures { Put out.old at (hex_text b) 3 result out.new }
{
    let text = [b' ', digit(b / 16), digit(b % 16)];
    words::put(out, at, &text)
}

// A further line of a comment, before every 32nd byte but the first.
fn put_break(i: usize, out: &mut [u8], at: usize) -> usize
    requires { at + 2 ≤ length out.old }
    ensures { Put out.old at (break_text i) 2 result out.new }
{
    if i == 0 {
        return at;
    }
    if i % 32 != 0 {
        return at;
    }
    words::put(out, at, b"\n#")
}

// Byte i of a comment.
fn put_byte(i: usize, b: u8, out: &mut [u8], at: usize) -> usize
    requires { at + 5 ≤ length out.old }
    ensures { Put out.old at (break_text i ++ hex_text b) 5 result out.new }
{
    let to = put_break(i, out, at);
    put_hex(b, out, to)
}

// Bytes in hexadecimal, 32 of them to a line.
fn put_bytes(bytes: &[u8], out: &mut [u8], at: usize) -> usize
    requires { at + 5 * length bytes.now ≤ length out.old }
    ensures { Put out.old at (hex_from 0 bytes.now) (5 * length bytes.now) result out.new }
{
    let mut to = at;
    for (i, b) in bytes.iter().enumerate() {
        to = put_byte(i, *b, out, to);
    }
    to
}

// Bytes that are no call.
fn put_comment(bytes: &[u8], out: &mut [u8], at: usize) -> usize
    requires { at + (5 * length bytes.now + 14) ≤ length out.old }
    ensures { Put out.old at (comment bytes.now) (5 * length bytes.now + 14) result out.new }
{
    let a = words::put(out, at, b"# not a call:");
    let b = put_bytes(bytes, out, a);
    words::put(out, b, b"\n")
}

// ---- fields

// The text of a field, whole or cut off, from a place on, and the place behind it.
fn put_field(field: &[u8], out: &mut [u8], at: usize) -> usize
    requires { at + (5 * length field.now + 8192) ≤ length out.old }
    ensures { Put out.old at (field_text field.now) (5 * length field.now + 8192) result out.new }
{
    let call = wire::read_call(field);
    let to = spelling::write_text(call, out, at);
    if to == at {
        return put_comment(field, out, at);
    }
    to
}

// The bytes of the field at the front, and 0 where it is not all there or its text has no room; no field has 0 bytes, and `size_within` says it so.
fn next_size(input: &[u8], room: usize) -> usize
    ensures { result ≡ size_within room input.now }
{
    if room < LINE {
        return 0;
    }
    let size = input::front_size(false, input);
    if size <= (room - LINE) / 5 { size } else { 0 }
}

// The whole fields at the front of some bytes, as many as there is room for, as text at the front of the buffer.
pub fn take_some(input: &[u8], out: &mut [u8]) -> Part
    ensures { WritesFields input.now out.old out.new result }
{
    let mut count: usize = 0;
    let mut used: usize = 0;
    let mut to: usize = 0;
    let mut size = next_size(input, out.len());
    while size != 0 {
        let end = used + size;
        to = put_field(&input[used..end], out, to);
        used = end;
        count += 1;
        size = next_size(&input[used..], out.len() - to);
    }
    Part {
        count,
        used,
        written: to,
    }
}

// ---- the loop

// Every whole field at the front of some bytes written to standard output, a part at a time, unless a write fails; and the bytes that they took.
fn write_all(streams: Streams, input: &[u8], out: &mut [u8]) -> Result<usize, Failed>
    requires { 335882 ≤ length out.old }
    ensures { IfOk result (λ used. WritesAll (front_size false) input.now used false) }
{
    let mut used: usize = 0;
    loop {
        let part = take_some(&input[used..], out);
        if part.count == 0 {
            return Ok(used);
        }
        used += part.used;
        feed::flush(streams, out, part.written, b"fields: standard output")?;
    }
}

// The bytes in front of a place taken: their whole fields written, and what is left of them moved to the front; and how many bytes are left.
fn take_turn(streams: Streams, buf: &mut [u8], end: usize, out: &mut [u8]) -> Result<usize, Failed>
    requires { (end ≤ length buf.old) × (335882 ≤ length out.old) }
    ensures { IfOk result (λ len. Keeps rest (take end buf.old) buf.old buf.new len) }
{
    let used = write_all(streams, &buf[..end], out)?;
    Ok(feed::slide(buf, used, end))
}

// Reads and takes until the input ends, or a read or a write fails. What a read brought is written before the next. How many bytes of a field that is cut off are
// kept at the buffer's front.
fn take_input(streams: Streams, buf: &mut [u8], out: &mut [u8]) -> Result<usize, Failed>
    requires { 335882 ≤ length out.old }
    ensures { IfOk result (λ len. FedTo buf.new len) }
{
    let mut len: usize = 0;
    for _ in 0..u64::MAX {
        let more = feed::read(streams, buf, len, b"fields: standard input")?;
        if more == 0 {
            return Ok(len);
        }
        len = take_turn(streams, buf, len + more, out)?;
    }
    Err(Failed)
}

// The text of a field that is cut off by the input's end; none where no bytes are left.
fn last_text(rest: &[u8], out: &mut [u8]) -> usize
    requires { 5 * length rest.now + 8192 ≤ length out.old }
    ensures { Put out.old 0 (cut_text rest.now) (length out.old) result out.new }
{
    if rest.len() == 0 {
        return 0;
    }
    put_field(rest, out, 0)
}

// The run up to its last write, and how many bytes of text at the buffer's front are then still to be written.
fn run_to_end(streams: Streams, buf: &mut [u8], out: &mut [u8]) -> Result<usize, Failed>
    requires { 335882 ≤ length out.old }
    ensures { Ends out.new result }
{
    let len = take_input(streams, buf, out)?;
    Ok(last_text(&buf[..len], out))
}

// The whole run over two lent buffers: whether the input ended and all was written. Nothing is read where the first has less than the 65,538 bytes of the longest
// field, or the second less than the 335,882 bytes that its text can have.
pub fn run(streams: Streams, buf: &mut [u8], out: &mut [u8]) -> bool {
    if buf.len() < 65538 {
        return false;
    }
    if out.len() < 335882 {
        return false;
    }
    match run_to_end(streams, buf, out) {
        Ok(len) => feed::flush(streams, out, len, b"fields: standard output").is_ok(),
        Err(Failed) => false,
    }
}
