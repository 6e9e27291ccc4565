// Lines of positions, one line a day, read part by part: the sums over the last 66 days are kept as the lines go by, and at the input's end the units are split by
// them. At the first line that is refused, and where the input cannot be read, the reading stops and no shares are given.
#![tactic(auto)]

mod messages;

ghost use Rattle.std.specs.Prelude.{◌≡◌, ◌≤◌, false, length, take};
ghost use Rattle.text_lines.specs.Lines.{line_size};
ghost use Rattle.rows.specs.Days.{WritesDays};
ghost use Rattle.positions.specs.Days.{why_before};
ghost use Rattle.positions.specs.Keeping.{no_days};
ghost use Rattle.from_lines.specs.Turns.{count, kept_in, TakesDays, TakesAll, TakesTurn, TakesInput, Finishes, Gives};

use feed::{Failed, Streams};
use rows::Part;

// What is kept of the days: the row of the ring that the next day takes, the last 66 days, and their sums.
#[derive(Drop)]
struct Days {
    row: usize,
    ring: [u32; 2112],
    sums: [u64; 32],
}

// The bytes of the lines that were taken, the number of lines up to then, and whether the next line is refused.
#[derive(Clone, Copy)]
struct Took {
    used: usize,
    lines: u64,
    refused: bool,
}

// How many bytes are kept at the buffer's front after a turn or after all turns, the number of lines, and whether the next line is refused.
#[derive(Clone, Copy)]
struct Rest {
    len: usize,
    lines: u64,
    refused: bool,
}

// ---- lines

// The lines at the front of some bytes, as many as there is room for, as records at the front of the buffer.
fn take_some(last: bool, set: u32, input: &[u8], out: &mut [u8]) -> Part
    ensures { WritesDays (count set) last input.now out.old out.new result }
{
    let n = positions::count_of(set);
    rows::take_lines(last, input, n, out)
}

// ---- the loop

// Records taken, behind the days before them.
fn take_days(days: &mut Days, set: u32, bytes: &[u8])
    ensures { TakesDays (count set) (kept_in days.old) bytes.now (kept_in days.new) }
{
    let part = positions::take_days(&mut days.ring, &mut days.sums, days.row, set, bytes);
    days.row = part.row;
}

// Every line at the front of some bytes taken, a part at a time, up to the first that is refused or not all there.
fn take_all(set: u32, first: u64, input: &[u8], out: &mut [u8], days: &mut Days) -> Took
    requires { 128 ≤ length out.old }
    ensures { TakesAll (count set) first input.now (kept_in days.old) (kept_in days.new) result }
{
    let mut lines = first;
    let mut used: usize = 0;
    loop {
        let part = take_some(false, set, &input[used..], out);
        let count = part.count;
        if count == 0 {
            let next = text_lines::line_size(false, &input[used..]);
            return Took {
                used,
                lines,
                refused: next != 0,
            };
        }
        used += part.used;
        lines = lines.wrapping_add(count as u64);
        take_days(days, set, &out[..part.written]);
    }
}

// The bytes in front of a place taken: their lines, and what is left of them moved to the front.
fn take_turn(
    set: u32,
    lines: u64,
    buf: &mut [u8],
    end: usize,
    out: &mut [u8],
    days: &mut Days,
) -> Rest
    requires { (end ≤ length buf.old) × (128 ≤ length out.old) }
    ensures { TakesTurn (count set) lines (take end buf.old) (kept_in days.old) buf.old buf.new (kept_in days.new) result }
{
    let took = take_all(set, lines, &buf[..end], out, days);
    Rest {
        len: feed::slide(buf, took.used, end),
        lines: took.lines,
        refused: took.refused,
    }
}

// Reads and takes until the input ends, a line is refused, or a read fails. What a read brought is taken before the next.
fn take_input(
    streams: Streams,
    set: u32,
    buf: &mut [u8],
    out: &mut [u8],
    days: &mut Days,
) -> Result<Rest, Failed>
    requires { (1 ≤ count set) × (128 ≤ length out.old) × (kept_in days.old ≡ no_days) }
    ensures { TakesInput (count set) buf.new (kept_in days.new) result }
{
    let mut lines: u64 = 0;
    let mut len: usize = 0;
    for _ in 0..u64::MAX {
        let more = feed::read(streams, buf, len, b"expected: standard input")?;
        if more == 0 {
            return Ok(Rest {
                len,
                lines,
                refused: false,
            });
        }
        let turn = take_turn(set, lines, buf, len + more, out, days);
        len = turn.len;
        lines = turn.lines;
        if turn.refused {
            return Ok(turn);
        }
    }
    Err(Failed)
}

// ---- the end

// Tells why the first line of some bytes is refused, where it is all there and refused.
fn tell_refused(streams: Streams, last: bool, set: u32, lines: u64, text: &[u8]) {
    let size = text_lines::line_size(last, text);
    let n = positions::count_of(set);
    if let Err(refusal) = rows::read_day(n, &text[..size]) {
        messages::tell_line(streams, lines.wrapping_add(1), refusal, n);
    }
}

// The last line taken, where there is one, and the shares given: whether that was done.
fn finish(
    streams: Streams,
    set: u32,
    units: u64,
    lines: u64,
    rest: &[u8],
    out: &mut [u8],
    days: &mut Days,
    shares: &mut [u64; 32],
) -> bool
    requires { (why_before (count set) units ≡ 0) × (128 ≤ length out.old) × (line_size false rest.now ≡ 0) }
    ensures { Finishes set units rest.now (kept_in days.old) shares.old shares.new result }
{
    let part = take_some(true, set, rest, out);
    if part.used != rest.len() {
        tell_refused(streams, true, set, lines, rest);
        return false;
    }
    take_days(days, set, &out[..part.written]);
    positions::end(&days.sums, set, units, 0, shares).is_ok()
}

// The run for a set with members and units within their limits.
fn run_to_end(
    streams: Streams,
    set: u32,
    units: u64,
    buf: &mut [u8],
    out: &mut [u8],
    shares: &mut [u64; 32],
) -> Option<bool>
    requires { (why_before (count set) units ≡ 0) × (1 ≤ count set) × (128 ≤ length out.old) }
    ensures { Gives set units shares.old shares.new result }
{
    let mut days = Days {
        row: 0,
        ring: [0; 2112],
        sums: [0; 32],
    };
    let Ok(rest) = take_input(streams, set, buf, out, &mut days) else {
        return None;
    };
    let left = &buf[..rest.len];
    if rest.refused {
        tell_refused(streams, false, set, rest.lines, left);
        return Some(false);
    }
    Some(finish(
        streams, set, units, rest.lines, left, out, &mut days, shares,
    ))
}

// Reads lines of positions from standard input to its end and gives each member its share of the units: whether that was done, where it is known what the text
// gives, since it was read to its end, a line is refused, or the set or the units are declined. It is not known where a read failed or a buffer is too small.
// Where a line is refused, that is told on standard error and the shares are untouched; so they are where a read failed, which is told too. Nothing is read where
// the set or the units are declined, where the first buffer has less than the 65,537 bytes that tell a line that is too long, or the second less than the 128 bytes
// that a record can have; none of these is told.
pub fn run(
    streams: Streams,
    set: u32,
    units: u64,
    buf: &mut [u8],
    out: &mut [u8],
    shares: &mut [u64; 32],
) -> Option<bool>
    ensures { Gives set units shares.old shares.new result }
{
    let n = positions::count_of(set);
    if positions::why_before(n, units).is_err() {
        return Some(false);
    }
    if buf.len() < 65537 {
        return None;
    }
    if out.len() < 128 {
        return None;
    }
    run_to_end(streams, set, units, buf, out, shares)
}
