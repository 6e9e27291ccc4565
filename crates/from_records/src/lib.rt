// A run of day records, read from standard input part by part. What is kept of a run of any length is a ring of days, their sums, and less than a record of bytes.
// No contract can say what is read; there are parts, those that were read, and what is given is what document 02 says of the parts joined.
#![tactic(auto)]

ghost use Rattle.std.specs.Prelude.{◌≤◌, length, take};
ghost use Rattle.sets.specs.Set.{members};
ghost use Rattle.positions.specs.Keeping.{keeping};
ghost use Rattle.from_records.specs.Turns.{TakesTurn, TakesInput, Finishes, Gives};

use feed::{Failed, Streams};

// After a turn: the row that the next day takes, how many bytes are kept at the buffer's front, how many days came, and why the next one is declined, or 0. The
// answer is the number that `positions::Part` has, and is only handed on.
#[derive(Clone, Copy)]
struct Turn {
    row: usize,
    len: usize,
    days: u64,
    answer: u8,
}

// Where the reading stops: at the input's end, with the sums, how many bytes of a record are left and how many days came; or at a record that is declined, with
// the days before it and why.
#[derive(Clone, Copy)]
enum Stop {
    Ended {
        sums: [u64; 32],
        len: usize,
        days: u64,
    },
    Refused {
        days: u64,
        answer: u8,
    },
}

// ---- the loop

// How many days so many bytes are.
fn days_in(set: u32, used: usize) -> u64 {
    let n = positions::count_of(set);
    if n == 0 {
        return 0;
    }
    (used / (4 * n)) as u64
}

// The bytes in front of a place taken: their whole records, and what is left of them moved to the front.
fn take_turn(
    ring: &mut [u32; 2112],
    sums: &mut [u64; 32],
    row: usize,
    set: u32,
    buf: &mut [u8],
    end: usize,
) -> Turn
    requires { end ≤ length buf.old }
    ensures { TakesTurn (length (members set)) (keeping row ring.old sums.old) (take end buf.old) buf.old buf.new (keeping result.row ring.new sums.new) result }
{
    let part = positions::take_days(ring, sums, row, set, &buf[..end]);
    Turn {
        row: part.row,
        len: feed::slide(buf, part.used, end),
        days: days_in(set, part.used),
        answer: part.answer,
    }
}

// Reads and takes until the input ends, a read fails, or a position is out of range.
fn take_input(streams: Streams, set: u32, buf: &mut [u8]) -> Result<Stop, Failed>
    requires { 1 ≤ length (members set) }
    ensures { TakesInput (length (members set)) buf.new result }
{
    let mut ring = [0u32; 2112];
    let mut sums = [0u64; 32];
    let mut row: usize = 0;
    let mut len: usize = 0;
    let mut days: u64 = 0;
    for _ in 0..u64::MAX {
        let more = feed::read(streams, buf, len, b"expected: standard input")?;
        if more == 0 {
            return Ok(Stop::Ended { sums, len, days });
        }
        let turn = take_turn(&mut ring, &mut sums, row, set, buf, len + more);
        row = turn.row;
        len = turn.len;
        days = days.wrapping_add(turn.days);
        if turn.answer != 0 {
            return Ok(Stop::Refused {
                days,
                answer: turn.answer,
            });
        }
    }
    Err(Failed)
}

// ---- messages

// "day D: " and a reason as a line on standard error, where the day is the one behind those that came.
fn tell(streams: Streams, days: u64, reason: &[u8]) {
    let mut note = [0u8; 128];
    let a = words::put(&mut note, 0, b"day ");
    let b = words::number(&mut note, a, days.wrapping_add(1));
    let c = words::put(&mut note, b, b": ");
    let d = words::put(&mut note, c, reason);
    if d <= 128 {
        feed::tell(streams, &note[..d]);
    }
}

fn tell_range(streams: Streams, days: u64) {
    tell(
        streams,
        days,
        b"declined by 5, a position is above 10000000\n",
    );
}

// Where the end of the run is declined, its record is cut short.
fn tell_cut(streams: Streams, days: u64) {
    tell(streams, days, b"declined by 1, the record is cut short\n");
}

// ---- the run

// The answer to the run: that of the record that has declined it; or the shares are given, where no byte of a record is left.
fn finish(streams: Streams, set: u32, units: u64, stop: Stop, shares: &mut [u64; 32]) -> u8
    ensures { Finishes set units stop shares.old shares.new result }
{
    match stop {
        Stop::Refused { days, answer } => {
            tell_range(streams, days);
            answer
        }
        Stop::Ended { sums, len, days } => {
            let outcome = positions::end(&sums, set, units, len, shares);
            if outcome.is_err() {
                tell_cut(streams, days);
            }
            lists::refusal::answer(outcome)
        }
    }
}

// Reads day records from standard input to its end, or to the first that is declined, and answers as document 02 says of the whole run; where the answer is 0 each
// member is given its share of the units. A record that is declined and a read that fails are told on standard error, and where a read failed there is no answer.
// Nothing is read where the set or the units are declined, or where the buffer has less than the 128 bytes of the longest record, and there is no answer then.
pub fn run(
    streams: Streams,
    set: u32,
    units: u64,
    buf: &mut [u8],
    shares: &mut [u64; 32],
) -> Option<u8>
    ensures { Gives set units shares.old shares.new result }
{
    if let Err(refusal) = positions::why_before(positions::count_of(set), units) {
        return Some(refusal.number());
    }
    if buf.len() < 128 {
        return None;
    }
    match take_input(streams, set, buf) {
        Ok(stop) => Some(finish(streams, set, units, stop, shares)),
        Err(Failed) => None,
    }
}
