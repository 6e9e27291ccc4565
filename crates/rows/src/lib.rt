// A line of whole numbers between commas, read in one pass: the positions of members on a day, a set of members, a number of units; and the lines of a text
// as records.
#![tactic(auto)]

ghost use Rattle.std.specs.Prelude.{◌≡◌, ◌≢◌, MatchOption, ◌+◌, ◌-◌, ◌*◌, ◌≤◌, length, set};
ghost use Rattle.forms.specs.Put.{Put};
ghost use Rattle.text_lines.specs.Lines.{size_within};
ghost use Rattle.rows.specs.Scans.{begin, with_phase, in_number, stored, refused};
ghost use Rattle.rows.specs.Reading.{strange, settle, grow, has_room, first_digit, on_digit, on_comma, ended, on_mark, byte_read, behind, step, scan, finish, outcome, row_of};
ghost use Rattle.rows.specs.Days.{too_long, day_of, four_each, day_size, NextDay, WritesDays};

use text_lines::LONGEST;

// Why a line is refused.
#[derive(Clone, Copy, Debug, PartialEq, Eq)]
pub enum Reason {
    // "a byte that is no digit where a number is to come"
    ExpectedNumber,
    // "a byte that is no comma behind a number"
    ExpectedComma,
    // "the number is too large"
    TooLarge,
    // a number more than there may be
    TooMany,
    // "the line ends where a number is to come, behind a comma, or with fewer than least numbers"
    EndsEarly,
    // "a carriage return that is not at the line's end"
    CarriageReturn,
    // "the line is longer than 65536 bytes"
    LineTooLong,
}

// Where in a line its reading is.
#[derive(Clone, Copy, Debug, PartialEq, Eq)]
enum Phase {
    // before the first byte that is no blank
    Start,
    BehindComma,
    InNumber,
    BehindNumber,
    Comment,
    // behind a carriage return, or at the end
    Ended,
    Refused(Reason),
}

// What is known of a line while it is read.
#[derive(Clone, Copy)]
struct Scan {
    phase: Phase,
    start: usize,
    value: u32,
    count: usize,
    numbers: [u32; 32],
}

// The numbers of a line; none where it is empty or a comment.
#[derive(Clone, Copy)]
pub struct Row {
    pub count: usize,
    pub numbers: [u32; 32],
}

// Where a line is refused, by a place counted from 0, and why.
#[derive(Clone, Copy, Debug, PartialEq, Eq)]
pub struct Refusal {
    pub at: usize,
    pub reason: Reason,
}

// A line's bytes, and the numbers in it.
#[derive(Clone, Copy)]
struct Day {
    size: usize,
    row: Row,
}

// How many lines were written, the bytes that they took, and the bytes of their records.
#[derive(Clone, Copy)]
pub struct Part {
    pub count: usize,
    pub used: usize,
    pub written: usize,
}

// A position is at most this.
const POSITION: u32 = 10_000_000;

// The bytes that a record has at most.
const RECORD: usize = 128;

// ---- a line

fn begun() -> Scan
    ensures { result ≡ begin }
{
    Scan {
        phase: Phase::Start,
        start: 0,
        value: 0,
        count: 0,
        numbers: [0u32; 32],
    }
}

fn to_phase(s: &mut Scan, phase: Phase, at: usize)
    ensures { s.new ≡ with_phase s.old phase at }
{
    s.phase = phase;
    s.start = at;
}

fn in_number(s: &mut Scan, at: usize, value: u32)
    ensures { s.new ≡ in_number s.old at value }
{
    s.phase = Phase::InNumber;
    s.start = at;
    s.value = value;
}

// The numbers with one at a place, where there is such a place.
fn with_number(numbers: [u32; 32], i: usize, n: u32) -> [u32; 32]
    ensures { result ≡ set numbers i n }
{
    if 32 <= i {
        return numbers;
    }
    let mut out = numbers;
    out[i] = n;
    out
}

fn store(s: &mut Scan)
    ensures { s.new ≡ stored s.old }
{
    s.phase = Phase::BehindNumber;
    s.numbers = with_number(s.numbers, s.count, s.value);
    s.count = s.count.saturating_add(1).min(32);
}

fn refuse(s: &mut Scan, at: usize, reason: Reason)
    ensures { s.new ≡ refused s.old at reason }
{
    s.phase = Phase::Refused(reason);
    s.start = at;
}

// A byte that is not expected at its place.
#[tactic(auto, unfolding(crate::specs::Reading::strange))]
fn not_expected(s: &mut Scan, at: usize)
    ensures { s.new ≡ strange s.old at }
{
    match s.phase {
        Phase::Start | Phase::BehindComma => refuse(s, at, Reason::ExpectedNumber),
        _ => refuse(s, at, Reason::ExpectedComma),
    }
}

// A number ends, if there is one.
#[tactic(auto, unfolding(crate::specs::Reading::settle))]
fn end_number(s: &mut Scan)
    ensures { s.new ≡ settle s.old }
{
    if s.phase == Phase::InNumber {
        store(s);
    }
}

// A number that began at a place, as far as it is read.
#[tactic(auto, unfolding(crate::specs::Reading::grow))]
fn grow(limit: u32, s: &mut Scan, at: usize, v: u64)
    ensures { s.new ≡ grow limit s.old at v }
{
    if v <= u64::from(limit) {
        in_number(s, at, v as u32);
    } else {
        refuse(s, at, Reason::TooLarge);
    }
}

// Whether there may be one number more.
#[tactic(auto, unfolding(crate::specs::Reading::has_room))]
fn has_room(most: usize, s: &Scan) -> bool
    ensures { result ≡ has_room most s.now }
{
    s.count < most.min(32)
}

// The first digit of a number at a place.
#[tactic(auto, unfolding(crate::specs::Reading::first_digit))]
fn on_first(most: usize, limit: u32, s: &mut Scan, d: u64, at: usize)
    ensures { s.new ≡ first_digit most limit s.old d at }
{
    if has_room(most, s) {
        grow(limit, s, at, d);
    } else {
        let start = s.start;
        refuse(s, start, Reason::TooMany);
    }
}

// The value of a number with a digit more.
fn longer(value: u32, d: u64) -> u64
    requires { d ≤ 9 }
    ensures { result ≡ value * 10 + d }
{
    u64::from(value) * 10 + d
}

// A digit at a place.
#[tactic(auto, unfolding(crate::specs::Reading::on_digit))]
fn on_digit(most: usize, limit: u32, s: &mut Scan, d: u64, at: usize)
    requires { d ≤ 9 }
    ensures { s.new ≡ on_digit most limit s.old d at }
{
    match s.phase {
        Phase::Start | Phase::BehindComma => on_first(most, limit, s, d, at),
        Phase::InNumber => {
            let start = s.start;
            let value = longer(s.value, d);
            grow(limit, s, start, value);
        }
        _ => not_expected(s, at),
    }
}

// A comma at a place, behind a number that has ended.
#[tactic(auto, unfolding(crate::specs::Reading::on_comma))]
fn on_comma(most: usize, s: &mut Scan, at: usize)
    ensures { s.new ≡ on_comma most s.old at }
{
    if s.phase != Phase::BehindNumber {
        not_expected(s, at);
    } else if has_room(most, s) {
        to_phase(s, Phase::BehindComma, at);
    } else {
        refuse(s, at, Reason::TooMany);
    }
}

// The line's end, or a carriage return, behind a number that has ended.
#[tactic(auto, unfolding(crate::specs::Reading::ended))]
fn end_at(least: usize, s: &mut Scan, at: usize)
    ensures { s.new ≡ ended least s.old at }
{
    match s.phase {
        Phase::Start => to_phase(s, Phase::Ended, at),
        Phase::BehindNumber if least <= s.count => to_phase(s, Phase::Ended, at),
        _ => refuse(s, at, Reason::EndsEarly),
    }
}

// A byte that is neither a blank nor of a number nor behind one.
#[tactic(auto, unfolding(crate::specs::Reading::on_mark))]
fn on_mark(s: &mut Scan, b: u8, at: usize)
    ensures { s.new ≡ on_mark s.old b at }
{
    match s.phase {
        Phase::Start if b == b'#' => to_phase(s, Phase::Comment, at),
        _ => not_expected(s, at),
    }
}

// The number of a digit.
fn digit_of(b: u8) -> u64
    requires { (48 ≤ b) × (b ≤ 57) }
    ensures { (result ≡ b - 48) × (result ≤ 9) }
{
    u64::from(b - b'0')
}

// A byte at a place.
#[tactic(auto, unfolding(crate::specs::Reading::byte_read))]
fn on_byte(least: usize, most: usize, limit: u32, s: &mut Scan, b: u8, at: usize)
    ensures { s.new ≡ byte_read least most limit s.old b at }
{
    if b'0' <= b && b <= b'9' {
        on_digit(most, limit, s, digit_of(b), at);
    } else if b == b' ' || b == b'\t' {
        end_number(s);
    } else if b == b',' {
        end_number(s);
        on_comma(most, s, at);
    } else if b == b'\r' {
        end_number(s);
        end_at(least, s, at);
    } else {
        on_mark(s, b, at);
    }
}

// A byte in a comment or behind a carriage return; where the line is refused, nothing changes.
#[tactic(auto, unfolding(crate::specs::Reading::behind))]
fn on_rest(s: &mut Scan, b: u8, at: usize)
    ensures { s.new ≡ behind s.old b at }
{
    match s.phase {
        Phase::Ended => {
            let start = s.start;
            refuse(s, start, Reason::CarriageReturn);
        }
        Phase::Comment if b == b'\r' => to_phase(s, Phase::Ended, at),
        _ => {}
    }
}

// A byte at a place, whatever stands before it.
#[tactic(auto, unfolding(crate::specs::Reading::step))]
fn take_byte(least: usize, most: usize, limit: u32, s: &mut Scan, b: u8, at: usize)
    ensures { s.new ≡ step least most limit s.old b at }
{
    match s.phase {
        Phase::Comment | Phase::Ended | Phase::Refused(_) => on_rest(s, b, at),
        _ => on_byte(least, most, limit, s, b, at),
    }
}

// The bytes of a line, from the left.
fn scanned(line: &[u8], least: usize, most: usize, limit: u32) -> Scan
    ensures { result ≡ scan least most limit begin 0 line.now }
{
    let mut s = begun();
    for (i, b) in line.iter().enumerate() {
        take_byte(least, most, limit, &mut s, *b, i);
    }
    s
}

// The line's end, whatever stands before it.
#[tactic(auto, unfolding(crate::specs::Reading::finish))]
fn finish(least: usize, s: &mut Scan, at: usize)
    ensures { s.new ≡ finish least s.old at }
{
    match s.phase {
        Phase::Comment | Phase::Ended | Phase::Refused(_) => {}
        _ => {
            end_number(s);
            end_at(least, s, at);
        }
    }
}

// What a line is, once it is read.
#[tactic(auto, unfolding(crate::specs::Reading::outcome))]
fn outcome_of(s: Scan) -> Result<Row, Refusal>
    ensures { result ≡ outcome s }
{
    if let Phase::Refused(reason) = s.phase {
        return Err(Refusal {
            at: s.start,
            reason,
        });
    }
    // An array goes from one struct into another through a variable: without it no proof is generated.
    let numbers = s.numbers;
    Ok(Row {
        count: s.count,
        numbers,
    })
}

// A line of text, without its end, as the numbers in it.
#[tactic(auto, unfolding(crate::specs::Reading::row_of))]
pub fn read_row(line: &[u8], least: usize, most: usize, limit: u32) -> Result<Row, Refusal>
    ensures { result ≡ row_of least most limit line.now }
{
    let mut s = scanned(line, least, most, limit);
    finish(least, &mut s, line.len());
    outcome_of(s)
}

// ---- the lines of a text

fn too_long() -> Refusal
    ensures { result ≡ too_long }
{
    Refusal {
        at: LONGEST,
        reason: Reason::LineTooLong,
    }
}

// A line of so many positions, with or without its end; one that is too long is refused.
pub fn read_day(n: usize, line: &[u8]) -> Result<Row, Refusal>
    ensures { result ≡ day_of n line.now }
{
    let k = text_lines::length_to(line);
    if LONGEST < k {
        return Err(too_long());
    }
    read_row(&line[..k], n, n, POSITION)
}

// The line at the front, where it is all there and not refused, and its record has room.
fn next_day(last: bool, input: &[u8], n: usize, room: usize) -> Option<Day>
    ensures { MatchOption result (size_within 128 room (day_size n last) input.now ≡ 0) (λ day. NextDay n room last input.now day × (day.size ≢ 0)) }
{
    if room < RECORD {
        return None;
    }
    let size = text_lines::line_size(last, input);
    if size == 0 {
        return None;
    }
    match read_day(n, &input[..size]) {
        Ok(row) => Some(Day { size, row }),
        Err(_) => None,
    }
}

// Numbers, four bytes each, from a place on.
fn put_numbers(out: &mut [u8], at: usize, numbers: &[u32]) -> usize
    requires { (length numbers.now ≤ 32) × (at + 128 ≤ length out.old) }
    ensures { Put out.old at (four_each numbers.now) 128 result out.new }
{
    let mut to = at;
    for n in numbers {
        to = forms::write_four(out, to, *n);
    }
    to
}

// The lines at the front of some bytes, up to the first that is refused or not all there and as many as there is room for, as records at the front of the buffer.
pub fn take_lines(last: bool, input: &[u8], n: usize, out: &mut [u8]) -> Part
    ensures { WritesDays n last input.now out.old out.new result }
{
    let mut count: usize = 0;
    let mut used: usize = 0;
    let mut to: usize = 0;
    while let Some(day) = next_day(last, &input[used..], n, out.len() - to) {
        to = put_numbers(out, to, &day.row.numbers[..day.row.count]);
        used += day.size;
        count += 1;
    }
    Part {
        count,
        used,
        written: to,
    }
}
