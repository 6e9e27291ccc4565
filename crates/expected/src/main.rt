// The program `expected` (document 02, C-11): the expected units of members from their daily positions. `expected members 0,1,2 units 40` reads day records from
// standard input, and with `--text` lines of positions; it prints a line for each member, with the units that its MEMBER call expects in the pool, and a total.
#![tactic(auto)]

ghost use Rattle.std.specs.Prelude.{◌≡◌, ◌+◌, ◌%◌, ◌^◌, ◌≤◌, length};
ghost use Rattle.lists.specs.Lists.{sum, Each};
ghost use Rattle.machine.specs.Printed.{decimal};
ghost use Rattle.forms.specs.Put.{Put};
ghost use Rattle.expected.specs.Words.{set_of, members_in, units_in};
ghost use Rattle.expected.specs.Shares.{member_text, place_text, members_text, shares_text};

use feed::Streams;

// What the program is asked for: the members, the units of the pool, and whether the days are text.
#[derive(Clone, Copy)]
struct Asked {
    set: u32,
    units: u32,
    text: bool,
}

// ---- the words

// The set of some numbers.
fn set_of(numbers: &[u32]) -> u32
    requires { Each (λ n. n ≤ 31) numbers.now }
    ensures { result ≡ set_of numbers.now }
{
    let mut set = 0;
    for n in numbers {
        set = sets::with(set, *n as u8);
    }
    set
}

// The set of the members in a word, as in 0,1,2.
#[tactic(auto, unfolding(crate::specs::Words::members_in))]
fn members_in(word: &[u8]) -> Option<u32>
    ensures { result ≡ members_in word.now }
{
    match rows::read_row(word, 1, 32, 31) {
        Ok(row) if row.count != 0 => Some(set_of(&row.numbers[..row.count])),
        _ => None,
    }
}

// The number in a word.
#[tactic(auto, unfolding(crate::specs::Words::units_in))]
fn units_in(word: &[u8]) -> Option<u32>
    ensures { result ≡ units_in word.now }
{
    match rows::read_row(word, 1, 1, u32::MAX) {
        Ok(row) if row.count != 0 => Some(row.numbers[0]),
        _ => None,
    }
}

// Whether the argument with a number is a word.
fn is_word(rt: HostRuntime, i: usize, word: &[u8]) -> bool {
    let mut arg = [0u8; 16];
    let n = feed::read_word(rt, i, &mut arg);
    &arg[..n] == word
}

// The members that the argument with a number names.
fn members_at(rt: HostRuntime, i: usize) -> Option<u32> {
    let mut arg = [0u8; 256];
    let n = feed::read_word(rt, i, &mut arg);
    members_in(&arg[..n])
}

// The units that the argument with a number names.
fn units_at(rt: HostRuntime, i: usize) -> Option<u32> {
    let mut arg = [0u8; 256];
    let n = feed::read_word(rt, i, &mut arg);
    units_in(&arg[..n])
}

// What four arguments ask for, of which the first has a number: `members`, a list, `units`, a number.
fn asked_from(rt: HostRuntime, i: usize, text: bool) -> Option<Asked>
    requires { i ≤ 8 }
{
    if !is_word(rt, i, b"members") || !is_word(rt, i + 2, b"units") {
        return None;
    }
    let set = members_at(rt, i + 1)?;
    let units = units_at(rt, i + 3)?;
    Some(Asked { set, units, text })
}

// What the arguments ask for; the program's own name counts as one. `--text` stands before or behind the others.
fn read_words(rt: HostRuntime) -> Option<Asked> {
    match feed::word_count(rt) {
        5 => asked_from(rt, 1, false),
        6 if is_word(rt, 1, b"--text") => asked_from(rt, 2, true),
        6 if is_word(rt, 5, b"--text") => asked_from(rt, 1, true),
        _ => None,
    }
}

// ---- the shares as text. The buffer and the place are handed on, since each contract says by `Put` what stands between two places.

// A text from a place on.
fn put(out: &mut [u8], at: usize, text: &[u8]) -> usize
    requires { (length text.now ≤ 16) × (at + 16 ≤ length out.old) }
    ensures { Put out.old at text.now 16 result out.new }
{
    words::put(out, at, text)
}

// A number from a place on.
fn put_number(out: &mut [u8], at: usize, n: u64) -> usize
    requires { at + 20 ≤ length out.old }
    ensures { Put out.old at (decimal 20 n) 20 result out.new }
{
    words::number(out, at, n)
}

// The line of a member.
fn put_member(out: &mut [u8], at: usize, m: u64, units: u64) -> usize
    requires { at + 88 ≤ length out.old }
    ensures { Put out.old at (member_text m units) 88 result out.new }
{
    let a = put(out, at, b"member ");
    let b = put_number(out, a, m);
    let c = put(out, b, b" expected ");
    let d = put_number(out, c, units);
    put(out, d, b"\n")
}

// The line of a place, where it is a member's.
fn put_place(out: &mut [u8], at: usize, set: u32, m: u8, units: u64) -> usize
    requires { at + 88 ≤ length out.old }
    ensures { Put out.old at (place_text set m units) 88 result out.new }
{
    if sets::has(set, m) {
        return put_member(out, at, u64::from(m), units);
    }
    at
}

// The lines of the members, by place, as `members_text` has them.
fn put_members(out: &mut [u8], set: u32, shares: [u64; 32]) -> usize
    requires { 2816 ≤ length out.old }
    ensures { Put out.old 0 (members_text set shares) 2816 result out.new }
{
    let mut to = 0;
    for m in 0..32u8 {
        to = put_place(out, to, set, m, shares[usize::from(m)]);
    }
    to
}

// All shares added up.
fn total(shares: [u64; 32]) -> u64
    ensures { result ≡ sum shares % 2 ^ 64 }
{
    shares.iter().fold(0u64, |t, share| t.wrapping_add(*share))
}

// The text of the shares at the front of a buffer, and its length.
fn write_shares(out: &mut [u8], set: u32, shares: [u64; 32]) -> usize
    requires { 2868 ≤ length out.old }
    ensures { Put out.old 0 (shares_text set shares) 2868 result out.new }
{
    let a = put_members(out, set, shares);
    let b = put(out, a, b"total ");
    let c = put_number(out, b, total(shares));
    put(out, c, b"\n")
}

// ---- the program

// Prints the shares.
fn print(streams: Streams, set: u32, shares: [u64; 32]) {
    let mut out = [0u8; 4096];
    let n = write_shares(&mut out, set, shares);
    let _wrote = feed::flush(streams, &out, n, b"expected: standard output");
}

// The shares from day records: whether they are given.
fn take_records(streams: Streams, set: u32, units: u64, shares: &mut [u64; 32]) -> bool {
    let mut buf = [0u8; 65536];
    from_records::run(streams, set, units, &mut buf, shares) == Some(0)
}

// The shares from lines of positions: whether they are given.
fn take_lines(streams: Streams, set: u32, units: u64, shares: &mut [u64; 32]) -> bool {
    let mut buf = [0u8; 131072];
    let mut out = [0u8; 65536];
    from_lines::run(streams, set, units, &mut buf, &mut out, shares) == Some(true)
}

// The shares from the days on standard input: whether they are given.
fn take_days(streams: Streams, set: u32, units: u64, text: bool, shares: &mut [u64; 32]) -> bool {
    if text {
        return take_lines(streams, set, units, shares);
    }
    take_records(streams, set, units, shares)
}

// The answer to what is asked for.
fn answer(streams: Streams, asked: Asked) {
    let set = asked.set;
    let mut shares = [0u64; 32];
    if take_days(
        streams,
        set,
        u64::from(asked.units),
        asked.text,
        &mut shares,
    ) {
        print(streams, set, shares);
    }
}

// Why nothing can be read, before a run.
fn declined(asked: Asked) -> bool {
    positions::why_before(positions::count_of(asked.set), u64::from(asked.units)).is_err()
}

fn main(rt: HostRuntime) {
    let streams = feed::streams_of(rt);
    match read_words(rt) {
        None => feed::tell(
            streams,
            b"usage: expected members 0,1,2 units 40 [--text] < FILE\n",
        ),
        Some(asked) if declined(asked) => {
            feed::tell(streams, b"declined by 5, units are 1 to 1000\n");
        }
        Some(asked) => answer(streams, asked),
    }
}
