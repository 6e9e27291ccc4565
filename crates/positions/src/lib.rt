// Expected units from daily positions (document 02, C-11): a long run of day records is read, with sums over the last 66 days kept as it goes by; at its end a
// pool's units are split by the sums. A whole run is one call of `expected`. A run in parts keeps a ring and sums that the caller lends, which begin as zeros:
// `take_days` for each part, and `end`.
#![tactic(auto)]

ghost use Rattle.std.specs.Prelude.{◌≡◌, nat_le, MatchResult, ◌+◌, ◌-◌, ◌*◌, ◌<◌, ◌≤◌, ◌++◌, length, take, set, replicate, slice_index};
ghost use Rattle.std.proofs.lemmas.List.Edits.{sets};
ghost use Rattle.lists.specs.Refusals.{number_of, answer_of};
ghost use Rattle.lists.specs.Lists.{tab};
ghost use Rattle.std.specs.List.{range_with_len, list_all};
ghost use Rattle.sets.specs.Set.{members};
ghost use Rattle.machine.specs.Wire.{number};
ghost use Rattle.splitting.specs.Split.{split};
ghost use Rattle.splitting.specs.Limits.{Answer, refusal};
ghost use Rattle.positions.specs.Days.{size, day_at, days_of, why_before, by_member, expected_units};
ghost use Rattle.positions.specs.Keeping.{keeping, no_days, row_of, rolled, rolled_at, TakesDay, took, taken, part_of, why_end, ended};

use lists::refusal::{Refusal, decline_if};

// Where a part of a run led to: the row of the ring that the next day takes, how many bytes of the part were records that were taken, and why the next one is
// declined, or 0. The bytes that were not used go before the next part. C has these fields (include/ledger.h), so that the answer is a number.
#[repr(C)]
#[derive(Clone, Copy)]
pub struct Part {
    pub row: usize,
    pub used: usize,
    pub answer: u8,
}

// The same, with the reason as it is.
#[derive(Clone, Copy)]
struct Run {
    row: usize,
    used: usize,
    outcome: Result<(), Refusal>,
}

// The sums over a whole run, and how many of its bytes were records.
#[derive(Clone, Copy)]
struct Sums {
    sums: [u64; 32],
    used: usize,
}

const MOST_POSITION: u32 = 10_000_000;

// ---- a day

// The row that a day takes: behind the last row comes the first.
#[tactic(auto, unfolding(crate::specs::Keeping::row_of))]
fn row_of(row: usize) -> usize
    ensures { (result ≡ row_of row) × (result < 66) }
{
    if row < 66 { row } else { 0 }
}

// A sum with the position that comes and without the one that leaves.
#[tactic(auto, unfolding(crate::specs::Keeping::rolled))]
fn rolled(sum: u64, comes: u32, leaves: u32) -> u64
    ensures { result ≡ rolled sum comes leaves }
{
    sum.wrapping_add(u64::from(comes))
        .wrapping_sub(u64::from(leaves))
}

// The position in the four bytes at a place, big-endian.
fn position(s: &[u8], at: usize) -> u32
    requires { at + 4 ≤ length s.now }
    ensures { result ≡ number at 4 s.now }
{
    u32::from_be_bytes([s[at], s[at + 1], s[at + 2], s[at + 3]])
}

// Whether every position of the record that begins at a place is within its limit.
fn in_range(bytes: &[u8], at: usize, n: usize) -> bool
    requires { (n ≤ 32) × (at + 4 * n ≤ length bytes.now) }
    ensures { result ≡ list_all (λ m. nat_le (number (at + 4 * m) 4 bytes.now) 10000000) (range_with_len 0 n) }
{
    (0..n).all(|m| position(bytes, at + 4 * m) <= MOST_POSITION)
}

// The position of the member at place m comes: its sum gains it and loses the one that stands in the ring, whose place it takes.
fn roll(ring: &mut [u32; 2112], sums: &mut [u64; 32], k: usize, m: usize, comes: u32)
    requires { (k < 2112) × (m < 32) }
    ensures ring_after { ring.new ≡ set ring.old k comes }
    ensures sums_after { sums.new ≡ set sums.old m (rolled (slice_index sums.old m) comes (slice_index ring.old k)) }
{
    sums[m] = rolled(sums[m], comes, ring[k]);
    ring[k] = comes;
}

// The record that begins at a place comes into its row, in the place of the day that leaves.
fn take_day(
    ring: &mut [u32; 2112],
    sums: &mut [u64; 32],
    row: usize,
    bytes: &[u8],
    at: usize,
    n: usize,
)
    requires { (row < 66) × (n ≤ 32) × (at + 4 * n ≤ length bytes.now) }
    ensures ring_after { ring.new ≡ sets ring.old (32 * row) (day_at n bytes.now at) }
    ensures sums_after { sums.new ≡ sets sums.old 0 (tab n (rolled_at sums.old ring.old row (day_at n bytes.now at))) }
{
    for m in 0..n {
        let comes = position(bytes, at + 4 * m);
        roll(ring, sums, 32 * row + m, m, comes);
    }
}

// One day more, and the row that the next one takes.
fn next_day(
    ring: &mut [u32; 2112],
    sums: &mut [u64; 32],
    row: usize,
    bytes: &[u8],
    at: usize,
    n: usize,
) -> usize
    requires { (n ≤ 32) × (at + 4 * n ≤ length bytes.now) }
    ensures { TakesDay n (day_at n bytes.now at) (keeping row ring.old sums.old) (keeping result ring.new sums.new) }
{
    let k = row_of(row);
    take_day(ring, sums, k, bytes, at, n);
    k + 1
}

// ---- a run

// The whole records of a part of a run, up to the first that has a position out of range.
fn take_records(
    ring: &mut [u32; 2112],
    sums: &mut [u64; 32],
    row: usize,
    bytes: &[u8],
    n: usize,
) -> Run
    requires { (1 ≤ n) × (n ≤ 32) }
    ensures { took result.row ring.new sums.new result.used (answer_of result.outcome) ≡ taken n (keeping row ring.old sums.old) 0 (days_of n bytes.now) }
{
    let size = 4 * n;
    let records = bytes.len() / size;
    let mut next = row;
    for d in 0..records {
        let at = size * d;
        if !in_range(bytes, at, n) {
            return Run {
                row: next,
                used: at,
                outcome: Err(Refusal::OutOfRange),
            };
        }
        next = next_day(ring, sums, next, bytes, at, n);
    }
    Run {
        row: next,
        used: size * records,
        outcome: Ok(()),
    }
}

// How many members a set has.
pub fn count_of(set: u32) -> usize
    ensures { (result ≡ length (members set)) × (result ≤ 32) }
{
    sets::count(set) as usize
}

// Why a run is declined before its first record.
#[tactic(auto, unfolding(crate::specs::Days::why_before, lists::specs::Tests::first_of))]
pub fn why_before(n: usize, units: u64) -> Result<(), Refusal>
    ensures { answer_of result ≡ why_before n units }
{
    decline_if(n == 0, Refusal::OutOfRange)?;
    decline_if(units < 1 || 1_000 < units, Refusal::OutOfRange)
}

// A part of a run of the members of a set: its whole records are taken. What is left of it, less than a record, goes before the next part.
pub fn take_days(
    ring: &mut [u32; 2112],
    sums: &mut [u64; 32],
    row: usize,
    set: u32,
    bytes: &[u8],
) -> Part
    ensures { took result.row ring.new sums.new result.used result.answer ≡ part_of (length (members set)) (keeping row ring.old sums.old) bytes.now }
{
    let n = count_of(set);
    if n == 0 {
        return Part {
            row,
            used: 0,
            answer: Refusal::OutOfRange.number(),
        };
    }
    let run = take_records(ring, sums, row, bytes, n);
    Part {
        row: run.row,
        used: run.used,
        answer: lists::refusal::answer(run.outcome),
    }
}

// ---- the end

// Units split by sums, of which there are at most 32: the shares in the same order, and 0 behind them; or why there are none.
fn split_by(sums: &[u64], units: u64) -> Result<[u64; 32], Refusal>
    requires { length sums.now ≤ 32 }
    ensures { MatchResult result (λ xs. (refusal units sums.now (length sums.now) ≡ 0) × (xs ≡ split units sums.now ++ replicate (32 - length sums.now) 0)) (λ why. number_of why ≡ refusal units sums.now (length sums.now)) }
{
    let mut shares = [0u64; 32];
    splitting::split(units, sums, &mut shares[..sums.len()])?;
    Ok(shares)
}

// The shares in member order at the end of a run of n members, of which `left` bytes of a record are left, or why there are none.
fn shares_of(sums: &[u64; 32], n: usize, units: u64, left: usize) -> Result<[u64; 32], Refusal>
    requires { n ≤ 32 }
    ensures { MatchResult result (λ xs. (why_end n units left sums.now ≡ 0) × (xs ≡ split units (take n sums.now) ++ replicate (32 - n) 0)) (λ why. number_of why ≡ why_end n units left sums.now) }
{
    why_before(n, units)?;
    decline_if(left != 0, Refusal::Unreadable)?;
    split_by(&sums[..n], units)
}

// Numbers in member order put at the places of their members, and 0 at the other places.
fn spread(xs: [u64; 32], set: u32, shares: &mut [u64; 32])
    ensures { shares.new ≡ sets shares.old 0 (by_member set xs) }
{
    let mut j: usize = 0;
    for m in 0..32u8 {
        let is = sets::has(set, m);
        shares[usize::from(m)] = lists::number_if(is, xs[j]);
        j += usize::from(is);
    }
}

// The end of a run of which `left` bytes of a record are left: gives each member its share of the units by the sums, or says why not and leaves the shares untouched.
pub fn end(
    sums: &[u64; 32],
    set: u32,
    units: u64,
    left: usize,
    shares: &mut [u64; 32],
) -> Result<(), Refusal>
    ensures { ◌≡◌ {A = Answer} (answer_of result, shares.new) (ended set units left sums.now shares.old) }
{
    let xs = shares_of(sums, count_of(set), units, left)?;
    spread(xs, set, shares);
    Ok(())
}

// The sums over a whole run, or why its first bad record is declined.
fn sum_up(bytes: &[u8], n: usize) -> Result<Sums, Refusal>
    requires { (1 ≤ n) × (n ≤ 32) }
    ensures { MatchResult result (λ run. ((taken n no_days 0 (days_of n bytes.now)).answer ≡ 0) × ((taken n no_days 0 (days_of n bytes.now)).kept.sums ≡ run.sums) × ((taken n no_days 0 (days_of n bytes.now)).used ≡ run.used)) (λ why. (taken n no_days 0 (days_of n bytes.now)).answer ≡ number_of why) }
{
    let mut ring = [0u32; 2112];
    let mut sums = [0u64; 32];
    let run = take_records(&mut ring, &mut sums, 0, bytes, n);
    run.outcome?;
    Ok(Sums {
        sums,
        used: run.used,
    })
}

// The expected units from a whole run: gives each member its share of the units, or says why not and leaves the shares untouched.
pub fn expected(set: u32, units: u64, bytes: &[u8], shares: &mut [u64; 32]) -> Result<(), Refusal>
    ensures { ◌≡◌ {A = Answer} (answer_of result, shares.new) (expected_units set units bytes.now shares.old) }
{
    let n = count_of(set);
    why_before(n, units)?;
    let run = sum_up(bytes, n)?;
    end(&run.sums, set, units, bytes.len() - run.used, shares)
}
