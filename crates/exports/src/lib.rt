// The ledger for C and Rust. A case holds enums, and such a value cannot be handed over, so a caller hands over the calls made so far and is
// shown what they lead to; include/ledger.h says how each function is called.
#![tactic(auto)]

ghost use Rattle.std.specs.Prelude.{◌≡◌, ◌++◌, map, min, length, set, drop};
ghost use Rattle.std.proofs.Math.Option.{none};
ghost use Rattle.machine.specs.Printed.{fields_in};
ghost use Rattle.machine.specs.Run.{Observed, run as machine_run, run_from};
ghost use Rattle.machine.specs.Running.{left_sum};
ghost use Rattle.machine.specs.State.{the_case};
ghost use Rattle.report.specs.Texts.{Prints};
ghost use Rattle.input.specs.Strings.{strings_in, in_front};
ghost use Rattle.case.specs.Cases.{no_held};
ghost use Rattle.case.specs.Input.{ledger_after};
ghost use Rattle.exports.specs.Showing.{count_table, owes_table, result_shown, none_shown, case_shown, shown_of, holding_shown, holdings_of};
ghost use Rattle.exports.specs.Machine.{read_by};
ghost use Rattle.exports.specs.Promises.{Called, holdings_after};

use book::{Book, Result};
use case::Case;
use std::array;

// What is shown of a case. Where none is held every number is 0; so is the result before an accepted FINISH. Bids are numbered from 0 as accepted, so the next
// one gets the number `bids`. The counts are open, sold, allocated, moved and torn of pool 0, then of pools 1 to 3. Money and prices are in cents.
#[repr(C)]
#[derive(Clone, Copy)]
pub struct Shown {
    pub present: bool,
    pub stage: u8,
    pub round: u8,
    pub pools: u8,
    pub bids: usize,
    pub stands: [bool; 256],
    pub counts: [u64; 20],
    pub prices: i64,
    pub requirement: u64,
    pub prefunded: u64,
    pub owes: [u64; 32],
    pub loss: u64,
    pub charges: [u64; 6],
    pub uncovered: u64,
    pub ranks: [u8; 32],
    pub contributions: [u64; 32],
    pub payments: [u64; 32],
}

// What is read of the requirement: an answer, and cents where it is 0.
#[repr(C)]
#[derive(Clone, Copy)]
pub struct Reading {
    pub answer: u8,
    pub cents: u64,
}

// Whether a whole text was written, and its length.
#[repr(C)]
#[derive(Clone, Copy)]
pub struct Printed {
    pub whole: bool,
    pub len: usize,
}

// ---- what is shown

// The five counts of each pool.
fn counts(case: Case) -> [u64; 20]
    ensures { result ≡ count_table case }
{
    array::from_fn(|k| case.count(k as u8 / 5, k as u8 % 5))
}

// What each member owes.
fn owes(book: Book) -> [u64; 32]
    ensures { result ≡ owes_table book }
{
    array::from_fn(|m| book.members.owes(m as u8))
}

// What FINISH gave, and zeros before it.
fn result(case: Case) -> Result
    ensures { result ≡ result_shown case }
{
    if book::letter(case.stage) == 5 {
        return case.book.result();
    }
    Result {
        loss: 0,
        charges: [0u64; 6],
        uncovered: 0,
        ranks: [0u8; 32],
        contributions: [0u64; 32],
        payments: [0u64; 32],
    }
}

// What is shown where no case is held.
fn show_none() -> Shown
    ensures { result ≡ none_shown }
{
    Shown {
        present: false,
        stage: 0,
        round: 0,
        pools: 0,
        bids: 0,
        stands: [false; 256],
        counts: [0u64; 20],
        prices: 0,
        requirement: 0,
        prefunded: 0,
        owes: [0u64; 32],
        loss: 0,
        charges: [0u64; 6],
        uncovered: 0,
        ranks: [0u8; 32],
        contributions: [0u64; 32],
        payments: [0u64; 32],
    }
}

// What is shown of a case.
fn show_case(case: Case) -> Shown
    ensures { result ≡ case_shown case }
{
    let stage = case.stage;
    let book = case.book;
    let stands = book.bids.stands;
    let counts = counts(case);
    let owes = owes(book);
    let given = result(case);
    let charges = given.charges;
    let ranks = given.ranks;
    let contributions = given.contributions;
    let payments = given.payments;
    Shown {
        present: true,
        stage: book::letter(stage),
        round: book::round_of(stage),
        pools: book.pools.given,
        bids: book.bids.kept,
        stands,
        counts,
        prices: case.sum_of_prices(),
        requirement: book.requirement(),
        prefunded: book.prefunded(),
        owes,
        loss: given.loss,
        charges,
        uncovered: given.uncovered,
        ranks,
        contributions,
        payments,
    }
}

// What is shown of what is held.
#[tactic(auto, unfolding(crate::specs::Showing::shown_of))]
fn show(held: Option<Case>) -> Shown
    ensures { result ≡ shown_of held }
{
    match held {
        Some(case) => show_case(case),
        None => show_none(),
    }
}

// The units of a pool that a member holds at a price, and 0 where no case is held.
#[tactic(auto, unfolding(crate::specs::Showing::holding_shown))]
fn holding(held: Option<Case>, m: u8, pool: u8, price: u32) -> u64
    ensures { result ≡ holding_shown held m pool price }
{
    match held {
        Some(case) => case.holding(m, pool, price),
        None => 0,
    }
}

// What members hold, asked by member, pool and price.
fn ask(held: Option<Case>, members: &[u8], pools: &[u8], prices: &[u32], units: &mut [u64])
    ensures { units.new ≡ in_front (holdings_of held members.now pools.now prices.now) units.old }
{
    let n = units
        .len()
        .min(members.len())
        .min(pools.len())
        .min(prices.len());
    for k in 0..n {
        units[k] = holding(held, members[k], pools[k], prices[k]);
    }
}

// What is held after calls whose answers nobody asks for.
fn held_after(bytes: &[u8], ends: &[usize]) -> Option<Case>
    ensures { result ≡ ledger_after no_held (strings_in bytes.now ends.now) }
{
    let mut first = [0u8; 1];
    case::replay(None, bytes, ends, &mut first)
}

// ---- what is exported

// The fields of a whole input, taken in turn from no case on, as many as there is room for answers: how many were answered.
pub fn ledger_run(input: &[u8], answers: &mut [u8]) -> usize
    ensures value { result ≡ length (fields_in (length answers.old) input.now) }
    ensures answers_after { answers.new ≡ map (λ (o : Observed). o.answer) (machine_run (fields_in (length answers.old) input.now)) ++ drop result answers.old }
{
    case::run(input, answers).count
}

// Calls of any kind taken in turn, from no case on, and what is shown then. Call k is the bytes from ends[k - 1] on, below ends[k]. The answers
// stand in front, as far as there is room.
pub fn ledger_calls(bytes: &[u8], ends: &[usize], answers: &mut [u8]) -> Shown
    ensures { Called (strings_in bytes.now ends.now) answers.old answers.new result }
{
    show(case::replay(None, bytes, ends, answers))
}

// After the same calls: for question k, the units of pool pools[k] that member members[k] holds at the price prices[k], which is cents +
// 1,000,000. As many questions are answered as all four runs have.
pub fn ledger_holdings(
    bytes: &[u8],
    ends: &[usize],
    members: &[u8],
    pools: &[u8],
    prices: &[u32],
    units: &mut [u64],
)
    ensures { units.new ≡ in_front (holdings_after (strings_in bytes.now ends.now) members.now pools.now prices.now) units.old }
{
    ask(held_after(bytes, ends), members, pools, prices, units)
}

// After the same calls: the requirement, read from the running sums and the two losses; declined by 2 where there is no case.
pub fn ledger_requirement(bytes: &[u8], ends: &[usize]) -> Reading
    ensures { result ≡ read_by (run_from none (strings_in bytes.now ends.now)) }
{
    match case::requirement(held_after(bytes, ends)) {
        Ok(cents) => Reading { answer: 0, cents },
        Err(answer) => Reading { answer, cents: 0 },
    }
}

// After the same calls: the running sum of a pool, the prices of its units that have left the house, in cents.
pub fn ledger_pool_prices(bytes: &[u8], ends: &[usize], pool: u8) -> i64
    ensures { result ≡ left_sum (the_case (run_from none (strings_in bytes.now ends.now))) pool }
{
    case::prices_in(held_after(bytes, ends), pool)
}

// The text of a whole input, as the program `ledger` prints it, at the front of the buffer. A buffer with less than four times the input's bytes
// and 4,096 is untouched.
pub fn ledger_print(input: &[u8], out: &mut [u8]) -> Printed
    ensures { Prints input.now out.old out.new result.whole result.len }
{
    let written = report::print(input, out);
    Printed {
        whole: written.is_some(),
        len: written.unwrap_or(0),
    }
}
