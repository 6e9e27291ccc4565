// The ledger for C and Rust (include/ledger.h): each export calls the library's function of its name.
#![tactic(auto)]

ghost use Rattle.std.specs.Prelude.{◌≡◌, ◌++◌, map, length, drop};
ghost use Rattle.std.proofs.Math.Option.{none};
ghost use Rattle.machine.specs.Printed.{fields_in};
ghost use Rattle.machine.specs.Run.{Observed, run as machine_run, run_from};
ghost use Rattle.machine.specs.Running.{left_sum};
ghost use Rattle.machine.specs.State.{the_case};
ghost use Rattle.report.specs.Texts.{Prints};
ghost use Rattle.input.specs.Strings.{strings_in, in_front};
ghost use Rattle.exports.specs.Machine.{read_by};
ghost use Rattle.exports.specs.Promises.{Called, holdings_after};

use exports::{Printed, Reading, Shown};

// The fields of a whole input, taken in turn from no case on, as many as there is room for answers: how many were answered.
#[unsafe(no_mangle)]
pub extern "C" fn ledger_run(input: &[u8], answers: &mut [u8]) -> usize
    ensures value { result ≡ length (fields_in (length answers.old) input.now) }
    ensures answers_after { answers.new ≡ map (λ (o : Observed). o.answer) (machine_run (fields_in (length answers.old) input.now)) ++ drop result answers.old }
{
    exports::ledger_run(input, answers)
}

// Calls of any kind taken in turn, from no case on, and what is shown then. Call k is the bytes from ends[k - 1] on, below ends[k]. The answers
// stand in front, as far as there is room.
#[unsafe(no_mangle)]
pub extern "C" fn ledger_calls(bytes: &[u8], ends: &[usize], answers: &mut [u8]) -> Shown
    ensures { Called (strings_in bytes.now ends.now) answers.old answers.new result }
{
    exports::ledger_calls(bytes, ends, answers)
}

// After the same calls: for question k, the units of pool pools[k] that member members[k] holds at the price prices[k], which is cents +
// 1,000,000. As many questions are answered as all four runs have.
#[unsafe(no_mangle)]
pub extern "C" fn ledger_holdings(
    bytes: &[u8],
    ends: &[usize],
    members: &[u8],
    pools: &[u8],
    prices: &[u32],
    units: &mut [u64],
)
    ensures { units.new ≡ in_front (holdings_after (strings_in bytes.now ends.now) members.now pools.now prices.now) units.old }
{
    exports::ledger_holdings(bytes, ends, members, pools, prices, units)
}

// After the same calls: the requirement, read from the running sums and the two losses; declined by 2 where there is no case.
#[unsafe(no_mangle)]
pub extern "C" fn ledger_requirement(bytes: &[u8], ends: &[usize]) -> Reading
    ensures { result ≡ read_by (run_from none (strings_in bytes.now ends.now)) }
{
    exports::ledger_requirement(bytes, ends)
}

// After the same calls: the running sum of a pool, the prices of its units that have left the house, in cents.
#[unsafe(no_mangle)]
pub extern "C" fn ledger_pool_prices(bytes: &[u8], ends: &[usize], pool: u8) -> i64
    ensures { result ≡ left_sum (the_case (run_from none (strings_in bytes.now ends.now))) pool }
{
    exports::ledger_pool_prices(bytes, ends, pool)
}

// The text of a whole input, as the program `ledger` prints it, at the front of the buffer. A buffer with less than four times the input's bytes
// and 4,096 is untouched.
#[unsafe(no_mangle)]
pub extern "C" fn ledger_print(input: &[u8], out: &mut [u8]) -> Printed
    ensures { Prints input.now out.old out.new result.whole result.len }
{
    exports::ledger_print(input, out)
}
