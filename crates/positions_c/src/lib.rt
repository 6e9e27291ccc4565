// Expected units from daily positions for C and Rust (include/ledger.h): each export calls the library's function of its name, and gives the number of its answer.
#![tactic(auto)]

ghost use Rattle.std.specs.Prelude.{◌≡◌, length};
ghost use Rattle.sets.specs.Set.{members};
ghost use Rattle.splitting.specs.Limits.{Answer};
ghost use Rattle.positions.specs.Days.{expected_units};
ghost use Rattle.positions.specs.Keeping.{keeping, took, part_of, ended};

use lists::refusal::answer;
use positions::Part;

#[unsafe(no_mangle)]
pub extern "C" fn ledger_expected(set: u32, units: u64, days: &[u8], shares: &mut [u64; 32]) -> u8
    ensures { ◌≡◌ {A = Answer} (result, shares.new) (expected_units set units days.now shares.old) }
{
    answer(positions::expected(set, units, days, shares))
}

#[unsafe(no_mangle)]
pub extern "C" fn ledger_take_days(
    ring: &mut [u32; 2112],
    sums: &mut [u64; 32],
    row: usize,
    set: u32,
    days: &[u8],
) -> Part
    ensures { took result.row ring.new sums.new result.used result.answer ≡ part_of (length (members set)) (keeping row ring.old sums.old) days.now }
{
    positions::take_days(ring, sums, row, set, days)
}

#[unsafe(no_mangle)]
pub extern "C" fn ledger_end_days(
    sums: &[u64; 32],
    set: u32,
    units: u64,
    left: usize,
    shares: &mut [u64; 32],
) -> u8
    ensures { ◌≡◌ {A = Answer} (result, shares.new) (ended set units left sums.now shares.old) }
{
    answer(positions::end(sums, set, units, left, shares))
}
