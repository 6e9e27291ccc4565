// A call timed by itself, for bench/: the export calls the library's function of its name.
#![tactic(auto)]

ghost use Rattle.std.specs.Prelude.{◌≡◌, map};
ghost use Rattle.case.specs.Cases.{no_held};
ghost use Rattle.case.specs.Input.{ledger_after};
ghost use Rattle.input.specs.Strings.{strings_in, in_front};
ghost use Rattle.timing.specs.Numbers.{number_of};

// The byte strings of `before`, which end at `cuts`, are taken in turn as calls, from no case on; then each of the others is taken from the case that they lead to.
#[unsafe(no_mangle)]
pub extern "C" fn ledger_each(
    before: &[u8],
    cuts: &[usize],
    bytes: &[u8],
    ends: &[usize],
    res: bool,
    numbers: &mut [u64],
)
    ensures { numbers.new ≡ in_front (map (number_of (ledger_after no_held (strings_in before.now cuts.now)) res) (strings_in bytes.now ends.now)) numbers.old }
{
    timing::ledger_each(before, cuts, bytes, ends, res, numbers)
}
