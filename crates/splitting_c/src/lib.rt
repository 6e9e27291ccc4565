// The split and the ranking for C and Rust (include/ledger.h): each export calls the library's function of its name.
#![tactic(auto)]

ghost use Rattle.std.specs.Prelude.{◌≡◌};
ghost use Rattle.splitting.specs.Limits.{Answer, RankedAnswer, split_into, ranking_into};

use splitting::Ranked;

// The split for C.
#[unsafe(no_mangle)]
pub extern "C" fn ledger_split(q: u64, weights: &[u64], shares: &mut [u64]) -> u8
    ensures { ◌≡◌ {A = Answer} (result, shares.new) (split_into q weights.now shares.old) }
{
    lists::refusal::answer(splitting::split(q, weights, shares))
}

// The ranking for C.
#[unsafe(no_mangle)]
pub extern "C" fn ledger_ranking(q: u64, weights: &[u64], places: &mut [usize]) -> Ranked
    ensures { ◌≡◌ {A = RankedAnswer} (result.answer, result.named, places.new) (ranking_into q weights.now places.old) }
{
    splitting::ranking(q, weights, places)
}
