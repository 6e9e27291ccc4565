// Why a call is declined: the reasons of document 01's list, and of document 02's, in the order of their numbers.
#![tactic(auto)]

ghost use Rattle.std.specs.Prelude.{◌≡◌, MatchResult, true, false};
ghost use Rattle.lists.specs.Refusals.{number_of, answer_of};

#[derive(Clone, Copy, Debug, PartialEq, Eq)]
pub enum Refusal {
    // "Unknown tag, bytes that aren't exactly one field, or a wrong length"
    Unreadable = 1,
    // "The stage doesn't allow the call."
    WrongStage,
    // "The pool isn't in the case .., or POOL isn't the next in turn from 0."
    WrongPool,
    // "The member isn't in the set, or MEMBER names one already given."
    WrongMember,
    // "A number is out of range."
    OutOfRange,
    // "BID is below the least bid."
    BelowLeastBid,
    // "BID finds 256 bids kept."
    BidsFull,
    // "BID, ALLOCATE or TEAR finds no open unit in the pool, or the second ROUND none anywhere."
    NoOpenUnit,
    // "ALLOCATE names a pool with mark 1."
    PositiveMark,
    // "ALLOCATE finds no shortfall, or ROUND a pool or member not given."
    Missing,
    // "CALL or FINISH finds an open unit."
    OpenUnit,
    // "CALL finds prefunded at or above the requirement."
    EnoughPrefunded,
    // "FINISH in stage A finds prefunded below it."
    TooLittlePrefunded,
    // "PAY exceeds what the member owes, or MOVE finds nothing owed."
    NotOwed,
    // "FINISH finds a member who owes."
    MemberOwes,
    // "MISS finds no unit allocated or moved to the member."
    NothingPassed,
    // document 02: a SALE whose price is too high for the funds
    TooDear,
    // document 02: a WITHDRAW that names no standing bid of the member
    NoStandingBid,
}

impl Refusal {
    // Its number on the list.
    pub fn number(self) -> u8
        ensures { result ≡ number_of self }
    {
        self as u8
    }
}

// The number that answers a call: 0 where it is accepted.
pub fn answer(outcome: Result<(), Refusal>) -> u8
    ensures { result ≡ answer_of outcome }
{
    match outcome {
        Ok(()) => 0,
        Err(refusal) => refusal.number(),
    }
}

// Declines a call where the test applies. A call's tests stand one after the other, in the order of their numbers.
pub fn decline_if(test: bool, refusal: Refusal) -> Result<(), Refusal>
    ensures { MatchResult result (λ _. test ≡ false) (λ e. (test ≡ true) × (e ≡ refusal)) }
{
    if test { Err(refusal) } else { Ok(()) }
}
