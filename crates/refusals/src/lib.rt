// Why a call is declined (documents 01 and 02): for each call the first reason of 01's list that applies, read off the stage and the book.
#![tactic(auto)]

ghost use Rattle.std.specs.Prelude.{◌≡◌, ◌&&◌, ◌||◌, [], ◌∷◌, eqb, take};
ghost use Rattle.lists.specs.Lists.{between, all};
ghost use Rattle.lists.specs.Refusals.{answer_of};
ghost use Rattle.auction.specs.Price.{price_ok};
ghost use Rattle.machine.specs.Refusals.{head_ok, pool_ok, member_ok, bid_ok, payment_ok};
ghost use Rattle.wire.specs.Asked.{head_of};
ghost use Rattle.book.specs.Stages.{round_of};
ghost use Rattle.refusals.specs.Answers.{is_in, amounts_ok, expected_ok, head_answer, pool_answer, member_answer, round_answer, bid_answer, close_answer, allocate_answer, tear_answer, call_answer, pay_answer, move_answer, miss_answer, finish_answer, sale_answer, withdraw_answer};

use book::{Book, Stage};
use lists::refusal::{Refusal, decline_if};
use wire::{Call, Head};

// ---- "2. The stage doesn't allow the call."

// S, the setup.
#[tactic(auto, unfolding(machine::specs::State::letter))]
fn is_setup(stage: Stage) -> bool
    ensures { result ≡ is_in stage 1 }
{
    matches!(stage, Stage::Setup)
}

// B, bidding.
#[tactic(auto, unfolding(machine::specs::State::letter))]
fn is_bidding(stage: Stage) -> bool
    ensures { result ≡ is_in stage 2 }
{
    matches!(stage, Stage::Bidding(_))
}

// A, after a round.
#[tactic(auto, unfolding(machine::specs::State::letter))]
fn is_after(stage: Stage) -> bool
    ensures { result ≡ is_in stage 3 }
{
    matches!(stage, Stage::After(_))
}

// C, calls out.
#[tactic(auto, unfolding(machine::specs::State::letter))]
fn is_calls_out(stage: Stage) -> bool
    ensures { result ≡ is_in stage 4 }
{
    matches!(stage, Stage::CallsOut)
}

// S or A1, in which ROUND is allowed.
#[tactic(auto, unfolding(machine::specs::State::letter, machine::specs::State::round_of))]
fn may_open(stage: Stage) -> bool
    ensures { result ≡ (is_in stage 1 || (is_in stage 3 && eqb (round_of stage) 1)) }
{
    matches!(stage, Stage::Setup | Stage::After(1))
}

// A or C, in which MISS and FINISH are allowed.
#[tactic(auto, unfolding(machine::specs::State::letter))]
fn may_settle(stage: Stage) -> bool
    ensures { result ≡ (is_in stage 3 || is_in stage 4) }
{
    matches!(stage, Stage::After(_) | Stage::CallsOut)
}

// ---- "5. A number is out of range."

// Whether a price is in range.
fn price_ok(price: u32) -> bool
    ensures { result ≡ price_ok price }
{
    price <= Call::MAX_PRICE
}

// Whether the amounts of HEAD are in range.
#[tactic(auto, unfolding(crate::specs::Answers::amounts_ok))]
fn amounts_ok(h: Head) -> bool
    ensures { result ≡ amounts_ok (head_of h) }
{
    h.hedge <= Head::MAX_HEDGE_LOSS
        && h.other <= Head::MAX_OTHER_LOSS
        && h.margin <= Head::MAX_MARGIN
        && h.fund <= Head::MAX_FUND
        && h.house <= Head::MAX_HOUSE_MONEY
}

// Whether the numbers of HEAD are in range.
fn head_ok(h: Head) -> bool
    ensures { result ≡ head_ok (head_of h) }
{
    (Head::MIN_POOLS..=Head::MAX_POOLS).contains(&h.pools)
        && (Head::MIN_LEAST_BID..=Head::MAX_LEAST_BID).contains(&h.least)
        && h.set != Head::NO_MEMBER
        && amounts_ok(h)
}

// Whether units put up or bid for are in range.
fn units_ok(units: u16) -> bool
    ensures { result ≡ between 1 1000 units }
{
    (Call::MIN_UNITS..=Call::MAX_UNITS).contains(&units)
}

// Whether a pool's units and mark are in range.
#[tactic(auto, unfolding(machine::specs::Refusals::pool_ok))]
fn pool_ok(units: u16, mark: u8) -> bool
    ensures { result ≡ pool_ok units mark }
{
    units_ok(units) && mark <= Call::MAX_MARK
}

// Whether expected units are in range: "to 1,000, and 0 for a pool the case lacks".
fn expected_ok(lies: bool, n: u16) -> bool
    ensures { result ≡ expected_ok lies n }
{
    if lies {
        n <= Call::MAX_EXPECTED
    } else {
        n == 0
    }
}

// Whether the numbers of MEMBER are in range.
fn member_ok(pools: u8, contribution: u32, p: u16, q: u16, r: u16, s: u16) -> bool
    ensures { result ≡ member_ok pools contribution (p ∷ q ∷ r ∷ s ∷ []) }
{
    contribution <= Call::MAX_CONTRIBUTION
        && expected_ok(0 < pools, p)
        && expected_ok(1 < pools, q)
        && expected_ok(2 < pools, r)
        && expected_ok(3 < pools, s)
}

// Whether the reserves of ROUND are in range.
fn reserves_ok(n: u8, p: u32, q: u32, r: u32, s: u32) -> bool
    ensures { result ≡ all price_ok (take n (p ∷ q ∷ r ∷ s ∷ [])) }
{
    (n <= 0 || price_ok(p))
        && (n <= 1 || price_ok(q))
        && (n <= 2 || price_ok(r))
        && (n <= 3 || price_ok(s))
}

// Whether a bid's units and price are in range.
#[tactic(auto, unfolding(machine::specs::Refusals::bid_ok))]
fn bid_ok(units: u16, price: u32) -> bool
    ensures { result ≡ bid_ok units price }
{
    units_ok(units) && price_ok(price)
}

// Whether a payment is in range.
#[tactic(auto, unfolding(machine::specs::Refusals::payment_ok))]
fn payment_ok(amount: u32) -> bool
    ensures { result ≡ payment_ok amount }
{
    (Call::MIN_PAYMENT..=Call::MAX_PAYMENT).contains(&amount)
}

// Why HEAD is declined where there is no case.
#[tactic(auto, unfolding(crate::specs::Answers::head_answer, lists::specs::Tests::first_of))]
pub fn head_answer(h: Head) -> Result<(), Refusal>
    ensures { answer_of result ≡ head_answer h }
{
    decline_if(!head_ok(h), Refusal::OutOfRange)
}

// Why CLOSE is declined.
#[tactic(auto, unfolding(crate::specs::Answers::close_answer, lists::specs::Tests::first_of))]
pub fn close_answer(stage: Stage) -> Result<(), Refusal>
    ensures { answer_of result ≡ close_answer stage }
{
    decline_if(!is_bidding(stage), Refusal::WrongStage)
}

// ---- why a call is declined where there is a case. Tests that sum over the members are asked after the others.

#[tactic(auto, unfolding(crate::specs::Answers::pool_answer, lists::specs::Tests::first_of))]
pub fn pool_answer(book: Book, stage: Stage, pool: u8, units: u16, mark: u8) -> Result<(), Refusal>
    ensures { answer_of result ≡ pool_answer stage book pool units mark }
{
    decline_if(!is_setup(stage), Refusal::WrongStage)?;
    decline_if(book.head.pools <= pool, Refusal::WrongPool)?;
    decline_if(pool != book.pools.given, Refusal::WrongPool)?;
    decline_if(!pool_ok(units, mark), Refusal::OutOfRange)
}

#[tactic(auto, unfolding(crate::specs::Answers::member_answer, lists::specs::Tests::first_of))]
pub fn member_answer(
    book: Book,
    stage: Stage,
    m: u8,
    contribution: u32,
    p: u16,
    q: u16,
    r: u16,
    s: u16,
) -> Result<(), Refusal>
    ensures { answer_of result ≡ member_answer stage book m contribution p q r s }
{
    decline_if(!is_setup(stage), Refusal::WrongStage)?;
    decline_if(!sets::has(book.head.set, m), Refusal::WrongMember)?;
    decline_if(sets::has(book.members.given, m), Refusal::WrongMember)?;
    decline_if(
        !member_ok(book.head.pools, contribution, p, q, r, s),
        Refusal::OutOfRange,
    )
}

#[tactic(auto, unfolding(crate::specs::Answers::round_answer, lists::specs::Tests::first_of))]
pub fn round_answer(
    book: Book,
    stage: Stage,
    n: u8,
    p: u32,
    q: u32,
    r: u32,
    s: u32,
) -> Result<(), Refusal>
    ensures { answer_of result ≡ round_answer stage book n p q r s }
{
    decline_if(n != book.head.pools, Refusal::Unreadable)?;
    decline_if(!may_open(stage), Refusal::WrongStage)?;
    decline_if(!reserves_ok(n, p, q, r, s), Refusal::OutOfRange)?;
    decline_if(is_after(stage) && !book.any_open(), Refusal::NoOpenUnit)?;
    decline_if(book.pools.given < book.head.pools, Refusal::Missing)?;
    decline_if(book.members.given != book.head.set, Refusal::Missing)
}

#[tactic(auto, unfolding(crate::specs::Answers::bid_answer, lists::specs::Tests::first_of))]
pub fn bid_answer(
    book: Book,
    stage: Stage,
    pool: u8,
    m: u8,
    units: u16,
    price: u32,
) -> Result<(), Refusal>
    ensures { answer_of result ≡ bid_answer stage book pool m units price }
{
    decline_if(!is_bidding(stage), Refusal::WrongStage)?;
    decline_if(book.head.pools <= pool, Refusal::WrongPool)?;
    decline_if(!sets::has(book.head.set, m), Refusal::WrongMember)?;
    decline_if(!bid_ok(units, price), Refusal::OutOfRange)?;
    decline_if(units < book.head.least, Refusal::BelowLeastBid)?;
    decline_if(256 <= book.bids.kept, Refusal::BidsFull)?;
    decline_if(book.open_units(pool) == 0, Refusal::NoOpenUnit)
}

#[tactic(auto, unfolding(crate::specs::Answers::allocate_answer, lists::specs::Tests::first_of, book::specs::Books::short_in))]
pub fn allocate_answer(book: Book, stage: Stage, pool: u8, price: u32) -> Result<(), Refusal>
    ensures { answer_of result ≡ allocate_answer stage book pool price }
{
    decline_if(!is_after(stage), Refusal::WrongStage)?;
    decline_if(book.head.pools <= pool, Refusal::WrongPool)?;
    decline_if(!price_ok(price), Refusal::OutOfRange)?;
    decline_if(book.open_units(pool) == 0, Refusal::NoOpenUnit)?;
    decline_if(book.pools.mark(pool) == 1, Refusal::PositiveMark)?;
    // The arrays are passed by themselves, since `book.short(pool)` may copy the whole book.
    let short = book::total_shortfall(
        book.head.set,
        book.members.expected,
        book.members.won,
        book.members.allocated,
        pool,
    );
    decline_if(short == 0, Refusal::Missing)
}

#[tactic(auto, unfolding(crate::specs::Answers::tear_answer, lists::specs::Tests::first_of))]
pub fn tear_answer(book: Book, stage: Stage, pool: u8, price: u32) -> Result<(), Refusal>
    ensures { answer_of result ≡ tear_answer stage book pool price }
{
    decline_if(!is_after(stage), Refusal::WrongStage)?;
    decline_if(book.head.pools <= pool, Refusal::WrongPool)?;
    decline_if(!price_ok(price), Refusal::OutOfRange)?;
    decline_if(book.open_units(pool) == 0, Refusal::NoOpenUnit)
}

#[tactic(auto, unfolding(crate::specs::Answers::call_answer, lists::specs::Tests::first_of))]
pub fn call_answer(book: Book, stage: Stage) -> Result<(), Refusal>
    ensures { answer_of result ≡ call_answer stage book }
{
    decline_if(!is_after(stage), Refusal::WrongStage)?;
    decline_if(book.any_open(), Refusal::OpenUnit)?;
    decline_if(
        book.requirement() <= book.prefunded(),
        Refusal::EnoughPrefunded,
    )
}

#[tactic(auto, unfolding(crate::specs::Answers::pay_answer, lists::specs::Tests::first_of))]
pub fn pay_answer(book: Book, stage: Stage, m: u8, amount: u32) -> Result<(), Refusal>
    ensures { answer_of result ≡ pay_answer stage book m amount }
{
    decline_if(!is_calls_out(stage), Refusal::WrongStage)?;
    decline_if(!sets::has(book.head.set, m), Refusal::WrongMember)?;
    decline_if(!payment_ok(amount), Refusal::OutOfRange)?;
    decline_if(book.members.owes(m) < u64::from(amount), Refusal::NotOwed)
}

#[tactic(auto, unfolding(crate::specs::Answers::move_answer, lists::specs::Tests::first_of))]
pub fn move_answer(book: Book, stage: Stage, m: u8) -> Result<(), Refusal>
    ensures { answer_of result ≡ move_answer stage book m }
{
    decline_if(!is_calls_out(stage), Refusal::WrongStage)?;
    decline_if(!sets::has(book.head.set, m), Refusal::WrongMember)?;
    decline_if(book.members.owes(m) == 0, Refusal::NotOwed)
}

#[tactic(auto, unfolding(crate::specs::Answers::miss_answer, lists::specs::Tests::first_of))]
pub fn miss_answer(book: Book, stage: Stage, m: u8, price: u32) -> Result<(), Refusal>
    ensures { answer_of result ≡ miss_answer stage book m price }
{
    decline_if(!may_settle(stage), Refusal::WrongStage)?;
    decline_if(!sets::has(book.head.set, m), Refusal::WrongMember)?;
    decline_if(!price_ok(price), Refusal::OutOfRange)?;
    decline_if(book.passed(m) == 0, Refusal::NothingPassed)
}

#[tactic(auto, unfolding(crate::specs::Answers::finish_answer, lists::specs::Tests::first_of))]
pub fn finish_answer(book: Book, stage: Stage) -> Result<(), Refusal>
    ensures { answer_of result ≡ finish_answer stage book }
{
    decline_if(!may_settle(stage), Refusal::WrongStage)?;
    decline_if(book.any_open(), Refusal::OpenUnit)?;
    decline_if(
        is_after(stage) && book.prefunded() < book.requirement(),
        Refusal::TooLittlePrefunded,
    )?;
    decline_if(
        book.members.someone_owes(book.head.set),
        Refusal::MemberOwes,
    )
}

#[tactic(auto, unfolding(crate::specs::Answers::sale_answer, lists::specs::Tests::first_of))]
pub fn sale_answer(book: Book, stage: Stage, pool: u8, m: u8, price: u32) -> Result<(), Refusal>
    ensures { answer_of result ≡ sale_answer stage book pool m price }
{
    decline_if(!is_setup(stage), Refusal::WrongStage)?;
    decline_if(book.head.pools <= pool, Refusal::WrongPool)?;
    decline_if(!sets::has(book.head.set, m), Refusal::WrongMember)?;
    decline_if(!price_ok(price), Refusal::OutOfRange)?;
    decline_if(book.open_units(pool) == 0, Refusal::NoOpenUnit)?;
    decline_if(book.pools.given < book.head.pools, Refusal::Missing)?;
    decline_if(book.members.given != book.head.set, Refusal::Missing)?;
    decline_if(book.too_dear(pool, price), Refusal::TooDear)
}

#[tactic(auto, unfolding(crate::specs::Answers::withdraw_answer, lists::specs::Tests::first_of))]
pub fn withdraw_answer(book: Book, stage: Stage, m: u8, n: u16) -> Result<(), Refusal>
    ensures { answer_of result ≡ withdraw_answer stage book m n }
{
    decline_if(!is_bidding(stage), Refusal::WrongStage)?;
    decline_if(!sets::has(book.head.set, m), Refusal::WrongMember)?;
    decline_if(
        !book.bids.stands_for(book::round_of(stage), m, n),
        Refusal::NoStandingBid,
    )
}
