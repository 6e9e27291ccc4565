// The case (documents 01 and 02): its stage and its book, and the fifteen calls. "Each call takes the case and hands the case back."
#![tactic(auto)]

ghost use Rattle.std.specs.Prelude.{◌≡◌, Bool, Some, [], ◌∷◌, ◌<◌, ◌^◌, set};
ghost use Rattle.std.proofs.Math.Option.{some};
ghost use Rattle.std.proofs.Math.IntN.{sub_ℕ};
ghost use Rattle.lists.specs.Lists.{when◌then◌else◌};
ghost use Rattle.lists.specs.Refusals.{number_of, answer_of};
ghost use Rattle.machine.specs.Wire.{POOL, MEMBER, BID, CLOSE, ALLOCATE, TEAR, CALL, PAY, MOVE, MISS, FINISH, SALE, WITHDRAW};
ghost use Rattle.wire.specs.Asked.{asked};
ghost use Rattle.wire.specs.declared.Call.TheVariants.{Round};
ghost use Rattle.units.specs.Shown.{count_of};
ghost use Rattle.case.specs.Cases.{new_case, reserve_if, reserves_answer, first_answer_to, case_answer_to, answer_to, after_asked, take_asked, applied, head_outcome, outcome_of, case_in, empty_case};
ghost use Rattle.case.specs.Readings.{holding_in, sum_of_prices_in, pool_prices_in, reading_in};
ghost use Rattle.input.specs.Strings.{strings_in};
ghost use Rattle.case.specs.Input.{Replays, TakesFields, Runs};

use book::{Book, Stage};
use lists::refusal::{Refusal, decline_if};
use units::Units;
use wire::{Call, Head};

// "The case holds its stage together with the round it belongs to".
#[derive(Clone, Copy)]
pub struct Case {
    pub stage: Stage,
    pub book: Book,
}

// The answer to a call, and the case handed back: a pair and no `Result`, since 01 has the calls "returning the new case and its answer number".
#[derive(Clone, Copy)]
pub struct Outcome {
    pub answer: u8,
    pub case: Case,
}

// The answer to a call, and what is held after it.
#[derive(Clone, Copy)]
pub struct Applied {
    pub answer: u8,
    pub held: Option<Case>,
}

// What is held after the fields at an input's front, the bytes that they took, and how many they are.
#[derive(Clone, Copy)]
pub struct Front {
    pub held: Option<Case>,
    pub used: usize,
    pub count: usize,
}

// What `run` gives: how many fields were answered, and what is held then.
#[derive(Clone, Copy)]
pub struct Ran {
    pub count: usize,
    pub held: Option<Case>,
}

// ---- what is read of what is held

// The requirement in cents, read from the sums that the case keeps and the two losses; "with no case the reading is declined by 2".
#[tactic(auto, unfolding(crate::specs::Readings::reading_in))]
pub fn requirement(held: Option<Case>) -> Result<u64, u8>
    ensures { result ≡ reading_in held }
{
    match held {
        Some(case) => Ok(case.book.requirement()),
        None => Err(2),
    }
}

// The sum of the prices of a pool's units that have left the house, in cents.
#[tactic(auto, unfolding(crate::specs::Readings::pool_prices_in))]
pub fn prices_in(held: Option<Case>, pool: u8) -> i64
    ensures { result ≡ pool_prices_in held pool }
{
    match held {
        Some(case) => difference(
            u64::from(case.book.units.prices_in(pool)),
            u64::from(Units::ZERO_SUM),
        ),
        None => 0,
    }
}

// ---- the calls as methods

// A reserve of ROUND, and 0 behind its last.
fn reserve_if(n: u8, i: u8, x: u32) -> u32
    ensures { result ≡ reserve_if n i x }
{
    if i < n { x } else { 0 }
}

// Why ROUND with n reserves is declined. As on the wire, it has one to four of them.
#[tactic(auto, unfolding(crate::specs::Cases::reserves_answer))]
fn reserves_answer(case: Case, n: u8, p: u32, q: u32, r: u32, s: u32) -> Result<(), Refusal>
    ensures { answer_of result ≡ reserves_answer case n p q r s }
{
    decline_if(!(1..=4).contains(&n), Refusal::Unreadable)?;
    refusals::round_answer(
        case.book,
        case.stage,
        n,
        reserve_if(n, 0, p),
        reserve_if(n, 1, q),
        reserve_if(n, 2, r),
        reserve_if(n, 3, s),
    )
}

impl Case {
    // The case that HEAD makes.
    #[tactic(auto, unfolding(crate::specs::Cases::new_case))]
    fn new(head: Head) -> Case
        ensures { result ≡ new_case head }
    {
        Case {
            stage: Stage::Setup,
            book: Book::new(head),
        }
    }

    // A case of which every number is 0.
    #[tactic(auto, unfolding(crate::specs::Cases::empty_case))]
    fn empty() -> Case
        ensures { result ≡ empty_case }
    {
        Case::new(Head {
            pools: 0,
            least: 0,
            set: 0,
            hedge: 0,
            other: 0,
            margin: 0,
            fund: 0,
            house: 0,
        })
    }

    // A call that is declined hands the case back unchanged.
    fn declined(self, refusal: Refusal) -> Outcome
        ensures { result ≡ record { answer = number_of refusal; case = self } }
    {
        Outcome {
            answer: refusal.number(),
            case: self,
        }
    }

    // A call that is accepted hands back another.
    fn accepted(stage: Stage, book: Book) -> Outcome
        ensures { result ≡ record { answer = 0; case = record { stage = stage; book = book } } }
    {
        Outcome {
            answer: 0,
            case: Case { stage, book },
        }
    }

    // HEAD: "an associated function makes a new case". Where its numbers are out of range no case is held.
    pub fn head(head: Head) -> Applied
        ensures { result ≡ head_outcome head }
    {
        match refusals::head_answer(head) {
            Err(refusal) => Applied {
                answer: refusal.number(),
                held: None,
            },
            Ok(()) => Applied {
                answer: 0,
                held: Some(Case::new(head)),
            },
        }
    }

    pub fn pool(self, pool: u8, units: u16, mark: u8) -> Outcome
        ensures { result ≡ outcome_of self (some (POOL pool units mark)) }
    {
        match refusals::pool_answer(self.book, self.stage, pool, units, mark) {
            Err(refusal) => self.declined(refusal),
            Ok(()) => Case::accepted(self.stage, self.book.take_pool(pool, units, mark)),
        }
    }

    pub fn member(self, m: u8, contribution: u32, p: u16, q: u16, r: u16, s: u16) -> Outcome
        ensures { result ≡ outcome_of self (some (MEMBER m contribution (p ∷ q ∷ r ∷ s ∷ []))) }
    {
        match refusals::member_answer(self.book, self.stage, m, contribution, p, q, r, s) {
            Err(refusal) => self.declined(refusal),
            Ok(()) => Case::accepted(
                self.stage,
                self.book.take_member(m, contribution, p, q, r, s),
            ),
        }
    }

    // ROUND, of which the first n reserves count.
    pub fn round(self, n: u8, p: u32, q: u32, r: u32, s: u32) -> Outcome
        ensures { result ≡ outcome_of self (asked (Round n p q r s)) }
    {
        match reserves_answer(self, n, p, q, r, s) {
            Err(refusal) => self.declined(refusal),
            Ok(()) => {
                let next = Stage::Bidding(book::next_round(book::round_of(self.stage)));
                let more = self.book.take_round(
                    reserve_if(n, 0, p),
                    reserve_if(n, 1, q),
                    reserve_if(n, 2, r),
                    reserve_if(n, 3, s),
                );
                Case::accepted(next, more)
            }
        }
    }

    pub fn bid(self, pool: u8, m: u8, units: u16, price: u32) -> Outcome
        ensures { result ≡ outcome_of self (some (BID pool m units price)) }
    {
        match refusals::bid_answer(self.book, self.stage, pool, m, units, price) {
            Err(refusal) => self.declined(refusal),
            Ok(()) => {
                let round = book::round_of(self.stage);
                Case::accepted(self.stage, self.book.take_bid(round, pool, m, units, price))
            }
        }
    }

    pub fn close(self) -> Outcome
        ensures { result ≡ outcome_of self (some CLOSE) }
    {
        match refusals::close_answer(self.stage) {
            Err(refusal) => self.declined(refusal),
            Ok(()) => {
                let round = book::round_of(self.stage);
                Case::accepted(Stage::After(round), self.book.take_close(round))
            }
        }
    }

    pub fn allocate(self, pool: u8, price: u32) -> Outcome
        ensures { result ≡ outcome_of self (some (ALLOCATE pool price)) }
    {
        match refusals::allocate_answer(self.book, self.stage, pool, price) {
            Err(refusal) => self.declined(refusal),
            Ok(()) => Case::accepted(self.stage, self.book.take_allocate(pool, price)),
        }
    }

    pub fn tear(self, pool: u8, price: u32) -> Outcome
        ensures { result ≡ outcome_of self (some (TEAR pool price)) }
    {
        match refusals::tear_answer(self.book, self.stage, pool, price) {
            Err(refusal) => self.declined(refusal),
            Ok(()) => Case::accepted(self.stage, self.book.take_tear(pool, price)),
        }
    }

    pub fn call(self) -> Outcome
        ensures { result ≡ outcome_of self (some CALL) }
    {
        match refusals::call_answer(self.book, self.stage) {
            Err(refusal) => self.declined(refusal),
            Ok(()) => Case::accepted(Stage::CallsOut, self.book.take_call()),
        }
    }

    pub fn pay(self, m: u8, amount: u32) -> Outcome
        ensures { result ≡ outcome_of self (some (PAY m amount)) }
    {
        match refusals::pay_answer(self.book, self.stage, m, amount) {
            Err(refusal) => self.declined(refusal),
            Ok(()) => Case::accepted(self.stage, self.book.take_pay(m, amount)),
        }
    }

    // MOVE; `move` is a word of the language.
    pub fn move_units(self, m: u8) -> Outcome
        ensures { result ≡ outcome_of self (some (MOVE m)) }
    {
        match refusals::move_answer(self.book, self.stage, m) {
            Err(refusal) => self.declined(refusal),
            Ok(()) => Case::accepted(self.stage, self.book.take_move(m)),
        }
    }

    pub fn miss(self, m: u8, price: u32) -> Outcome
        ensures { result ≡ outcome_of self (some (MISS m price)) }
    {
        match refusals::miss_answer(self.book, self.stage, m, price) {
            Err(refusal) => self.declined(refusal),
            Ok(()) => Case::accepted(self.stage, self.book.take_miss(m, price)),
        }
    }

    pub fn finish(self) -> Outcome
        ensures { result ≡ outcome_of self (some FINISH) }
    {
        match refusals::finish_answer(self.book, self.stage) {
            Err(refusal) => self.declined(refusal),
            Ok(()) => Case::accepted(Stage::Finished, self.book),
        }
    }

    // SALE: "If no unit is open afterwards the stage becomes A1".
    pub fn sale(self, pool: u8, m: u8, price: u32) -> Outcome
        ensures { result ≡ outcome_of self (some (SALE pool m price)) }
    {
        match refusals::sale_answer(self.book, self.stage, pool, m, price) {
            Err(refusal) => self.declined(refusal),
            Ok(()) => {
                let sold = self.book.take_sale(pool, m, price);
                if sold.any_open() {
                    Case::accepted(self.stage, sold)
                } else {
                    Case::accepted(Stage::After(1), sold)
                }
            }
        }
    }

    pub fn withdraw(self, m: u8, n: u16) -> Outcome
        ensures { result ≡ outcome_of self (some (WITHDRAW m n)) }
    {
        match refusals::withdraw_answer(self.book, self.stage, m, n) {
            Err(refusal) => self.declined(refusal),
            Ok(()) => Case::accepted(self.stage, self.book.take_withdraw(n)),
        }
    }

    // ---- what is read of a case

    // How many units of a pool are open (0), sold (1), allocated (2), moved (3) or torn (4).
    pub fn count(self, pool: u8, kind: u8) -> u64
        ensures { result ≡ count_of self.book.units self.book.bids.pool pool kind }
    {
        self.book.units.count(pool, kind, &self.book.bids.pool)
    }

    // The units of a pool that a member holds at a price.
    #[tactic(auto, unfolding(crate::specs::Readings::holding_in))]
    pub fn holding(self, m: u8, pool: u8, price: u32) -> u64
        ensures { result ≡ holding_in self m pool price }
    {
        self.book.units.holding(
            m,
            pool,
            price,
            &self.book.bids.member,
            &self.book.bids.pool,
            &self.book.bids.price,
        )
    }

    // The sum of the prices of the units not open, in cents.
    pub fn sum_of_prices(self) -> i64
        ensures { result ≡ sum_of_prices_in self }
    {
        difference(self.book.prices(), Units::ZERO_PRICES)
    }
}

// a − b as a signed number.
fn difference(a: u64, b: u64) -> i64
    requires { (a < 2 ^ 62) × (b < 2 ^ 62) }
    ensures { result ≡ sub_ℕ a b }
{
    a as i64 - b as i64
}

// ---- any call

// The answer to a call, from what is held. It is compiled in place, and so is what it calls, since the case would else be copied for every call.
#[inline(always)]
#[tactic(auto, unfolding(crate::specs::Cases::answer_to))]
pub fn answer_to(held: Option<Case>, call: Call) -> Result<(), Refusal>
    ensures { answer_of result ≡ answer_to held (asked call) }
{
    match held {
        Some(case) => answer_in(case, call),
        None => first_answer(call),
    }
}

// The answer to a call where no case is held.
#[tactic(auto, unfolding(wire::specs::Asked::asked, crate::specs::Cases::first_answer, crate::specs::Cases::first_answer_to))]
fn first_answer(call: Call) -> Result<(), Refusal>
    ensures { answer_of result ≡ first_answer_to (asked call) }
{
    match call {
        Call::Head(head) => refusals::head_answer(head),
        Call::Round { count, .. } => {
            decline_if(!(1..=4).contains(&count), Refusal::Unreadable)?;
            Err(Refusal::WrongStage)
        }
        Call::Pool { .. } => Err(Refusal::WrongStage),
        Call::Member { .. } => Err(Refusal::WrongStage),
        Call::Bid { .. } => Err(Refusal::WrongStage),
        Call::Close => Err(Refusal::WrongStage),
        Call::Allocate { .. } => Err(Refusal::WrongStage),
        Call::Tear { .. } => Err(Refusal::WrongStage),
        Call::Call => Err(Refusal::WrongStage),
        Call::Pay { .. } => Err(Refusal::WrongStage),
        Call::Move { .. } => Err(Refusal::WrongStage),
        Call::Miss { .. } => Err(Refusal::WrongStage),
        Call::Finish => Err(Refusal::WrongStage),
        Call::Sale { .. } => Err(Refusal::WrongStage),
        Call::Withdraw { .. } => Err(Refusal::WrongStage),
        Call::Unknown => Err(Refusal::Unreadable),
    }
}

// The answer to a call where a case is held. The book is read in place: one in a local of its own would be a copy for every call.
#[inline(always)]
#[tactic(auto, unfolding(wire::specs::Asked::asked, crate::specs::Cases::case_answer, crate::specs::Cases::case_answer_to))]
fn answer_in(case: Case, call: Call) -> Result<(), Refusal>
    ensures { answer_of result ≡ case_answer_to case (asked call) }
{
    let stage = case.stage;
    match call {
        Call::Head(_) => Err(Refusal::WrongStage),
        Call::Pool { pool, units, mark } => refusals::pool_answer(
            case.book, stage, pool, units, mark,
        ),
        Call::Member {
            member,
            contribution,
            a,
            b,
            c,
            d,
        } => refusals::member_answer(case.book, stage, member, contribution, a, b, c, d),
        Call::Round { count, a, b, c, d } => reserves_answer(case, count, a, b, c, d),
        Call::Bid {
            pool,
            member,
            units,
            price,
        } => refusals::bid_answer(case.book, stage, pool, member, units, price),
        Call::Close => refusals::close_answer(stage),
        Call::Allocate { pool, price } => refusals::allocate_answer(case.book, stage, pool, price),
        Call::Tear { pool, price } => refusals::tear_answer(case.book, stage, pool, price),
        Call::Call => refusals::call_answer(case.book, stage),
        Call::Pay { member, amount } => refusals::pay_answer(case.book, stage, member, amount),
        Call::Move { member } => refusals::move_answer(case.book, stage, member),
        Call::Miss { member, price } => refusals::miss_answer(case.book, stage, member, price),
        Call::Finish => refusals::finish_answer(case.book, stage),
        Call::Sale {
            pool,
            member,
            price,
        } => refusals::sale_answer(case.book, stage, pool, member, price),
        Call::Withdraw { member, bid } => refusals::withdraw_answer(case.book, stage, member, bid),
        Call::Unknown => Err(Refusal::Unreadable),
    }
}

// ---- the calls in the place of a case. A function fills its locals with zeros when it is entered, those of every arm too: so each call has one of its own, which is
// not compiled into its caller.

impl Case {
    #[inline(never)]
    fn pool_in_place(&mut self, pool: u8, units: u16, mark: u8)
        ensures { self.new ≡ (outcome_of self.old (some (POOL pool units mark))).case }
    {
        *self = self.pool(pool, units, mark).case;
    }

    #[inline(never)]
    fn member_in_place(&mut self, m: u8, contribution: u32, p: u16, q: u16, r: u16, s: u16)
        ensures { self.new ≡ (outcome_of self.old (some (MEMBER m contribution (p ∷ q ∷ r ∷ s ∷ [])))).case }
    {
        *self = self.member(m, contribution, p, q, r, s).case;
    }

    #[inline(never)]
    fn round_in_place(&mut self, n: u8, p: u32, q: u32, r: u32, s: u32)
        ensures { self.new ≡ (outcome_of self.old (asked (Round n p q r s))).case }
    {
        *self = self.round(n, p, q, r, s).case;
    }

    #[inline(never)]
    fn bid_in_place(&mut self, pool: u8, m: u8, units: u16, price: u32)
        ensures { self.new ≡ (outcome_of self.old (some (BID pool m units price))).case }
    {
        *self = self.bid(pool, m, units, price).case;
    }

    #[inline(never)]
    fn close_in_place(&mut self)
        ensures { self.new ≡ (outcome_of self.old (some CLOSE)).case }
    {
        *self = self.close().case;
    }

    #[inline(never)]
    fn allocate_in_place(&mut self, pool: u8, price: u32)
        ensures { self.new ≡ (outcome_of self.old (some (ALLOCATE pool price))).case }
    {
        *self = self.allocate(pool, price).case;
    }

    #[inline(never)]
    fn tear_in_place(&mut self, pool: u8, price: u32)
        ensures { self.new ≡ (outcome_of self.old (some (TEAR pool price))).case }
    {
        *self = self.tear(pool, price).case;
    }

    #[inline(never)]
    fn call_in_place(&mut self)
        ensures { self.new ≡ (outcome_of self.old (some CALL)).case }
    {
        *self = self.call().case;
    }

    #[inline(never)]
    fn pay_in_place(&mut self, m: u8, amount: u32)
        ensures { self.new ≡ (outcome_of self.old (some (PAY m amount))).case }
    {
        *self = self.pay(m, amount).case;
    }

    #[inline(never)]
    fn move_units_in_place(&mut self, m: u8)
        ensures { self.new ≡ (outcome_of self.old (some (MOVE m))).case }
    {
        *self = self.move_units(m).case;
    }

    #[inline(never)]
    fn miss_in_place(&mut self, m: u8, price: u32)
        ensures { self.new ≡ (outcome_of self.old (some (MISS m price))).case }
    {
        *self = self.miss(m, price).case;
    }

    #[inline(never)]
    fn finish_in_place(&mut self)
        ensures { self.new ≡ (outcome_of self.old (some FINISH)).case }
    {
        *self = self.finish().case;
    }

    #[inline(never)]
    fn sale_in_place(&mut self, pool: u8, m: u8, price: u32)
        ensures { self.new ≡ (outcome_of self.old (some (SALE pool m price))).case }
    {
        *self = self.sale(pool, m, price).case;
    }

    #[inline(never)]
    fn withdraw_in_place(&mut self, m: u8, n: u16)
        ensures { self.new ≡ (outcome_of self.old (some (WITHDRAW m n))).case }
    {
        *self = self.withdraw(m, n).case;
    }
}

// The case that an accepted call leaves in the place of another: HEAD makes a new one, the others are methods of the one held.
fn step(case: &mut Case, call: Call)
    ensures { (present : Bool) → (when present then case_answer_to case.old (asked call) else first_answer_to (asked call)) ≡ 0 → case.new ≡ after_asked case.old (asked call) }
{
    match call {
        Call::Head(head) => *case = Case::new(head),
        Call::Pool { pool, units, mark } => case.pool_in_place(pool, units, mark),
        Call::Member {
            member,
            contribution,
            a,
            b,
            c,
            d,
        } => case.member_in_place(member, contribution, a, b, c, d),
        Call::Round { count, a, b, c, d } => case.round_in_place(count, a, b, c, d),
        Call::Bid {
            pool,
            member,
            units,
            price,
        } => case.bid_in_place(pool, member, units, price),
        Call::Close => case.close_in_place(),
        Call::Allocate { pool, price } => case.allocate_in_place(pool, price),
        Call::Tear { pool, price } => case.tear_in_place(pool, price),
        Call::Call => case.call_in_place(),
        Call::Pay { member, amount } => case.pay_in_place(member, amount),
        Call::Move { member } => case.move_units_in_place(member),
        Call::Miss { member, price } => case.miss_in_place(member, price),
        Call::Finish => case.finish_in_place(),
        Call::Sale {
            pool,
            member,
            price,
        } => case.sale_in_place(pool, member, price),
        Call::Withdraw { member, bid } => case.withdraw_in_place(member, bid),
        Call::Unknown => {}
    }
}

// The case that an accepted call hands back, where one is held and where none is.
pub fn after(case: Case, call: Call) -> Case
    ensures { (present : Bool) → (when present then case_answer_to case (asked call) else first_answer_to (asked call)) ≡ 0 → result ≡ after_asked case (asked call) }
{
    let mut next = case;
    step(&mut next, call);
    next
}

// The case that an accepted call makes where none is held: only HEAD is accepted there, which reads nothing of a case.
#[inline(never)]
fn begun(call: Call) -> Case
    ensures { first_answer_to (asked call) ≡ 0 → result ≡ after_asked empty_case (asked call) }
{
    after(Case::empty(), call)
}

// The same in the place of what is held.
pub fn advance(held: &mut Option<Case>, call: Call)
    ensures { answer_to held.old (asked call) ≡ 0 → held.new ≡ Some (after_asked (case_in held.old) (asked call)) }
{
    match held {
        Some(case) => step(case, call),
        None => *held = Some(begun(call)),
    }
}

// A call taken: "Each gives its number and the unchanged case (none where there was none); 0 is accepted."
pub fn take(held: Option<Case>, call: Call) -> Applied
    ensures { result ≡ take_asked held (asked call) }
{
    match answer_to(held, call) {
        Err(refusal) => Applied {
            answer: refusal.number(),
            held,
        },
        Ok(()) => {
            let mut next = held;
            advance(&mut next, call);
            Applied {
                answer: 0,
                held: next,
            }
        }
    }
}

// One call, from any bytes: an unknown tag, a wrong length or bytes that are no field are answered 1.
#[tactic(auto, unfolding(crate::specs::Cases::applied))]
pub fn apply(held: Option<Case>, bytes: &[u8]) -> Applied
    ensures { result ≡ applied held bytes.now }
{
    take(held, wire::read_call(bytes))
}

// ---- many calls

// Writes at a place, where there is one.
pub fn put<T: Copy>(run: &mut [T], k: usize, x: T)
    ensures { run.new ≡ set run.old k x }
{
    if k < run.len() {
        run[k] = x;
    }
}

// Byte strings taken in turn as calls, with an answer for each where there is room. The loop asks first: a call that is declined copies no case.
pub fn replay(held: Option<Case>, bytes: &[u8], ends: &[usize], answers: &mut [u8]) -> Option<Case>
    ensures { Replays held (strings_in bytes.now ends.now) answers.old answers.new result }
{
    let mut next = held;
    let mut at: usize = 0;
    for (k, place) in ends.iter().enumerate() {
        let end = input::cut_at(at, bytes.len(), *place);
        let call = wire::read_call(&bytes[at..end]);
        at = end;
        match answer_to(next, call) {
            Err(refusal) => put(answers, k, refusal.number()),
            Ok(()) => {
                put(answers, k, 0);
                advance(&mut next, call);
            }
        }
    }
    next
}

// ---- the fields of an input

// The fields at an input's front taken in turn, as many as there is room for answers and for where they end.
pub fn take_fields(
    held: Option<Case>,
    last: bool,
    input: &[u8],
    ends: &mut [usize],
    answers: &mut [u8],
) -> Front
    ensures { TakesFields held last input.now ends.old answers.old ends.new answers.new result }
{
    let count = input::cut(last, input, answers.len(), ends);
    if count == 0 {
        return Front {
            held,
            used: 0,
            count,
        };
    }
    let next = replay(held, input, &ends[0..count], answers);
    Front {
        held: next,
        used: ends[count - 1],
        count,
    }
}

// The fields of a whole input, taken in turn from no case on, as many as there is room for answers.
pub fn run(input: &[u8], answers: &mut [u8]) -> Ran
    ensures { Runs input.now answers.old answers.new result }
{
    let mut held: Option<Case> = None;
    let mut ends = [0usize; 256];
    let mut at: usize = 0;
    let mut count: usize = 0;
    while at < input.len() {
        let front = take_fields(held, true, &input[at..], &mut ends, &mut answers[count..]);
        if front.count == 0 {
            break;
        }
        held = front.held;
        at += front.used;
        count += front.count;
    }
    Ran { count, held }
}
