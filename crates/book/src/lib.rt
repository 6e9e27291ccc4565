// The book of a case (documents 01 and 02): all but its stage. It says how each call changes it, what is called and what is charged.
#![tactic(auto)]

ghost use Rattle.std.specs.Prelude.{◌≡◌, ℕ, ◌≤◌, get_or};
ghost use Rattle.lists.specs.Lists.{sum};
ghost use Rattle.lists.specs.Adding.{most16};
ghost use Rattle.accounts.specs.Members.{shortfalls_of};
ghost use Rattle.book.specs.Stages.{letter_of, round_of, next_round};
ghost use Rattle.book.specs.Books.{open_in, opened_in, any_open_in, sold_pools, passed_in, prices_in, too_dear_in, requirement_in, contributions_in, prefunded_in, short_in, allocation_in, calls_in, wins_in};
ghost use Rattle.book.specs.Books.{new_book, pool_book, member_book, round_book, bid_book, close_book, allocate_book, tear_book, call_book, pay_book, move_book, miss_book, sale_book, withdraw_book};
ghost use Rattle.book.specs.Results.{limits_in, ranks_in, result_in};

use accounts::bids::Bids;
use accounts::members::Members;
use accounts::pools::Pools;
use accounts::rounds::Rounds;
use units::Units;
use wire::{Call, Head};

// "S setup, B bidding, A after a round (B and A in round 1 or 2), C calls out, F finished"
#[derive(Clone, Copy)]
pub enum Stage {
    Setup,
    Bidding(u8),
    After(u8),
    CallsOut,
    Finished,
}

#[derive(Clone, Copy)]
pub struct Book {
    pub head: Head,
    pub pools: Pools,
    pub members: Members,
    pub rounds: Rounds,
    pub bids: Bids,
    pub units: Units,
}

// What FINISH gives: the loss, the six charges, the uncovered rest, and of each of the 32 places its rank and its charges.
#[derive(Clone, Copy)]
pub struct Result {
    pub loss: u64,
    pub charges: [u64; 6],
    pub uncovered: u64,
    pub ranks: [u8; 32],
    pub contributions: [u64; 32],
    pub payments: [u64; 32],
}

// ---- the stage

// The letter of a stage: S 1, B 2, A 3, C 4, F 5.
#[tactic(auto, unfolding(machine::specs::State::letter))]
pub fn letter(stage: Stage) -> u8
    ensures { result ≡ letter_of stage }
{
    match stage {
        Stage::Setup => 1,
        Stage::Bidding(_) => 2,
        Stage::After(_) => 3,
        Stage::CallsOut => 4,
        Stage::Finished => 5,
    }
}

// The round of a stage, and 0 outside the rounds.
#[tactic(auto, unfolding(machine::specs::State::round_of))]
pub fn round_of(stage: Stage) -> u8
    ensures { result ≡ round_of stage }
{
    match stage {
        Stage::Setup => 0,
        Stage::Bidding(round) => round,
        Stage::After(round) => round,
        Stage::CallsOut => 0,
        Stage::Finished => 0,
    }
}

// The number of the next round.
#[tactic(auto, unfolding(crate::specs::Stages::next_round))]
pub fn next_round(round: u8) -> u8
    ensures { result ≡ next_round round }
{
    round.saturating_add(1)
}

// The total shortfall of a pool.
pub fn total_shortfall(
    set: u32,
    expected: [u16; 128],
    won: [u16; 128],
    allocated: [u16; 128],
    pool: u8,
) -> u64
    ensures { result ≡ sum (shortfalls_of set expected won allocated pool) }
{
    accounts::members::shortfalls(set, expected, won, allocated, pool)
        .iter()
        .sum()
}

impl Book {
    // HEAD: the book of a new case.
    #[tactic(auto, unfolding(crate::specs::Books::new_book))]
    pub fn new(head: Head) -> Book
        ensures { result ≡ new_book head }
    {
        Book {
            head,
            pools: Pools::new(),
            members: Members::new(),
            rounds: Rounds::new(),
            bids: Bids::new(),
            units: Units::new(),
        }
    }

    // ---- what is read of it

    // The open units of a pool.
    pub fn open_units(self, pool: u8) -> u16
        ensures { result ≡ open_in self pool }
    {
        self.units.open_units(pool)
    }

    // In which pools a unit is open.
    fn opened(self) -> [bool; 4]
        ensures { result ≡ opened_in self }
    {
        [
            0 < self.open_units(0),
            0 < self.open_units(1),
            0 < self.open_units(2),
            0 < self.open_units(3),
        ]
    }

    // Whether any unit is open.
    pub fn any_open(self) -> bool
        ensures { result ≡ any_open_in self }
    {
        self.opened().iter().any(|open| *open)
    }

    // Which pools were sold by agreement.
    pub fn sold_pools(self) -> [bool; 4]
        ensures { result ≡ sold_pools self }
    {
        [
            0 < self.units.agreed_units(0),
            0 < self.units.agreed_units(1),
            0 < self.units.agreed_units(2),
            0 < self.units.agreed_units(3),
        ]
    }

    // The units allocated or moved to a member.
    pub fn passed(self, m: u8) -> u64
        ensures { result ≡ passed_in self m }
    {
        self.units.passed(m)
    }

    // The sum of the prices of all units not open, as cents + 4,000,000,000.
    pub fn prices(self) -> u64
        ensures { (result ≡ prices_in self) × (result ≤ 17179869180) }
    {
        self.units.prices()
    }

    // Whether a SALE of a pool at a price is too dear: "hedge loss + other loss − the prices of all units so sold, this pool's included, passes margin and
    // defaulter's fund together". In setup no other units have left. Both sides are added up, so that nothing is negative. It is compiled in place, since the book
    // would else be copied where a SALE is declined.
    #[inline(always)]
    pub fn too_dear(self, pool: u8, price: u32) -> bool
        ensures { result ≡ too_dear_in self pool price }
    {
        let n = u64::from(self.open_units(pool));
        let funds = u64::from(self.head.margin) + u64::from(self.head.fund);
        let losses = u64::from(self.head.hedge) + u64::from(self.head.other);
        funds + self.prices() + n * u64::from(price) < losses + Units::ZERO_PRICES + n * 1_000_000
    }

    // The requirement: "hedge loss + other loss − the prices of all units not open, at least 0".
    #[tactic(auto, unfolding(crate::specs::Books::requirement_in))]
    pub fn requirement(self) -> u64
        ensures { result ≡ requirement_in self }
    {
        let losses = u64::from(self.head.hedge) + u64::from(self.head.other);
        (losses + Units::ZERO_PRICES).saturating_sub(self.prices())
    }

    // "all contributions"
    #[tactic(auto, unfolding(crate::specs::Books::contributions_in))]
    pub fn contributions(self) -> u64
        ensures { result ≡ contributions_in self }
    {
        accounts::members::amounts(self.head.set, self.members.contribution)
    }

    // "margin, defaulter's fund, house money and all contributions added"
    pub fn prefunded(self) -> u64
        ensures { result ≡ prefunded_in self }
    {
        let funds = accounts::members::amounts(self.head.set, self.members.contribution);
        u64::from(self.head.margin) + u64::from(self.head.fund) + u64::from(self.head.house) + funds
    }

    // The total shortfall of a pool.
    #[tactic(auto, unfolding(crate::specs::Books::short_in))]
    pub fn short(self, pool: u8) -> u64
        ensures { result ≡ short_in self pool }
    {
        total_shortfall(
            self.head.set,
            self.members.expected,
            self.members.won,
            self.members.allocated,
            pool,
        )
    }

    // ALLOCATE: each member's share of the pool's open units.
    pub fn allocation(self, pool: u8) -> [u16; 32]
        ensures { result ≡ allocation_in self pool }
    {
        let weights = accounts::members::shortfalls(
            self.head.set,
            self.members.expected,
            self.members.won,
            self.members.allocated,
            pool,
        );
        let q = u64::from(self.open_units(pool)).min(self.short(pool));
        let mut shares = [0u64; 32];
        let _ = splitting::split(q, &weights, &mut shares);
        accounts::members::narrowed(shares)
    }

    // CALL: each member's call.
    pub fn calls(self) -> [u32; 32]
        ensures { result ≡ calls_in self }
    {
        let weights = accounts::members::widened(self.members.contribution);
        let lack = self.requirement().saturating_sub(self.prefunded());
        let q = lack.min(self.contributions());
        let mut shares = [0u64; 32];
        let _ = splitting::split(q, &weights, &mut shares);
        accounts::members::narrowed(shares)
    }

    // ---- how each call changes it

    // POOL
    #[tactic(auto, unfolding(crate::specs::Books::pool_book))]
    pub fn take_pool(self, pool: u8, units: u16, mark: u8) -> Book
        ensures { result ≡ pool_book self pool units mark }
    {
        Book {
            pools: self.pools.put(units, mark),
            units: self.units.put_up(pool, units),
            ..self
        }
    }

    // MEMBER
    #[tactic(auto, unfolding(crate::specs::Books::member_book))]
    pub fn take_member(self, m: u8, contribution: u32, p: u16, q: u16, r: u16, s: u16) -> Book
        ensures { result ≡ member_book self m contribution p q r s }
    {
        Book {
            members: self.members.put(m, contribution, p, q, r, s),
            ..self
        }
    }

    // ROUND
    #[tactic(auto, unfolding(crate::specs::Books::round_book))]
    pub fn take_round(self, p: u32, q: u32, r: u32, s: u32) -> Book
        ensures { result ≡ round_book self p q r s }
    {
        Book {
            rounds: self.rounds.put([p, q, r, s], self.opened()),
            ..self
        }
    }

    // BID
    #[tactic(auto, unfolding(crate::specs::Books::bid_book))]
    pub fn take_bid(self, round: u8, pool: u8, m: u8, units: u16, price: u32) -> Book
        ensures { result ≡ bid_book self round pool m units price }
    {
        Book {
            bids: self.bids.put(round, pool, m, units, price),
            ..self
        }
    }

    // What each bid of a round wins of a pool's open units.
    fn wins(self, round: u8, pool: u8) -> [u64; 256]
        ensures { result ≡ wins_in self round pool }
    {
        let reserve = self.rounds.reserve(round, pool);
        self.bids.wins(round, pool, self.open_units(pool), reserve)
    }

    // CLOSE
    #[tactic(auto, unfolding(crate::specs::Books::close_book))]
    pub fn take_close(self, round: u8) -> Book
        ensures { result ≡ close_book self round }
    {
        let bids = self.bids.take_wins(
            round,
            self.wins(round, 0),
            self.wins(round, 1),
            self.wins(round, 2),
            self.wins(round, 3),
        );
        let units = self.units.sell(
            bids.kept,
            round,
            &bids.round,
            &bids.pool,
            &bids.price,
            &bids.won,
        );
        Book {
            members: self.members.win(bids.won_table()),
            bids,
            units,
            ..self
        }
    }

    // ALLOCATE
    #[tactic(auto, unfolding(crate::specs::Books::allocate_book))]
    pub fn take_allocate(self, pool: u8, price: u32) -> Book
        ensures { result ≡ allocate_book self pool price }
    {
        let shares = self.allocation(pool);
        Book {
            members: self.members.allocate(self.head.set, pool, shares),
            units: self.units.allocate(self.head.set, pool, price, &shares),
            ..self
        }
    }

    // TEAR
    #[tactic(auto, unfolding(crate::specs::Books::tear_book))]
    pub fn take_tear(self, pool: u8, price: u32) -> Book
        ensures { result ≡ tear_book self pool price }
    {
        Book {
            units: self.units.tear(pool, price),
            ..self
        }
    }

    // SALE
    #[tactic(auto, unfolding(crate::specs::Books::sale_book))]
    pub fn take_sale(self, pool: u8, m: u8, price: u32) -> Book
        ensures { result ≡ sale_book self pool m price }
    {
        Book {
            units: self.units.sell_pool(pool, m, price),
            ..self
        }
    }

    // WITHDRAW
    #[tactic(auto, unfolding(crate::specs::Books::withdraw_book))]
    pub fn take_withdraw(self, n: u16) -> Book
        ensures { result ≡ withdraw_book self n }
    {
        Book {
            bids: self.bids.withdraw(n),
            ..self
        }
    }

    // CALL
    #[tactic(auto, unfolding(crate::specs::Books::call_book))]
    pub fn take_call(self) -> Book
        ensures { result ≡ call_book self }
    {
        Book {
            members: self.members.call(self.calls()),
            ..self
        }
    }

    // PAY
    #[tactic(auto, unfolding(crate::specs::Books::pay_book))]
    pub fn take_pay(self, m: u8, amount: u32) -> Book
        ensures { result ≡ pay_book self m amount }
    {
        Book {
            members: self.members.pay(m, amount),
            ..self
        }
    }

    // MOVE
    #[tactic(auto, unfolding(crate::specs::Books::move_book))]
    pub fn take_move(self, m: u8) -> Book
        ensures { result ≡ move_book self m }
    {
        let owed = self.members.owes(m);
        Book {
            members: self.members.move_out(m),
            units: self
                .units
                .move_to(m, owed, &self.bids.price, &self.bids.pool),
            ..self
        }
    }

    // MISS
    #[tactic(auto, unfolding(crate::specs::Books::miss_book))]
    pub fn take_miss(self, m: u8, price: u32) -> Book
        ensures { result ≡ miss_book self m price }
    {
        Book {
            units: self.units.miss(m, price),
            ..self
        }
    }

    // ---- what FINISH charges

    // The six limits, in the order in which they are charged.
    #[tactic(auto, unfolding(crate::specs::Results::limits_in))]
    pub fn limits(self) -> [u64; 6]
        ensures { result ≡ limits_in self }
    {
        let house = u64::from(self.head.house);
        let first = 3 * house / 5;
        [
            u64::from(self.head.margin),
            u64::from(self.head.fund),
            first,
            self.contributions(),
            house - first,
            accounts::members::amounts(self.head.set, self.members.paid),
        ]
    }

    // Each place's rank.
    #[tactic(auto, unfolding(crate::specs::Results::ranks_in))]
    pub fn ranks(self) -> [u8; 32]
        ensures { result ≡ ranks_in self }
    {
        let gains = self.bids.gain_table(self.rounds.worsts());
        let w = accounts::members::over_pools(self.members.won);
        let counted = accounts::members::without_pools(self.members.expected, self.sold_pools());
        let e = accounts::members::over_pools(counted);
        waterfall::ranks(gains, w, e, self.head.set)
    }

    // The loss, the charges and the ranks.
    pub fn result(self) -> Result
        ensures { result ≡ result_in self }
    {
        let loss = self.requirement();
        let charged = waterfall::charge_layers(loss, self.limits());
        let charges = charged.charges;
        let ranks = self.ranks();
        let funds = accounts::members::widened(self.members.contribution);
        let contributions = waterfall::charge_by_rank(charges[3], ranks, funds, self.head.set);
        let weights = accounts::members::widened(self.members.paid);
        let mut payments = [0u64; 32];
        let _ = splitting::split(charges[5], &weights, &mut payments);
        Result {
            loss,
            charges,
            uncovered: charged.rest,
            ranks,
            contributions,
            payments,
        }
    }
}
