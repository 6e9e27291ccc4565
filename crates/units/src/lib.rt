// The units of a case (documents 01 and 02), counted at 780 places, each for units that are alike: the open units of a pool, those allocated or moved to a member in a
// pool, those sold to a bid, those torn up, by where they came from, and those sold by agreement. A unit changes by passing from one place to another.
#![tactic(auto)]

ghost use Rattle.std.specs.Prelude.{◌≡◌, cond, ◌+◌, ◌-◌, ◌*◌, ◌<◌, ◌≤◌, min, get_or};
ghost use Rattle.auction.specs.Price.{zero_price};
ghost use Rattle.units.specs.Steps.{no_units, transferred, repriced, with_counts, put_up_units, sell_units, allocate_units, noted_at, tear_units, miss_units, sale_units};
ghost use Rattle.units.specs.Groups.{pool_at, move_units};
ghost use Rattle.units.specs.Shown.{open_of, agreed_of, buyer_of, sale_price_of, column, sold_in, count_of, sold_for, holding_of, passed_of, sum_of, prices_of};

use lists::Width;

// `counts`: 0 to 3 the open units of a pool; from 4 on those allocated to member m in pool p, at 4 × m + p; from 132 on those sold to a bid; from 388 on those
// moved to a member; from 516 on those torn up that were open or allocated, and from 648 on those that were moved; from 776 on those of a pool sold by agreement.
// `sums`: the sum of the prices of a pool's units that are not open, as cents + 1,000,000,000.
// `allocation`: the price of a pool's ALLOCATE. `noted`: the prices of the places from 516 on. `buyers`: the member to whom a pool was sold by agreement.
#[derive(Clone, Copy)]
pub struct Units {
    pub counts: [u16; 780],
    pub sums: [u32; 4],
    pub allocation: [u32; 4],
    pub noted: [u32; 264],
    pub buyers: [u8; 4],
}

// ---- units that pass from place to place

// n units of one place counted at another.
fn transfer(counts: &mut [u16; 780], from: usize, to: usize, n: u16)
    requires { from < 780 }
    ensures { counts.new ≡ transferred counts.old from to n }
{
    counts[from] = counts[from].saturating_sub(n);
    lists::add_at(counts, to, n);
}

// The sum of a pool's prices where n units have a new price in place of an old one.
fn reprice(sums: &mut [u32; 4], pool: usize, n: u16, old: u32, new: u32)
    requires { pool < 4 }
    ensures { sums.new ≡ repriced sums.old pool n old new }
{
    let gained = u64::from(sums[pool]) + u64::from(n) * u64::from(new);
    let lost = u64::from(n) * u64::from(old);
    sums[pool] = u32::narrow(gained.saturating_sub(lost));
}

// All units of a place counted at the place `to` from now on, where their price is noted; `old` was their price.
fn noted_at(u: Units, k: usize, to: usize, old: u32, price: u32) -> Units
    requires { (k < 516) × (516 ≤ to) × (to < 780) }
    ensures { result ≡ noted_at u k to old price }
{
    let mut out = u;
    let n = out.counts[k];
    transfer(&mut out.counts, k, to, n);
    reprice(&mut out.sums, k % 4, n, old, price);
    if n == 0 {
        return out;
    }
    out.noted[to - 516] = price;
    out
}

// MISS in one pool.
fn missed_in(u: Units, m: usize, pool: usize, price: u32) -> Units
    requires { (m < 32) × (pool < 4) }
    ensures { result ≡ noted_at (noted_at u (4 + (4 * m + pool)) (520 + (4 * m + pool)) (get_or u.allocation pool 0) price) (388 + (4 * m + pool)) (648 + (4 * m + pool)) zero_price price }
{
    let k = 4 * m + pool;
    let old = u.allocation[pool];
    let next = noted_at(u, 4 + k, 520 + k, old, price);
    noted_at(next, 388 + k, 648 + k, 1_000_000, price)
}

// The pool of the units at place j of the 384 from 4 on; the pools of the bids are lent.
fn pool_at(pools: &[u8; 256], j: usize) -> usize
    requires { j < 384 }
    ensures { (result ≡ pool_at pools.now j) × (result < 4) }
{
    if j < 128 {
        j % 4
    } else {
        usize::from(pools[j - 128]).min(3)
    }
}

// ---- what is added up

// n counts, each four places behind the last.
fn column_of(counts: &[u16; 780], first: usize, n: usize) -> u64
    requires { first + 4 * n ≤ 779 }
    ensures { result ≡ column counts.now first n }
{
    let mut sum = 0;
    for r in 0..n {
        sum += u64::from(counts[first + 4 * r]);
    }
    sum
}

// The units still sold to the bids that have a pool; the pools of the bids are lent.
fn sold_in(counts: &[u16; 780], pools: &[u8; 256], pool: u8) -> u64
    ensures { (result ≡ sold_in counts.now pools.now pool) × (result ≤ 16776960) }
{
    let mut sum = 0;
    for b in 0..256 {
        sum += lists::number_if(pools[b] == pool, u64::from(counts[132 + b]));
    }
    sum
}

// The units still sold to a member's bids in a pool at a price; the members, pools and prices of the bids are lent.
fn sold_for(
    counts: &[u16; 780],
    members: &[u8; 256],
    pools: &[u8; 256],
    prices: &[u32; 256],
    m: u8,
    pool: u8,
    price: u32,
) -> u64
    ensures { (result ≡ sold_for counts.now members.now pools.now prices.now m pool price) × (result ≤ 16776960) }
{
    let mut sum = 0;
    for b in 0..256 {
        let here = lists::both(
            lists::both(members[b] == m, pools[b] == pool),
            prices[b] == price,
        );
        sum += lists::number_if(here, u64::from(counts[132 + b]));
    }
    sum
}

impl Units {
    // What the sum of a pool's prices is held as where it is 0 cents, and that over the four pools.
    pub const ZERO_SUM: u32 = 1_000_000_000;

    pub const ZERO_PRICES: u64 = 4_000_000_000;

    // No unit.
    pub fn new() -> Units
        ensures { result ≡ no_units }
    {
        Units {
            counts: [0u16; 780],
            sums: [1_000_000_000u32; 4],
            allocation: [0u32; 4],
            noted: [0u32; 264],
            buyers: [0u8; 4],
        }
    }

    // ---- the calls that change units

    // POOL: n units of the pool put up; unchanged where no case has such a pool.
    pub fn put_up(self, pool: u8, n: u16) -> Units
        ensures { result ≡ put_up_units self pool n }
    {
        if 4 <= pool {
            return self;
        }
        let mut out = self;
        lists::add_at(&mut out.counts, usize::from(pool), n);
        out
    }

    // CLOSE: each bid kept of the round gets the units that it won from the open ones of its pool. The bids' rounds, pools, prices and units won are lent.
    pub fn sell(
        self,
        kept: usize,
        round: u8,
        rounds: &[u8; 256],
        pools: &[u8; 256],
        prices: &[u32; 256],
        won: &[u16; 256],
    ) -> Units
        ensures { result ≡ sell_units self kept round rounds.now pools.now prices.now won.now }
    {
        let mut counts = self.counts;
        let mut sums = self.sums;
        for b in 0..kept.min(256) {
            let n = if rounds[b] == round { won[b] } else { 0 };
            let pool = usize::from(pools[b]).min(3);
            transfer(&mut counts, pool, 132 + b, n);
            reprice(&mut sums, pool, n, 1_000_000, prices[b]);
        }
        Units {
            counts,
            sums,
            ..self
        }
    }

    // ALLOCATE: each member of the set gets its share of the open units of the pool, at the price. The shares are lent.
    pub fn allocate(self, set: u32, pool: u8, price: u32, shares: &[u16; 32]) -> Units
        ensures { result ≡ allocate_units self set pool price shares.now }
    {
        if 4 <= pool {
            return self;
        }
        let at = usize::from(pool);
        let mut counts = self.counts;
        let mut sums = self.sums;
        for m in sets::members_of(set) {
            let m = usize::from(m);
            let n = shares[m];
            transfer(&mut counts, at, 4 + (4 * m + at), n);
            reprice(&mut sums, at, n, 1_000_000, price);
        }
        let mut out = Units {
            counts,
            sums,
            ..self
        };
        out.allocation[at] = price;
        out
    }

    // TEAR: every open unit of the pool torn up at the price; unchanged where no case has such a pool.
    pub fn tear(self, pool: u8, price: u32) -> Units
        ensures { result ≡ tear_units self pool price }
    {
        if 4 <= pool {
            return self;
        }
        let at = usize::from(pool);
        noted_at(self, at, 516 + at, 1_000_000, price)
    }

    // SALE: every open unit of the pool sold to the member at the price; unchanged where no case has such a pool.
    pub fn sell_pool(self, pool: u8, member: u8, price: u32) -> Units
        ensures { result ≡ sale_units self pool member price }
    {
        if 4 <= pool {
            return self;
        }
        let at = usize::from(pool);
        let mut sold = self;
        sold.buyers[at] = member;
        noted_at(sold, at, 776 + at, 1_000_000, price)
    }

    // MISS: every unit allocated or moved to the member torn up at the price; unchanged where no set has such a member.
    pub fn miss(self, member: u8, price: u32) -> Units
        ensures { result ≡ miss_units self member price }
    {
        if 32 <= member {
            return self;
        }
        let m = usize::from(member);
        let mut out = self;
        for pool in 0..4 {
            out = missed_in(out, m, pool, price);
        }
        out
    }

    // MOVE: units pass to the member, those of one place at once, until their old prices together have saved what it owes or none may move. The bids' prices
    // and pools are lent.
    pub fn move_to(self, member: u8, owed: u64, prices: &[u32; 256], pools: &[u8; 256]) -> Units
        ensures { result ≡ move_units self prices.now pools.now member owed }
    {
        let mut counts = self.counts;
        let mut sums = self.sums;
        let mut keys = turns::live_keys(&counts, &self.allocation, prices);
        let mut left = owed;
        for _ in 0..keys.len() {
            let key = turns::least_key(&keys);
            if lists::either(left == 0, turns::NO_KEY <= key) {
                return Units {
                    counts,
                    sums,
                    ..self
                };
            }
            let j = turns::key_place(key);
            let pool = pool_at(pools, j);
            let price = turns::key_price(key);
            let saving = 1_000_000_u64.saturating_sub(u64::from(price));
            let n = turns::units_needed(counts[4 + j], left, saving);
            transfer(
                &mut counts,
                4 + j,
                388 + (4 * usize::from(member) + pool),
                n,
            );
            reprice(&mut sums, pool, n, price, 1_000_000);
            keys[j] = turns::NO_KEY;
            left = left.saturating_sub(u64::from(n) * saving);
        }
        Units {
            counts,
            sums,
            ..self
        }
    }

    // ---- what is read of them

    // The open units of a pool. A place that is a number in the text is read without a copy of all counts.
    pub fn open_units(self, pool: u8) -> u16
        ensures { result ≡ open_of self pool }
    {
        match pool {
            0 => self.counts[0],
            1 => self.counts[1],
            2 => self.counts[2],
            3 => self.counts[3],
            _ => 0,
        }
    }

    // The units of a pool sold by agreement. A place that is a number in the text is read without a copy of all counts.
    pub fn agreed_units(self, pool: u8) -> u16
        ensures { result ≡ agreed_of self pool }
    {
        match pool {
            0 => self.counts[776],
            1 => self.counts[777],
            2 => self.counts[778],
            3 => self.counts[779],
            _ => 0,
        }
    }

    // The member to whom a pool was sold by agreement.
    pub fn buyer(self, pool: u8) -> u8
        ensures { result ≡ buyer_of self pool }
    {
        self.buyers.get(usize::from(pool)).copied().unwrap_or(0)
    }

    // The price at which a pool was sold by agreement.
    pub fn sale_price(self, pool: u8) -> u32
        ensures { result ≡ sale_price_of self pool }
    {
        match pool {
            0 => self.noted[260],
            1 => self.noted[261],
            2 => self.noted[262],
            3 => self.noted[263],
            _ => 0,
        }
    }

    // How many units of a pool are open (0), sold (1), allocated (2), moved (3) or torn (4). The pools of the bids are lent.
    pub fn count(self, pool: u8, kind: u8, pools: &[u8; 256]) -> u64
        ensures { result ≡ count_of self pools.now pool kind }
    {
        if 4 <= pool {
            return 0;
        }
        let at = usize::from(pool);
        match kind {
            0 => column_of(&self.counts, at, 1),
            1 => sold_in(&self.counts, pools, pool) + u64::from(self.agreed_units(pool)),
            2 => column_of(&self.counts, 4 + at, 32),
            3 => column_of(&self.counts, 388 + at, 32),
            4 => column_of(&self.counts, 516 + at, 65),
            _ => 0,
        }
    }

    // The units of a pool that a member holds at a price. The members, pools and prices of the bids are lent.
    pub fn holding(
        self,
        m: u8,
        pool: u8,
        price: u32,
        members: &[u8; 256],
        pools: &[u8; 256],
        prices: &[u32; 256],
    ) -> u64
        ensures { result ≡ holding_of self members.now pools.now prices.now m pool price }
    {
        if 4 <= pool {
            return 0;
        }
        if 32 <= m {
            return 0;
        }
        let at = usize::from(pool);
        let k = 4 * usize::from(m) + at;
        let sold = sold_for(&self.counts, members, pools, prices, m, pool, price);
        let allocated = lists::number_if(
            self.allocation[at] == price,
            u64::from(self.counts[4 + k]),
        );
        let moved = lists::number_if(price == 1_000_000, u64::from(self.counts[388 + k]));
        let here = lists::both(self.buyer(pool) == m, self.sale_price(pool) == price);
        let agreed = lists::number_if(here, u64::from(self.agreed_units(pool)));
        sold + allocated + moved + agreed
    }

    // The units allocated or moved to a member.
    pub fn passed(self, m: u8) -> u64
        ensures { result ≡ passed_of self m }
    {
        if 32 <= m {
            return 0;
        }
        let k = 4 * usize::from(m);
        let counts = self.counts;
        let allocated = four(counts[4 + k], counts[5 + k], counts[6 + k], counts[7 + k]);
        let moved = four(
            counts[388 + k],
            counts[389 + k],
            counts[390 + k],
            counts[391 + k],
        );
        allocated + moved
    }

    // The sum of the prices of a pool's units not open, as cents + 1,000,000,000.
    pub fn prices_in(self, pool: u8) -> u32
        ensures { result ≡ sum_of self pool }
    {
        self.sums
            .get(usize::from(pool))
            .copied()
            .unwrap_or(Units::ZERO_SUM)
    }

    // The sum of the prices of all units not open, as cents + 4,000,000,000: at most four times what 32 bits hold.
    pub fn prices(self) -> u64
        ensures { (result ≡ prices_of self) × (result ≤ 17179869180) }
    {
        let [a, b, c, d] = self.sums;
        u64::from(a) + u64::from(b) + u64::from(c) + u64::from(d)
    }
}

// Four counts added up.
fn four(a: u16, b: u16, c: u16, d: u16) -> u64
    ensures { (result ≡ a + b + c + d) × (result < 262144) }
{
    u64::from(a) + u64::from(b) + u64::from(c) + u64::from(d)
}
