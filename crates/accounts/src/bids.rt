// The bids kept, in flat arrays: "A case keeps at most 256 bids, numbered from 0 as accepted."
ghost use Rattle.std.specs.Prelude.{◌≡◌, ◌<◌, [], ◌∷◌, ◌+◌, ◌-◌, ◌*◌, min, get_or};
ghost use Rattle.lists.specs.Lists.{when◌then◌else◌};
ghost use Rattle.accounts.specs.Bids.{no_bids, put_bid, in_round_at, in_auction_at, stands_for, withdraw_bid, units_in, wins_of, with_wins, won_table, gain_table};

use lists::Width;
use std::array;

#[derive(Clone, Copy)]
pub struct Bids {
    pub kept: usize,
    pub round: [u8; 256],
    pub pool: [u8; 256],
    pub member: [u8; 256],
    pub units: [u16; 256],
    pub price: [u32; 256],
    pub won: [u16; 256],
    pub stands: [bool; 256],
}

// "units won × (price − worst reserve)" of one bid.
fn gain(won: u16, price: u32, worst: u32) -> u64
    ensures { result ≡ won * (price - worst) }
{
    u64::from(won) * u64::from(price.saturating_sub(worst))
}

impl Bids {
    // "at most 256 bids"
    pub const MOST: usize = 256;

    // No bid.
    pub fn new() -> Bids
        ensures { result ≡ no_bids }
    {
        Bids {
            kept: 0,
            round: [0u8; 256],
            pool: [0u8; 256],
            member: [0u8; 256],
            units: [0u16; 256],
            price: [0u32; 256],
            won: [0u16; 256],
            stands: [false; 256],
        }
    }

    // One bid more, which stands and has won nothing; unchanged where 256 are kept.
    pub fn put(self, round: u8, pool: u8, member: u8, units: u16, price: u32) -> Bids
        ensures { result ≡ put_bid self round pool member units price }
    {
        let n = self.kept;
        if Bids::MOST <= n {
            return self;
        }
        let mut out = self;
        out.round[n] = round;
        out.pool[n] = pool;
        out.member[n] = member;
        out.units[n] = units;
        out.price[n] = price;
        out.won[n] = 0;
        out.stands[n] = true;
        out.kept = n + 1;
        out
    }

    // Whether the bid at a place is kept, stands and is of the round.
    fn in_round(&self, round: u8, i: usize) -> bool
        requires { i < 256 }
        ensures { result ≡ in_round_at self.now round i }
    {
        i < self.kept && lists::both(self.stands[i], self.round[i] == round)
    }

    // The units of the bid at a place where it stands in a round in a pool, else 0.
    fn units_at(&self, round: u8, pool: u8, i: usize) -> u64
        requires { i < 256 }
        ensures { result ≡ (when in_auction_at self.now round pool i then get_or self.now.units i 0 else 0) }
    {
        if self.in_round(round, i) && self.pool[i] == pool {
            u64::from(self.units[i])
        } else {
            0
        }
    }

    // Whether a bid of a member that stands in a round has the number.
    pub fn stands_for(self, round: u8, member: u8, n: u16) -> bool
        ensures { result ≡ stands_for self round member n }
    {
        let i = usize::from(n);
        i < Bids::MOST && self.in_round(round, i) && self.member[i] == member
    }

    // The bid with the number no longer stands; it keeps its place.
    pub fn withdraw(self, n: u16) -> Bids
        ensures { result ≡ withdraw_bid self n }
    {
        let i = usize::from(n);
        let mut out = self;
        if i < Bids::MOST {
            out.stands[i] = false;
        }
        out
    }

    // The units of the bids that stand in a round in a pool, and 0 for the others.
    fn units_in(&self, round: u8, pool: u8) -> [u64; 256]
        ensures { result ≡ units_in self.now round pool }
    {
        array::from_fn(|i| self.units_at(round, pool, i))
    }

    // What the bids that stand in a round win of a pool's open units, each at its place, and 0 for the others.
    pub fn wins(self, round: u8, pool: u8, open_units: u16, reserve: u32) -> [u64; 256]
        ensures { result ≡ wins_of self round pool open_units reserve }
    {
        let units = self.units_in(round, pool);
        let mut won = [0u64; 256];
        let _ = auction::allot(
            u64::from(open_units),
            reserve,
            &units,
            &self.price,
            &mut won,
        );
        won
    }

    // The bids that stand in a round with the units that they won, from what is won in pools 0 to 3.
    pub fn take_wins(
        self,
        round: u8,
        a: [u64; 256],
        b: [u64; 256],
        c: [u64; 256],
        d: [u64; 256],
    ) -> Bids
        ensures { result ≡ with_wins self round (a ∷ b ∷ c ∷ d ∷ []) }
    {
        let mut out = self;
        for (i, won) in out.won.iter_mut().enumerate() {
            if self.in_round(round, i) {
                let wins = [a[i], b[i], c[i], d[i]];
                *won = u16::narrow(wins.get(usize::from(self.pool[i])).copied().unwrap_or(0));
            }
        }
        out
    }

    // The units won by member and pool.
    pub fn won_table(self) -> [u16; 128]
        ensures { result ≡ won_table self }
    {
        let mut out = [0u16; 128];
        for i in 0..self.kept.min(Bids::MOST) {
            let at = 4 * usize::from(self.member[i]) + usize::from(self.pool[i]);
            lists::add_at(&mut out, at, self.won[i]);
        }
        out
    }

    // D by member.
    pub fn gain_table(self, worsts: [u32; 4]) -> [u64; 32]
        ensures { result ≡ gain_table self worsts }
    {
        let mut out = [0u64; 32];
        for i in 0..self.kept.min(Bids::MOST) {
            let worst = worsts.get(usize::from(self.pool[i])).copied().unwrap_or(0);
            let gained = gain(self.won[i], self.price[i], worst);
            lists::add_at(&mut out, usize::from(self.member[i]), gained);
        }
        out
    }
}
