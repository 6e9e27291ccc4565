// The auction (document 01, CLOSE): open units are allotted to bids, the highest prices first. A price is held as its cents + 1,000,000.
#![tactic(auto)]

ghost use Rattle.std.specs.Prelude.{◌≡◌, cond, ◌<◌, ◌≤◌, min, leb, length, get_or};
ghost use Rattle.lists.specs.Refusals.{answer_of};
ghost use Rattle.lists.specs.Lists.{between, all};
ghost use Rattle.splitting.specs.Limits.{Answer};
ghost use Rattle.auction.specs.Price.{price_limit, price_ok};
ghost use Rattle.auction.specs.Auction.{allot};
ghost use Rattle.auction.specs.Limits.{unit_limit, bid_limit, place_limit, refusal, allot_into};
ghost use Rattle.auction.specs.Lent.{held, alone_lent};
ghost use Rattle.auction.specs.Gathered.{gathered, alone_over};
ghost use Rattle.auction.specs.Edge.{BidsFit, Ready, from, Edge, below_at, below, settled};

use lists::refusal::{Refusal, decline_if};

// The most bids of an auction that is run alone, and the most places of one that is not; the most units that are open or bid; the highest price.
pub const BID_LIMIT: usize = 256;

pub const PLACE_LIMIT: usize = 258;

pub const UNIT_LIMIT: u64 = 1_000;

pub const PRICE_LIMIT: u32 = 2_000_000;

// Whether each bid has from `least` to UNIT_LIMIT units.
fn units_fit(least: u64, units: &[u64]) -> bool
    ensures { result ≡ all (between least unit_limit) units.now }
{
    units.iter().all(|n| least <= *n && *n <= UNIT_LIMIT)
}

// Whether each price is within its limit.
fn prices_fit(prices: &[u32]) -> bool
    ensures { result ≡ all price_ok prices.now }
{
    prices.iter().all(|p| *p <= PRICE_LIMIT)
}

// The open units of a pool, its reserve, and the bids on them.
#[derive(Clone, Copy)]
struct Auction<'a> {
    open_units: u64,
    reserve: u32,
    units: &'a [u64],
    prices: &'a [u32],
}

impl<'a> Auction<'a> {
    // The units bid from the price t on. A branch for each bid would be slow where bids are at many prices.
    fn units_from(self, t: u32) -> u64
        requires { BidsFit self.units.now self.prices.now }
        ensures { result ≡ from self.entry.units.now self.entry.prices.now t }
    {
        let mut sum = 0;
        for (i, n) in self.units.iter().enumerate() {
            sum += lists::number_if(t <= self.prices[i], *n);
        }
        sum
    }

    // The edge, found by halving the range of prices.
    fn edge(self) -> u32
        requires { Ready self.open_units self.reserve self.units.now self.prices.now }
        ensures { Edge self.entry.open_units self.entry.reserve self.entry.units.now self.entry.prices.now result }
    {
        let mut low = self.reserve;
        let mut high = PRICE_LIMIT + 1;
        while low < high {
            let mid = low + (high - low) / 2;
            if self.units_from(mid) <= self.open_units {
                high = mid;
            } else {
                low = mid + 1;
            }
        }
        low
    }

    // The units of the bid at place i, if it is valid and its price is one below t, and 0 if it is not.
    // Without a branch: an auction of 256 bids takes a seventh more time with one.
    fn below_at(self, t: u32, i: usize) -> u64
        requires { (i < length self.units.now) × (i < length self.prices.now) × (get_or self.prices.now i 0 ≤ price_limit) }
        ensures { result ≡ below_at self.entry.reserve self.entry.units.now self.entry.prices.now t i }
    {
        let price = self.prices[i];
        lists::number_if(
            lists::both(self.reserve <= price, price + 1 == t),
            self.units[i],
        )
    }

    // Writes the weights by which the balance is split.
    fn weigh(self, t: u32, weights: &mut [u64])
        requires bids_fit { BidsFit self.units.now self.prices.now }
        requires weights_len { length weights.old ≡ length self.units.now }
        ensures { weights.new ≡ below self.entry.reserve self.entry.units.now self.entry.prices.now t }
    {
        for (i, weight) in weights.iter_mut().enumerate() {
            *weight = self.below_at(t, i);
        }
    }

    // The units of the bid at place i, if its price is t or above, and its share if it is not.
    fn settled_at(self, t: u32, i: usize, share: u64) -> u64
        requires { (i < length self.units.now) × (i < length self.prices.now) }
        ensures { result ≡ cond (leb t (get_or self.entry.prices.now i 0)) (get_or self.entry.units.now i 0) share }
    {
        if t <= self.prices[i] {
            self.units[i]
        } else {
            share
        }
    }

    // Gives the bids at the price t and above all their units; the others keep their shares.
    fn settle(self, t: u32, won: &mut [u64])
        requires { (length self.prices.now ≡ length self.units.now) × (length won.old ≡ length self.units.now) }
        ensures { won.new ≡ settled self.entry.units.now self.entry.prices.now t won.old }
    {
        for (i, share) in won.iter_mut().enumerate() {
            *share = self.settled_at(t, i, *share);
        }
    }

    // Writes what each bid wins, with room for the weights lent by the caller.
    fn allot_with(self, weights: &mut [u64], won: &mut [u64])
        requires ready { Ready self.open_units self.reserve self.units.now self.prices.now }
        requires weights_len { (length weights.old ≡ length self.units.now) × (length won.old ≡ length self.units.now) }
        ensures { won.new ≡ allot self.entry.open_units self.entry.reserve self.entry.units.now self.entry.prices.now }
    {
        let t = self.edge();
        let balance = self.open_units - self.units_from(t);
        self.weigh(t, weights);
        let _ = splitting::split(balance, weights, won);
        self.settle(t, won);
    }

    // Writes what each bid wins, within the limits.
    fn allot_within(self, won: &mut [u64])
        requires ready { Ready self.open_units self.reserve self.units.now self.prices.now }
        requires won_len { length won.old ≡ length self.units.now }
        ensures { won.new ≡ allot self.entry.open_units self.entry.reserve self.entry.units.now self.entry.prices.now }
    {
        let n = self.units.len();
        let mut weights = [0; PLACE_LIMIT];
        self.allot_with(&mut weights[..n], won);
    }

    // Why an auction with n counts is declined: the reasons of document 01.
    #[tactic(auto, unfolding(crate::specs::Limits::refusal, lists::specs::Tests::first_of))]
    fn refusal(self, least: u64, places: usize, n: usize) -> Result<(), Refusal>
        ensures { answer_of result ≡ refusal least places self.entry.open_units self.entry.reserve self.entry.units.now self.entry.prices.now n }
    {
        decline_if(self.prices.len() != self.units.len(), Refusal::Unreadable)?;
        decline_if(n != self.units.len(), Refusal::Unreadable)?;
        decline_if(n > places, Refusal::Unreadable)?;
        decline_if(self.open_units > UNIT_LIMIT, Refusal::OutOfRange)?;
        decline_if(self.reserve > PRICE_LIMIT, Refusal::OutOfRange)?;
        decline_if(!units_fit(least, self.units), Refusal::OutOfRange)?;
        decline_if(!prices_fit(self.prices), Refusal::OutOfRange)
    }

    // Runs an auction of at most `places` bids of at least `least` units, or says why not and leaves the counts untouched.
    fn run(self, least: u64, places: usize, counts: &mut [u64]) -> Result<(), Refusal>
        requires { places ≤ place_limit }
        ensures { ◌≡◌ {A = Answer} (answer_of result, counts.new) (allot_into least places self.entry.open_units self.entry.reserve self.entry.units.now self.entry.prices.now counts.old) }
    {
        self.refusal(least, places, counts.len())?;
        self.allot_within(counts);
        Ok(())
    }
}

// Writes what each bid wins of the open units. A bid of 0 units is as if it were not there.
pub fn allot(
    open_units: u64,
    reserve: u32,
    units: &[u64],
    prices: &[u32],
    won: &mut [u64],
) -> Result<(), Refusal>
    ensures { ◌≡◌ {A = Answer} (answer_of result, won.new) (allot_into 0 place_limit open_units reserve units.now prices.now won.old) }
{
    let auction = Auction {
        open_units,
        reserve,
        units,
        prices,
    };
    auction.run(0, PLACE_LIMIT, won)
}

// The auction run alone, over flat runs of units and prices.
pub fn alone(
    open_units: u64,
    reserve: u32,
    units: &[u64],
    prices: &[u32],
    counts: &mut [u64],
) -> Result<(), Refusal>
    ensures { ◌≡◌ {A = Answer} (answer_of result, counts.new) (allot_into 1 bid_limit open_units reserve units.now prices.now counts.old) }
{
    let auction = Auction {
        open_units,
        reserve,
        units,
        prices,
    };
    auction.run(1, BID_LIMIT, counts)
}

// A bid as it is lent: its units and its price in cents, positive paid to the house and negative by the house.
#[repr(C)]
#[derive(Clone, Copy)]
pub struct BidRecord {
    pub units: u16,
    pub price: i32,
}

// The bids of a lent run in flat arrays, of which the first n are used.
#[derive(Clone, Copy)]
pub struct Bids {
    pub units: [u64; BID_LIMIT],
    pub prices: [u32; BID_LIMIT],
    pub n: usize,
}

// A signed price as it is held: its cents + 1,000,000, by 32 bits. One below −1,000,000 cents comes out above PRICE_LIMIT, as one above 1,000,000 does.
fn held(price: i32) -> u32
    ensures { result ≡ held price }
{
    price.cast_unsigned().wrapping_add(1_000_000)
}

// The bids of a lent run. Each record goes straight to its place in the arrays, since a struct that is passed on is copied whole.
fn gather(bids: &[BidRecord]) -> Bids
    ensures { result ≡ gathered bids.now }
{
    let n = bids.len().min(BID_LIMIT);
    let mut units = [0; BID_LIMIT];
    let mut prices = [0; BID_LIMIT];
    for (i, bid) in bids[..n].iter().enumerate() {
        units[i] = u64::from(bid.units);
        prices[i] = held(bid.price);
    }
    Bids { units, prices, n }
}

// The auction run alone over the first n of the bids.
fn alone_over(
    bids: Bids,
    n: usize,
    open_units: u16,
    reserve: i32,
    counts: &mut [u64],
) -> Result<(), Refusal>
    ensures { ◌≡◌ {A = Answer} (answer_of result, counts.new) (alone_over bids n open_units reserve counts.old) }
{
    let least = held(reserve);
    let units = bids.units;
    let prices = bids.prices;
    if n <= BID_LIMIT {
        alone(
            u64::from(open_units),
            least,
            &units[..n],
            &prices[..n],
            counts,
        )
    } else {
        Err(Refusal::Unreadable)
    }
}

// The auction run alone, over a lent run of bid records. Every record is checked before a count is written.
pub fn ledger_auction_records(
    bids: &[BidRecord],
    open_units: u16,
    reserve: i32,
    counts: &mut [u64],
) -> Result<(), Refusal>
    ensures { ◌≡◌ {A = Answer} (answer_of result, counts.new) (alone_lent bids.now open_units reserve counts.old) }
{
    let f = gather(bids);
    alone_over(f, bids.len(), open_units, reserve, counts)
}
