// The tables at the end: pools, those sold by agreement, the bids of the open round, the loss and its six layers, members, and the units held by member, pool and price.
// Each has a row of totals, but for the bids, and the members before FINISH.
ghost use Rattle.std.specs.Prelude.{◌≤◌, ◌<◌, IfSome};

use crate::texts::{Cents, Money, Price, Set, Text, ZERO_PRICE, minus, sum_of, worth};
use accounts::bids::Bids;
use accounts::members::{Members, over_pools, widened, without_pools};
use book::{Book, Result, Stage};
use case::Case;
use std::fmt::Display;
use units::Units;
use wire::Call;

// ---- pools

// The units of a pool: open, sold, allocated, moved and torn.
fn counts(case: Case, pool: u8) -> [u64; 5] {
    [0, 1, 2, 3, 4].map(|kind| case.count(pool, kind))
}

// The units of all pools: open, sold, allocated, moved and torn.
fn all_counts(case: Case) -> [u64; 5] {
    [0, 1, 2, 3, 4].map(|kind| sum_of([0, 1, 2, 3].map(|pool| case.count(pool, kind))))
}

// The units that are not open.
fn not_open(case: Case) -> u64 {
    let [_, sold, allocated, moved, torn] = all_counts(case);
    sum_of([sold, allocated, moved, torn])
}

// A row: all units, and by their kinds.
fn put_counts<D: Display + Drop>(text: &mut Text, name: D, counts: [u64; 5]) {
    let all = sum_of(counts);
    let [open, sold, allocated, moved, torn] = counts;
    text.put(format_args!(
        "{name:>7}{all:>10}{open:>10}{sold:>10}{allocated:>11}{moved:>10}{torn:>10}\n"
    ));
}

// The table of the pools.
fn put_pools(text: &mut Text, case: Case) {
    text.put(
        "\nPools, in units\n   pool     units      open      sold  allocated     moved      torn\n",
    );
    for pool in 0..case.book.pools.given {
        put_counts(text, pool, counts(case, pool));
    }
    put_counts(text, "total", all_counts(case));
}

// ---- pools sold by agreement

// The units of the four pools that were sold by agreement.
fn agreed_units(units: Units) -> [u64; 4] {
    [0, 1, 2, 3].map(|pool| u64::from(units.agreed_units(pool)))
}

// The prices of all units sold by agreement.
fn agreed_worth(units: Units) -> u64 {
    sum_of([0, 1, 2, 3].map(|pool| {
        worth(u64::from(units.agreed_units(pool)), units.sale_price(pool))
    }))
}

// The row of a pool sold by agreement; no other pool has one.
fn put_sale(text: &mut Text, units: Units, pool: u8) {
    let n = u64::from(units.agreed_units(pool));
    if n != 0 {
        let member = units.buyer(pool);
        let price = units.sale_price(pool);
        text.put(format_args!(
            "{pool:>7}{n:>10}{member:>8}{:>15}{:>15}\n",
            Price(price),
            Money::of_units(n, price)
        ));
    }
}

// The table of the pools sold by agreement, where there are any.
fn put_sales(text: &mut Text, units: Units) {
    let all = sum_of(agreed_units(units));
    if all != 0 {
        text.put(
            "\nSold by agreement, counted as sold above\n   pool     units  member          price         amount\n",
        );
        for pool in 0..4 {
            put_sale(text, units, pool);
        }
        let amount = Money::difference(agreed_worth(units), worth(all, ZERO_PRICE));
        text.put(format_args!("  total{all:>10}{amount:>38}\n"));
    }
}

// ---- the bids of the open round

// The row of a bid of a round; no other bid has one.
fn put_bid(text: &mut Text, bids: Bids, round: u8, i: usize)
    requires { i < 256 }
{
    let member = bids.member[i];
    let pool = bids.pool[i];
    let units = bids.units[i];
    let price = Price(bids.price[i]);
    let stands = if bids.stands[i] { "yes" } else { "withdrawn" };
    if bids.round[i] == round {
        text.put(format_args!("{i:>7}{member:>8}{pool:>8}{units:>10}{price:>15}  {stands}\n"));
    }
}

// The table of the bids of the open round, where there is one.
fn put_bids(text: &mut Text, stage: Stage, bids: Bids) {
    if let Stage::Bidding(round) = stage {
        text.put(format_args!(
            "\nBids of round {round}\n    bid  member    pool     units          price  stands\n"
        ));
        for i in 0..bids.kept.min(Bids::MOST) {
            put_bid(text, bids, round, i);
        }
    }
}

// ---- the loss

// The six layers.
const LAYERS: [&str; 6] = [
    "1 defaulter's margin",
    "2 defaulter's fund",
    "3 house money, first tranche",
    "4 members' contributions",
    "5 house money, second tranche",
    "6 members' payments",
];

// A limit, what is charged to it and what is left.
fn put_charge(text: &mut Text, name: &str, limit: u64, charged: u64) {
    text.put(format_args!(
        "  {name:<32}{:>15}{:>15}{:>15}\n",
        Cents(limit),
        Cents(charged),
        Money::difference(limit, charged)
    ));
}

// The six layers, their totals, the uncovered rest and the loss.
fn put_layers(text: &mut Text, limits: [u64; 6], res: Result) {
    text.put("\nLayers                                      limit        charged           left\n");
    for k in 0..6 {
        put_charge(text, LAYERS[k], limits[k], res.charges[k]);
    }
    let charged = sum_of(res.charges);
    put_charge(text, "total", sum_of(limits), charged);
    text.put(format_args!(
        "  uncovered                                      {:>15}\n  loss                                           {:>15}\n",
        Cents(res.uncovered),
        Cents(sum_of([charged, res.uncovered]))
    ));
}

// The table of the loss; the layers stand in it after FINISH.
fn put_loss(text: &mut Text, finished: bool, book: Book) {
    text.put(format_args!(
        "\nLoss\n  hedge loss                      {:>15}\n  other loss                      {:>15}\n  less prices of units not open   {:>15}\n  requirement, at least 0         {:>15}\n",
        Cents(u64::from(book.head.hedge)),
        Cents(u64::from(book.head.other)),
        Money::difference(book.prices(), Units::ZERO_PRICES),
        Cents(book.requirement())
    ));
    if finished {
        put_layers(text, book.limits(), book.result());
    } else {
        text.put("  nothing is charged before FINISH\n");
    }
}

// ---- members

// The members with the expected units that count for rank: "the units expected in a pool so sold, don't count".
fn counted(members: Members, sold: [bool; 4]) -> Members {
    let expected = members.expected;
    let mut out = members;
    out.expected = without_pools(expected, sold);
    out
}

// What stands in a member's row, or in that of the totals, after FINISH.
#[derive(Clone, Copy)]
struct Ranked {
    won: u64,
    expected: u64,
    contribution: u64,
    charged: u64,
    paid: u64,
    taken: u64,
}

// A row after FINISH.
fn put_ranked<D: Display + Drop, E: Display + Drop>(
    text: &mut Text,
    name: D,
    rank: E,
    row: Ranked,
) {
    let excess = minus(row.won, row.expected);
    text.put(format_args!(
        "{name:>8}{:>8}{:>10}{excess:>9}{rank:>7}{:>15}{:>15}{:>15}{:>15}\n",
        row.won,
        row.expected,
        Cents(row.contribution),
        Cents(row.charged),
        Cents(row.paid),
        Cents(row.taken)
    ));
}

// The table after FINISH, with a row of totals.
fn put_ranking(text: &mut Text, set: u32, members: Members, res: Result) {
    text.put(format_args!(
        "\nMembers, {}\n  member     won  expected   excess   rank   contribution        charged           paid        charged\n",
        sets::count(set)
    ));
    let won = over_pools(members.won);
    let expected = over_pools(members.expected);
    let contribution = widened(members.contribution);
    let paid = widened(members.paid);
    for m in sets::members_of(set) {
        let i = usize::from(m);
        let row = Ranked {
            won: won[i],
            expected: expected[i],
            contribution: contribution[i],
            charged: res.contributions[i],
            paid: paid[i],
            taken: res.payments[i],
        };
        put_ranked(text, m, res.ranks[i], row);
    }
    let total = Ranked {
        won: sum_of(won),
        expected: sum_of(expected),
        contribution: sum_of(contribution),
        charged: sum_of(res.contributions),
        paid: sum_of(paid),
        taken: sum_of(res.payments),
    };
    put_ranked(text, "total", "", total);
}

// The table before FINISH, when nothing is charged and nobody is ranked.
fn put_unranked(text: &mut Text, set: u32, members: Members) {
    text.put(format_args!(
        "\nMembers, {}\n  member     won  expected   excess   contribution         called           paid           owes\n",
        sets::count(set)
    ));
    let won = over_pools(members.won);
    let expected = over_pools(members.expected);
    for m in sets::members_of(set) {
        let i = usize::from(m);
        text.put(format_args!(
            "{m:>8}{:>8}{:>10}{:>9}{:>15}{:>15}{:>15}{:>15}\n",
            won[i],
            expected[i],
            minus(won[i], expected[i]),
            Cents(u64::from(members.contribution[i])),
            Cents(u64::from(members.called[i])),
            Cents(u64::from(members.paid[i])),
            Cents(members.owes(m))
        ));
    }
}

// The pools sold by agreement, as a set.
fn set_of(sold: [bool; 4]) -> u32 {
    let mut set = 0;
    for (sold, pool) in sold.iter().zip(0..4u8) {
        if *sold {
            set = sets::with(set, pool);
        }
    }
    set
}

// The pools whose expected units are left out, and how many these are over all members.
fn put_left_out(text: &mut Text, members: Members, sold: [bool; 4]) {
    let set = set_of(sold);
    if set != 0 {
        let all = sum_of(over_pools(members.expected));
        let counting = sum_of(over_pools(counted(members, sold).expected));
        text.put(format_args!(
            "  expected leaves out pools sold by agreement (pools {}; units {})\n",
            Set(set),
            minus(all, counting)
        ));
    }
}

// The table of the members.
fn put_members(text: &mut Text, finished: bool, book: Book) {
    let sold = book.sold_pools();
    let members = counted(book.members, sold);
    if finished {
        put_ranking(text, book.head.set, members, book.result());
    } else {
        put_unranked(text, book.head.set, members);
    }
    put_left_out(text, book.members, sold);
}

// ---- units held

// Units, and their prices together as they are held.
#[derive(Clone, Copy)]
struct Sum {
    units: u64,
    prices: u64,
}

impl Sum {
    // The sum with the units of another.
    fn and(self, more: Sum) -> Sum {
        Sum {
            units: self.units.saturating_add(more.units),
            prices: self.prices.saturating_add(more.prices),
        }
    }

    // What is left of the sum without the units of another.
    fn less(self, part: Sum) -> Sum {
        Sum {
            units: self.units.saturating_sub(part.units),
            prices: self.prices.saturating_sub(part.prices),
        }
    }

    // What the units amount to.
    fn amount(self) -> Money {
        Money::difference(self.prices, worth(self.units, ZERO_PRICE))
    }
}

// The least price of a member's bids for a pool, from a first one on.
fn bid_price(bids: Bids, m: u8, pool: u8, first: u32) -> Option<u32> {
    let member = bids.member;
    let put_up = bids.pool;
    let prices = bids.price;
    member
        .iter()
        .zip(put_up.iter())
        .zip(prices.iter())
        .filter(|((bidder, put_up), price)| **bidder == m && **put_up == pool && first <= **price)
        .map(|(_, price)| *price)
        .min()
}

// The price at which a pool was sold by agreement to a member.
fn agreed_price(units: Units, m: u8, pool: u8) -> Option<u32> {
    if 0 < units.agreed_units(pool) && units.buyer(pool) == m {
        Some(units.sale_price(pool))
    } else {
        None
    }
}

// The least price, from a first one on, at which a member may hold units of a pool: that of a bid, of SALE, of ALLOCATE, or 0 cents for units moved to it.
fn next_price(book: Book, m: u8, pool: u8, first: u32) -> Option<u32>
    ensures { IfSome result (λ price. (first ≤ price) × (price ≤ 2000000)) }
{
    let prices = [
        bid_price(book.bids, m, pool, first),
        agreed_price(book.units, m, pool),
        book.units.allocation.get(usize::from(pool)).copied(),
        Some(ZERO_PRICE),
    ];
    prices
        .iter()
        .filter_map(|price| *price)
        .filter(|price| first <= *price && *price <= Call::MAX_PRICE)
        .min()
}

// The row of the units held at a price, where there are any.
fn put_holding(text: &mut Text, m: u8, pool: u8, price: u32, units: u64) {
    if units != 0 {
        text.put(format_args!(
            "{m:>8}{pool:>8}{:>15}{units:>10}{:>15}\n",
            Price(price),
            Money::of_units(units, price)
        ));
    }
}

// The rows of a member's units in a pool, by price, and their sum.
fn put_prices(text: &mut Text, case: Case, m: u8, pool: u8) -> Sum {
    let mut sum = Sum {
        units: 0,
        prices: 0,
    };
    let mut first = 0;
    while let Some(price) = next_price(case.book, m, pool, first) {
        let units = case.holding(m, pool, price);
        put_holding(text, m, pool, price, units);
        sum = sum.and(Sum {
            units,
            prices: worth(units, price),
        });
        first = price + 1;
    }
    sum
}

// The rows of a member's units, and their sum.
fn put_holdings(text: &mut Text, case: Case, m: u8) -> Sum {
    let mut sum = Sum {
        units: 0,
        prices: 0,
    };
    for pool in 0..4 {
        sum = sum.and(put_prices(text, case, m, pool));
    }
    sum
}

// The rows of the units of all members, and their sum.
fn put_rows(text: &mut Text, case: Case) -> Sum {
    let mut sum = Sum {
        units: 0,
        prices: 0,
    };
    for m in sets::members_of(case.book.head.set) {
        sum = sum.and(put_holdings(text, case, m));
    }
    sum
}

// The units that are not open, with their prices; the book has these as cents, behind `ZERO_PRICES`.
fn all_held(case: Case) -> Sum {
    let units = not_open(case);
    let prices = case.book.prices().saturating_add(worth(units, ZERO_PRICE));
    Sum {
        units,
        prices: prices.saturating_sub(Units::ZERO_PRICES),
    }
}

// A row of units and what they amount to.
fn put_sum(text: &mut Text, name: &str, sum: Sum) {
    text.put(format_args!("  {name:<29}{:>10}{:>15}\n", sum.units, sum.amount()));
}

// The table of the units held, with the torn ones and all units that are not open below.
fn put_held(text: &mut Text, case: Case) {
    text.put(
        "\nUnits held, by pool and price\n  member    pool          price     units         amount\n",
    );
    let held = put_rows(text, case);
    let all = all_held(case);
    put_sum(text, "held", held);
    put_sum(text, "torn", all.less(held));
    put_sum(text, "total, units not open", all);
}

// ---- all tables

// Puts the tables of what is held at the end.
pub fn put_tables(text: &mut Text, held: Option<Case>) {
    match held {
        Some(case) => {
            let book = case.book;
            let finished = matches!(case.stage, Stage::Finished);
            put_pools(text, case);
            put_sales(text, book.units);
            put_bids(text, case.stage, book.bids);
            put_loss(text, finished, book);
            put_members(text, finished, book);
            put_held(text, case);
        }
        None => text.put("no case\n"),
    }
}
