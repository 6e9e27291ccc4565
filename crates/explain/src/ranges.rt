// Which numbers of a call are out of their ranges, and what the ranges are.
use crate::texts::{Cents, Price, Text};
use std::fmt::Display;
use wire::{Call, Head};

// A number of a call, where it is out of its range.
fn put_range<T: Copy + PartialOrd + Display + Drop>(
    text: &mut Text,
    name: &str,
    n: T,
    low: T,
    high: T,
) {
    if n < low || high < n {
        text.put(format_args!(" ({name} {n}; from {low} to {high})"));
    }
}

// An amount in cents, where it is out of its range.
fn put_cents(text: &mut Text, name: &str, n: u32, low: u32, high: u32) {
    put_range(
        text,
        name,
        Cents(u64::from(n)),
        Cents(u64::from(low)),
        Cents(u64::from(high)),
    );
}

// A price, where it is out of its range.
fn put_price(text: &mut Text, name: &str, price: u32) {
    put_range(text, name, Price(price), Price(0), Price(Call::MAX_PRICE));
}

// The units put up or bid for.
fn put_units(text: &mut Text, units: u16) {
    put_range(text, "units", units, Call::MIN_UNITS, Call::MAX_UNITS);
}

// The numbers of HEAD.
fn put_head(text: &mut Text, head: Head) {
    put_range(text, "pools", head.pools, Head::MIN_POOLS, Head::MAX_POOLS);
    put_range(
        text,
        "least bid",
        head.least,
        Head::MIN_LEAST_BID,
        Head::MAX_LEAST_BID,
    );
    if head.set == Head::NO_MEMBER {
        text.put(" (no member)");
    }
    put_losses(text, head);
}

// The amounts of HEAD.
fn put_losses(text: &mut Text, head: Head) {
    put_cents(text, "hedge loss", head.hedge, 0, Head::MAX_HEDGE_LOSS);
    put_cents(text, "other loss", head.other, 0, Head::MAX_OTHER_LOSS);
    put_cents(text, "margin", head.margin, 0, Head::MAX_MARGIN);
    put_cents(text, "fund", head.fund, 0, Head::MAX_FUND);
    put_cents(text, "house money", head.house, 0, Head::MAX_HOUSE_MONEY);
}

// The units that MEMBER expects in a pool, of which the case has so many.
fn put_expected(text: &mut Text, pools: u8, pool: u8, units: u16) {
    if pools <= pool && 0 < units {
        text.put(" (units expected in a pool the case lacks)");
    } else {
        put_range(text, "expected units", units, 0, Call::MAX_EXPECTED);
    }
}

// Puts the numbers of a call that are out of their ranges; the pools are those of the case.
pub fn put_ranges(text: &mut Text, pools: u8, call: Call) {
    match call {
        Call::Head(head) => put_head(text, head),
        Call::Pool { units, mark, .. } => {
            put_units(text, units);
            put_range(text, "mark", mark, 0, Call::MAX_MARK);
        }
        Call::Member {
            contribution,
            a,
            b,
            c,
            d,
            ..
        } => {
            put_cents(
                text,
                "contribution",
                contribution,
                0,
                Call::MAX_CONTRIBUTION,
            );
            for (units, pool) in [a, b, c, d].iter().zip(0..4u8) {
                put_expected(text, pools, pool, *units);
            }
        }
        Call::Round { count, a, b, c, d } => {
            for reserve in [a, b, c, d].iter().take(usize::from(count)) {
                put_price(text, "reserve", *reserve);
            }
        }
        Call::Bid { units, price, .. } => {
            put_units(text, units);
            put_price(text, "price", price);
        }
        Call::Pay { amount, .. } => {
            put_cents(text, "amount", amount, Call::MIN_PAYMENT, Call::MAX_PAYMENT);
        }
        Call::Allocate { price, .. } => put_price(text, "price", price),
        Call::Tear { price, .. } => put_price(text, "price", price),
        Call::Miss { price, .. } => put_price(text, "price", price),
        Call::Sale { price, .. } => put_price(text, "price", price),
        _ => {}
    }
}
