// The calls of document 01, and SALE and WITHDRAW of document 02, as values, and how a call is read from any bytes.
#![tactic(auto, unfolding(machine::specs::Wire::right_length, machine::specs::Wire::call_of, crate::specs::Asked::asked, lists::specs::Lists::tab))]

ghost use Rattle.std.specs.Prelude.{◌≡◌, ◌+◌, ◌<◌, ◌≤◌, true, length};
ghost use Rattle.std.proofs.Math.Option.{some};
ghost use Rattle.machine.specs.Wire.{number, price, right_length, call_of, decode};
ghost use Rattle.wire.specs.Asked.{asked};

// The numbers of HEAD.
#[derive(Clone, Copy)]
pub struct Head {
    pub pools: u8,
    pub least: u16,
    pub set: u32,
    pub hedge: u32,
    pub other: u32,
    pub margin: u32,
    pub fund: u32,
    pub house: u32,
}

// "pools 1 to 4; least bid .. 1 to 1,000; member set not empty; .. hedge and other loss to 2×10^9; margin and house money to 4×10^9; a fund or contribution to
// 5×10^8"
impl Head {
    pub const MIN_POOLS: u8 = 1;

    pub const MAX_POOLS: u8 = 4;

    pub const MIN_LEAST_BID: u16 = 1;

    pub const MAX_LEAST_BID: u16 = 1_000;

    pub const NO_MEMBER: u32 = 0;

    pub const MAX_HEDGE_LOSS: u32 = 2_000_000_000;

    pub const MAX_OTHER_LOSS: u32 = 2_000_000_000;

    pub const MAX_MARGIN: u32 = 4_000_000_000;

    pub const MAX_FUND: u32 = 500_000_000;

    pub const MAX_HOUSE_MONEY: u32 = 4_000_000_000;
}

// The thirteen calls, SALE and WITHDRAW, and what bytes are that are none of them. Prices are held as cents + 1,000,000.
#[derive(Clone, Copy)]
pub enum Call {
    Head(Head),
    Pool {
        pool: u8,
        units: u16,
        mark: u8,
    },
    // MEMBER, with the units expected in pools 0 to 3
    Member {
        member: u8,
        contribution: u32,
        a: u16,
        b: u16,
        c: u16,
        d: u16,
    },
    // ROUND, with as many reserves as `count` says
    Round {
        count: u8,
        a: u32,
        b: u32,
        c: u32,
        d: u32,
    },
    Bid {
        pool: u8,
        member: u8,
        units: u16,
        price: u32,
    },
    Close,
    Allocate {
        pool: u8,
        price: u32,
    },
    Tear {
        pool: u8,
        price: u32,
    },
    Call,
    Pay {
        member: u8,
        amount: u32,
    },
    Move {
        member: u8,
    },
    Miss {
        member: u8,
        price: u32,
    },
    Finish,
    Sale {
        pool: u8,
        member: u8,
        price: u32,
    },
    // WITHDRAW, with the number of a bid
    Withdraw {
        member: u8,
        bid: u16,
    },
    Unknown,
}

// "pool units and bid units 1 to 1,000; .. mark 0 or 1 ..; a fund or contribution to 5×10^8; expected units to 1,000 ..; prices and reserves −10^6 to 10^6; a
// payment 1 to 10^9"
impl Call {
    pub const MIN_UNITS: u16 = 1;

    pub const MAX_UNITS: u16 = 1_000;

    pub const MAX_MARK: u8 = 1;

    pub const MAX_CONTRIBUTION: u32 = 500_000_000;

    pub const MAX_EXPECTED: u16 = 1_000;
    // 10^6 cents, as prices are held
    pub const MAX_PRICE: u32 = 2_000_000;

    pub const MIN_PAYMENT: u32 = 1;

    pub const MAX_PAYMENT: u32 = 1_000_000_000;
}

// The last tag.
pub const LAST_TAG: u8 = 15;

// The length of each tag's value; ROUND's is not read here.
const LENGTHS: [u8; 15] = [27, 4, 13, 0, 8, 0, 5, 5, 0, 5, 1, 5, 0, 6, 3];

// The number in one byte from a place on.
fn one(s: &[u8], at: usize) -> u8
    requires { at + 1 ≤ length s.now }
    ensures { result ≡ number at 1 s.now }
{
    s[at]
}

// The number in two bytes, big-endian.
fn two(s: &[u8], at: usize) -> u16
    requires { at + 2 ≤ length s.now }
    ensures { result ≡ number at 2 s.now }
{
    u16::from_be_bytes([s[at], s[at + 1]])
}

// The number in four bytes, big-endian.
fn four(s: &[u8], at: usize) -> u32
    requires { at + 4 ≤ length s.now }
    ensures { result ≡ number at 4 s.now }
{
    u32::from_be_bytes([s[at], s[at + 1], s[at + 2], s[at + 3]])
}

// The price in four bytes, two's complement.
fn price_at(s: &[u8], at: usize) -> u32
    requires { at + 4 ≤ length s.now }
    ensures { result ≡ price at s.now }
{
    four(s, at).wrapping_add(1_000_000)
}

// The price from a place on, or 0 where the value ends before it.
fn price_or_none(s: &[u8], at: usize) -> u32
    requires { at < 16 }
    ensures { at + 4 ≤ length s.now → result ≡ price at s.now }
{
    if at + 4 <= s.len() {
        price_at(s, at)
    } else {
        0
    }
}

// Whether a value of this tag has its right length.
fn right_length(tag: u8, n: usize) -> bool
    requires { (1 ≤ tag) × (tag ≤ 15) }
    ensures { result ≡ right_length tag n }
{
    if tag == 4 {
        return 4 <= n && n <= 16 && n % 4 == 0;
    }
    n == usize::from(LENGTHS[usize::from(tag - 1)])
}

fn read_head(v: &[u8]) -> Call
    requires { right_length 1 (length v.now) ≡ true }
    ensures { asked result ≡ some (call_of 1 v.now) }
{
    Call::Head(Head {
        pools: one(v, 0),
        least: two(v, 1),
        set: four(v, 3),
        hedge: four(v, 7),
        other: four(v, 11),
        margin: four(v, 15),
        fund: four(v, 19),
        house: four(v, 23),
    })
}

fn read_pool(v: &[u8]) -> Call
    requires { right_length 2 (length v.now) ≡ true }
    ensures { asked result ≡ some (call_of 2 v.now) }
{
    Call::Pool {
        pool: one(v, 0),
        units: two(v, 1),
        mark: one(v, 3),
    }
}

fn read_member(v: &[u8]) -> Call
    requires { right_length 3 (length v.now) ≡ true }
    ensures { asked result ≡ some (call_of 3 v.now) }
{
    Call::Member {
        member: one(v, 0),
        contribution: four(v, 1),
        a: two(v, 5),
        b: two(v, 7),
        c: two(v, 9),
        d: two(v, 11),
    }
}

fn read_round(v: &[u8]) -> Call
    requires { right_length 4 (length v.now) ≡ true }
    ensures { asked result ≡ some (call_of 4 v.now) }
{
    Call::Round {
        count: (v.len() / 4) as u8,
        a: price_or_none(v, 0),
        b: price_or_none(v, 4),
        c: price_or_none(v, 8),
        d: price_or_none(v, 12),
    }
}

fn read_bid(v: &[u8]) -> Call
    requires { right_length 5 (length v.now) ≡ true }
    ensures { asked result ≡ some (call_of 5 v.now) }
{
    Call::Bid {
        pool: one(v, 0),
        member: one(v, 1),
        units: two(v, 2),
        price: price_at(v, 4),
    }
}

fn read_allocate(v: &[u8]) -> Call
    requires { right_length 7 (length v.now) ≡ true }
    ensures { asked result ≡ some (call_of 7 v.now) }
{
    Call::Allocate {
        pool: one(v, 0),
        price: price_at(v, 1),
    }
}

fn read_tear(v: &[u8]) -> Call
    requires { right_length 8 (length v.now) ≡ true }
    ensures { asked result ≡ some (call_of 8 v.now) }
{
    Call::Tear {
        pool: one(v, 0),
        price: price_at(v, 1),
    }
}

fn read_pay(v: &[u8]) -> Call
    requires { right_length 10 (length v.now) ≡ true }
    ensures { asked result ≡ some (call_of 10 v.now) }
{
    Call::Pay {
        member: one(v, 0),
        amount: four(v, 1),
    }
}

fn read_move(v: &[u8]) -> Call
    requires { right_length 11 (length v.now) ≡ true }
    ensures { asked result ≡ some (call_of 11 v.now) }
{
    Call::Move { member: one(v, 0) }
}

fn read_miss(v: &[u8]) -> Call
    requires { right_length 12 (length v.now) ≡ true }
    ensures { asked result ≡ some (call_of 12 v.now) }
{
    Call::Miss {
        member: one(v, 0),
        price: price_at(v, 1),
    }
}

fn read_sale(v: &[u8]) -> Call
    requires { right_length 14 (length v.now) ≡ true }
    ensures { asked result ≡ some (call_of 14 v.now) }
{
    Call::Sale {
        pool: one(v, 0),
        member: one(v, 1),
        price: price_at(v, 2),
    }
}

fn read_withdraw(v: &[u8]) -> Call
    requires { right_length 15 (length v.now) ≡ true }
    ensures { asked result ≡ some (call_of 15 v.now) }
{
    Call::Withdraw {
        member: one(v, 0),
        bid: two(v, 1),
    }
}

// The call that a value of its right length is, by its tag.
fn read_value(tag: u8, v: &[u8]) -> Call
    requires { (1 ≤ tag) × (tag ≤ 15) × (right_length tag (length v.now) ≡ true) }
    ensures { asked result ≡ some (call_of tag v.now) }
{
    match tag {
        1 => read_head(v),
        2 => read_pool(v),
        3 => read_member(v),
        4 => read_round(v),
        5 => read_bid(v),
        6 => Call::Close,
        7 => read_allocate(v),
        8 => read_tear(v),
        9 => Call::Call,
        10 => read_pay(v),
        11 => read_move(v),
        12 => read_miss(v),
        13 => Call::Finish,
        14 => read_sale(v),
        _ => read_withdraw(v),
    }
}

// The call that the bytes are, or `Unknown`: "Unknown tag, bytes that aren't exactly one field, or a wrong length".
pub fn read_call(bytes: &[u8]) -> Call
    ensures { asked result ≡ decode bytes.now }
{
    let n = bytes.len();
    if n < 3 {
        return Call::Unknown;
    }
    let tag = bytes[0];
    if tag < 1 || LAST_TAG < tag {
        return Call::Unknown;
    }
    let v = &bytes[3..];
    if usize::from(two(bytes, 1)) != v.len() {
        return Call::Unknown;
    }
    if !right_length(tag, v.len()) {
        return Call::Unknown;
    }
    read_value(tag, v)
}
