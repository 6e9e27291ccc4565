// What a run prints: text in a lent buffer, which goes to standard output when it is nearly full; and amounts of money and sets of members as text.
ghost use Rattle.std.specs.Prelude.{◌≡◌, IsErr};

use feed::{Failed, Streams};
use std::fmt;
use std::fmt::{Display, Formatter, InlineText, Write};
use wire::Call;
use words::Amount;

// ---- the buffer

// Where the buffer is written: what is put at a time is shorter than what is left behind this place.
const NEARLY_FULL: usize = 98_304;

// A lent buffer, the place behind its text, and whether all that was to be written before is written.
#[derive(Drop)]
pub struct Text<'a> {
    streams: Streams,
    out: &'a mut [u8],
    at: usize,
    written: Result<(), Failed>,
}

// Bytes that don't fit are left out, so no write to the buffer fails.
impl Write for Text<'_> {
    fn write_str(&mut self, s: &str) -> fmt::Result {
        let at = self.at;
        self.at = words::put(self.out, at, s.as_bytes());
        Ok(())
    }
}

impl<'a> Text<'a> {
    pub fn new(streams: Streams, out: &'a mut [u8]) -> Text<'a> {
        Text {
            streams,
            out,
            at: 0,
            written: Ok(()),
        }
    }

    // Puts a text, and writes the buffer when it is nearly full. Where that fails, `flush` says so.
    pub fn put<D: Display + Drop>(&mut self, text: D) {
        let _put = self.write(text);
        if NEARLY_FULL <= self.at {
            let _written = self.flush();
        }
    }

    // Puts the line of a call, and says whether it has one: `Unknown` has none.
    pub fn put_call(&mut self, call: Call) -> bool {
        let at = self.at;
        self.at = spelling::write_text(call, self.out, at);
        self.at != at
    }

    // Writes the text, and begins anew. Once a write has failed, which is told on standard error, nothing is written any more.
    pub fn flush(&mut self) -> Result<(), Failed>
        ensures { (result ≡ self.new.written) × (IsErr self.old.written → result ≡ self.old.written) }
    {
        if self.written.is_ok() {
            let streams = self.streams;
            let at = self.at;
            self.written = feed::flush(streams, self.out, at, b"explain: standard output");
            self.at = 0;
        }
        self.written
    }
}

// ---- amounts

// The price of 0 cents: prices are held as cents + 1,000,000.
pub const ZERO_PRICE: u32 = 1_000_000;

// An amount of money, printed with a point before its last two digits.
#[derive(Clone, Copy)]
pub struct Money(Amount);

impl Money {
    // a − b.
    pub fn difference(a: u64, b: u64) -> Money {
        Money(words::difference(a, b))
    }

    // What units at a price amount to.
    pub fn of_units(units: u64, price: u32) -> Money {
        Money::difference(worth(units, price), worth(units, ZERO_PRICE))
    }
}

impl Display for Money {
    fn fmt<W: Write>(&self, f: &mut Formatter<W>) -> fmt::Result {
        let Amount { negative, cents } = self.0;
        let digits = InlineText::<24>::of(format_args!("{}.{:02}", cents / 100, cents % 100));
        f.pad_integral(!negative, "", digits.as_str())
    }
}

// An amount that is not below 0.
#[derive(Clone, Copy, PartialEq, PartialOrd)]
pub struct Cents(pub u64);

impl Display for Cents {
    fn fmt<W: Write>(&self, f: &mut Formatter<W>) -> fmt::Result {
        Money::difference(self.0, 0).fmt(f)
    }
}

// A price as it is held.
#[derive(Clone, Copy, PartialEq, PartialOrd)]
pub struct Price(pub u32);

impl Display for Price {
    fn fmt<W: Write>(&self, f: &mut Formatter<W>) -> fmt::Result {
        Money(words::price(self.0)).fmt(f)
    }
}

// The prices of units together, as they are held.
pub fn worth(units: u64, price: u32) -> u64 {
    units.saturating_mul(u64::from(price))
}

// The sum of some numbers.
pub fn sum_of<const N: usize>(xs: [u64; N]) -> u64 {
    xs.iter().fold(0u64, |sum, x| sum.saturating_add(*x))
}

// a − b with its sign.
pub fn minus(a: u64, b: u64) -> i64 {
    a.wrapping_sub(b).cast_signed()
}

// ---- sets of members

// A set, printed as its members with commas between them.
#[derive(Clone, Copy)]
pub struct Set(pub u32);

impl Display for Set {
    fn fmt<W: Write>(&self, f: &mut Formatter<W>) -> fmt::Result {
        if self.0 == 0 {
            return f.write_str("none");
        }
        f.write_joined(sets::members_of(self.0), ",")
    }
}
