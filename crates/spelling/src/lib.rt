// The text of a call, into a lent buffer.
#![tactic(auto)]

ghost use Rattle.std.specs.Prelude.{◌≡◌, [], ◌∷◌, ◌+◌, ◌*◌, ◌≤◌, ◌<◌, length, take};
ghost use Rattle.sets.specs.Set.{members};
ghost use Rattle.machine.specs.Printed.{decimal};
ghost use Rattle.wire.specs.Asked.{asked};
ghost use Rattle.forms.specs.Put.{Put, Written};
ghost use Rattle.spelling.specs.Words.{key_of, name_of, separator};
ghost use Rattle.spelling.specs.Text.{money_text, price_text, members_text, more_text, number_text, item_text, items_text, line_text, line_into, key_into, money_into};

use wire::Call;

// What stands before the numbers of the calls, a row of eight for each tag: a key between spaces, or a comma.
#[rattlefmt::skip]
const SEPARATORS: [&[u8]; 128] = [
    b",", b",", b",", b",", b",", b",", b",", b",",
    b" pools ", b" least ", b" members ", b" hedge ", b" other ", b" margin ", b" fund ", b" house ",
    b" pool ", b" units ", b" mark ", b",", b",", b",", b",", b",",
    b" member ", b" contribution ", b" expected ", b",", b",", b",", b",", b",",
    b" reserves ", b",", b",", b",", b",", b",", b",", b",",
    b" pool ", b" member ", b" units ", b" price ", b",", b",", b",", b",",
    b",", b",", b",", b",", b",", b",", b",", b",",
    b" pool ", b" price ", b",", b",", b",", b",", b",", b",",
    b" pool ", b" price ", b",", b",", b",", b",", b",", b",",
    b",", b",", b",", b",", b",", b",", b",", b",",
    b" member ", b" amount ", b",", b",", b",", b",", b",", b",",
    b" member ", b",", b",", b",", b",", b",", b",", b",",
    b" member ", b" price ", b",", b",", b",", b",", b",", b",",
    b",", b",", b",", b",", b",", b",", b",", b",",
    b" pool ", b" member ", b" price ", b",", b",", b",", b",", b",",
    b" member ", b" bid ", b",", b",", b",", b",", b",", b",",
];

// The names of the calls, by tag.
const NAMES: [&[u8]; 16] = [
    b"",
    b"HEAD",
    b"POOL",
    b"MEMBER",
    b"ROUND",
    b"BID",
    b"CLOSE",
    b"ALLOCATE",
    b"TEAR",
    b"CALL",
    b"PAY",
    b"MOVE",
    b"MISS",
    b"FINISH",
    b"SALE",
    b"WITHDRAW",
];

// A text from a place of the buffer on, and the place behind it.
fn put(out: &mut [u8], at: usize, text: &[u8]) -> usize
    requires { at + length text.now ≤ length out.old }
    ensures { Put out.old at text.now (length text.now) result out.new }
{
    let to = at + text.len();
    out[at..to].copy_from_slice(text);
    to
}

// What stands before a call's number i.
fn separator(tag: u8, i: usize) -> &'static [u8]
    requires { (tag < 16) × (i < 8) }
    ensures { result.now ≡ separator (key_of tag i) }
{
    SEPARATORS[usize::from(tag) * 8 + i]
}

// The name of a call.
fn name(tag: u8) -> &'static [u8]
    requires { tag < 16 }
    ensures { result.now ≡ name_of tag }
{
    NAMES[usize::from(tag)]
}

// A number in decimal.
fn put_decimal(out: &mut [u8], at: usize, n: u64) -> usize
    requires { at + 20 ≤ length out.old }
    ensures { Put out.old at (decimal 20 n) 20 result out.new }
{
    lines::number(out, at, n)
}

// A digit.
fn put_digit(out: &mut [u8], at: usize, d: u64) -> usize
    requires { (d < 10) × (at + 1 ≤ length out.old) }
    ensures { Put out.old at ((48 + d) ∷ []) 1 result out.new }
{
    put(out, at, &[b'0' + d as u8])
}

// Cents, with a point and two digits behind it.
fn put_money(out: &mut [u8], at: usize, n: u64) -> usize
    requires { at + 23 ≤ length out.old }
    ensures { Put out.old at (money_text n) 23 result out.new }
{
    let a = put_decimal(out, at, n / 100);
    let b = put(out, a, b".");
    let c = put_digit(out, b, n / 10 % 10);
    put_digit(out, c, n % 10)
}

// Cents below 0.
fn put_negative(out: &mut [u8], at: usize, n: u64) -> usize
    requires { at + 24 ≤ length out.old }
    ensures { Put out.old at (45 ∷ money_text n) 24 result out.new }
{
    let a = put(out, at, b"-");
    put_money(out, a, n)
}

// A price, held as cents + 1,000,000 modulo 2^32.
fn put_price(out: &mut [u8], at: usize, p: u64) -> usize
    requires { (p < 4294967296) × (at + 24 ≤ length out.old) }
    ensures { Put out.old at (price_text p) 24 result out.new }
{
    if p < 1_000_000 {
        return put_negative(out, at, 1_000_000 - p);
    }
    if p < 2_148_483_648 {
        return put_money(out, at, p - 1_000_000);
    }
    put_negative(out, at, 4_295_967_296 - p)
}

// A member behind a comma.
fn put_member(out: &mut [u8], at: usize, m: u64) -> usize
    requires { at + 21 ≤ length out.old }
    ensures { Put out.old at (44 ∷ decimal 20 m) 21 result out.new }
{
    let a = put(out, at, b",");
    put_decimal(out, a, m)
}

// The members of a set, each behind a comma.
fn put_more(out: &mut [u8], at: usize, set: u32) -> usize
    requires { at + 672 ≤ length out.old }
    ensures { Put out.old at (more_text (members set)) 672 result out.new }
{
    let mut to = at;
    for m in sets::members_of(set) {
        to = put_member(out, to, u64::from(m));
    }
    to
}

// The members of a set by commas, or a dash.
fn put_members(out: &mut [u8], at: usize, set: u32) -> usize
    requires { at + 692 ≤ length out.old }
    ensures { Put out.old at (members_text (members set)) 692 result out.new }
{
    if set == 0 {
        return put(out, at, b"-");
    }
    let m = u64::from(sets::next(set));
    let rest = sets::without_least(set);
    let a = put_decimal(out, at, m);
    put_more(out, a, rest)
}

// A number by its kind.
fn put_number(out: &mut [u8], at: usize, kind: u8, n: u32) -> usize
    requires { at + 692 ≤ length out.old }
    ensures { Put out.old at (number_text kind n) 692 result out.new }
{
    match kind {
        0..=2 => put_decimal(out, at, u64::from(n)),
        3 => put_members(out, at, n),
        4 => put_money(out, at, u64::from(n)),
        5..=255 => put_price(out, at, u64::from(n)),
    }
}

// A number behind its key or a comma.
fn put_item(out: &mut [u8], at: usize, tag: u8, i: usize, n: u32) -> usize
    requires { (tag < 16) × (i < 8) × (at + 708 ≤ length out.old) }
    ensures { Put out.old at (item_text tag i n) 708 result out.new }
{
    let a = put(out, at, separator(tag, i));
    put_number(out, a, forms::kind(tag, i), n)
}

// The numbers of a call, and the line's end.
fn put_items(out: &mut [u8], at: usize, tag: u8, numbers: &[u32]) -> usize
    requires { (tag < 16) × (length numbers.now ≤ 8) × (at + 5665 ≤ length out.old) }
    ensures { Put out.old at (items_text tag 0 numbers.now) 5665 result out.new }
{
    let mut to = at;
    for (i, n) in numbers.iter().enumerate() {
        to = put_item(out, to, tag, i, *n);
    }
    put(out, to, b"\n")
}

// A line from a place on, and the place behind it.
fn put_form(out: &mut [u8], at: usize, tag: u8, numbers: &[u32]) -> usize
    requires { (tag < 16) × (length numbers.now ≤ 8) × (at + 8192 ≤ length out.old) }
    ensures { Put out.old at (line_text tag numbers.now) 5681 result out.new }
{
    let a = put(out, at, name(tag));
    put_items(out, a, tag, numbers)
}

// The line of a call from a place on, and the place behind it. Nothing is put where the call is `Unknown`, or less than 8,192 bytes are left.
pub fn write_text(call: Call, out: &mut [u8], at: usize) -> usize
    ensures { (◌≡◌ {A = Written} (result, out.new) (line_into (asked call) out.old at)) × (result ≤ at + 8192) }
{
    if out.len() < at {
        return at;
    }
    if out.len() - at < 8192 {
        return at;
    }
    let f = forms::flat(call);
    if f.tag == 0 {
        return at;
    }
    put_form(out, at, f.tag, &f.numbers[..f.count])
}

// What stands before a call's number i, at the front of the buffer, and its length: its key between spaces, or a comma; 0 where there is no such number, or
// the buffer has less than 16 bytes.
pub fn write_key(tag: u8, i: usize, out: &mut [u8]) -> usize
    ensures { ◌≡◌ {A = Written} (result, out.new) (key_into tag i out.old) }
{
    if out.len() < 16 {
        return 0;
    }
    if 16 <= tag || 8 <= i {
        return 0;
    }
    put(out, 0, separator(tag, i))
}

// Cents from a place on, with a point and two digits behind it, and the place behind them. Nothing is put where less than 23 bytes are left.
pub fn write_money(n: u64, out: &mut [u8], at: usize) -> usize
    ensures { ◌≡◌ {A = Written} (result, out.new) (money_into n out.old at) }
{
    if out.len() < at {
        return at;
    }
    if out.len() - at < 23 {
        return at;
    }
    put_money(out, at, n)
}
