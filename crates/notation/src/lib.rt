// A line of text as a call: the notation in which a clerk writes a case.
#![tactic(auto)]

ghost use Rattle.std.specs.Prelude.{◌≡◌, cond, ◌+◌, ◌-◌, ◌%◌, ◌^◌, ◌≤◌, ◌<◌, min, eqb, set};
ghost use Rattle.wire.specs.declared.Call.TheVariants.{Head};
ghost use Rattle.notation.specs.Scans.{begin, with_phase, in_word, named, longer, negative, gathered, stored, refused};
ghost use Rattle.notation.specs.Reading.{letter_of, grown, key_code, tag_named, limit_of, number_of, strangeness, strange, settle_name, settle_key, settle_number, settle_dash, settle, next_point, more_digits, on_letter, on_digit, on_minus, on_point, on_member, on_list, on_comma, complete, ended, returned, behind, mark_read, byte_read, step, scan, call_of, outcome, read_line};

use wire::Call;

// Why a line is refused.
#[derive(Clone, Copy, Debug, PartialEq, Eq)]
pub enum Reason {
    // not the name of a call
    NotACall,
    // not the key that is expected
    WrongKey,
    // not a number of the kind that is expected
    WrongKind,
    // the number is too large
    TooLarge,
    // the call is complete
    CallComplete,
    // the line ends before the call does
    CallUnfinished,
    // a comma stands directly behind a number of a list
    CommaApart,
    // expected a space behind the key
    NoSpace,
    // the line ends before a number
    NumberMissing,
    // a carriage return stands only at the line's end
    ReturnInside,
    // the line is longer than 65536 bytes: to_fields says so, and `read_line` does not
    LineTooLong,
}

// Where the reading of a line has come to.
#[derive(Clone, Copy, Debug, PartialEq, Eq)]
pub enum Phase {
    // before the call's name
    Before,
    InName,
    // behind the name or a number
    Between,
    InKey,
    BeforeNumber,
    InNumber,
    BehindMinus,
    // the line has ended
    Ended,
    Refused(Reason),
    // behind a carriage return
    BehindReturn,
}

// What is known of a line while it is read.
#[derive(Clone, Copy)]
pub struct Scan {
    pub phase: Phase,
    pub tag: u8,
    pub item: usize,
    pub start: usize,
    pub value: u64,
    pub point: u8,
    pub minus: bool,
    pub set: u32,
    pub numbers: [u32; 8],
}

// What a line is: nothing, where it is empty or a comment; a call; or refused, at a place counted from 0, for a reason, with the
// call's tag (0 before its name is read) and the number that was to come.
#[derive(Clone, Copy)]
pub enum Read {
    Nothing,
    Called(Call),
    Refused {
        at: usize,
        reason: Reason,
        tag: u8,
        item: usize,
    },
}

// Which key stands before the numbers of each call, eight for each tag; 0 is none.
const KEYS: [u8; 128] = *b"\
    \x00\x00\x00\x00\x00\x00\x00\x00\
    \x01\x02\x03\x04\x05\x06\x07\x08\
    \x09\x0a\x0b\x00\x00\x00\x00\x00\
    \x0c\x0d\x0e\x00\x00\x00\x00\x00\
    \x0f\x00\x00\x00\x00\x00\x00\x00\
    \x09\x0c\x0a\x10\x00\x00\x00\x00\
    \x00\x00\x00\x00\x00\x00\x00\x00\
    \x09\x10\x00\x00\x00\x00\x00\x00\
    \x09\x10\x00\x00\x00\x00\x00\x00\
    \x00\x00\x00\x00\x00\x00\x00\x00\
    \x0c\x11\x00\x00\x00\x00\x00\x00\
    \x0c\x00\x00\x00\x00\x00\x00\x00\
    \x0c\x10\x00\x00\x00\x00\x00\x00\
    \x00\x00\x00\x00\x00\x00\x00\x00\
    \x09\x0c\x10\x00\x00\x00\x00\x00\
    \x0c\x12\x00\x00\x00\x00\x00\x00";

// The keys as numbers.
const CODES: [u64; 19] = [
    0,
    17284499,
    12748404,
    14140118611,
    8556773,
    16392370,
    437853486,
    218564,
    8902245,
    540140,
    22488723,
    427595,
    441878706,
    125490089330091502,
    198110728356,
    624487389363,
    17376357,
    47699412,
    2340,
];

// What the numbers of each kind are below.
const LIMITS: [u64; 6] = [0, 256, 65536, 32, 4294967296, 2147483648];

fn begun() -> Scan
    ensures { result ≡ begin }
{
    Scan {
        phase: Phase::Before,
        tag: 0,
        item: 0,
        start: 0,
        value: 0,
        point: 0,
        minus: false,
        set: 0,
        numbers: [0, 0, 0, 0, 0, 0, 0, 0],
    }
}

fn to_phase(s: Scan, phase: Phase) -> Scan
    ensures { result ≡ with_phase s phase }
{
    Scan { phase, ..s }
}

fn word(s: Scan, phase: Phase, at: usize, letter: u64) -> Scan
    ensures { result ≡ in_word s phase at letter }
{
    Scan {
        phase,
        start: at,
        value: letter,
        ..s
    }
}

fn with_tag(s: Scan, tag: u8) -> Scan
    ensures { result ≡ named s tag }
{
    Scan {
        phase: Phase::Between,
        tag,
        ..s
    }
}

fn with_value(s: Scan, value: u64, point: u8) -> Scan
    ensures { result ≡ longer s value point }
{
    Scan { value, point, ..s }
}

fn with_minus(s: Scan, at: usize) -> Scan
    ensures { result ≡ negative s at }
{
    Scan {
        phase: Phase::BehindMinus,
        start: at,
        minus: true,
        ..s
    }
}

fn with_set(s: Scan, members: u32) -> Scan
    ensures { result ≡ gathered s members }
{
    Scan {
        phase: Phase::BeforeNumber,
        set: members,
        ..s
    }
}

// The numbers with one at a place, where there is such a place.
fn with_number(numbers: [u32; 8], i: usize, n: u32) -> [u32; 8]
    ensures { result ≡ set numbers i n }
{
    if 8 <= i {
        return numbers;
    }
    let mut out = numbers;
    out[i] = n;
    out
}

fn store(s: Scan, n: u32) -> Scan
    ensures { result ≡ stored s n }
{
    Scan {
        phase: Phase::Between,
        item: s.item.saturating_add(1).min(8),
        point: 0,
        minus: false,
        set: 0,
        numbers: with_number(s.numbers, s.item, n),
        ..s
    }
}

fn refuse(s: Scan, at: usize, reason: Reason) -> Scan
    ensures { result ≡ refused s at reason }
{
    Scan {
        phase: Phase::Refused(reason),
        start: at,
        ..s
    }
}

// A letter by its place in the alphabet; 0 is no letter.
#[tactic(auto, unfolding(crate::specs::Reading::letter_of))]
fn letter(b: u8) -> u64
    ensures { (result ≡ letter_of b) × (result ≤ 26) }
{
    match b {
        b'A'..=b'Z' => u64::from(b - b'A') + 1,
        b'a'..=b'z' => u64::from(b - b'a') + 1,
        _ => 0,
    }
}

// A word or a number with a letter or a digit more; one that is longer than any of the notation stays at 2^60.
#[tactic(auto, unfolding(crate::specs::Reading::grown))]
fn grown(base: u64, value: u64, digit: u64) -> u64
    requires { (base ≤ 32) × (digit ≤ 31) }
    ensures { result ≡ grown base value digit }
{
    if value < 36028797018963968 {
        value * base + digit
    } else {
        1152921504606846976
    }
}

// The key that is to come, as a number; 0 where none is.
fn key(tag: u8, i: usize) -> u64
    ensures { result ≡ key_code tag i }
{
    if 16 <= tag || 8 <= i {
        return 0;
    }
    let n = usize::from(KEYS[usize::from(tag) * 8 + i]);
    CODES[n]
}

// The call that a word names; 0 is none.
fn tag_named(v: u64) -> u8
    ensures { result ≡ tag_named v }
{
    match v {
        267300 => 1,
        540140 => 2,
        441878706 => 3,
        19387844 => 4,
        2340 => 5,
        3554917 => 6,
        47663122053 => 7,
        660530 => 8,
        99724 => 9,
        16441 => 10,
        442053 => 11,
        435827 => 12,
        211232360 => 13,
        624005 => 14,
        800617285687 => 15,
        _ => 0,
    }
}

fn limit(kind: u8) -> u64
    ensures { (result ≡ limit_of kind) × (result ≤ 4294967296) }
{
    if 6 <= kind {
        return 0;
    }
    LIMITS[usize::from(kind)]
}

// The last byte of a number.
fn low_one(n: u64) -> u8
    ensures { result ≡ n % 2 ^ 8 }
{
    (n % 256) as u8
}

// The last four bytes of a number.
fn low_four(n: u64) -> u32
    ensures { result ≡ n % 2 ^ 32 }
{
    (n % 4294967296) as u32
}

// The number that is held of a value that is read.
#[tactic(auto, unfolding(crate::specs::Reading::number_of))]
fn number(kind: u8, minus: bool, set: u32, value: u64) -> u32
    requires { value ≤ 4294967296 }
    ensures { result ≡ number_of kind minus set value }
{
    if kind == 3 {
        sets::with(set, low_one(value))
    } else if kind != 5 {
        low_four(value)
    } else if minus {
        low_four(4295967296 - value)
    } else {
        low_four(value + 1000000)
    }
}

// Why a byte is not expected.
#[tactic(auto, unfolding(crate::specs::Reading::strangeness))]
fn strange_reason(s: Scan) -> Reason
    ensures { result ≡ strangeness s }
{
    match s.phase {
        Phase::Before | Phase::InName => Reason::NotACall,
        Phase::InKey => Reason::NoSpace,
        Phase::Between => {
            if forms::kind(s.tag, s.item) == 0 {
                Reason::CallComplete
            } else if key(s.tag, s.item) == 0 {
                Reason::CommaApart
            } else {
                Reason::WrongKey
            }
        }
        _ => Reason::WrongKind,
    }
}

// A byte that is not expected at its place.
fn not_expected(s: Scan, at: usize) -> Scan
    ensures { result ≡ strange s at }
{
    refuse(s, at, strange_reason(s))
}

// A word ends: the name of a call.
#[tactic(auto, unfolding(crate::specs::Reading::settle_name))]
fn settle_name(s: Scan) -> Scan
    ensures { result ≡ settle_name s }
{
    match tag_named(s.value) {
        0 => refuse(s, s.start, Reason::NotACall),
        tag => with_tag(s, tag),
    }
}

// A word ends: the key of a number.
#[tactic(auto, unfolding(crate::specs::Reading::settle_key))]
fn settle_key(s: Scan) -> Scan
    ensures { result ≡ settle_key s }
{
    if s.value == key(s.tag, s.item) {
        to_phase(s, Phase::BeforeNumber)
    } else {
        refuse(s, s.start, Reason::WrongKey)
    }
}

// A number ends.
#[tactic(auto, unfolding(crate::specs::Reading::settle_number, lists::specs::Lists::one_if))]
fn settle_number(s: Scan) -> Scan
    ensures { result ≡ settle_number s }
{
    let kind = forms::kind(s.tag, s.item);
    if 4 <= kind && s.point != 3 {
        return refuse(s, s.start, Reason::WrongKind);
    }
    let most = limit(kind) + u64::from(s.minus);
    if s.value < most {
        store(s, number(kind, s.minus, s.set, s.value))
    } else {
        refuse(s, s.start, Reason::TooLarge)
    }
}

// A dash ends: alone it is the empty set.
#[tactic(auto, unfolding(crate::specs::Reading::settle_dash))]
fn settle_dash(s: Scan) -> Scan
    ensures { result ≡ settle_dash s }
{
    if forms::kind(s.tag, s.item) == 3 {
        store(s, 0)
    } else {
        refuse(s, s.start, Reason::WrongKind)
    }
}

// A word or a number ends, if there is one.
#[tactic(auto, unfolding(crate::specs::Reading::settle))]
fn settled(s: Scan) -> Scan
    ensures { result ≡ settle s }
{
    match s.phase {
        Phase::InName => settle_name(s),
        Phase::InKey => settle_key(s),
        Phase::InNumber => settle_number(s),
        Phase::BehindMinus => settle_dash(s),
        _ => s,
    }
}

// A letter at a place.
#[tactic(auto, unfolding(crate::specs::Reading::on_letter))]
fn on_letter(s: Scan, l: u64, at: usize) -> Scan
    requires { l ≤ 31 }
    ensures { result ≡ on_letter s l at }
{
    match s.phase {
        Phase::Before => word(s, Phase::InName, at, l),
        Phase::InName | Phase::InKey => with_value(s, grown(32, s.value, l), s.point),
        Phase::Between if key(s.tag, s.item) != 0 => word(s, Phase::InKey, at, l),
        _ => not_expected(s, at),
    }
}

// The digits behind the point, with one more.
#[tactic(auto, unfolding(crate::specs::Reading::next_point))]
fn next_point(p: u8) -> u8
    ensures { result ≡ next_point p }
{
    if p == 0 { 0 } else { p.min(2) + 1 }
}

// A digit in a number.
#[tactic(auto, unfolding(crate::specs::Reading::more_digits))]
fn more_digits(s: Scan, d: u64, at: usize) -> Scan
    requires { d ≤ 9 }
    ensures { result ≡ more_digits s d at }
{
    if s.point == 3 {
        refuse(s, at, Reason::WrongKind)
    } else {
        with_value(s, grown(10, s.value, d), next_point(s.point))
    }
}

// A digit at a place.
#[tactic(auto, unfolding(crate::specs::Reading::on_digit))]
fn on_digit(s: Scan, d: u64, at: usize) -> Scan
    requires { d ≤ 9 }
    ensures { result ≡ on_digit s d at }
{
    match s.phase {
        Phase::BeforeNumber => word(s, Phase::InNumber, at, d),
        Phase::InNumber => more_digits(s, d, at),
        Phase::BehindMinus if forms::kind(s.tag, s.item) == 5 => word(
            s,
            Phase::InNumber,
            s.start,
            d,
        ),
        _ => not_expected(s, at),
    }
}

// A minus sign at a place.
#[tactic(auto, unfolding(crate::specs::Reading::on_minus))]
fn on_minus(s: Scan, at: usize) -> Scan
    ensures { result ≡ on_minus s at }
{
    let kind = forms::kind(s.tag, s.item);
    if matches!(s.phase, Phase::BeforeNumber) && (kind == 5 || kind == 3 && s.set == 0) {
        with_minus(s, at)
    } else {
        not_expected(s, at)
    }
}

// A point at a place.
#[tactic(auto, unfolding(crate::specs::Reading::on_point))]
fn on_point(s: Scan, at: usize) -> Scan
    ensures { result ≡ on_point s at }
{
    if matches!(s.phase, Phase::InNumber) && s.point == 0 && 4 <= forms::kind(s.tag, s.item) {
        with_value(s, s.value, 1)
    } else {
        not_expected(s, at)
    }
}

// A comma behind a member of a set.
#[tactic(auto, unfolding(crate::specs::Reading::on_member))]
fn on_member(s: Scan) -> Scan
    ensures { result ≡ on_member s }
{
    if s.value < 32 {
        with_set(s, sets::with(s.set, low_one(s.value)))
    } else {
        refuse(s, s.start, Reason::TooLarge)
    }
}

// A comma behind a number, where the next has no key.
#[tactic(auto, unfolding(crate::specs::Reading::on_list))]
fn on_list(t: Scan, at: usize) -> Scan
    ensures { result ≡ on_list t at }
{
    match t.phase {
        Phase::Refused(_) => t,
        Phase::Between if key(t.tag, t.item) == 0 && forms::kind(t.tag, t.item) != 0 => to_phase(
            t,
            Phase::BeforeNumber,
        ),
        _ => not_expected(t, at),
    }
}

// A comma at a place.
#[tactic(auto, unfolding(crate::specs::Reading::on_comma))]
fn on_comma(s: Scan, at: usize) -> Scan
    ensures { result ≡ on_comma s at }
{
    match s.phase {
        Phase::Between => refuse(s, at, Reason::CommaApart),
        Phase::InNumber if forms::kind(s.tag, s.item) == 3 => on_member(s),
        Phase::InNumber => on_list(settled(s), at),
        _ => not_expected(s, at),
    }
}

// Whether a call has all its numbers.
#[tactic(auto, unfolding(crate::specs::Reading::complete))]
fn is_complete(t: Scan) -> bool
    ensures { result ≡ complete t }
{
    forms::kind(t.tag, t.item) == 0 || t.tag == 4 && 0 < t.item
}

// The line's end, behind a word or a number.
#[tactic(auto, unfolding(crate::specs::Reading::ended))]
fn end_at(t: Scan, at: usize) -> Scan
    ensures { result ≡ ended t at }
{
    match t.phase {
        Phase::Refused(_) => t,
        Phase::Before => to_phase(t, Phase::Ended),
        Phase::Between if is_complete(t) => to_phase(t, Phase::Ended),
        Phase::BeforeNumber => refuse(t, at, Reason::NumberMissing),
        _ => refuse(t, at, Reason::CallUnfinished),
    }
}

// A carriage return, behind a line that has ended.
#[tactic(auto, unfolding(crate::specs::Reading::returned))]
fn return_at(t: Scan, at: usize) -> Scan
    ensures { result ≡ returned t at }
{
    match t.phase {
        Phase::Refused(_) => t,
        _ => word(t, Phase::BehindReturn, at, t.value),
    }
}

// A byte behind the line's end.
#[tactic(auto, unfolding(crate::specs::Reading::behind))]
fn on_rest(s: Scan, b: u8, at: usize) -> Scan
    ensures { result ≡ behind s b at }
{
    if matches!(s.phase, Phase::Ended) && b == b'\r' {
        return_at(s, at)
    } else if matches!(s.phase, Phase::BehindReturn) && b != b'\n' {
        refuse(s, s.start, Reason::ReturnInside)
    } else {
        s
    }
}

// A byte that is no space and doesn't end the line.
#[tactic(auto, unfolding(crate::specs::Reading::mark_read))]
fn on_mark(s: Scan, b: u8, at: usize) -> Scan
    ensures { result ≡ mark_read s b at }
{
    if b == b',' {
        on_comma(s, at)
    } else if b == b'.' {
        on_point(s, at)
    } else if b == b'-' {
        on_minus(s, at)
    } else if b'0' <= b && b <= b'9' {
        on_digit(s, u64::from(b - b'0'), at)
    } else {
        let l = letter(b);
        if l == 0 {
            not_expected(s, at)
        } else {
            on_letter(s, l, at)
        }
    }
}

// A byte at a place.
#[tactic(auto, unfolding(crate::specs::Reading::byte_read))]
fn on_byte(s: Scan, b: u8, at: usize) -> Scan
    ensures { result ≡ byte_read s b at }
{
    if b == b' ' || b == b'\t' {
        settled(s)
    } else if b == b'#' || b == b'\n' {
        end_at(settled(s), at)
    } else if b == b'\r' {
        return_at(end_at(settled(s), at), at)
    } else {
        on_mark(s, b, at)
    }
}

// A byte at a place; where the line is refused, nothing changes.
#[tactic(auto, unfolding(crate::specs::Reading::step))]
fn stepped(s: Scan, b: u8, at: usize) -> Scan
    ensures { result ≡ step s b at }
{
    match s.phase {
        Phase::Ended | Phase::Refused(_) | Phase::BehindReturn => on_rest(s, b, at),
        _ => on_byte(s, b, at),
    }
}

// The bytes of a line, from the left.
fn scanned(line: &[u8]) -> Scan
    ensures { result ≡ scan begin 0 line.now }
{
    let mut s = begun();
    for (i, b) in line.iter().enumerate() {
        s = stepped(s, *b, i);
    }
    s
}

// The last byte of a number of four.
fn one(n: u32) -> u8
    ensures { result ≡ n % 2 ^ 8 }
{
    (n % 256) as u8
}

// The last two bytes of a number of four.
fn two(n: u32) -> u16
    ensures { result ≡ n % 2 ^ 16 }
{
    (n % 65536) as u16
}

#[tactic(auto, unfolding(crate::specs::Reading::call_of))]
fn head_of(n: [u32; 8]) -> wire::Head
    ensures { Head result ≡ call_of 1 0 n }
{
    wire::Head {
        pools: one(n[0]),
        least: two(n[1]),
        set: n[2],
        hedge: n[3],
        other: n[4],
        margin: n[5],
        fund: n[6],
        house: n[7],
    }
}

// The call by its tag and the numbers that were read, each in its width.
#[tactic(auto, unfolding(crate::specs::Reading::call_of))]
fn call_of(tag: u8, count: usize, n: [u32; 8]) -> Call
    ensures { result ≡ call_of tag count n }
{
    match tag {
        1 => Call::Head(head_of(n)),
        2 => Call::Pool {
            pool: one(n[0]),
            units: two(n[1]),
            mark: one(n[2]),
        },
        3 => Call::Member {
            member: one(n[0]),
            contribution: n[1],
            a: two(n[2]),
            b: two(n[3]),
            c: two(n[4]),
            d: two(n[5]),
        },
        4 => Call::Round {
            count: (count % 256) as u8,
            a: n[0],
            b: n[1],
            c: n[2],
            d: n[3],
        },
        5 => Call::Bid {
            pool: one(n[0]),
            member: one(n[1]),
            units: two(n[2]),
            price: n[3],
        },
        6 => Call::Close,
        7 => Call::Allocate {
            pool: one(n[0]),
            price: n[1],
        },
        8 => Call::Tear {
            pool: one(n[0]),
            price: n[1],
        },
        9 => Call::Call,
        10 => Call::Pay {
            member: one(n[0]),
            amount: n[1],
        },
        11 => Call::Move { member: one(n[0]) },
        12 => Call::Miss {
            member: one(n[0]),
            price: n[1],
        },
        13 => Call::Finish,
        14 => Call::Sale {
            pool: one(n[0]),
            member: one(n[1]),
            price: n[2],
        },
        15 => Call::Withdraw {
            member: one(n[0]),
            bid: two(n[1]),
        },
        _ => Call::Unknown,
    }
}

// What a line is, once it is read.
#[tactic(auto, unfolding(crate::specs::Reading::outcome))]
fn outcome_of(s: Scan) -> Read
    ensures { result ≡ outcome s }
{
    match s.phase {
        Phase::Refused(reason) => Read::Refused {
            at: s.start,
            reason,
            tag: s.tag,
            item: s.item,
        },
        _ if s.tag == 0 => Read::Nothing,
        _ => Read::Called(call_of(s.tag, s.item, s.numbers)),
    }
}

// A line of text, with or without its end, as a call.
#[tactic(auto, unfolding(crate::specs::Reading::read_line))]
pub fn read_line(line: &[u8]) -> Read
    ensures { result ≡ read_line line.now }
{
    let s = scanned(line);
    outcome_of(stepped(s, b'\n', line.len()))
}
