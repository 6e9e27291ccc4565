// Why a line is refused, in words: the place, what was expected, and how it is written.
use notation::Reason;
use words::{number, put};

// Where a line is refused, and why, and the number of a call that was expected there.
#[derive(Clone, Copy)]
pub struct Refusal {
    pub at: usize,
    pub reason: Reason,
    pub tag: u8,
    pub item: usize,
}

// What a number of a kind looks like; kinds are 1 to 5.
fn looks_of(kind: u8) -> &'static [u8] {
    match kind {
        3 => b"members by commas, as in 0,1,2",
        4 => b"an amount of money with a point and two digits behind it, as in 12500.00",
        5 => b"a price with a point and two digits behind it, as in 12500.00 or -20.00",
        _ => b"a whole number",
    }
}

// The largest number of a kind.
fn most_of(kind: u8) -> &'static [u8] {
    match kind {
        1 => b"255",
        2 => b"65535",
        3 => b"31",
        4 => b"42949672.95",
        _ => b"21474836.47, and -21474836.48 below zero",
    }
}

// A word without the space behind it, and nothing where there is none.
fn put_word(out: &mut [u8], at: usize, word: &[u8], n: usize) -> usize {
    if n == 0 {
        return at;
    }
    if word.len() < n {
        return at;
    }
    put(out, at, &word[..n - 1])
}

// What comes before a number: its key, or a comma and a number of its kind.
fn put_next(out: &mut [u8], at: usize, tag: u8, item: usize) -> usize {
    let mut word = [0u8; 16];
    let n = spelling::write_key(tag, item, &mut word);
    if n < 2 {
        let to = put(out, at, b"a comma and ");
        return put(out, to, looks_of(forms::kind(tag, item)));
    }
    let to = put(out, at, b"the key");
    put_word(out, to, &word, n)
}

// A byte of a line, and 0 where it has none there.
fn byte_at(line: &[u8], at: usize) -> u8 {
    if at < line.len() { line[at] } else { 0 }
}

// Whether three bytes begin with one of the dashes that look like a minus sign: in UTF-8 from U+2010 to U+2015 or U+2212, or 0x96 or 0x97 of Windows.
fn is_dash(a: u8, b: u8, c: u8) -> bool {
    let windows = a == 0x96 || a == 0x97;
    let general = b == 0x80 && (0x90..=0x95).contains(&c);
    let minus = b == 0x88 && c == 0x92;
    windows || a == 0xe2 && (general || minus)
}

// Whether such a dash stands at a place of a line.
fn dash_at(line: &[u8], at: usize) -> bool {
    if line.len() <= at {
        return false;
    }
    is_dash(
        byte_at(line, at),
        byte_at(line, at + 1),
        byte_at(line, at + 2),
    )
}

// A reason that names what was expected.
fn put_expected(out: &mut [u8], at: usize, why: Refusal) -> usize {
    let to = put(out, at, b"expected ");
    if matches!(why.reason, Reason::WrongKind | Reason::NumberMissing) {
        return put(out, to, looks_of(forms::kind(why.tag, why.item)));
    }
    let next = put_next(out, to, why.tag, why.item);
    if why.reason == Reason::NoSpace {
        return put(out, next, b", then a space");
    }
    next
}

// A reason, in words.
fn put_reason(out: &mut [u8], at: usize, why: Refusal) -> usize {
    match why.reason {
        Reason::NotACall => put(out, at, b"not the name of a call; a comment begins with #"),
        Reason::CallComplete => put(out, at, b"the call is complete; a comment begins with #"),
        Reason::CommaApart => put(
            out,
            at,
            b"a comma stands directly behind a number of a list",
        ),
        Reason::ReturnInside => put(out, at, b"a carriage return stands only at the line's end"),
        Reason::LineTooLong => put(out, at, b"the line is longer than 65536 bytes"),
        Reason::TooLarge => {
            let to = put(out, at, b"the number is too large, at most ");
            put(out, to, most_of(forms::kind(why.tag, why.item)))
        }
        Reason::CallUnfinished | Reason::NumberMissing => {
            let to = put(out, at, b"the line ends before the call does; ");
            put_expected(out, to, why)
        }
        Reason::WrongKey | Reason::WrongKind | Reason::NoSpace => put_expected(out, at, why),
    }
}

// "line L column C: " at the front of a buffer, with the first column as 1.
fn put_place(out: &mut [u8], line: u64, place: usize) -> usize {
    let a = put(out, 0, b"line ");
    let b = number(out, a, line);
    let c = put(out, b, b" column ");
    let d = number(out, c, (place as u64).wrapping_add(1));
    put(out, d, b": ")
}

// The place and the reason at the front of a buffer, and their length.
pub fn write_message(out: &mut [u8], line: u64, why: Refusal, text: &[u8]) -> usize {
    let a = put_place(out, line, why.at);
    let b = put_reason(out, a, why);
    if why.reason == Reason::WrongKind && dash_at(text, why.at) {
        return put(out, b, b"; the minus sign is -");
    }
    b
}
