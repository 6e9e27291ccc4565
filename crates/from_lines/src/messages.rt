// Why a line is refused, in words.
use feed::Streams;
use rows::{Reason, Refusal};
use words::{number, put};

// One of two words, by whether there is one thing or several.
fn by_number(n: usize, one: &'static [u8], several: &'static [u8]) -> &'static [u8] {
    if n == 1 { one } else { several }
}

// How many positions a day has.
fn put_members(out: &mut [u8], at: usize, n: usize) -> usize {
    let a = number(out, at, n as u64);
    let b = put(
        out,
        a,
        by_number(n, b" member, and so ", b" members, and so "),
    );
    let c = number(out, b, n as u64);
    put(out, c, by_number(n, b" position", b" positions"))
}

// What is said of a reason.
fn words_of(reason: Reason) -> &'static [u8] {
    match reason {
        Reason::ExpectedNumber => b"expected a whole number",
        Reason::ExpectedComma => b"expected a comma",
        Reason::TooLarge => b"the position is too large, at most 10000000",
        Reason::TooMany => b"the day is complete: ",
        Reason::EndsEarly => b"the line ends before the day does: ",
        Reason::CarriageReturn => b"a carriage return stands only at the line's end",
        Reason::LineTooLong => b"the line is longer than 65536 bytes",
    }
}

// A reason for n members.
fn put_reason(out: &mut [u8], at: usize, reason: Reason, n: usize) -> usize {
    let to = put(out, at, words_of(reason));
    match reason {
        Reason::TooMany | Reason::EndsEarly => put_members(out, to, n),
        _ => to,
    }
}

// "line L column C: " at the front of a buffer, with the first column as 1.
fn put_place(out: &mut [u8], line: u64, place: usize) -> usize {
    let a = put(out, 0, b"line ");
    let b = number(out, a, line);
    let c = put(out, b, b" column ");
    let d = number(out, c, (place as u64).wrapping_add(1));
    put(out, d, b": ")
}

// The first bytes of a message as a line on standard error.
fn tell(streams: Streams, note: [u8; 256], n: usize) {
    feed::tell(streams, &note[..n.min(256)]);
    feed::tell(streams, b"\n");
}

// A line that is refused, of n members.
pub fn tell_line(streams: Streams, line: u64, refusal: Refusal, n: usize) {
    let mut note = [0u8; 256];
    let at = put_place(&mut note, line, refusal.at);
    let end = put_reason(&mut note, at, refusal.reason, n);
    tell(streams, note, end);
}
