// Lines of decimal numbers (document 01: "in decimal throughout"), put into a lent buffer.
#![tactic(auto)]

ghost use Rattle.std.specs.Prelude.{◌≡◌, ◌∷◌, ◌+◌, ◌≤◌, min, length, take, set};
ghost use Rattle.std.proofs.lemmas.List.Edits.{sets};
ghost use Rattle.machine.specs.Printed.{decimal, numbers_text};
ghost use Rattle.lines.specs.Placed.{Placed, placed, line_of, line_text};

// How many digits a number has.
fn digits(n: u64) -> usize
    ensures { (result ≡ length (decimal 20 n)) × (result ≤ 20) }
{
    let mut k: usize = 1;
    let mut rest = n;
    while 10 <= rest {
        rest /= 10;
        k += 1;
    }
    k
}

// A byte at a place of the buffer.
fn put(out: &mut [u8], at: usize, b: u8)
    requires { at + 1 ≤ length out.old }
    ensures { out.new ≡ set out.old at b }
{
    out[at] = b;
}

// The code of a digit.
fn glyph(d: u64) -> u8
    requires { d ≤ 9 }
    ensures { result ≡ 48 + d }
{
    48 + d as u8
}

// The digits of a number, of which there are k, from a place of the buffer on.
fn spell(out: &mut [u8], at: usize, k: usize, n: u64)
    requires { (k ≡ length (decimal 20 n)) × (at + k ≤ length out.old) }
    ensures { out.new ≡ sets out.old at (decimal 20 n) }
{
    let mut i = at + k - 1;
    let mut rest = n;
    while 10 <= rest {
        put(out, i, glyph(rest % 10));
        rest /= 10;
        i -= 1;
    }
    put(out, i, glyph(rest));
}

// A number in decimal, put into the buffer from a place on, and the place behind it. Where it does not fit, the place and the buffer stay as they are.
pub fn number(out: &mut [u8], at: usize, n: u64) -> usize
    ensures { ◌≡◌ {A = Placed} (result, out.new) (placed (decimal 20 n) out.old at) }
{
    let k = digits(n);
    if out.len() < at {
        return at;
    }
    if out.len() - at < k {
        return at;
    }
    spell(out, at, k, n);
    at + k
}

// The bytes that at most eight numbers take, each behind a space, and the line's end.
fn width(numbers: &[u64]) -> usize
    requires { length numbers.now ≤ 8 }
    ensures { (result ≡ length (numbers_text numbers.now)) × (result ≤ 169) }
{
    let mut w: usize = 1;
    for n in numbers {
        w += 1 + digits(*n);
    }
    w
}

// A space and a number at a place of the buffer, and the place behind them.
fn write_number(out: &mut [u8], at: usize, n: u64) -> usize
    requires { at + (1 + length (decimal 20 n)) ≤ length out.old }
    ensures { (result ≡ at + (1 + length (decimal 20 n))) × (out.new ≡ sets out.old at (32 ∷ decimal 20 n)) }
{
    put(out, at, b' ');
    let k = digits(n);
    spell(out, at + 1, k, n);
    at + 1 + k
}

// Numbers, each behind a space, and the line's end, from a place of the buffer on, and the place behind them.
fn write_numbers(out: &mut [u8], at: usize, numbers: &[u64]) -> usize
    requires { at + length (numbers_text numbers.now) ≤ length out.old }
    ensures { (result ≡ at + length (numbers_text numbers.now)) × (out.new ≡ sets out.old at (numbers_text numbers.now)) }
{
    let mut to = at;
    for n in numbers {
        to = write_number(out, to, *n);
    }
    put(out, to, b'\n');
    to + 1
}

// A line of a letter and the first `count` of at most eight numbers, put into the buffer from a place on, and the place behind it. Where it does not
// fit, the place and the buffer stay as they are.
pub fn write_line(out: &mut [u8], at: usize, letter: u8, count: usize, numbers: [u64; 8]) -> usize
    ensures { ◌≡◌ {A = Placed} (result, out.new) (placed (line_text (line_of letter (min count 8) numbers)) out.old at) }
{
    let first = &numbers[..count.min(8)];
    let w = 1 + width(first);
    if out.len() < at {
        return at;
    }
    if out.len() - at < w {
        return at;
    }
    put(out, at, letter);
    write_numbers(out, at + 1, first)
}
