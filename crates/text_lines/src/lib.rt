// A text as its lines.
#![tactic(auto)]

ghost use Rattle.std.specs.Prelude.{◌≡◌, ◌==◌, position};
ghost use Rattle.lines.specs.Placed.{Placed, placed};
ghost use Rattle.text_lines.specs.Lines.{length_to, line_size, start_of, line_at};

// A line longer than this is refused.
pub const LONGEST: usize = 65536;

// The place of the first line end.
fn line_end(input: &[u8]) -> Option<usize>
    ensures { result ≡ position (λ b. b == 10) input.now }
{
    input.iter().position(|b| *b == b'\n')
}

// The bytes before the first line end, and all where there is none.
pub fn length_to(input: &[u8]) -> usize
    ensures { result ≡ length_to input.now }
{
    line_end(input).unwrap_or(input.len())
}

// The bytes of the first line with its end, and 0 where it is not all there. Where the text ends here, a last line needs no end.
#[tactic(auto, unfolding(crate::specs::Lines::line_size))]
pub fn line_size(last: bool, input: &[u8]) -> usize
    ensures { result ≡ line_size last input.now }
{
    let n = length_to(input);
    if LONGEST < n {
        return LONGEST + 1;
    }
    if n < input.len() {
        return n + 1;
    }
    if last { n } else { 0 }
}

// Where a line of a text begins, by its number from 0 on; at the text's end where there is none.
pub fn start_of(text: &[u8], k: usize) -> usize
    ensures { result ≡ start_of k text.now }
{
    let mut at: usize = 0;
    for _ in 0..k {
        at += line_size(true, &text[at..]);
    }
    at
}

// A line of a text, by its number from 0 on and without its end, at a place of the buffer, and the place behind it. Where it does not fit, the place and the
// buffer stay as they are.
pub fn put_line(out: &mut [u8], at: usize, text: &[u8], k: usize) -> usize
    ensures { ◌≡◌ {A = Placed} (result, out.new) (placed (line_at k text.now) out.old at) }
{
    let start = start_of(text, k);
    let end = start + length_to(&text[start..]);
    words::put(out, at, &text[start..end])
}
