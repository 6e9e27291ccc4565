// An input as the fields of document 01: the fields at its front, whole or cut off by its end, and strings by where they end in a run of bytes.
#![tactic(auto)]

ghost use Rattle.std.specs.Prelude.{◌≡◌, ◌<◌, min};
ghost use Rattle.lists.specs.Lists.{when◌then◌else◌};
ghost use Rattle.input.specs.Strings.{cut_at};
ghost use Rattle.input.specs.Fields.{front_size, Cuts};

// Where a string ends: an end below its begin or above the number of bytes is held to them.
#[tactic(auto, unfolding(crate::specs::Strings::cut_at))]
pub fn cut_at(at: usize, n: usize, end: usize) -> usize
    ensures { result ≡ cut_at at n end }
{
    if end < at {
        return at;
    }
    end.min(n)
}

// All n bytes where the input ends here, and else none.
fn all_if(last: bool, n: usize) -> usize
    ensures { result ≡ (when last then n else 0) }
{
    if last { n } else { 0 }
}

// The bytes of the first field of an input, and 0 where it is not all there. Where the input ends here, one that is cut off has all that is left.
pub fn front_size(last: bool, input: &[u8]) -> usize
    ensures { result ≡ front_size last input.now }
{
    let n = input.len();
    if n < 3 {
        return all_if(last, n);
    }
    let size = 3 + usize::from(u16::from_be_bytes([input[1], input[2]]));
    if n < size { all_if(last, n) } else { size }
}

// Where the fields at an input's front end, as many as there is room for.
pub fn cut(last: bool, input: &[u8], room: usize, ends: &mut [usize]) -> usize
    ensures { Cuts last input.now room ends.old ends.new result }
{
    let most = room.min(ends.len());
    let mut at: usize = 0;
    for k in 0..most {
        let size = front_size(last, &input[at..]);
        if size == 0 {
            return k;
        }
        at += size;
        ends[k] = at;
    }
    most
}
