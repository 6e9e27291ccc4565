// The printed text of a run (document 01): "s: tag, answer .. p, per pool given: pool, open, sold, allocated, moved, torn .. l: loss, six charges, uncovered; m:
// member, rank, charge on contribution, on payments", in decimal, into a lent buffer.
#![tactic(auto)]

ghost use Rattle.std.specs.Prelude.{◌≡◌, [], ◌∷◌, map, length, is_some};
ghost use Rattle.std.specs.Option.{unwrap_or};
ghost use Rattle.lists.specs.Lists.{tab};
ghost use Rattle.sets.specs.Set.{members};
ghost use Rattle.machine.specs.Printed.{s_line};
ghost use Rattle.lines.specs.Placed.{Placed, placed, line_text};
ghost use Rattle.report.specs.Texts.{p_line_of, l_line_of, m_line_of, result_lines, finish_lines, held_lines, cut_lines, placed_lines};
ghost use Rattle.report.specs.Texts.{answer_line, TakesPart, Prints};

use book::Result;
use case::Case;

// What is held after the whole fields at the front of a part of an input, the bytes that they took, and the bytes of text written.
#[derive(Clone, Copy)]
pub struct Taken {
    pub held: Option<Case>,
    pub used: usize,
    pub written: usize,
}

// ---- lines

// The p line of a pool.
pub fn write_pool(case: Case, pool: u8, out: &mut [u8], at: usize) -> usize
    ensures { ◌≡◌ {A = Placed} (result, out.new) (placed (line_text (p_line_of case pool)) out.old at) }
{
    let numbers = [
        u64::from(pool),
        case.count(pool, 0),
        case.count(pool, 1),
        case.count(pool, 2),
        case.count(pool, 3),
        case.count(pool, 4),
        0,
        0,
    ];
    lines::write_line(out, at, b'p', 6, numbers)
}

// The l line of a result.
pub fn write_loss(res: Result, out: &mut [u8], at: usize) -> usize
    ensures { ◌≡◌ {A = Placed} (result, out.new) (placed (line_text (l_line_of res)) out.old at) }
{
    let numbers = [
        res.loss,
        res.charges[0],
        res.charges[1],
        res.charges[2],
        res.charges[3],
        res.charges[4],
        res.charges[5],
        res.uncovered,
    ];
    lines::write_line(out, at, b'l', 8, numbers)
}

// The m line of a member.
pub fn write_member(res: Result, m: u8, out: &mut [u8], at: usize) -> usize
    ensures { ◌≡◌ {A = Placed} (result, out.new) (placed (line_text (m_line_of res m)) out.old at) }
{
    let place = usize::from(m);
    let numbers = [
        u64::from(m),
        u64::from(res.ranks.get(place).copied().unwrap_or(0)),
        res.contributions.get(place).copied().unwrap_or(0),
        res.payments.get(place).copied().unwrap_or(0),
        0,
        0,
        0,
        0,
    ];
    lines::write_line(out, at, b'm', 4, numbers)
}

// The s line of a field with a tag.
fn write_answer(tag: u8, answer: u8, out: &mut [u8], at: usize) -> usize
    ensures { ◌≡◌ {A = Placed} (result, out.new) (placed (line_text (s_line (tag ∷ []) answer)) out.old at) }
{
    let numbers = [u64::from(tag), u64::from(answer), 0, 0, 0, 0, 0, 0];
    lines::write_line(out, at, b's', 2, numbers)
}

// ---- the lines of the end

// The p lines of the pools given.
fn write_pools(case: Case, out: &mut [u8], at: usize) -> usize
    ensures { ◌≡◌ {A = Placed} (result, out.new) (placed_lines (tab case.book.pools.given (p_line_of case)) out.old at) }
{
    let mut to = at;
    for pool in 0..case.book.pools.given {
        to = write_pool(case, pool, out, to);
    }
    to
}

// The m lines of a set's members, in order.
fn write_members(res: Result, set: u32, out: &mut [u8], at: usize) -> usize
    ensures { ◌≡◌ {A = Placed} (result, out.new) (placed_lines (map (m_line_of res) (members set)) out.old at) }
{
    let mut to = at;
    for m in sets::members_of(set) {
        to = write_member(res, m, out, to);
    }
    to
}

// The l line and the m lines of a result.
fn write_result(res: Result, set: u32, out: &mut [u8], at: usize) -> usize
    ensures { ◌≡◌ {A = Placed} (result, out.new) (placed_lines (result_lines res set) out.old at) }
{
    let to = write_loss(res, out, at);
    write_members(res, set, out, to)
}

// "After FINISH, l .. m": none before it.
fn write_finish(case: Case, out: &mut [u8], at: usize) -> usize
    ensures { ◌≡◌ {A = Placed} (result, out.new) (placed_lines (finish_lines case) out.old at) }
{
    if book::letter(case.stage) != 5 {
        return at;
    }
    write_result(case.book.result(), case.book.head.set, out, at)
}

// The lines of the end, put into the buffer in turn from a place on, each where it fits, and the place behind them.
pub fn write_end(held: Option<Case>, out: &mut [u8], at: usize) -> usize
    ensures { ◌≡◌ {A = Placed} (result, out.new) (placed_lines (held_lines held) out.old at) }
{
    match held {
        Some(case) => {
            let to = write_pools(case, out, at);
            write_finish(case, out, to)
        }
        None => at,
    }
}

// ---- a part of an input

// The s lines of the fields at an input's front, from where they end and their answers.
fn write_answers(input: &[u8], ends: &[usize], answers: &[u8], out: &mut [u8], at: usize) -> usize
    requires { length ends.now ≡ length answers.now }
    ensures { ◌≡◌ {A = Placed} (result, out.new) (placed_lines (tab (length ends.now) (answer_line input.now ends.now answers.now)) out.old at) }
{
    let mut to = at;
    let mut start = 0;
    for (k, end) in ends.iter().enumerate() {
        to = write_answer(input.get(start).copied().unwrap_or(0), answers[k], out, to);
        start = *end;
    }
    to
}

// The whole fields at the front of a part of an input, taken in turn, with an s line for each at the front of the buffer. A buffer with less than
// four times the part's bytes is untouched, and nothing is taken.
pub fn take_part(held: Option<Case>, input: &[u8], out: &mut [u8]) -> Taken
    ensures { TakesPart held input.now out.old out.new result }
{
    let mut next = held;
    let mut used: usize = 0;
    let mut written: usize = 0;
    if out.len() / 4 < input.len() {
        return Taken {
            held,
            used,
            written,
        };
    }
    let mut ends = [0usize; 256];
    let mut answers = [0u8; 256];
    while used < input.len() {
        let rest = &input[used..];
        let front = case::take_fields(next, false, rest, &mut ends, &mut answers);
        let n = front.count;
        if n == 0 {
            break;
        }
        written = write_answers(rest, &ends[..n], &answers[..n], out, written);
        next = front.held;
        used += front.used;
    }
    Taken {
        held: next,
        used,
        written,
    }
}

// ---- a whole input

// The s line of a field that is cut off by the input's end, of which these bytes are left; nothing where no byte is left.
pub fn write_cut(rest: &[u8], out: &mut [u8], at: usize) -> usize
    ensures { ◌≡◌ {A = Placed} (result, out.new) (placed_lines (cut_lines rest.now) out.old at) }
{
    match rest.first() {
        Some(tag) => write_answer(*tag, 1, out, at),
        None => at,
    }
}

// The text of a whole input at the front of the buffer, and its length. A buffer with less than four times the input's bytes and 4,096 is untouched.
pub fn print(input: &[u8], out: &mut [u8]) -> Option<usize>
    ensures { Prints input.now out.old out.new (is_some result) (unwrap_or result 0) }
{
    let room = out.len().checked_sub(4096)?;
    if room / 4 < input.len() {
        return None;
    }
    let taken = take_part(None, input, out);
    let to = write_cut(&input[taken.used..], out, taken.written);
    Some(write_end(taken.held, out, to))
}
