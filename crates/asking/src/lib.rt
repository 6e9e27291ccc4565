// A case read from standard input, and a question about it answered in text (document 02, C-16: "The committee watches the requirement"). No contract can say what
// is read: there are parts, those that were read, and what is held is what the ledger holds after their whole fields. What is told is one equation
// with the question and what was read.
#![tactic(auto)]

ghost use Rattle.std.specs.Prelude.{◌≡◌, false, ◌+◌, ◌≤◌, length, take};
ghost use Rattle.input.specs.Strings.{bytes_of};
ghost use Rattle.input.specs.Fields.{whole, rest};
ghost use Rattle.case.specs.Input.{ledger_after, HeldAfter};
ghost use Rattle.forms.specs.Put.{Put};
ghost use Rattle.feed.specs.Feeds.{Keeps, Fed};
ghost use Rattle.asking.specs.Questions.{Asks};
ghost use Rattle.asking.specs.Answers.{sentence, requirement_text, refusal_text, Written, told_into, reading_said, said_at, usage_text, Runs};

use case::Case;
use feed::Streams;

// The questions about a case; `Unknown` is none of them.
#[derive(Clone, Copy)]
pub enum Question {
    Requirement,
    Unknown,
}

// What is held when the reading stops, how many bytes of a field that is cut off are left at the buffer's front, and whether the input ended: where it did not, a
// read failed, or the buffer is too short. What is held and left is told in both cases, since `read_case` promises `Fed` of it where a read failed too.
#[derive(Clone, Copy)]
pub struct Rest {
    pub held: Option<Case>,
    pub len: usize,
    pub ended: bool,
}

// Whether the question is answered, and the length of the text at the buffer's front: the answer, or why there is none. There is a text in both cases.
#[derive(Clone, Copy)]
pub struct Told {
    pub good: bool,
    pub len: usize,
}

// What is held after a part of an input, and the bytes that its whole fields took.
#[derive(Clone, Copy)]
struct Taken {
    held: Option<Case>,
    used: usize,
}

// What is held after a turn, and how many bytes are kept at the buffer's front.
#[derive(Clone, Copy)]
struct Turn {
    held: Option<Case>,
    len: usize,
}

// ---- the case

// The whole fields at the front of a part of an input, in turn.
fn take_part(held: Option<Case>, input: &[u8]) -> Taken
    ensures { (result.held ≡ ledger_after held (whole input.now)) × (result.used ≡ bytes_of (whole input.now)) }
{
    let mut next = held;
    let mut used: usize = 0;
    let mut ends = [0usize; 256];
    let mut answers = [0u8; 256];
    while used < input.len() {
        let front = case::take_fields(next, false, &input[used..], &mut ends, &mut answers);
        if front.count == 0 {
            break;
        }
        next = front.held;
        used += front.used;
    }
    Taken { held: next, used }
}

// The bytes in front of a place taken: their whole fields, and what is left of them moved to the front.
fn take_turn(held: Option<Case>, buf: &mut [u8], end: usize) -> Turn
    requires { end ≤ length buf.old }
    ensures { (result.held ≡ ledger_after held (whole (take end buf.old))) × Keeps rest (take end buf.old) buf.old buf.new result.len }
{
    let taken = take_part(held, &buf[..end]);
    Turn {
        held: taken.held,
        len: feed::slide(buf, taken.used, end),
    }
}

// Reads a case from standard input, until the input ends or a read fails, which is told on standard error. Nothing is read where the buffer has less than the
// 65,538 bytes of the longest field.
pub fn read_case(streams: Streams, buf: &mut [u8]) -> Rest
    ensures { Fed rest (HeldAfter result.held) buf.new result.len }
{
    let mut held: Option<Case> = None;
    let mut len: usize = 0;
    if buf.len() < 65538 {
        return Rest {
            held,
            len,
            ended: false,
        };
    }
    for _ in 0..u64::MAX {
        let Ok(more) = feed::read(streams, buf, len, b"ask: standard input") else {
            break;
        };
        if more == 0 {
            return Rest {
                held,
                len,
                ended: true,
            };
        }
        let turn = take_turn(held, buf, len + more);
        held = turn.held;
        len = turn.len;
    }
    Rest {
        held,
        len,
        ended: false,
    }
}

// ---- the question

// The question that so many words ask, of which this is the first.
pub fn question_of(count: usize, word: &[u8]) -> Question
    ensures { Asks count word.now result }
{
    if count == 1 && word == b"requirement".as_slice() {
        Question::Requirement
    } else {
        Question::Unknown
    }
}

// ---- texts

// The answer to `requirement`, at the buffer's front.
fn put_requirement(out: &mut [u8], cents: u64) -> usize
    requires { 128 ≤ length out.old }
    ensures { Put out.old 0 (requirement_text cents) 128 result out.new }
{
    let a = words::put(out, 0, b"requirement ");
    let b = spelling::write_money(cents, out, a);
    words::put(out, b, b"\n")
}

// Why a question is refused by a number, in words.
fn put_sentence(out: &mut [u8], at: usize, number: u8) -> usize
    requires { at + 64 ≤ length out.old }
    ensures { Put out.old at (sentence number) 64 result out.new }
{
    if number == 2 {
        return words::put(out, at, b"there is no case");
    }
    at
}

// The refusal by a number, at the buffer's front.
fn put_refusal(out: &mut [u8], number: u8) -> usize
    requires { 128 ≤ length out.old }
    ensures { Put out.old 0 (refusal_text number) 128 result out.new }
{
    let a = words::put(out, 0, b"ask: refused ");
    let b = words::number(out, a, u64::from(number));
    let c = words::put(out, b, b": ");
    let d = put_sentence(out, c, number);
    words::put(out, d, b"\n")
}

// ---- the answer

// Why there is no answer.
fn tell_why(why: &[u8], out: &mut [u8]) -> Told
    requires { length why.now ≤ 128 }
    ensures { ◌≡◌ {A = Written} (result, out.new) (told_into (false, why.now) out.old) }
{
    if out.len() < 128 {
        return Told {
            good: false,
            len: 0,
        };
    }
    Told {
        good: false,
        len: words::put(out, 0, why),
    }
}

// How the program is called.
fn tell_usage(out: &mut [u8]) -> Told
    ensures { ◌≡◌ {A = Written} (result, out.new) (told_into (false, usage_text) out.old) }
{
    tell_why(b"usage: ask requirement < FIELDS\n", out)
}

// What is read of a case, or the refusal.
fn tell_reading(reading: Result<u64, u8>, out: &mut [u8]) -> Told
    ensures { ◌≡◌ {A = Written} (result, out.new) (told_into (reading_said reading) out.old) }
{
    if out.len() < 128 {
        return Told {
            good: false,
            len: 0,
        };
    }
    match reading {
        Ok(cents) => Told {
            good: true,
            len: put_requirement(out, cents),
        },
        Err(number) => Told {
            good: false,
            len: put_refusal(out, number),
        },
    }
}

// The answer to a question about what was read, or why there is none, at the buffer's front. Nothing is told where a read failed, or the buffer has less than
// 128 bytes.
pub fn answer(question: Question, rest: Rest, out: &mut [u8]) -> Told
    ensures { ◌≡◌ {A = Written} (result, out.new) (told_into (said_at question rest) out.old) }
{
    if !rest.ended {
        return tell_why(b"", out);
    }
    if rest.len != 0 {
        return tell_why(
            b"ask: not answered, since the input ends within a field\n",
            out,
        );
    }
    match question {
        Question::Requirement => tell_reading(case::requirement(rest.held), out),
        Question::Unknown => tell_usage(out),
    }
}

// The answer to a question about the case on standard input. Nothing is read where there is no question.
pub fn run(streams: Streams, question: Question, buf: &mut [u8], out: &mut [u8]) -> Told
    ensures { Runs question out.old out.new result }
{
    match question {
        Question::Unknown => tell_usage(out),
        Question::Requirement => answer(question, read_case(streams, buf), out),
    }
}
