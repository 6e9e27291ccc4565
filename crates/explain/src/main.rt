// The program `explain`: reads the same fields as `ledger` and prints for people what was asked, what was answered and why, and at the end tables.
#![tactic(auto)]

mod answers;
mod ranges;
mod tables;
mod texts;

ghost use Rattle.std.specs.Prelude.{◌≡◌, ◌≤◌, IfOk, length, take};
ghost use Rattle.input.specs.Strings.{bytes_of};
ghost use Rattle.input.specs.Fields.{whole, rest};
ghost use Rattle.case.specs.Cases.{applied};
ghost use Rattle.case.specs.Input.{ledger_after, HeldAfter};
ghost use Rattle.feed.specs.Feeds.{Keeps, Fed};

use case::Case;
use feed::{Failed, Streams};
use texts::Text;

// What is held after a part of an input, and the bytes that its whole fields took.
#[derive(Clone, Copy)]
struct Taken {
    held: Option<Case>,
    used: usize,
}

// What is held after a turn, or when the input has ended, and how many bytes of a field that is cut off are kept at the buffer's front.
#[derive(Clone, Copy)]
struct Kept {
    held: Option<Case>,
    len: usize,
}

// One field: the call, its answer in words, and the stage, the open units and the requirement after it.
fn take_field(text: &mut Text, held: Option<Case>, bytes: &[u8]) -> Option<Case>
    ensures { result ≡ (applied held bytes.now).held }
{
    let call = wire::read_call(bytes);
    let applied = case::take(held, call);
    answers::put_call(text, call, bytes);
    answers::put_answer(text, held, call, applied.answer);
    answers::put_state(text, applied.answer, applied.held);
    applied.held
}

// The whole fields at the front of a part of an input, in turn.
fn take_part(text: &mut Text, held: Option<Case>, input: &[u8]) -> Taken
    ensures { (result.held ≡ ledger_after held (whole input.now)) × (result.used ≡ bytes_of (whole input.now)) }
{
    let mut next = held;
    let mut used: usize = 0;
    let mut size = input::front_size(false, input);
    while size != 0 {
        let end = used + size;
        next = take_field(text, next, &input[used..end]);
        used = end;
        size = input::front_size(false, &input[used..]);
    }
    Taken { held: next, used }
}

// The bytes in front of a place taken: their whole fields, and what is left of them moved to the front.
fn take_turn(text: &mut Text, held: Option<Case>, buf: &mut [u8], end: usize) -> Kept
    requires { end ≤ length buf.old }
    ensures { (result.held ≡ ledger_after held (whole (take end buf.old))) × Keeps rest (take end buf.old) buf.old buf.new result.len }
{
    let taken = take_part(text, held, &buf[0..end]);
    let used = taken.used;
    Kept {
        held: taken.held,
        len: feed::slide(buf, used, end),
    }
}

// Reads and takes until the input ends, or a read or a write fails. What a read brought is written before the next. What is held is what the ledger holds.
fn take_input(streams: Streams, text: &mut Text, buf: &mut [u8]) -> Result<Kept, Failed>
    ensures { IfOk result (λ r. Fed rest (HeldAfter r.held) buf.new r.len) }
{
    let mut held: Option<Case> = None;
    let mut len: usize = 0;
    for _ in 0..u64::MAX {
        let more = feed::read(streams, buf, len, b"explain: standard input")?;
        if more == 0 {
            return Ok(Kept { held, len });
        }
        let turn = take_turn(text, held, buf, len + more);
        held = turn.held;
        len = turn.len;
        text.flush()?;
    }
    Err(Failed)
}

// A field that is cut off by the input's end, of which these bytes are left.
fn put_cut(text: &mut Text, rest: &[u8]) {
    if let [tag, ..] = rest {
        text.put(format_args!(
            "cut off, tag {tag}, bytes {}\n    refused 1: the input ends within the field\n",
            rest.len()
        ));
    }
}

// The last line, where bytes of a field that is cut off are left: what stands above is not the whole case.
fn put_last(text: &mut Text, rest: &[u8]) {
    if !rest.is_empty() {
        text.put("\nNot the whole case: the input ends within a field.\n");
    }
}

// The whole input, and the tables at its end. A read or a write that failed was told.
fn run(streams: Streams, text: &mut Text, buf: &mut [u8]) -> Result<(), Failed> {
    let Kept { held, len } = take_input(streams, text, buf)?;
    put_cut(text, &buf[..len]);
    tables::put_tables(text, held);
    put_last(text, &buf[..len]);
    text.flush()
}

fn main(rt: HostRuntime) {
    let streams = feed::streams_of(rt);
    let mut buf = [0u8; 131072];
    let mut out = [0u8; 131072];
    let _done = run(streams, &mut Text::new(streams, &mut out), &mut buf);
}
