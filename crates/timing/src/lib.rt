// A call timed by itself: the calls before it are taken once, and then it is taken again and again from the case that they lead to (bench/src/bin/calls.rs).
#![tactic(auto)]

ghost use Rattle.std.specs.Prelude.{◌≡◌, true, is_some, map};
ghost use Rattle.case.specs.Cases.{no_held, case_in};
ghost use Rattle.case.specs.Input.{ledger_after};
ghost use Rattle.input.specs.Strings.{strings_in, in_front};
ghost use Rattle.timing.specs.Numbers.{reading_of, number_of};

use book::Book;
use case::Case;

// What is read of a book: the open units of pool 0; of the result, the smaller of the two charges of member 0.
fn reading(book: Book, res: bool) -> u64
    ensures { result ≡ reading_of book res }
{
    if res {
        let given = book.result();
        return given.contributions[0].min(given.payments[0]);
    }
    u64::from(book.open_units(0))
}

// The same of what is held, where that is a case.
fn reading_in(held: Option<Case>, res: bool) -> u64
    ensures { is_some held ≡ true → result ≡ reading_of (case_in held).book res }
{
    match held {
        Some(case) => reading(case.book, res),
        None => 0,
    }
}

// Byte strings, each taken as a call from the same case: of a call that is declined the answer, and else a reading of the case after it. The loop is that of
// `case::replay`; it then takes the case back.
fn each(held: Option<Case>, bytes: &[u8], ends: &[usize], res: bool, numbers: &mut [u64])
    ensures { numbers.new ≡ in_front (map (number_of held res) (strings_in bytes.now ends.now)) numbers.old }
{
    let mut next = held;
    let mut at: usize = 0;
    for (k, place) in ends.iter().enumerate() {
        let end = input::cut_at(at, bytes.len(), *place);
        let call = wire::read_call(&bytes[at..end]);
        at = end;
        match case::answer_to(next, call) {
            Err(refusal) => case::put(numbers, k, u64::from(refusal.number())),
            Ok(()) => {
                case::advance(&mut next, call);
                case::put(numbers, k, reading_in(next, res));
                next = held;
            }
        }
    }
}

// The byte strings of `before`, which end at `cuts`, are taken in turn as calls, from no case on; then each of the others is taken from the case that they lead to.
pub fn ledger_each(
    before: &[u8],
    cuts: &[usize],
    bytes: &[u8],
    ends: &[usize],
    res: bool,
    numbers: &mut [u64],
)
    ensures { numbers.new ≡ in_front (map (number_of (ledger_after no_held (strings_in before.now cuts.now)) res) (strings_in bytes.now ends.now)) numbers.old }
{
    let mut answers = [0u8; 1];
    let held = case::replay(None, before, cuts, &mut answers);
    each(held, bytes, ends, res, numbers)
}
