// A call as its line, and its answer in words: one sentence for each number, the value at fault where there is one, and the stage, the open units and the requirement after the call.
use crate::ranges;
use crate::texts::{Cents, Money, Set, Text, ZERO_PRICE, minus, sum_of, worth};
use accounts::bids::Bids;
use book::{Book, Stage};
use case::Case;
use units::Units;
use wire::Call;

// ---- the call

// Puts the line of a call, which is that of the notation in which cases are written.
pub fn put_call(text: &mut Text, call: Call, bytes: &[u8]) {
    if !text.put_call(call) {
        put_unknown(text, bytes);
    }
}

// Bytes that are no call: their tag and how many bytes of value follow.
fn put_unknown(text: &mut Text, bytes: &[u8]) {
    match bytes {
        [tag, _, _, value @ ..] => text.put(format_args!("tag {tag}, bytes {}\n", value.len())),
        _ => text.put("cut off\n"),
    }
}

// ---- the reason, which speaks of the call at hand

// The reason of a refusal but 18; `given` are the members given.
fn reason(call: Call, given: u32, answer: u8) -> &'static str {
    match answer {
        1 => length_reason(call),
        2 => "not allowed",
        3 => pool_reason(call),
        4 => member_reason(call, given),
        5 => "a number is out of range",
        6 => "below the least bid",
        7 => "no more bids are kept",
        8 => open_reason(call),
        9 => "the pool has a positive market value",
        10 => short_reason(call),
        11 => "a unit is open",
        12 => "prefunded resources cover the requirement",
        13 => "prefunded resources are below the requirement",
        14 => owed_reason(call),
        15 => "a member owes",
        16 => "no unit is allocated or moved to the member",
        _ => "the loss with this sale passes margin and defaulter's fund",
    }
}

fn length_reason(call: Call) -> &'static str {
    match call {
        Call::Round { .. } => "wrong number of reserves",
        _ => "not a call: unknown tag or wrong length",
    }
}

fn pool_reason(call: Call) -> &'static str {
    match call {
        Call::Pool { .. } => "not the next pool",
        _ => "the pool is not in the case",
    }
}

fn member_reason(call: Call, given: u32) -> &'static str {
    match call {
        Call::Member { member, .. } if sets::has(given, member) => "the member is given already",
        _ => "the member is not in the set",
    }
}

fn open_reason(call: Call) -> &'static str {
    match call {
        Call::Round { .. } => "no unit is open",
        _ => "no unit of the pool is open",
    }
}

fn short_reason(call: Call) -> &'static str {
    match call {
        Call::Round { .. } | Call::Sale { .. } => "not all pools and members are given",
        _ => "nobody is short in the pool",
    }
}

fn owed_reason(call: Call) -> &'static str {
    match call {
        Call::Pay { .. } => "more than the member owes",
        _ => "the member owes nothing",
    }
}

// ---- the value at fault

// 1: the reserves that a ROUND must have.
fn put_length(text: &mut Text, pools: u8, call: Call) {
    if let Call::Round { .. } = call {
        text.put(format_args!(" (the case takes {pools})"));
    }
}

// 2: the stage.
fn put_stage_at_fault(text: &mut Text, case: Case) {
    text.put(" in ");
    put_stage(text, case);
}

// The pool that a call is about; no other call is refused for its pool.
fn pool_of(call: Call) -> u8 {
    match call {
        Call::Pool { pool, .. } => pool,
        Call::Bid { pool, .. } => pool,
        Call::Allocate { pool, .. } => pool,
        Call::Tear { pool, .. } => pool,
        Call::Sale { pool, .. } => pool,
        _ => u8::MAX,
    }
}

// The member that a call is about; no other call is refused for what its member owes or holds.
fn member_of(call: Call) -> u8 {
    match call {
        Call::Pay { member, .. } => member,
        Call::Move { member } => member,
        Call::Miss { member, .. } => member,
        _ => u8::MAX,
    }
}

// 8 and 9: the pool, or any.
fn put_pool(text: &mut Text, call: Call) {
    match call {
        Call::Round { .. } => text.put(" (in any pool)"),
        _ => text.put(format_args!(" (pool {})", pool_of(call))),
    }
}

// 10: the pools and members given, or the total shortfall of the pool.
fn put_short(text: &mut Text, book: Book, call: Call) {
    match call {
        Call::Round { .. } | Call::Sale { .. } => text.put(format_args!(
            " (pools given {} of {}; members given {} of {})",
            book.pools.given,
            book.head.pools,
            Set(book.members.given),
            Set(book.head.set)
        )),
        _ => text.put(format_args!(" (total shortfall {})", book.short(pool_of(call)))),
    }
}

// The open units of the four pools.
fn open_units(book: Book) -> [u64; 4] {
    [0, 1, 2, 3].map(|pool| u64::from(book.open_units(pool)))
}

// 14: what the member owes.
fn put_owed(text: &mut Text, book: Book, m: u8) {
    text.put(format_args!(" (owes {})", Cents(book.members.owes(m))));
}

// 15: the first member who owes, and what.
fn put_owing(text: &mut Text, book: Book) {
    if let Some(m) = first_owing(book) {
        let owed = Cents(book.members.owes(m));
        text.put(format_args!(" (member {m} owes {owed})"));
    }
}

// The first member of the case who owes.
fn first_owing(book: Book) -> Option<u8> {
    sets::members_of(book.head.set).find(|m| 0 < book.members.owes(*m))
}

// 17: the losses less the prices of the units sold by agreement, this pool's included, and margin and fund. In setup no other units have left.
fn put_dear(text: &mut Text, book: Book, call: Call) {
    if let Call::Sale { pool, price, .. } = call {
        let head = book.head;
        let units = u64::from(book.open_units(pool));
        let losses = sum_of([u64::from(head.hedge), u64::from(head.other)]);
        let funds = sum_of([u64::from(head.margin), u64::from(head.fund)]);
        let prices = book.prices().saturating_add(worth(units, price));
        let at_zero = Units::ZERO_PRICES.saturating_add(worth(units, ZERO_PRICE));
        text.put(format_args!(
            " (hedge and other loss {} less prices of units sold by agreement {} = {}, margin and fund {})",
            Cents(losses),
            Money::difference(prices, at_zero),
            Money::difference(losses.saturating_add(at_zero), prices),
            Cents(funds)
        ));
    }
}

// The value at fault where no case is held: any call but HEAD has no stage, and of HEAD only numbers are at fault.
fn put_first_fault(text: &mut Text, call: Call, answer: u8) {
    match answer {
        2 => text.put(" before HEAD"),
        5 => ranges::put_ranges(text, 0, call),
        _ => {}
    }
}

// The value at fault where a case is held.
fn put_fault(text: &mut Text, case: Case, call: Call, answer: u8) {
    let book = case.book;
    let head = book.head;
    match answer {
        1 => put_length(text, head.pools, call),
        2 => put_stage_at_fault(text, case),
        3 => text.put(format_args!(
            " (pools of the case {}, given {})",
            head.pools, book.pools.given
        )),
        4 => text.put(format_args!(
            " (members {}; given {})",
            Set(head.set),
            Set(book.members.given)
        )),
        5 => ranges::put_ranges(text, head.pools, call),
        6 => text.put(format_args!(" (least {})", head.least)),
        7 => text.put(" (bids kept 256)"),
        8 | 9 => put_pool(text, call),
        _ => put_late_fault(text, book, call, answer),
    }
}

// The value at fault for the answers from 10 on.
fn put_late_fault(text: &mut Text, book: Book, call: Call, answer: u8) {
    match answer {
        10 => put_short(text, book, call),
        11 => text.put(format_args!(" (open units {})", sum_of(open_units(book)))),
        12 | 13 => text.put(format_args!(
            " (requirement {}, prefunded {})",
            Cents(book.requirement()),
            Cents(book.prefunded())
        )),
        14 => put_owed(text, book, member_of(call)),
        15 => put_owing(text, book),
        16 => text.put(format_args!(" (member {})", member_of(call))),
        _ => put_dear(text, book, call),
    }
}

// ---- 18: "where no standing bid of that member in the open round has the number"

// The number is that of no bid, or its bid is another member's, of an earlier round, or withdrawn: the first that applies. The sentence is put as one text with
// the number of the refusal, so that no write ends between the two.
fn put_no_bid(text: &mut Text, bids: Bids, round: u8, m: u8, n: u16) {
    let i = usize::from(n);
    if i < bids.kept && i < Bids::MOST {
        let bidder = bids.member[i];
        let held = bids.round[i];
        if bidder != m {
            text.put(format_args!("    refused 18: the bid is another member's (member {bidder})"));
        } else if held != round {
            text.put(format_args!("    refused 18: the bid is of an earlier round (round {held})"));
        } else {
            text.put(format_args!("    refused 18: the bid is withdrawn already (bid {n})"));
        }
    } else if let Some(last) = bids.kept.checked_sub(1) {
        text.put(format_args!(
            "    refused 18: no bid has the number (bids are numbered 0 to {last})"
        ));
    } else {
        text.put("    refused 18: no bid has the number (no bid is kept)");
    }
}

// ---- the stage

// Puts the letter of a stage and its round.
fn put_stage(text: &mut Text, case: Case) {
    match case.stage {
        Stage::Setup => text.put("stage S"),
        Stage::Bidding(round) => text.put(format_args!("stage B, round {round}")),
        Stage::After(round) => put_after(text, case.book.rounds.held, round),
        Stage::CallsOut => text.put("stage C"),
        Stage::Finished => text.put("stage F"),
    }
}

// Stage A; no round was held where every pool was sold by agreement.
fn put_after(text: &mut Text, held: u8, round: u8) {
    if held == 0 {
        text.put("stage A, no round");
    } else {
        text.put(format_args!("stage A, round {round}"));
    }
}

// Puts the open units of the pools given, and their sum where there are several.
fn put_units(text: &mut Text, book: Book) {
    let open = open_units(book);
    let all = sum_of(open);
    let [a, b, c, d] = open;
    match book.pools.given {
        0 | 1 => text.put(format_args!("; open units {a}\n")),
        2 => text.put(format_args!("; open units {a} + {b} = {all}\n")),
        3 => text.put(format_args!("; open units {a} + {b} + {c} = {all}\n")),
        _ => text.put(format_args!("; open units {a} + {b} + {c} + {d} = {all}\n")),
    }
}

// Whether a unit has left the house: a pool has fewer open units than were put up.
fn any_left(book: Book) -> bool {
    let units = book.pools.units;
    units
        .iter()
        .zip(0..4u8)
        .any(|(put_up, pool)| book.open_units(pool) < *put_up)
}

// Puts the requirement after an accepted call, once a unit has left the house.
fn put_requirement(text: &mut Text, answer: u8, book: Book) {
    if answer == 0 && any_left(book) {
        text.put(format_args!(
            "    requirement {}, prefunded {}\n",
            Cents(book.requirement()),
            Cents(book.prefunded())
        ));
    }
}

// Puts the stage, the open units and the requirement after a call with this answer.
pub fn put_state(text: &mut Text, answer: u8, held: Option<Case>) {
    match held {
        Some(case) => {
            text.put("; ");
            put_stage(text, case);
            put_units(text, case.book);
            put_requirement(text, answer, case.book);
        }
        None => text.put("; no case\n"),
    }
}

// ---- the answer

// An accepted call; a BID has the number of the bids kept before it: "numbered from 0 as accepted".
fn put_accepted(text: &mut Text, call: Call, kept: usize) {
    match call {
        Call::Bid { .. } => text.put(format_args!("    accepted as bid {kept}")),
        _ => text.put("    accepted"),
    }
}

// The refusal of a WITHDRAW for its bid.
fn put_withdraw(text: &mut Text, case: Case, call: Call) {
    if let Call::Withdraw { member, bid } = call {
        let round = book::round_of(case.stage);
        put_no_bid(text, case.book.bids, round, member, bid);
    }
}

// Any other refusal: its number, its reason and the value at fault.
fn put_refusal(text: &mut Text, held: Option<Case>, call: Call, answer: u8) {
    let given = held.map_or(0, |case| case.book.members.given);
    let reason = reason(call, given, answer);
    text.put(format_args!("    refused {answer}: {reason}"));
    match held {
        Some(case) => put_fault(text, case, call, answer),
        None => put_first_fault(text, call, answer),
    }
}

// Puts the answer to a call in words; what is held is that before the call.
pub fn put_answer(text: &mut Text, held: Option<Case>, call: Call, answer: u8) {
    match (answer, held) {
        (0, _) => put_accepted(text, call, held.map_or(0, |case| case.book.bids.kept)),
        (18, Some(case)) => put_withdraw(text, case, call),
        _ => put_refusal(text, held, call, answer),
    }
}
