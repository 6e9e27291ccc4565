// The auction run alone for C and Rust (include/ledger.h): each export calls the library's function of its name.
#![tactic(auto)]

ghost use Rattle.std.specs.Prelude.{◌≡◌};
ghost use Rattle.splitting.specs.Limits.{Answer};
ghost use Rattle.auction.specs.Limits.{bid_limit, allot_into};
ghost use Rattle.auction.specs.Lent.{alone_lent};

use auction::BidRecord;

// The auction run alone, over flat runs of units and prices.
#[unsafe(no_mangle)]
pub extern "C" fn ledger_auction(
    open_units: u64,
    reserve: u32,
    units: &[u64],
    prices: &[u32],
    counts: &mut [u64],
) -> u8
    ensures { ◌≡◌ {A = Answer} (result, counts.new) (allot_into 1 bid_limit open_units reserve units.now prices.now counts.old) }
{
    lists::refusal::answer(auction::alone(open_units, reserve, units, prices, counts))
}

// The auction run alone, over a lent run of bid records. Every record is checked before a count is written.
#[unsafe(no_mangle)]
pub extern "C" fn ledger_auction_records(
    bids: &[BidRecord],
    open_units: u16,
    reserve: i32,
    counts: &mut [u64],
) -> u8
    ensures { ◌≡◌ {A = Answer} (result, counts.new) (alone_lent bids.now open_units reserve counts.old) }
{
    lists::refusal::answer(auction::ledger_auction_records(bids, open_units, reserve, counts))
}
