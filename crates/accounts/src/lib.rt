// The parts of a case beside the unit roll (document 01): the pools given, the members, the rounds held and the bids kept.
#![tactic(auto)]

pub mod bids; // bids.rt: the bids kept, in flat arrays
pub mod members; // members.rt: contributions, expected and allocated units, calls, payments
pub mod pools; // pools.rt: the pools given
pub mod rounds; // rounds.rt: reserves, and the pools with open units at each ROUND
