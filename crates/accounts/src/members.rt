// The members. What belongs to member m in pool p stands at place 4 × m + p.
ghost use Rattle.std.specs.Prelude.{◌≡◌, map, ℕ, ◌-◌, ◌≤◌, ◌<◌, get_or};
ghost use Rattle.lists.specs.Lists.{when◌then◌else◌, sum};
ghost use Rattle.lists.specs.Adding.{most16, most32};
ghost use Rattle.sets.specs.Set.{members};
ghost use Rattle.accounts.specs.Members.{no_members, owes_of, someone_owes_in, shortfalls_of, over_pools, over_pools_at, without_pools, put_member, add_shares, with_shares, with_calls, with_payment, with_move, with_won};

use lists::Width;
use std::array;

#[derive(Clone, Copy)]
pub struct Members {
    pub given: u32,
    pub moved: u32,
    pub contribution: [u32; 32],
    pub called: [u32; 32],
    pub paid: [u32; 32],
    pub expected: [u16; 128],
    pub allocated: [u16; 128],
    pub won: [u16; 128],
}

// ---- 32 numbers in another width

// As wider ones.
pub fn widened(xs: [u32; 32]) -> [u64; 32]
    ensures { result ≡ xs }
{
    array::from_fn(|m| u64::from(xs[m]))
}

// Held to a width.
pub fn narrowed<T: Width>(xs: [u64; 32]) -> [T; 32]
    ensures { result ≡ map T.narrowed xs }
{
    array::from_fn(|m| T::narrow(xs[m]))
}

// ---- what is read

// A member's amount, of 32 bits: so many fit a sum of 64 bits.
fn amount_at(xs: &[u32; 32], m: usize) -> u64
    requires { m < 32 }
    ensures { (result ≡ get_or xs.now m 0) × (result ≤ most32) }
{
    u64::from(xs[m])
}

// The members' amounts added up, at most 32 times what 32 bits hold.
pub fn amounts(set: u32, xs: [u32; 32]) -> u64
    ensures { (result ≡ sum (map (λ m. get_or xs m 0) (members set))) × (result ≤ 137438953440) }
{
    let mut total = 0;
    for m in sets::members_of(set) {
        total += amount_at(&xs, usize::from(m));
    }
    total
}

// "It owes its call less payments, and 0 after MOVE."
fn owed(moved: bool, called: u32, paid: u32) -> u64
    ensures { result ≡ (when moved then 0 else (called - paid)) }
{
    if moved {
        0
    } else {
        u64::from(called.saturating_sub(paid))
    }
}

// "expected units less units won less units ever allocated to it by this call .. at least 0"
fn shortfall(expected: u16, won: u16, allocated: u16) -> u64
    ensures { (result ≡ (expected - won - allocated)) × (result ≤ most16) }
{
    u64::from(expected.saturating_sub(won).saturating_sub(allocated))
}

// The members' shortfalls in a pool, and 0 at the other places, from the units expected, won and allocated: whoever asks for them need not copy
// all of the members.
pub fn shortfalls(
    set: u32,
    expected: [u16; 128],
    won: [u16; 128],
    allocated: [u16; 128],
    pool: u8,
) -> [u64; 32]
    ensures { (result ≡ shortfalls_of set expected won allocated pool) × ((k : ℕ) → get_or result k 0 ≤ most16) }
{
    let mut out = [0u64; 32];
    if 4 <= pool {
        return out;
    }
    for m in sets::members_of(set) {
        let m = usize::from(m);
        let k = 4 * m + usize::from(pool);
        out[m] = shortfall(expected[k], won[k], allocated[k]);
    }
    out
}

// A member's units over the four pools.
fn over_pools_at(xs: &[u16; 128], m: usize) -> u64
    requires { m < 32 }
    ensures { result ≡ over_pools_at xs.now m }
{
    let a = u64::from(xs[4 * m]);
    let b = u64::from(xs[4 * m + 1]);
    let c = u64::from(xs[4 * m + 2]);
    let d = u64::from(xs[4 * m + 3]);
    a + b + c + d
}

// Each member's units over the four pools.
pub fn over_pools(xs: [u16; 128]) -> [u64; 32]
    ensures { result ≡ over_pools xs }
{
    array::from_fn(|m| over_pools_at(&xs, m))
}

// The members' units by pool, with 0 in the pools that are left out.
pub fn without_pools(xs: [u16; 128], out: [bool; 4]) -> [u16; 128]
    ensures { result ≡ without_pools xs out }
{
    array::from_fn(|k| if out[k % 4] { 0 } else { xs[k] })
}

// The shares of the members added in a pool.
fn add_shares(set: u32, pool: u8, shares: [u16; 32], xs: &mut [u16])
    ensures { xs.new ≡ add_shares pool shares (members set) xs.old }
{
    for m in sets::members_of(set) {
        let m = usize::from(m);
        lists::add_at(xs, 4 * m + usize::from(pool), shares[m]);
    }
}

impl Members {
    // No member.
    pub fn new() -> Members
        ensures { result ≡ no_members }
    {
        Members {
            given: 0,
            moved: 0,
            contribution: [0u32; 32],
            called: [0u32; 32],
            paid: [0u32; 32],
            expected: [0u16; 128],
            allocated: [0u16; 128],
            won: [0u16; 128],
        }
    }

    // What a member owes, read where it stands: nothing is copied where all members are asked.
    fn owes_at(&self, m: u8) -> u64
        ensures { result ≡ owes_of self.now m }
    {
        if m < 32 {
            let at = usize::from(m);
            owed(sets::has(self.moved, m), self.called[at], self.paid[at])
        } else {
            0
        }
    }

    // What a member owes. The arrays are named by themselves: a reference to the members would have all of them copied where one is asked.
    pub fn owes(self, m: u8) -> u64
        ensures { result ≡ owes_of self m }
    {
        if m < 32 {
            let at = usize::from(m);
            let called = self.called;
            let paid = self.paid;
            owed(sets::has(self.moved, m), called[at], paid[at])
        } else {
            0
        }
    }

    // Whether a member of the set owes.
    pub fn someone_owes(self, set: u32) -> bool
        ensures { result ≡ someone_owes_in self set }
    {
        sets::members_of(set).any(|m| 0 < self.owes_at(m))
    }

    // MEMBER: a member with its contribution and its expected units in pools 0 to 3.
    pub fn put(self, m: u8, contribution: u32, a: u16, b: u16, c: u16, d: u16) -> Members
        ensures { result ≡ put_member self m contribution a b c d }
    {
        if 32 <= m {
            return self;
        }
        let at = usize::from(m);
        let mut out = self;
        out.given = sets::with(self.given, m);
        out.contribution[at] = contribution;
        out.expected[4 * at..4 * at + 4].copy_from_slice(&[a, b, c, d]);
        out
    }

    // ALLOCATE: the shares of the set's members in a pool are allocated to them.
    pub fn allocate(self, set: u32, pool: u8, shares: [u16; 32]) -> Members
        ensures { result ≡ with_shares self set pool shares }
    {
        if 4 <= pool {
            return self;
        }
        let mut out = self;
        add_shares(set, pool, shares, &mut out.allocated);
        out
    }

    // CALL: the members' calls.
    pub fn call(self, calls: [u32; 32]) -> Members
        ensures { result ≡ with_calls self calls }
    {
        Members {
            called: calls,
            ..self
        }
    }

    // PAY: "adds to what a member paid".
    pub fn pay(self, m: u8, amount: u32) -> Members
        ensures { result ≡ with_payment self m amount }
    {
        let mut out = self;
        lists::add_at(&mut out.paid, usize::from(m), amount);
        out
    }

    // MOVE: the member had one.
    pub fn move_out(self, m: u8) -> Members
        ensures { result ≡ with_move self m }
    {
        Members {
            moved: sets::with(self.moved, m),
            ..self
        }
    }

    // CLOSE: the units won by member and pool.
    pub fn win(self, won: [u16; 128]) -> Members
        ensures { result ≡ with_won self won }
    {
        Members { won, ..self }
    }
}
