// Seniority, ranks, and a loss charged in turn (document 01, "Rank and layers"). Every public function takes any numbers.
#![tactic(auto)]

ghost use Rattle.std.specs.Prelude.{◌≡◌, false, ◌<◌, ◌≤◌, max, min, leb, eqb};
ghost use Rattle.lists.specs.Lists.{when◌then◌else◌};
ghost use Rattle.sets.specs.Set.{with_member, of_members};
ghost use Rattle.splitting.specs.Limits.{amount_limit, weight_limit};
ghost use Rattle.waterfall.specs.Seniority.{keys_a, keys_b, higher, first_higher, senior, rank_in};
ghost use Rattle.waterfall.specs.Charging.{held_by, charged_by_rank};
ghost use Rattle.waterfall.specs.Limits.{rank_at, held_at, charges_of, standing_at, capped, ranks_of, standing_of, performance_at, Within, charged_layers};

// The most units of a case: 4 pools of 1,000 units.
pub const CASE_UNIT_LIMIT: u64 = 4_000;

// D of 4,000 units, each won at most 2,000,000 cents above the worst reserve.
pub const D_LIMIT: u64 = 8_000_000_000;

// What a member's rank depends on: D, units won and units expected.
#[derive(Clone, Copy)]
struct Performance {
    d: u64,
    won: u64,
    expected: u64,
}

// "ΔP = D / W (0 if W = 0)": what D is divided by. No quotient is ever made.
fn divisor_of(won: u64) -> u64
    ensures { result ≡ max won 1 }
{
    won.max(1)
}

// Whether x is above y, or equal to it where the rest decides so.
fn higher(x: u64, y: u64, rest: bool) -> bool
    ensures { result ≡ higher x y rest }
{
    x > y || (x == y && rest)
}

// "Within A: higher ΔP × excess, then higher excess, then higher ΔP."
fn senior_in_a(a: Performance, b: Performance) -> bool
    requires { Within (standing_of a) × Within (standing_of b) × (a.expected ≤ a.won) × (b.expected ≤ b.won) }
    ensures { result ≡ first_higher (keys_a (standing_of a)) (keys_a (standing_of b)) }
{
    let p = divisor_of(a.won);
    let q = divisor_of(b.won);
    let e = a.won - a.expected;
    let f = b.won - b.expected;
    higher(
        a.d * e * q,
        b.d * f * p,
        higher(e, f, higher(a.d * q, b.d * p, false)),
    )
}

// "Within B: higher ΔP / deficit (deficit = −excess), then lower deficit, then higher ΔP."
fn senior_in_b(a: Performance, b: Performance) -> bool
    requires { Within (standing_of a) × Within (standing_of b) × (a.won < a.expected) × (b.won < b.expected) }
    ensures { result ≡ first_higher (keys_b (standing_of a)) (keys_b (standing_of b)) }
{
    let p = divisor_of(a.won);
    let q = divisor_of(b.won);
    let e = a.expected - a.won;
    let f = b.expected - b.won;
    higher(
        a.d * (q * f),
        b.d * (p * e),
        higher(f, e, higher(a.d * q, b.d * p, false)),
    )
}

// Whether a is strictly senior to b: "Category A (excess 0 or more) stands above B."
fn is_senior(a: Performance, b: Performance) -> bool
    requires { Within (standing_of a) × Within (standing_of b) }
    ensures { result ≡ senior (standing_of a) (standing_of b) }
{
    if a.expected <= a.won {
        if b.expected <= b.won {
            senior_in_a(a, b)
        } else {
            true
        }
    } else {
        if b.expected <= b.won {
            false
        } else {
            senior_in_b(a, b)
        }
    }
}

// The seniors found so far, with member o where it is senior to `mine`.
fn with_senior(seniors: u32, o: u8, other: Performance, mine: Performance) -> u32
    requires { Within (standing_of other) × Within (standing_of mine) }
    ensures { result ≡ (when senior (standing_of other) (standing_of mine) then with_member seniors o else seniors) }
{
    if is_senior(other, mine) {
        sets::with(seniors, o)
    } else {
        seniors
    }
}

// What the members' ranks depend on, by member.
#[derive(Clone, Copy)]
struct Columns {
    d: [u64; 32],
    won: [u64; 32],
    expected: [u64; 32],
}

impl Columns {
    // Member m's, each number held to its limit.
    fn performance_at(&self, m: usize) -> Performance
        requires { m < 32 }
        ensures { result ≡ performance_at self.now.d self.now.won self.now.expected m }
    {
        Performance {
            d: self.d[m].min(D_LIMIT),
            won: self.won[m].min(CASE_UNIT_LIMIT),
            expected: self.expected[m].min(CASE_UNIT_LIMIT),
        }
    }

    // "Rank = 1 + the number strictly senior": member m's, by the ones of the set of its seniors.
    fn rank_of(&self, set: u32, m: usize) -> u8
        requires { m < 32 }
        ensures { result ≡ rank_in set (λ o. capped (standing_at self.now.d self.now.won self.now.expected o)) m }
    {
        let mine = self.performance_at(m);
        let mut seniors = 0;
        for o in sets::members_of(set) {
            seniors = with_senior(seniors, o, self.performance_at(usize::from(o)), mine);
        }
        1 + sets::count(seniors) as u8
    }
}

// The rank of each of the 32 places among the members of the set, from the members' D, units won and units expected.
pub fn ranks(d: [u64; 32], won: [u64; 32], expected: [u64; 32], set: u32) -> [u8; 32]
    ensures { result ≡ ranks_of d won expected set }
{
    let columns = Columns { d, won, expected };
    let mut out = [0; 32];
    for (m, rank) in out.iter_mut().enumerate() {
        *rank = columns.rank_of(set, m);
    }
    out
}

// What each layer is charged, and what is uncovered.
#[derive(Clone, Copy)]
pub struct Charged {
    pub charges: [u64; 6],
    pub rest: u64,
}

// "FINISH charges the requirement in turn, each layer .. up to its limit": six layers.
pub fn charge_layers(loss: u64, limits: [u64; 6]) -> Charged
    ensures { result ≡ charged_layers loss limits }
{
    let mut charges = [0; 6];
    let mut rest = loss;
    for (i, limit) in limits.iter().enumerate() {
        charges[i] = rest.min(*limit);
        rest = rest.saturating_sub(*limit);
    }
    Charged { charges, rest }
}

// What a member holds, held to its limit, where it counts; 0 where it does not.
fn holding_if(counts: bool, amount: u64) -> u64
    ensures { result ≡ (when counts then min amount weight_limit else 0) }
{
    if counts {
        amount.min(splitting::WEIGHT_LIMIT)
    } else {
        0
    }
}

// The members of a set, with each one's rank and what it holds.
#[derive(Clone, Copy)]
struct Holdings {
    ranks: [u8; 32],
    holds: [u64; 32],
    set: u32,
}

impl Holdings {
    // What the members hold whose rank is r or junior to it.
    fn held_from(&self, r: u64) -> u64
        ensures { result ≡ held_by self.now.set (rank_at self.now.ranks) (held_at self.now.holds) (leb r) }
    {
        let mut total = 0;
        for m in sets::members_of(self.set) {
            let m = usize::from(m);
            total += holding_if(r <= u64::from(self.ranks[m]), self.holds[m]);
        }
        total
    }

    // What each member of rank r holds, and 0 at the other places.
    fn of_rank(&self, r: u64) -> [u64; 32]
        ensures { result ≡ of_members self.now.set (λ m. when eqb r (rank_at self.now.ranks m) then held_at self.now.holds m else 0) }
    {
        let mut out = [0; 32];
        for m in sets::members_of(self.set) {
            let m = usize::from(m);
            out[m] = holding_if(r == u64::from(self.ranks[m]), self.holds[m]);
        }
        out
    }

    // What member m is charged: its rank bears what the ranks junior to it leave, up to what its members hold, split by what they hold.
    fn charge_of(&self, amount: u64, m: usize) -> u64
        requires { (m < 32) × (amount ≤ amount_limit) }
        ensures { result ≡ charged_by_rank self.now.set (rank_at self.now.ranks) (held_at self.now.holds) amount m }
    {
        let r = u64::from(self.ranks[m]);
        let junior = self.held_from(r + 1);
        let equal = self.held_from(r) - junior;
        let due = amount.saturating_sub(junior).min(equal);
        let mut shares = [0; 32];
        let _ = splitting::split(due, &self.of_rank(r), &mut shares);
        shares[m]
    }
}

// "contributions, most junior rank first, an equal rank split by contribution in member order": what each member is charged of the amount.
pub fn charge_by_rank(amount: u64, ranks: [u8; 32], holds: [u64; 32], set: u32) -> [u64; 32]
    ensures { result ≡ charges_of amount ranks holds set }
{
    let whole = amount.min(splitting::AMOUNT_LIMIT);
    let members = Holdings { ranks, holds, set };
    let mut out = [0; 32];
    for m in sets::members_of(set) {
        let m = usize::from(m);
        out[m] = members.charge_of(whole, m);
    }
    out
}
