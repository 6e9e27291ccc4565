// The rounds held. What belongs to pool p in round k + 1 stands at place 4 × k + p.
ghost use Rattle.std.specs.Prelude.{◌≡◌, ◌<◌};
ghost use Rattle.accounts.specs.Rounds.{no_rounds, put_round, reserve_of, worst_in, worst_of, worsts_of};

#[derive(Clone, Copy)]
pub struct Rounds {
    pub held: u8,
    pub reserves: [u32; 8],
    pub opened: [bool; 8],
}

// The lower of two reserves, each counted only where its pool had open units; 0 where neither counts.
fn worst_in(one: bool, first: u32, two: bool, second: u32) -> u32
    ensures { result ≡ worst_in one first two second }
{
    match (one, two) {
        (true, true) => first.min(second),
        (true, false) => first,
        (false, true) => second,
        (false, false) => 0,
    }
}

impl Rounds {
    // The most rounds of a case.
    pub const MOST: u8 = 2;

    // No round.
    pub fn new() -> Rounds
        ensures { result ≡ no_rounds }
    {
        Rounds {
            held: 0,
            reserves: [0u32; 8],
            opened: [false; 8],
        }
    }

    // ROUND: the next round with its reserves, and whether each pool has open units; unchanged where two are held.
    pub fn put(self, reserves: [u32; 4], opened: [bool; 4]) -> Rounds
        ensures { result ≡ put_round self reserves opened }
    {
        let n = self.held;
        if Rounds::MOST <= n {
            return self;
        }
        let at = 4 * usize::from(n);
        let mut out = self;
        out.reserves[at..at + 4].copy_from_slice(&reserves);
        out.opened[at..at + 4].copy_from_slice(&opened);
        out.held = n + 1;
        out
    }

    // The reserve of a pool in a round, and 0 where there is none.
    pub fn reserve(self, round: u8, pool: u8) -> u32
        ensures { result ≡ reserve_of self round pool }
    {
        if 1 <= round && round <= 2 && pool < 4 {
            self.reserves[4 * usize::from(round - 1) + usize::from(pool)]
        } else {
            0
        }
    }

    // "A pool's worst reserve is the lower of those of the rounds in which it had open units."
    pub fn worst(self, pool: u8) -> u32
        ensures { result ≡ worst_of self pool }
    {
        if 4 <= pool {
            return 0;
        }
        let at = usize::from(pool);
        let first = 1 <= self.held && self.opened[at];
        let second = 2 <= self.held && self.opened[at + 4];
        worst_in(first, self.reserves[at], second, self.reserves[at + 4])
    }

    // The worst reserve of each pool.
    pub fn worsts(self) -> [u32; 4]
        ensures { result ≡ worsts_of self }
    {
        [self.worst(0), self.worst(1), self.worst(2), self.worst(3)]
    }
}
