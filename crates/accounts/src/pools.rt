// The pools given.
ghost use Rattle.std.specs.Prelude.{◌≡◌, get_or};
ghost use Rattle.accounts.specs.Pools.{no_pools, put_pool};

#[derive(Clone, Copy)]
pub struct Pools {
    pub given: u8,
    pub units: [u16; 4],
    pub marks: [u8; 4],
}

impl Pools {
    // The most pools of a case.
    pub const MOST: u8 = 4;

    // No pool.
    pub fn new() -> Pools
        ensures { result ≡ no_pools }
    {
        Pools {
            given: 0,
            units: [0u16; 4],
            marks: [0u8; 4],
        }
    }

    // The next pool, or unchanged where four are given.
    pub fn put(self, units: u16, mark: u8) -> Pools
        ensures { result ≡ put_pool self units mark }
    {
        let n = self.given;
        if n < Pools::MOST {
            let at = usize::from(n);
            let mut out = self;
            out.units[at] = units;
            out.marks[at] = mark;
            out.given = n + 1;
            return out;
        }
        self
    }

    // A pool's mark, and 0 of a pool that no case has.
    pub fn mark(self, pool: u8) -> u8
        ensures { result ≡ get_or self.marks pool 0 }
    {
        self.marks.get(usize::from(pool)).copied().unwrap_or(0)
    }
}
