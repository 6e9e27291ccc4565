// What loops are written in, as code: a number where a test passes, two tests without a branch, numbers held to a width, a sum at a place of a run.
#![tactic(auto)]

ghost use Rattle.std.specs.Prelude.{◌≡◌, ◌&&◌, ◌||◌, cond, ℕ, List, ◌+◌, ◌-◌, ◌≤◌, ◌<◌, min};
ghost use Rattle.lists.specs.Lists.{one_if};
ghost use Rattle.lists.specs.Adding.{most16, most32, most64, add_at};
ghost use Rattle.lists.specs.Widths.{Adds, adds_at};

pub mod refusal;

// The number where the test passes, 0 where it fails.
pub fn number_if(test: bool, n: u64) -> u64
    ensures { result ≡ cond test n 0 }
{
    if test { n } else { 0 }
}

// Whether both tests pass. There is no branch where it is called, as there would be at `&&`.
pub fn both(a: bool, b: bool) -> bool
    ensures { result ≡ (a && b) }
{
    if a { b } else { false }
}

// Whether one of the tests passes.
pub fn either(a: bool, b: bool) -> bool
    ensures { result ≡ (a || b) }
{
    if a { true } else { b }
}

// ---- numbers of several widths

// Numbers of one width.
pub trait Width: Copy {
    // a number held to the width, the sum of two held to it, and a run of them after such a sum at one place
    ghost narrowed: { ℕ → Self };

    ghost sum: { Self → Self → Self };

    ghost added: { List Self → ℕ → Self → List Self };

    // A number held to the width.
    fn narrow(x: u64) -> Self
        ensures { result ≡ narrowed x };

    // The sum of two numbers, held to the width.
    fn plus(self, other: Self) -> Self
        ensures { result ≡ sum self other };

    ghost laws: { Adds sum added };
}

impl Width for u16 {
    ghost narrowed = { λ x. min x most16 };

    ghost sum = { λ x y. min (x + y) most16 };

    ghost added = { add_at most16 };

    ghost laws = { adds_at most16 };

    fn narrow(x: u64) -> u16 {
        u16::try_from(x).unwrap_or(u16::MAX)
    }

    fn plus(self, other: u16) -> u16 {
        self.saturating_add(other)
    }
}

impl Width for u32 {
    ghost narrowed = { λ x. min x most32 };

    ghost sum = { λ x y. min (x + y) most32 };

    ghost added = { add_at most32 };

    ghost laws = { adds_at most32 };

    fn narrow(x: u64) -> u32 {
        u32::try_from(x).unwrap_or(u32::MAX)
    }

    fn plus(self, other: u32) -> u32 {
        self.saturating_add(other)
    }
}

impl Width for u64 {
    ghost narrowed = { λ x. min x most64 };

    ghost sum = { λ x y. min (x + y) most64 };

    ghost added = { add_at most64 };

    ghost laws = { adds_at most64 };

    fn narrow(x: u64) -> u64 {
        x
    }

    fn plus(self, other: u64) -> u64 {
        self.saturating_add(other)
    }
}

// Adds v at place k of a run, where there is such a place, and holds the sum to the run's width: sums by key need no branch in their loop.
pub fn add_at<T: Width>(a: &mut [T], k: usize, v: T)
    ensures { a.new ≡ T.added a.old k v }
{
    if k < a.len() {
        a[k] = a[k].plus(v);
    }
}
