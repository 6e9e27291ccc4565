// Sets of up to 32 members, as the bits of a u32: bit i is member i. Whether two sets are the same is `==` on the numbers.
#![tactic(auto)]

ghost use Rattle.std.specs.Prelude.{◌≡◌, ◌<◌, ◌^◌, length, drop};
ghost use Rattle.std.specs.Iterator.{YieldsFirst, item_count};
ghost use Rattle.sets.specs.Set.{member, members, with_member, head_or};

// Whether i is in the set.
pub fn has(set: u32, i: u8) -> bool
    ensures { result ≡ member set i }
{
    if i < 32 { (set >> i) % 2 == 1 } else { false }
}

// The set with i; a number that is no place of a set changes nothing.
pub fn with(set: u32, i: u8) -> u32
    ensures { result ≡ with_member set i }
{
    if i < 32 { set | (1u32 << i) } else { set }
}

// The number of members: "ones count gives member count".
pub fn count(set: u32) -> u32
    ensures { result ≡ length (members set) }
{
    u32::count_ones(set)
}

// The least member, and 32 where there is none: "trailing zeros finds the next member".
pub fn next(set: u32) -> u32
    ensures { result ≡ head_or 32 (members set) }
{
    u32::trailing_zeros(set)
}

// The set without its least member.
pub fn without_least(set: u32) -> u32
    ensures { members result ≡ drop 1 (members set) }
{
    if set == 0 { 0 } else { set & (set - 1) }
}

// The members of a set that are left, in member order.
#[derive(Clone, Copy)]
pub struct Iter {
    pub left: u32,
    pub ghost fits: { left < 2 ^ 32 },
}

impl Iterator for Iter {
    type Item = u8;

    ghost next_gives = { YieldsFirst (λ s. members s.left) };

    ghost remaining = { item_count (λ s. members s.left) };

    // "trailing zeros finds the next member"
    fn next(&mut self) -> Option<u8> {
        if self.left == 0 {
            return None;
        }
        let least = next(self.left) as u8;
        self.left = without_least(self.left);
        Some(least)
    }
}

// The members of the set, in member order.
pub fn members_of(set: u32) -> Iter
    ensures { result.left ≡ set }
{
    Iter { left: set }
}
