// The turns of MOVE: units pass by groups, those of one place at once. The units that may move are counted at 384 places behind the first four; each place has a
// key, and the least key has its turn first.
#![tactic(auto)]

ghost use Rattle.std.specs.Prelude.{◌≡◌, ◌/◌, ◌<◌, min};
ghost use Rattle.turns.specs.Keys.{allocated_key, sold_key, key_at, live_key, live_keys, least_key, key_place, key_price, needed};

// The key of what may not move, above all others, and the least key of a sold unit.
pub const NO_KEY: u32 = 536_870_912;

const SOLD_KEYS: u32 = 268_435_456;

// The key of a member's allocated units: "lowest price, then higher pool, then higher member".
fn allocated_key(price: u32, pool: usize, member: usize) -> u32
    requires { (pool < 4) × (member < 32) }
    ensures { result ≡ allocated_key price pool member }
{
    if price < 1_000_000 {
        price * 256 + ((3 - pool as u32) * 32 + (31 - member as u32))
    } else {
        NO_KEY
    }
}

// The key of a bid's units: "lowest price, then later bid", behind every allocated unit.
fn sold_key(price: u32, bid: usize) -> u32
    requires { bid < 256 }
    ensures { result ≡ sold_key price bid }
{
    if price < 1_000_000 {
        SOLD_KEYS + (price * 256 + (255 - bid as u32))
    } else {
        NO_KEY
    }
}

// The key of the units at place j; the prices of ALLOCATE and of the bids are lent.
fn key_at(allocation: &[u32; 4], prices: &[u32; 256], j: usize) -> u32
    requires { j < 384 }
    ensures { result ≡ key_at allocation.now prices.now j }
{
    if j < 128 {
        allocated_key(allocation[j % 4], j % 4, j / 4)
    } else {
        sold_key(prices[j - 128], j - 128)
    }
}

// The key of a place that has n units.
fn live_key(n: u16, key: u32) -> u32
    ensures { result ≡ live_key n key }
{
    if n == 0 { NO_KEY } else { key }
}

// The keys of the places that have units.
pub fn live_keys(counts: &[u16; 780], allocation: &[u32; 4], prices: &[u32; 256]) -> [u32; 384]
    ensures { result ≡ live_keys allocation.now prices.now counts.now }
{
    let mut keys = [NO_KEY; 384];
    for (j, key) in keys.iter_mut().enumerate() {
        *key = live_key(counts[4 + j], key_at(allocation, prices, j));
    }
    keys
}

// The least of keys.
pub fn least_key(keys: &[u32]) -> u32
    ensures { result ≡ least_key keys.now }
{
    keys.iter().fold(NO_KEY, |least, key| least.min(*key))
}

// The place that a key tells.
pub fn key_place(key: u32) -> usize
    ensures { (result ≡ key_place key) × (result < 384) }
{
    let low = key as usize % 256;
    if key < SOLD_KEYS {
        4 * (31 - low % 32) + 3_usize.saturating_sub(low / 32)
    } else {
        383 - low
    }
}

// The price that a key tells.
pub fn key_price(key: u32) -> u32
    ensures { (result ≡ key_price key) × (result < 1048576) }
{
    key / 256 % 1_048_576
}

// So many units at one saving are needed to save what is owed, as far as there are units.
pub fn units_needed(has: u16, owed: u64, saving: u64) -> u16
    ensures { result ≡ min has (needed owed saving) }
{
    let more = owed.saturating_sub(1).checked_div(saving).unwrap_or(0);
    u64::from(has).min(1 + more) as u16
}
