// The index over the bins: how high it is in a pool, up to which level a bin stands in it, where a level's word stands, and from which level
// on a bin is looked for.
#![tactic(auto)]

ghost use Rattle.std.specs.Prelude.{◌≡◌};
ghost use Rattle.paper.specs.Governed.{height as height-of};
ghost use Rattle.levels.specs.Levels.{top_of, start_of, word_of};

use paper::{CHAIN, FALSE_BLOCK, LEVEL, LEVELS};

// How many levels there are above level 1.
pub const HIGHER: usize = LEVELS as usize - 1;

// How high the pool's index is, which tells its layout: 13 where the false block's level word says so, else 1.
pub fn top(pool: &[u8]) -> u32
    ensures { result ≡ top_of pool.now }
{
    if words::field(pool, FALSE_BLOCK, LEVEL) == LEVELS {
        LEVELS
    } else {
        1
    }
}

// Up to which level the bin of a size stands in an index `top` high: 1 and the trailing zero bits of size / 8, at most `top`.
pub fn height(top: u32, size: u32) -> u32
    ensures { result ≡ height-of top size }
{
    if top == 1 {
        return 1;
    }
    top.min((size / 8).trailing_zeros() + 1)
}

// Where the word of a level stands in a first block: level 1's is the chain word, and each higher one 4 bytes before. No level is above 17.
pub fn word(level: u32) -> u32
    ensures { result ≡ word_of level }
{
    if 17 < level { 0 } else { CHAIN + 4 - 4 * level }
}

// The level to look for a bin from: the least size on level j is 8 × 2^(j - 1), so no smaller bin stands higher.
pub fn start(top: u32, size: u32) -> u32
    ensures { result ≡ start_of top size }
{
    if top == 1 {
        return 1;
    }
    let bits = 32 - (size / 8).leading_zeros();
    if bits == 0 { top } else { top.min(bits) }
}
