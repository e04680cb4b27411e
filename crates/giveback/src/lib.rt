// How a block comes back. Total, and with no inspection or look-up of its own: the pool's calls do both first.
//
// Stale bytes stay: an absorbed block's head and footer keep what they had, and only words that are governed
// afterwards are stored.
#![tactic(auto)]

mod large;
mod small;

ghost use Rattle.std.specs.Prelude.{◌≡◌};
ghost use Rattle.giveback.specs.GiveBack.{put_back, earned, give_back};

// The block at q, z bytes long, is free, in a bin or in the remainder.
fn put_back(pool: &mut [u8], q: u32, z: u32)
    ensures { pool.new ≡ put_back pool.old q z }
{
    if z < paper::LARGE {
        small::give_back_small(pool, q, z);
        return;
    }
    large::give_back_large(pool, q, z);
}

// The free word rises by z.
fn earn(pool: &mut [u8], z: u32)
    ensures { pool.new ≡ earned pool.old z }
{
    let free = words::get::<u32>(pool, paper::FREE_WORD);
    words::put(pool, paper::FREE_WORD, words::plus(free, z));
}

// The held block at q, z bytes long, comes back.
pub fn give_back(pool: &mut [u8], q: u32, z: u32)
    ensures { pool.new ≡ give_back pool.old q z }
{
    put_back(pool, q, z);
    earn(pool, z);
}
