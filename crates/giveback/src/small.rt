// A small block is put at the front of its bin. At E it goes home instead, with the free blocks above it: its bytes stay, as theirs do.
ghost use Rattle.std.specs.Prelude.{◌≡◌};
ghost use Rattle.giveback.specs.Small.{at_front, give_back_small};

use paper::{END, SMALL_BINS};

// It is the first of its bin.
fn at_front(pool: &mut [u8], q: u32, z: u32)
    ensures { pool.new ≡ at_front pool.old q z }
{
    let first = words::field(pool, SMALL_BINS, z);
    words::put(pool, q as usize, heads::free_head(z));
    words::put_field(pool, q, paper::SMALL_NEXT, first);
    words::put_field(pool, SMALL_BINS, z, q);
}

// In a sound pool the block at E was held, so only the one that comes back can be free there.
pub fn give_back_small(pool: &mut [u8], q: u32, z: u32)
    ensures { pool.new ≡ give_back_small pool.old q z }
{
    if q == words::get::<u32>(pool, END) {
        homing::go_home(pool, words::plus(q, z));
        return;
    }
    at_front(pool, q, z);
}
