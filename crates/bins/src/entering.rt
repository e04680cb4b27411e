// A run of bytes becomes a free large block, which enters its bin: second place, or first where the bin was empty.
ghost use Rattle.std.specs.Prelude.{◌≡◌};
ghost use Rattle.bins.specs.Enter.{make_free, enter_second, enter_only, enter_bin, enter as enter-of};

use crate::chain::{Bin, exact, linked};
use crate::heading::rehead;
use paper::{LEVEL, NEXT, PREVIOUS};

// The head of a free block, at its start and again in its last 4 bytes.
fn make_free(pool: &mut [u8], q: u32, size: u32)
    ensures { pool.new ≡ make_free pool.old q size }
{
    let head = heads::free_head(size);
    let foot = words::minus(words::plus(q, size), 4);
    words::put(pool, q as usize, head);
    words::put(pool, foot as usize, head);
}

// The block q becomes the second of the bin that `first` heads.
fn enter_second(pool: &mut [u8], first: u32, q: u32)
    ensures { pool.new ≡ enter_second pool.old first q }
{
    let next = linked(pool, first, NEXT);
    let link = heads::both_ways(first, q);
    words::put_field(pool, first, NEXT, link.there);
    words::put_field(pool, q, PREVIOUS, link.home);
    if next == 0 {
        words::put_field(pool, q, NEXT, 0);
        return;
    }
    let on = heads::both_ways(q, next);
    words::put_field(pool, q, NEXT, on.there);
    words::put_field(pool, next, PREVIOUS, on.home);
}

// The block q becomes the only one of its bin, whose place is known on its highest level.
fn enter_only(pool: &mut [u8], bin: Bin, size: u32, q: u32)
    ensures { pool.new ≡ enter_only pool.old bin size q }
{
    words::put_field(pool, q, PREVIOUS, 0);
    words::put_field(pool, q, NEXT, 0);
    words::put_field(pool, q, LEVEL, bin.level);
    rehead(pool, bin, size, 0, q);
}

// The free block q enters the bin of its size.
fn enter_bin(pool: &mut [u8], q: u32, size: u32)
    ensures { pool.new ≡ enter_bin pool.old q size }
{
    let bin = exact(pool, size);
    if bin.size == size {
        enter_second(pool, bin.first, q);
        return;
    }
    enter_only(pool, bin, size, q);
}

// The bytes from q on are a free block of that size, which enters its bin.
pub fn enter(pool: &mut [u8], q: u32, size: u32)
    ensures { pool.new ≡ enter-of pool.old q size }
{
    make_free(pool, q, size);
    enter_bin(pool, q, size);
}
