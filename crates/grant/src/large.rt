// A large block is granted: a block of a bin of its size, the low end of one of a larger bin, or the remainder's low end.
ghost use Rattle.std.specs.Prelude.{◌≡◌, Ok};
ghost use Rattle.paper.specs.Answers.{out};
ghost use Rattle.grant.specs.Large.{hold as hold-of, split as split-of, take_whole, take_part, cut_low};

use crate::granted::granted;
use bins::Bin;
use choosing::Rest;
use paper::START;

// The block q of b bytes is held, which the block above it is told.
fn hold(pool: &mut [u8], q: u32, b: u32)
    ensures { pool.new ≡ hold-of pool.old q b }
{
    words::put(pool, q as usize, heads::held_head(b));
    let above = words::plus(q, b);
    let head = words::get::<u32>(pool, above as usize);
    words::put(pool, above as usize, heads::with_p(head, true));
}

// Of the block q, z bytes long, the low b are held and the rest is a free block.
fn split(pool: &mut [u8], q: u32, z: u32, b: u32)
    ensures { pool.new ≡ split-of pool.old q z b }
{
    let rest = words::plus(q, b);
    let size = words::minus(z, b);
    words::put(pool, q as usize, heads::held_head(b));
    bins::enter(pool, rest, size);
}

// A block of a bin of exactly b.
pub fn take_whole(pool: &mut [u8], bin: Bin, b: u32) -> u32
    ensures { take_whole pool.old bin b ≡ out (Ok result) pool.new }
{
    let q = bins::take_out(pool, bin);
    hold(pool, q, b);
    granted(pool, q, b)
}

// The low end of a block of a larger bin.
pub fn take_part(pool: &mut [u8], bin: Bin, b: u32) -> u32
    ensures { take_part pool.old bin b ≡ out (Ok result) pool.new }
{
    let q = bins::take_out(pool, bin);
    split(pool, q, bin.size(), b);
    granted(pool, q, b)
}

// The remainder gives its first b bytes.
pub fn cut_low(pool: &mut [u8], rest: Rest, b: u32) -> u32
    ensures { cut_low pool.old rest b ≡ out (Ok result) pool.new }
{
    let above = words::plus(rest.start, b);
    let head = heads::free_head(words::minus(rest.size, b));
    words::put(pool, START, above);
    words::put(pool, rest.start as usize, heads::held_head(b));
    words::put(pool, above as usize, head);
    granted(pool, rest.start, b)
}
