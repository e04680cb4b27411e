// A small block is granted: the first of its bin, or the remainder's high end.
ghost use Rattle.std.specs.Prelude.{◌≡◌, Ok};
ghost use Rattle.paper.specs.Answers.{out};
ghost use Rattle.grant.specs.Small.{take_first, cut_high};

use crate::granted::granted;
use choosing::Rest;
use paper::{END, SMALL_BINS};

// The first block q of the bin of size b leaves it and is held.
pub fn take_first(pool: &mut [u8], q: u32, b: u32) -> u32
    ensures { take_first pool.old q b ≡ out (Ok result) pool.new }
{
    let next = words::field(pool, q, paper::SMALL_NEXT);
    words::put_field(pool, SMALL_BINS, b, next);
    words::put(pool, q as usize, heads::held_head(b));
    granted(pool, q, b)
}

// The remainder gives its last b bytes.
pub fn cut_high(pool: &mut [u8], rest: Rest, b: u32) -> u32
    ensures { cut_high pool.old rest b ≡ out (Ok result) pool.new }
{
    let q = words::minus(rest.end, b);
    let head = heads::free_head(words::minus(rest.size, b));
    words::put(pool, END, q);
    words::put(pool, rest.start as usize, head);
    words::put(pool, q as usize, heads::held_head(b));
    granted(pool, q, b)
}
