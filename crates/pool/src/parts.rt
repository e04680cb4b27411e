// Which part of the pool is lent, by the places where it starts and ends.
ghost use Rattle.pool.specs.Parts.{Bounds};

use std::ops::Range;

// The payload at `offset`; where asking is refused, the pool's end twice.
pub fn bounds(pool: &[u8], offset: u32) -> Range<usize>
    ensures { Bounds pool.now offset result }
{
    let Ok(len) = crate::ask(pool, offset) else {
        let n = pool.len();
        return n..n;
    };
    let at = offset as usize;
    at..at + len as usize
}
