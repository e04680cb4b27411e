// A bin gets another first block, or loses its only one, or gets its first: on every level that it reaches, by one loop.
// No Option for the blocks: bytes that are no pool may have a first block 0, which is to mean none as well (`after` in specs/Head.antt).
ghost use Rattle.std.specs.Prelude.{◌≡◌};
ghost use Rattle.bins.specs.Head.{after as after-of, relink as relink-of, rehead as rehead-of};

use crate::chain::{Bin, along, linked};

// What comes past a bin on a level: past its first block `old`, or past `before` where it has none, which 0 says.
fn after(pool: &[u8], index: u32, before: u32, old: u32) -> u32
    ensures { result ≡ after-of pool.now index before old }
{
    if old == 0 {
        return linked(pool, before, index);
    }
    linked(pool, old, index)
}

// On one level `new` takes the place of `old`, and 0 stands for none; `before` stands before it.
fn relink(pool: &mut [u8], level: u32, before: u32, old: u32, new: u32)
    ensures { pool.new ≡ relink-of pool.old level before old new }
{
    let index = levels::word(level);
    let next = after(pool, index, before, old);
    if new == 0 {
        words::put_field(pool, before, index, heads::link_word(before, next));
        return;
    }
    words::put_field(pool, new, index, heads::link_word(new, next));
    words::put_field(pool, before, index, heads::link_word(before, new));
}

// The bin of a size is headed by `new` and no longer by `old`, on each level from that of `bin` down; `bin` tells what stands before it there.
// On each level the walk goes on from where it stands.
pub fn rehead(pool: &mut [u8], bin: Bin, size: u32, old: u32, new: u32)
    ensures { pool.new ≡ rehead-of pool.old bin size old new }
{
    let mut before = bin.before;
    for level in (1..bin.level).rev() {
        relink(pool, level + 1, before, old, new);
        let from = Bin {
            level,
            before,
            first: old,
            size,
        };
        before = along(pool, level, from, size).before;
    }
    relink(pool, 1, before, old, new);
}
