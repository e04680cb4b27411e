// The figures of a pool.
ghost use Rattle.std.specs.Prelude.{◌≡◌, ◌-◌};
ghost use Rattle.walk.specs.Tallies as model;

use crate::blocks::Blocks;
use heads::Head;
use paper::{BLOCKS, END, FREE_WORD, Figures, LARGE, START};

// The payload of a block; 0 where there is none.
fn payload_of(size: u32) -> u32
    ensures { result ≡ size - 4 }
{
    size.saturating_sub(4)
}

// With one block more. `largest` is the greatest block that can be given, until all are counted.
fn counted(t: Figures, head: Head) -> Figures
    ensures { result ≡ model.counted t head }
{
    let mut next = t;
    if head.held {
        next.held_blocks = words::plus(t.held_blocks, 1);
        next.held_bytes = words::plus(t.held_bytes, head.size);
        return next;
    }
    next.largest = t.largest.max(head.size);
    if head.size < LARGE {
        next.free_small = words::plus(t.free_small, 1);
        return next;
    }
    next.free_large = words::plus(t.free_large, 1);
    next
}

// With the blocks from `from` to `to`.
fn tally_run(pool: &[u8], from: u32, to: u32, first: Figures) -> Figures
    ensures { result ≡ model.tally_run pool.now from to first }
{
    let mut t = first;
    for block in Blocks::below(pool, from, to) {
        t = counted(t, block.head);
    }
    t
}

// The remainder gives all but the 8 bytes that it keeps; a free block is given whole.
pub fn tally(pool: &[u8]) -> Figures
    ensures { result ≡ model.tally pool.now }
{
    let start = words::get::<u32>(pool, START);
    let end = words::get::<u32>(pool, END);
    let remainder = words::minus(end, start);
    let none = Figures {
        held_blocks: 0,
        held_bytes: 0,
        free_small: 0,
        free_large: 0,
        remainder,
        free_word: 0,
        largest: words::minus(remainder, 8),
    };
    let low = tally_run(pool, BLOCKS, start, none);
    let mut all = tally_run(pool, end, crate::pool_end(pool), low);
    all.free_word = words::get::<u32>(pool, FREE_WORD);
    all.largest = payload_of(all.largest);
    all
}
