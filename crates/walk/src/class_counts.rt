// The held blocks by size class.
ghost use Rattle.std.specs.Prelude.{◌≡◌};
ghost use Rattle.walk.specs.Classes.{bumped, classes_run, class_counts, counting};

use crate::blocks::Blocks;
use paper::{BLOCKS, END, START};

// One more in class k.
fn bump(counts: &mut [u32], k: u32)
    ensures { counts.new ≡ bumped counts.old k }
{
    let i = k as usize;
    if i < counts.len() {
        counts[i] = words::plus(counts[i], 1);
    }
}

// The held blocks from `from` to `to` are counted, after `already` others; answers how many there are now.
fn count_run(pool: &[u8], counts: &mut [u32], from: u32, to: u32, already: u32) -> u32
    ensures { counting result counts.new ≡ classes_run pool.now from to (counting already counts.old) }
{
    let mut held = already;
    for block in Blocks::below(pool, from, to) {
        if block.head.held {
            bump(counts, classes::class_of(words::minus(block.head.size, 4)));
            held = words::plus(held, 1);
        }
    }
    held
}

// Fills the counters, and answers how many blocks are held.
pub fn count_classes(pool: &[u8], counts: &mut [u32]) -> u32
    ensures { counting result counts.new ≡ class_counts pool.now counts.old }
{
    counts.fill(0);
    let start = words::get::<u32>(pool, START);
    let end = words::get::<u32>(pool, END);
    let low = count_run(pool, counts, BLOCKS, start, 0);
    count_run(pool, counts, end, crate::pool_end(pool), low)
}
