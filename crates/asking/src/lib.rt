// Asking about a list of offsets at one walk: the held blocks are marked along the way, and each offset uses up its mark, so that one
// which is not held finds none, and neither does one that stands in the list twice.
#![tactic(auto)]

ghost use Rattle.std.specs.Prelude.{◌≡◌};
ghost use Rattle.asking.specs.AllHeld as model;

use paper::{BLOCKS, END, START};
use walk::Blocks;

// Marks the held blocks from `from` to `to`.
fn mark_run(pool: &[u8], m: &mut [u64], from: u32, to: u32)
    ensures { m.new ≡ model.mark_run pool.now from to m.old }
{
    for block in Blocks::below(pool, from, to) {
        if block.head.held {
            marks::mark(m, block.start as u32);
        }
    }
}

// Each offset that is not 0 uses up the mark of the block that starts 4 below it.
fn used_up(m: &mut [u64], offsets: &[u32]) -> bool
    ensures { result ≡ model.used_up m.old offsets.now }
{
    for &offset in offsets {
        if offset == 0 {
            continue;
        }
        let start = words::minus(offset, 4);
        if !marks::marked(m, start) {
            return false;
        }
        marks::unmark(m, start);
    }
    true
}

// Whether every offset of the list that is not 0 is that of a held payload, and stands in it once.
pub fn all_held(pool: &[u8], offsets: &[u32]) -> bool
    ensures { result ≡ model.all_held pool.now offsets.now }
{
    let mut m = [0u64; 128];
    let start = words::get::<u32>(pool, START);
    let end = words::get::<u32>(pool, END);
    mark_run(pool, &mut m, BLOCKS, start);
    mark_run(pool, &mut m, end, walk::pool_end(pool));
    used_up(&mut m, offsets)
}
