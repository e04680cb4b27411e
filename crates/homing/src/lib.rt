// Small blocks at the edge go home (request 2026-06): the free ones from a place on, end to end, leave their bins, and the remainder ends
// where they end. Total, and with no inspection of its own: the calls do that first.
//
// Linear in the small blocks, however many go home: where they end is found first, and then each list is gone along once. What goes home
// keeps its bytes, and a link that does not change is not stored.
#![tactic(auto)]

ghost use Rattle.std.specs.Prelude.{◌≡◌};
ghost use Rattle.words.specs.Words.{put_at};
ghost use Rattle.homing.specs.Homing.{free_run, pruned, pruned_from, homed, homes};

use paper::{END, FALSE_BLOCK, SMALL_BINS, SMALL_NEXT, START};
use walk::Blocks;

// Free blocks end to end: where they end, and how many they are.
#[derive(Clone, Copy)]
pub struct Run {
    pub end: u32,
    pub blocks: u32,
}

// The free blocks from `from` on. A block of size 0, which no sound pool has, ends them.
fn free_run(pool: &[u8], from: u32) -> Run
    ensures { result ≡ free_run pool.now from }
{
    let mut run = Run {
        end: from,
        blocks: 0,
    };
    for block in Blocks::below(pool, from, walk::pool_end(pool)) {
        if block.head.held {
            return run;
        }
        run.end = words::plus(block.start as u32, block.head.size);
        run.blocks = words::plus(run.blocks, 1);
    }
    run
}

// The word at `at` leads to q; it is stored only where it does not yet.
fn lead(pool: &mut [u8], at: u32, q: u32)
    ensures { pool.new ≡ put_at 4 pool.old at q }
{
    if words::get::<u32>(pool, at as usize) == q {
        return;
    }
    words::put(pool, at as usize, q);
}

// The list whose first member stands at `first`, without what lies below `edge`. `at` is the word that leads on from what stays so far.
// No list has as many members as the pool has words of 8 bytes.
fn prune(pool: &mut [u8], first: u32, edge: u32)
    ensures { pool.new ≡ pruned pool.old first edge }
{
    let mut at = first;
    let mut q = words::get::<u32>(pool, first as usize);
    for _ in 0..pool.len() / 8 {
        if q == 0 {
            lead(pool, at, 0);
            return;
        }
        let next = words::field(pool, q, SMALL_NEXT);
        if edge <= q {
            lead(pool, at, q);
            at = words::plus(q, SMALL_NEXT);
        }
        q = next;
    }
}

// The eight small bins, whose first blocks stand in the header, without what lies below `edge`.
fn prune_all(pool: &mut [u8], edge: u32)
    ensures { pool.new ≡ pruned_from 8 pool.old 32 edge }
{
    for first in (SMALL_BINS + 8..FALSE_BLOCK).step_by(8) {
        prune(pool, first, edge);
    }
}

// All up to the end of the free blocks from `from` on is the remainder. Answers how many these are.
pub fn go_home(pool: &mut [u8], from: u32) -> u32
    ensures { (pool.new ≡ homed pool.old from) × (result ≡ homes pool.old from) }
{
    let run = free_run(pool, from);
    if run.blocks != 0 {
        prune_all(pool, run.end);
    }
    let start = words::get::<u32>(pool, START);
    words::put(pool, END, run.end);
    words::put(
        pool,
        start as usize,
        heads::free_head(words::minus(run.end, start)),
    );
    run.blocks
}
