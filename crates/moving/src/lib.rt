// A sound pool gets an index of another height, in its own bytes and in one pass along level 1, where every bin stands in either layout: each
// first block gets its level word, and on each level above the last one that stands there leads to it. At the end nothing comes past the last ones.
// Down to one level, that clears the false block's words: no bin stands on a level above, so the last one there is the false block.
#![tactic(auto)]

ghost use Rattle.std.specs.Prelude.{◌≡◌, ◌-◌};
ghost use Rattle.paper.specs.Layout.{chain_at, false_block, levels};
ghost use Rattle.bins.specs.Find.{linked_at};
ghost use Rattle.moving.specs.Move.{moving, stand as stand_of, pass as pass_of, sizes, closed, moved};

use levels::HIGHER;
use paper::{CHAIN, FALSE_BLOCK, LEVEL, LEVELS};

// Moves a sound pool to an index `top` high, 1 or 13. The false block's level word is last, so until then the pool says what it was.
pub fn move_to(pool: &mut [u8], top: u32)
    ensures { pool.new ≡ moved pool.old top }
{
    // Parted from the pool: a struct that borrows the pool beside them would be taken apart for each store.
    let mut lasts = [FALSE_BLOCK; HIGHER];
    pass(pool, &mut lasts, top);
    close(pool, &lasts);
    words::put_field(pool, FALSE_BLOCK, LEVEL, top);
}

// From bin to bin along level 1. In a sound pool the sizes rise; where they do not, the pass ends.
fn pass(pool: &mut [u8], lasts: &mut [u32; HIGHER], top: u32)
    ensures { moving pool.new lasts.new ≡ pass_of sizes top 64 (linked_at pool.old false_block chain_at) (moving pool.old lasts.old) }
{
    let mut y: u32 = 64;
    let mut f = bins::linked(pool, FALSE_BLOCK, CHAIN);
    while f != 0 {
        let z = bins::size_of(pool, f);
        if z <= y {
            return;
        }
        stand(pool, lasts, levels::height(top, z), f);
        y = z;
        f = bins::linked(pool, f, CHAIN);
    }
}

// The first block f, h levels high: its level word; and on each of its levels from 2 on the last one leads to it, and it is the last one now.
fn stand(pool: &mut [u8], lasts: &mut [u32; HIGHER], h: u32, f: u32)
    ensures { moving pool.new lasts.new ≡ stand_of h f (moving pool.old lasts.old) }
{
    if LEVELS < h {
        return;
    }
    words::put_field(pool, f, LEVEL, h);
    for level in 2..h + 1 {
        let i = (level - 2) as usize;
        let last = lasts[i];
        words::put_field(pool, last, levels::word(level), heads::link_word(last, f));
        lasts[i] = f;
    }
}

// On each level from 2 on nothing comes past the last one.
fn close(pool: &mut [u8], lasts: &[u32; HIGHER])
    ensures { pool.new ≡ closed (levels - 1) 2 lasts.now pool.old }
{
    for level in 2..=LEVELS {
        words::put_field(pool, lasts[(level - 2) as usize], levels::word(level), 0);
    }
}
