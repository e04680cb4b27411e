// The index over the bins, read along its lowest level. `waits` has for each level above, from 2 on, the start that must come next: a first block
// must be the one that each of its levels awaits, and then each awaits what the block's word of that level leads to. Level 1 awaits the block at
// hand, so there is nothing to keep for it, and in layout 1 nothing at all.
// `waits` and `top` are no struct: to spare two functions a parameter, each step that changes `waits` would have to promise that `top` stays.
ghost use Rattle.std.specs.Prelude.{◌≡◌, ◌-◌};
ghost use Rattle.paper.specs.Layout.{levels};
ghost use Rattle.lists.specs.Contract.{to_awaited};
ghost use Rattle.lists.specs.Index.{climbed, ended, first_indexed, indexed, nothing};

use header::link_ok;
use levels::HIGHER;
use paper::{CHAIN, LEVEL, LEVELS};

// The first block f, of size z, of the bin after size y, in an index `top` high: its size, its level word and its index words.
pub fn first_ok(pool: &[u8], waits: &mut [u32; HIGHER], top: u32, y: u32, z: u32, f: u32) -> bool
    ensures { to_awaited result waits.new ≡ first_indexed pool.now top y z f waits.old }
{
    if z <= y {
        return false;
    }
    let h = levels::height(top, z);
    if words::field(pool, f, LEVEL) != h {
        return false;
    }
    index_ok(pool, waits, h, f)
}

// The index words of the block f, which is h levels high and awaited on level 1: its chain word and, where there are any, the others.
pub fn index_ok(pool: &[u8], waits: &mut [u32; HIGHER], h: u32, f: u32) -> bool
    ensures { to_awaited result waits.new ≡ indexed pool.now h f waits.old }
{
    if !link_ok(f, words::field(pool, f, CHAIN)) {
        return false;
    }
    if h == 1 {
        return true;
    }
    higher_ok(pool, waits, h, f)
}

// Levels 2 to h: each awaits the block f, whose word there is a link to the next. No level is above 13.
// (`2..=h` would ask once more on each level: 0.8 in 100 instructions of an inspection where many bins are in layout 2.)
fn higher_ok(pool: &[u8], waits: &mut [u32; HIGHER], h: u32, f: u32) -> bool
    ensures { to_awaited result waits.new ≡ climbed pool.now h f waits.old }
{
    if LEVELS < h {
        return false;
    }
    for level in 2..h + 1 {
        let i = (level - 2) as usize;
        if waits[i] != f {
            return false;
        }
        let w = words::field(pool, f, levels::word(level));
        if !link_ok(f, w) {
            return false;
        }
        waits[i] = heads::follow(f, w);
    }
    true
}

// At the end no level awaits anything; an index one level high has no others.
pub fn ended_ok(waits: &[u32; HIGHER], top: u32) -> bool
    ensures { result ≡ ended top waits.now }
{
    if top == 1 {
        return true;
    }
    none_awaited(waits)
}

// Whether no level from 2 on awaits anything.
fn none_awaited(waits: &[u32; HIGHER]) -> bool
    ensures { result ≡ nothing (levels - 1) 0 waits.now }
{
    for &start in waits {
        if start != 0 {
            return false;
        }
    }
    true
}
