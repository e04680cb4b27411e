// Whether a pool is sound: one linear pass over the blocks, one along the lists of the bins, and the block at E. `reading` asks for all of it.
// Nothing is believed before it was tested, and every function is total: it may be asked about any bytes.
#![tactic(auto)]

ghost use Rattle.std.specs.Prelude.{◌≡◌};
ghost use Rattle.paper.specs.Allowed.{allowed as allowed_of};
ghost use Rattle.inspect.specs.Inspection.{edge_held, old_inspected};
ghost use Rattle.inspect.specs.Contract.{OldInspected};

use heads::Head;
use paper::{END, FREE_WORD, START};

// Whether a pool may have n bytes.
pub fn allowed(n: usize) -> bool
    ensures { result ≡ allowed_of n }
{
    if n < 176 {
        return false;
    }
    if n > 65536 {
        return false;
    }
    n % 8 == 0
}

// Whether the pool is sound by the old rule, under which a free block could stand at E: exactly that. The rule in force asks one thing more.
pub fn sound_by_old_rule(pool: &[u8]) -> bool
    ensures { OldInspected result pool.now }
{
    inspect(pool)
}

// Whether the pool ends at E or the block there is held (request 2026-06): of a pool that is sound by the old rule, exactly whether it is sound.
pub fn edge_held(pool: &[u8]) -> bool
    ensures { result ≡ edge_held pool.now }
{
    let e = words::get::<u32>(pool, END) as usize;
    if e == pool.len() {
        return true;
    }
    Head::from(words::get::<u32>(pool, e)).held
}

// The tests of the old rule, the cheap ones first. A mark is one bit for each 8 bytes of the pool.
fn inspect(pool: &[u8]) -> bool
    ensures { result ≡ old_inspected pool.now }
{
    if !allowed(pool.len()) {
        return false;
    }
    let a = words::get::<u32>(pool, START);
    let b = words::get::<u32>(pool, END);
    if !header::remainder_ok(pool, a, b) {
        return false;
    }
    if !header::false_block_ok(pool) {
        return false;
    }
    let mut m = [0u64; 128];
    let Some(seen) = runs::scan_both(pool, &mut m, a, b, pool.len() as u32) else {
        return false;
    };
    if words::get::<u32>(pool, FREE_WORD) as usize != seen.sum + (b - a) as usize - 4 {
        return false;
    }
    lists::all_listed(pool, &mut m, seen.count)
}
