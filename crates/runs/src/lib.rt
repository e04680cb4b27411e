// A run of blocks end to end, read by their heads; each free one is marked, counted and summed.
#![tactic(auto)]

ghost use Rattle.std.specs.Prelude.{◌≡◌, ◌+◌, ◌*◌, ℕ, eqb};
ghost use Rattle.guards.specs.Tests.{pass};
ghost use Rattle.heads.specs.Heads.{size_of};
ghost use Rattle.paper.specs.Layout.{blocks_at};
ghost use Rattle.runs.specs.Runs.{fit_size, foot_of, free_at, small};
ghost use Rattle.runs.specs.Contract.{Scans, ScansBoth, of_kind};

use heads::{FREE, HELD, HELD_ABOVE_FREE};
use paper::{BLOCKS, LARGE};

// How many free blocks there were, and the sum of their sizes.
#[derive(Clone, Copy, Debug, PartialEq, Eq)]
pub struct Seen {
    pub count: usize,
    pub sum: usize,
}

// The blocks of a run are of one kind, small or large. What differs between the two:
trait Kind {
    // 1 for small blocks, 0 for large ones.
    ghost kind: { ℕ };

    // Whether a size is one of theirs.
    fn has(z: u32) -> bool
        ensures { result ≡ pass (of_kind z kind) };

    // Of a size of theirs, whether the free block at p with the head w ends as it must: a large one repeats its head there.
    fn ends(pool: &[u8], w: u32, p: u32) -> bool
        ensures { small (size_of w) ≡ kind → result ≡ eqb (foot_of pool.now w p) w };

    // The flags of a held block above a free one.
    fn above_free() -> u32
        ensures { result ≡ 2 * kind + 1 };
}

struct Large;

impl Kind for Large {
    ghost kind = { 0 };

    fn has(z: u32) -> bool {
        LARGE <= z
    }

    fn ends(pool: &[u8], w: u32, p: u32) -> bool {
        let z = heads::size_of(w);
        words::field(pool, p, words::minus(z, 4)) == w
    }

    fn above_free() -> u32 {
        HELD_ABOVE_FREE
    }
}

struct Small;

impl Kind for Small {
    ghost kind = { 1 };

    fn has(z: u32) -> bool {
        if z < 8 {
            return false;
        }
        z < LARGE
    }

    fn ends(_pool: &[u8], _w: u32, _p: u32) -> bool {
        true
    }

    fn above_free() -> u32 {
        HELD
    }
}

// The large blocks up to a, then the small ones from b to e.
pub fn scan_both(pool: &[u8], m: &mut [u64], a: u32, b: u32, e: u32) -> Option<Seen>
    ensures { ScansBoth pool.now a b e m.old m.new result }
{
    let low = scan::<Large>(pool, m, BLOCKS, a, 0, 0)?;
    scan::<Small>(pool, m, b, e, low.count as u32, low.sum as u32)
}

// The blocks of one kind from `from` to e; n0 and sum0 are what was seen before them. `due` is what the flags of a held block must be here. A free block
// needs them to have P, so no two free ones touch. Among small blocks each has P: there `due` is a constant, as are the bounds of a size, and this
// loop is what an inspection mostly does.
#[tactic(auto, using(crate::proofs::Laws::fit_facts))]
fn scan<K: Kind>(pool: &[u8], m: &mut [u64], from: u32, e: u32, n0: u32, sum0: u32) -> Option<Seen>
    ensures { Scans pool.now K.kind e from n0 sum0 m.old m.new result }
{
    let mut p = from;
    let mut due = HELD;
    let mut seen = Seen {
        count: n0 as usize,
        sum: sum0 as usize,
    };
    while p != e {
        let w = words::get::<u32>(pool, p as usize);
        let z = heads::size_of(w);
        if !fits::<K>(z, e, p) {
            return None;
        }
        if heads::flags_of(w) == due {
            due = HELD;
        } else {
            if !free_ok::<K>(pool, w, due, p) {
                return None;
            }
            marks::mark(m, p);
            seen.count += 1;
            seen.sum += z as usize;
            due = K::above_free();
        }
        p += z;
    }
    if due != HELD {
        return None;
    }
    Some(seen)
}

// A block of size z at p, in a run that ends at e.
fn fits<K: Kind>(z: u32, e: u32, p: u32) -> bool
    ensures { result ≡ pass (fit_size z K.kind e p) }
{
    if !K::has(z) {
        return false;
    }
    if z % 8 != 0 {
        return false;
    }
    p as u64 + z as u64 <= e as u64
}

// The head w at p of a block that is not held, of a size of its kind, where the flags `due` were.
fn free_ok<K: Kind>(pool: &[u8], w: u32, due: u32, p: u32) -> bool
    ensures { small (size_of w) ≡ K.kind → result ≡ pass (free_at pool.now w due p) }
{
    if due != HELD {
        return false;
    }
    if heads::flags_of(w) != FREE {
        return false;
    }
    K::ends(pool, w, p)
}
