// The lists of the bins. Each member must be marked, and its mark goes, so none is met twice and no ring is followed for ever.
// `pool` and `m` are no struct: every clause would reach both through it, and promise besides that the pool stays, which a `&` says by itself.
#![tactic(auto)]

mod index;

ghost use Rattle.std.specs.Prelude.{◌≡◌, List, ℕ, suc};
ghost use Rattle.guards.specs.Tests.{Test, pass};
ghost use Rattle.heads.specs.Heads.{size_at};
ghost use Rattle.marks.specs.MarkSets.{bit_marks};
ghost use Rattle.lists.specs.Lists.{small_tests, large_tests, next_small, next_large, follow, smalls, chain, lists};
ghost use Rattle.lists.specs.Contract.{to_left};

use header::link_ok;
use levels::HIGHER;
use paper::{CHAIN, FALSE_BLOCK, LARGE, NEXT, PREVIOUS, SMALL_BINS, SMALL_NEXT};

// The members of a bin are linked in the way of small blocks or in that of large ones.
trait Bin {
    // What is asked of the member q after p in the bin of size z, and where the next one starts.
    ghost tests: { List ℕ → ℕ → ℕ → ℕ → List Test };

    ghost next: { List ℕ → ℕ → ℕ };

    // Whether the words of the member q are as they must be; p is the member before it, 0 before the first.
    fn member_ok(pool: &[u8], z: u32, p: u32, q: u32) -> bool
        ensures { result ≡ pass (tests pool.now z p q) };

    // Where the member after q starts; 0 after the last.
    fn next(pool: &[u8], q: u32) -> u32
        ensures { result ≡ next pool.now q };
}

struct Small;

impl Bin for Small {
    ghost tests = { small_tests };

    ghost next = { next_small };

    // A member of a small bin has its bin's size.
    fn member_ok(pool: &[u8], z: u32, _p: u32, q: u32) -> bool {
        size_at(pool, q) == z
    }

    fn next(pool: &[u8], q: u32) -> u32 {
        words::field(pool, q, SMALL_NEXT)
    }
}

struct Large;

impl Bin for Large {
    ghost tests = { large_tests };

    ghost next = { next_large };

    // A member of a large bin: its head, its link back and its link on, each read when the one before has passed.
    fn member_ok(pool: &[u8], z: u32, p: u32, q: u32) -> bool {
        if size_at(pool, q) != z {
            return false;
        }
        if words::field(pool, q, PREVIOUS) != heads::link_word(q, p) {
            return false;
        }
        link_ok(q, words::field(pool, q, NEXT))
    }

    fn next(pool: &[u8], q: u32) -> u32 {
        heads::follow(q, words::field(pool, q, NEXT))
    }
}

// All the lists, where k starts are marked: at the end no mark is left. At first every level of the index awaits the false block.
pub fn all_listed(pool: &[u8], m: &mut [u64], k: usize) -> bool
    ensures { result ≡ lists bit_marks pool.now k m.old }
{
    let Some(left) = small_bins(pool, m, k) else {
        return false;
    };
    let top = levels::top(pool);
    let mut waits = [FALSE_BLOCK; HIGHER];
    if !index::index_ok(pool, &mut waits, top, FALSE_BLOCK) {
        return false;
    }
    let f = heads::follow(FALSE_BLOCK, words::field(pool, FALSE_BLOCK, CHAIN));
    large_bins(pool, m, &mut waits, left, top, f)
}

// The eight small bins, whose first blocks stand in the header.
fn small_bins(pool: &[u8], m: &mut [u64], k: usize) -> Option<usize>
    ensures { to_left result m.new ≡ smalls bit_marks pool.now 8 8 k m.old }
{
    let mut left = k;
    for z in (8..LARGE).step_by(8) {
        let f = words::field(pool, z, SMALL_BINS);
        left = follow::<Small>(pool, m, left, z, f)?;
    }
    Some(left)
}

// The large bins, from the first block f0 on, which level 1 of the index awaits; `waits` is what the others do. Sizes rise, and at the end no
// mark is left and nothing is awaited.
fn large_bins(
    pool: &[u8],
    m: &mut [u64],
    waits: &mut [u32; HIGHER],
    k: usize,
    top: u32,
    f0: u32,
) -> bool
    ensures { result ≡ chain bit_marks top pool.now (suc k) k m.old 64 f0 waits.old }
{
    let mut left = k;
    let mut y: u32 = 64;
    let mut f = f0;
    while f != 0 {
        let z = size_at(pool, f);
        if !index::first_ok(pool, waits, top, y, z, f) {
            return false;
        }
        let Some(rest) = follow::<Large>(pool, m, left, z, f) else {
            return false;
        };
        left = rest;
        y = z;
        f = heads::follow(f, words::field(pool, f, CHAIN));
    }
    if left != 0 {
        return false;
    }
    index::ended_ok(waits, top)
}

// The bin of size z from `first` on, where k starts are marked: how many are left; p is the member before q, 0 before the first.
fn follow<B: Bin>(pool: &[u8], m: &mut [u64], k: usize, z: u32, first: u32) -> Option<usize>
    ensures { to_left result m.new ≡ follow bit_marks (B.tests pool.now z) (B.next pool.now) k m.old 0 first }
{
    let mut left = k;
    let mut p: u32 = 0;
    let mut q = first;
    while q != 0 {
        if left == 0 {
            return None;
        }
        if !marks::marked(m, q) {
            return None;
        }
        if !B::member_ok(pool, z, p, q) {
            return None;
        }
        marks::unmark(m, q);
        left -= 1;
        p = q;
        q = B::next(pool, q);
    }
    Some(left)
}

// The size of the block at q, by its head.
fn size_at(pool: &[u8], q: u32) -> u32
    ensures { result ≡ size_at pool.now q }
{
    heads::size_of(words::get::<u32>(pool, q as usize))
}
