// The words that stand at fixed places: the header, the false block, and the head of the remainder.
#![tactic(auto)]

ghost use Rattle.std.specs.Prelude.{◌≡◌, eqb};
ghost use Rattle.heads.specs.Links.{link_word, followed};
ghost use Rattle.guards.specs.Tests.{pass};
ghost use Rattle.header.specs.Header.{cleared, rest_between, reserved_tests, false_tests};

use paper::{BLOCKS, CHAIN, FALSE_BLOCK, FALSE_WORD, LEVEL, LEVELS};

// The remainder from a to b, which are the header's R and E.
pub fn remainder_ok(pool: &[u8], a: u32, b: u32) -> bool
    ensures { result ≡ pass (rest_between pool.now a b) }
{
    if a < BLOCKS {
        return false;
    }
    if b < 8 {
        return false;
    }
    if b - 8 < a {
        return false;
    }
    if pool.len() < b as usize {
        return false;
    }
    if a % 8 != 0 {
        return false;
    }
    if b % 8 != 0 {
        return false;
    }
    words::get::<u32>(pool, a as usize) == heads::free_head(b - a)
}

// The header's second word, the high half of all twelve, and the false block: zero, but for its level word and its index words.
// The first test is for the machine: with it, no place below, which are all constants, asks one. So are the loops early: what stands behind many
// tests for 0 counts as rare, and would be called, with tests of its own.
pub fn false_block_ok(pool: &[u8]) -> bool
    ensures { result ≡ pass (false_tests pool.now) }
{
    if pool.len() < BLOCKS as usize {
        return false;
    }
    if words::get::<u32>(pool, FALSE_WORD) != FALSE_BLOCK {
        return false;
    }
    if words::field(pool, FALSE_BLOCK, CHAIN + 4) != 0 {
        return false;
    }
    if !zeros(pool, 12, 8, 4) {
        return false;
    }
    if !zeros(pool, 3, 4, FALSE_BLOCK) {
        return false;
    }
    reserved_ok(pool)
}

// The level word tells the layout: in layout 1 the twelve words between it and the chain word are 0, in layout 2 they are index words.
fn reserved_ok(pool: &[u8]) -> bool
    ensures { result ≡ pass (reserved_tests pool.now) }
{
    let level = words::field(pool, FALSE_BLOCK, LEVEL);
    if level == LEVELS {
        return true;
    }
    if level != 1 {
        return false;
    }
    zeros(pool, 12, 4, FALSE_BLOCK + 16)
}

// Whether k words from `from` on, `step` bytes apart, are 0: one test for all of them.
fn zeros(pool: &[u8], k: u32, step: u32, from: u32) -> bool
    ensures { result ≡ cleared pool.now k step from }
{
    let mut all = 0;
    for i in 0..k {
        all |= words::get::<u32>(pool, from as usize + i as usize * step as usize);
    }
    all == 0
}

// The word w at q is a distance as it is written; another word could lead to 0, which is no block.
pub fn link_ok(q: u32, w: u32) -> bool
    ensures { result ≡ eqb w (link_word q (followed q w)) }
{
    if w == 0 {
        return true;
    }
    heads::follow(q, w) != 0
}
