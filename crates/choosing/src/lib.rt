// Where a block for a payload would come from, or why there is none: asked before anything is stored, and storing nothing.
// Total, and with no inspection of its own: the pool's calls inspect first.
#![tactic(auto)]

mod remainder;

ghost use Rattle.std.specs.Prelude.{◌≡◌};
ghost use Rattle.choosing.specs.Choosing.{room as room_of, choose_small, choose_larger, choose_large, choose as choose-of};

use bins::Bin;
use paper::{Refusal, SMALL_BINS};
pub use remainder::Rest;
use remainder::remainder;

// One case for each clause of the rule. Each carries what carrying it out needs, and last the size of the block, so nothing is looked
// for twice: the first block of a small bin; the remainder, for its high end; a bin of exactly that size; a larger one, for the
// low end of a block; the remainder, for its low end.
#[derive(Clone, Copy)]
pub enum Choice {
    FirstOfBin(u32, u32),
    HighEnd(Rest, u32),
    ExactBin(Bin, u32),
    LargerBin(Bin, u32),
    LowEnd(Rest, u32),
}

// The remainder, if 8 bytes are left of it.
fn room(pool: &[u8], b: u32) -> Result<Rest, Refusal>
    ensures { result ≡ room_of pool.now b }
{
    let rest = remainder(pool);
    if (rest.size as u64) < b as u64 + 8 {
        return Err(Refusal::NoRoom);
    }
    Ok(rest)
}

fn choose_small(pool: &[u8], b: u32) -> Result<Choice, Refusal>
    ensures { result ≡ choose_small pool.now b }
{
    let first = words::field(pool, SMALL_BINS, b);
    if first == 0 {
        return Ok(Choice::HighEnd(room(pool, b)?, b));
    }
    Ok(Choice::FirstOfBin(first, b))
}

// `exact` is not of exactly b: the smallest bin of at least b + 72, else the remainder.
fn choose_larger(pool: &[u8], exact: Bin, b: u32) -> Result<Choice, Refusal>
    ensures { result ≡ choose_larger pool.now exact b }
{
    let larger = bins::find_on(pool, exact, words::plus(b, paper::LARGE));
    if larger.is_none() {
        return Ok(Choice::LowEnd(room(pool, b)?, b));
    }
    Ok(Choice::LargerBin(larger, b))
}

// The bin of exactly b, or a larger one. Where there is no bin at all, the remainder.
fn choose_large(pool: &[u8], b: u32) -> Result<Choice, Refusal>
    ensures { result ≡ choose_large pool.now b }
{
    if bins::empty(pool) {
        return Ok(Choice::LowEnd(room(pool, b)?, b));
    }
    let exact = bins::exact(pool, b);
    if exact.size() == b {
        return Ok(Choice::ExactBin(exact, b));
    }
    choose_larger(pool, exact, b)
}

// For a payload of s bytes.
pub fn choose(pool: &[u8], s: u32) -> Result<Choice, Refusal>
    ensures { result ≡ choose-of pool.now s }
{
    if s == 0 {
        return Err(Refusal::NoSize);
    }
    let b = heads::block_size(s);
    if 65536 < b {
        return Err(Refusal::NoRoom);
    }
    if b < paper::LARGE as u64 {
        return choose_small(pool, b as u32);
    }
    choose_large(pool, b as u32)
}
