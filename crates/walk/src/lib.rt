// Along the blocks, from 168 to R and from E to n. Total: a block of size 0, which no sound pool has, ends the walk.
#![tactic(auto)]

mod blocks;
mod class_counts;
mod looking_up;
mod tallies;

ghost use Rattle.std.specs.Prelude.{◌≡◌};
ghost use Rattle.walk.specs.Blocks.{pool_end};

pub use blocks::{Block, Blocks};
pub use class_counts::count_classes;
pub use looking_up::look_up;
pub use tallies::tally;

// Where the pool ends, as a position; no pool is longer than 65,536 bytes.
pub fn pool_end(pool: &[u8]) -> u32
    ensures { result ≡ pool_end pool.now }
{
    pool.len().min(65536) as u32
}
