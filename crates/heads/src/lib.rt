// The head word of a block, the block size for a payload, and signed links between blocks.
#![tactic(auto)]

mod head;
mod links;

pub use head::{
    FREE, HELD, HELD_ABOVE_FREE, Head, block_size, flags_of, free_head, held_head, size_of, with_p,
};
pub use links::{Pair, both_ways, follow, link_word};
