// Little-endian words in lent bytes, total: a word that is not wholly in them reads as 0 and is not written.
// So every function above is total too, whatever bytes it meets.
#![tactic(auto)]

mod sums;
mod word;

pub use sums::{minus, plus};
pub use word::{Word, field, get, put, put_field};
