// The lists of free large blocks: a bin for each size, the bins' first blocks along the levels of the index. How a bin is found, how blocks
// leave and enter, and which block of a bin is used, is known here alone.
// All functions are total: on bytes that are no pool they answer something, and change nothing past the end.
#![tactic(auto)]

mod chain;
mod entering;
mod heading;
mod keeping;
mod leaving;

pub use chain::{Bin, empty, exact, find_on, linked, size_of};
pub use entering::enter;
pub use leaving::{leave, leave_both, take_out};
