// The records of a request tape: what stands at a place of it, a whole request or none that can be read.
#![tactic(auto)]

mod reader;
mod request;

pub use reader::record_at;
pub use request::Request;
