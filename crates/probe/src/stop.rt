// Why the commands end before the input does.
use std::fmt;
use streams::{NotRead, NotWritten};

#[derive(Clone, Copy, Debug, PartialEq, Eq)]
pub enum Stop {
    // A command cannot be read.
    Unreadable,
    // A line is lost, and that has been said.
    Lost,
}

impl From<NotRead> for Stop {
    fn from(_why: NotRead) -> Stop {
        Stop::Unreadable
    }
}

impl From<NotWritten> for Stop {
    fn from(_why: NotWritten) -> Stop {
        Stop::Lost
    }
}

// Of `write!` to an output, which fails only where `streams` does.
impl From<fmt::Error> for Stop {
    fn from(_why: fmt::Error) -> Stop {
        Stop::Lost
    }
}
