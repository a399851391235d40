//! Why the program ends with another status than 0.
use pm_bytes::{Memory, NameRefused};
use pm_recipe::RcRefused;
use pm_regex::ReadRefused;
use std::alloc::AllocError;
use std::io;

/// What wasn't done.
#[derive(Drop)]
pub enum Failed {
    /// A call has no answer here, or not the one that is wanted. Memory was wanting, say, or a text wasn't read.
    Call,
    /// The words of the command line aren't those of anything that is measured.
    Usage,
    /// What standard input lists isn't read.
    Misread,
}

impl Failed {
    /// The status that says so (sysexits(3)).
    pub fn status(&self) -> u8 {
        match self {
            Failed::Call => 1,
            Failed::Usage => 64,
            Failed::Misread => 65,
        }
    }
}

impl From<AllocError> for Failed {
    fn from(_: AllocError) -> Self {
        Failed::Call
    }
}

impl From<Memory> for Failed {
    fn from(_: Memory) -> Self {
        Failed::Call
    }
}

impl From<NameRefused> for Failed {
    fn from(_: NameRefused) -> Self {
        Failed::Call
    }
}

impl From<ReadRefused> for Failed {
    fn from(_: ReadRefused) -> Self {
        Failed::Call
    }
}

impl From<RcRefused> for Failed {
    fn from(_: RcRefused) -> Self {
        Failed::Call
    }
}

impl From<io::Error> for Failed {
    fn from(_: io::Error) -> Self {
        Failed::Call
    }
}
