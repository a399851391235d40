//! Why a case isn't run.
use pm_bytes::{Memory, NameRefused};
use std::alloc::{AllocError, AllocFailed};
use std::io;

/// Why a case isn't run: it isn't written as its kind asks, or memory was wanting, or a standard stream
/// failed.
#[derive(Clone, Copy)]
pub enum Refused {
    Misread(&'static str),
    File { line: u64, why: &'static str },
    Memory,
    Stream,
}

impl Refused {
    /// The refusal with the number of the line that isn't written as its kind asks.
    pub fn at(self, line: u64) -> Refused {
        match self {
            Refused::Misread(why) => Refused::File { line, why },
            other => other,
        }
    }
}

impl From<Memory> for Refused {
    fn from(_: Memory) -> Self {
        Refused::Memory
    }
}

impl From<AllocError> for Refused {
    fn from(_: AllocError) -> Self {
        Refused::Memory
    }
}

impl<T: Drop> From<AllocFailed<T>> for Refused {
    fn from(_: AllocFailed<T>) -> Self {
        Refused::Memory
    }
}

impl From<NameRefused> for Refused {
    fn from(refused: NameRefused) -> Self {
        match refused {
            NameRefused::Unusable => Refused::Misread("a name is a text without a zero byte"),
            NameRefused::Memory => Refused::Memory,
        }
    }
}

impl From<io::Error> for Refused {
    fn from(_: io::Error) -> Self {
        Refused::Stream
    }
}
