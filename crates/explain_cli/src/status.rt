//! The exit statuses of procmail-explain, and what ends it early.
use pm_bytes::Memory;
use std::alloc::{AllocError, AllocFailed};
use std::io;

#[derive(Clone, Copy)]
pub enum Status {
    /// What would be done was printed.
    Explained,
    /// The arguments aren't understood, those for procmail among them.
    Usage,
    /// The file of an answer can't be read.
    NoInput,
    /// Want of memory, or the output can't be written.
    SystemError,
    /// Standard input can't be read.
    ReadError,
}

impl Status {
    pub fn number(self) -> u8 {
        match self {
            Status::Explained => 0,
            Status::Usage => 64,
            Status::NoInput => 66,
            Status::SystemError => 71,
            Status::ReadError => 74,
        }
    }
}

/// Why nothing more is printed: what stands in the way was told on standard error.
#[derive(Clone, Copy)]
pub struct Stopped(pub Status);

impl From<Memory> for Stopped {
    fn from(_memory: Memory) -> Stopped {
        Stopped(Status::SystemError)
    }
}

impl<T: Drop> From<AllocFailed<T>> for Stopped {
    fn from(_failed: AllocFailed<T>) -> Stopped {
        Stopped(Status::SystemError)
    }
}

impl From<AllocError> for Stopped {
    fn from(_error: AllocError) -> Stopped {
        Stopped(Status::SystemError)
    }
}

impl From<io::Error> for Stopped {
    fn from(_error: io::Error) -> Stopped {
        Stopped(Status::SystemError)
    }
}
