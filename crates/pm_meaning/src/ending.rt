//! How a process ended.
use crate::process::End;

/// How a process ended, and the exit status that this gives where it was the first one.
#[derive(Clone, Copy, Debug, PartialEq, Eq)]
pub struct Ending {
    pub end: End,
    pub status: u8,
}
