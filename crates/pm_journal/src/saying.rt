//! How the writing of a text to a sink ends.

/// How the writing of a text ended: `Short` has the count of bytes that were taken before a write failed.
#[derive(Clone, Copy, Debug, PartialEq, Eq)]
pub enum WriteEnd {
    Wrote,
    Short(u64),
}
