//! How the reading of a whole file ends.
use pm_bytes::Blob;

/// How the reading of a file ended; `TooLong` has the count of bytes that came.
#[derive(Drop)]
pub enum ReadEnd {
    Content(Blob),
    Missing,
    NotPlain,
    TooLong(u64),
    Faulted,
}
