//! What a file is opened for.

/// What a file was opened for.
#[derive(Clone, Copy)]
pub enum Mode {
    Reading,
    Appending,
}
