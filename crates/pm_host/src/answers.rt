//! What the calls of a host and of a stream answer.
use pm_bytes::Names;

/// What stands at a name: a file of so many bytes, a folder, or nothing.
#[derive(Clone, Copy, Debug, PartialEq, Eq)]
pub enum Looked {
    File(u64),
    Folder,
    Nothing,
    Failed,
}

/// How many bytes came into the room; 0 is the end.
#[derive(Clone, Copy, Debug, PartialEq, Eq)]
pub enum Got {
    Got(usize),
    Failed,
}

/// How many bytes of the piece were taken, from 1 to its length.
#[derive(Clone, Copy, Debug, PartialEq, Eq)]
pub enum Took {
    Took(usize),
    Failed,
}

/// Whether something was made; `Exists` where something stands there.
#[derive(Clone, Copy, Debug, PartialEq, Eq)]
pub enum Made {
    Made,
    Exists,
    Failed,
}

/// Whether a file was synced to disk.
#[derive(Clone, Copy, Debug, PartialEq, Eq)]
pub enum Synced {
    Synced,
    Failed,
}

/// Whether a file was cut.
#[derive(Clone, Copy, Debug, PartialEq, Eq)]
pub enum Cut {
    Cut,
    Failed,
}

/// Whether a file was removed; `Absent` where nothing stands there.
#[derive(Clone, Copy, Debug, PartialEq, Eq)]
pub enum Removed {
    Removed,
    Absent,
    Failed,
}

/// Whether a file was moved; `Taken` where something stands at its new name.
#[derive(Clone, Copy, Debug, PartialEq, Eq)]
pub enum Moved {
    Moved,
    Taken,
    Failed,
}

/// The last parts of the names in a folder, in the order of their bytes.
#[derive(Drop)]
pub enum Listed {
    Names(Names),
    Failed,
    Memory,
}

/// Seconds since a file was made; `Absent` where nothing stands there.
#[derive(Clone, Copy, Debug, PartialEq, Eq)]
pub enum Aged {
    Age(u64),
    Absent,
    Failed,
}

/// Whether a child was started.
#[derive(Clone, Copy, Debug, PartialEq, Eq)]
pub enum Started {
    Started,
    Failed,
}

/// How many bytes the child took, from 1 to the piece's length; `Closed` where it takes no more.
#[derive(Clone, Copy, Debug, PartialEq, Eq)]
pub enum Fed {
    Took(usize),
    Closed,
    Failed,
}

/// The code with which the child ended, or the signal that ended it.
#[derive(Clone, Copy, Debug, PartialEq, Eq)]
pub enum Finished {
    Code(u8),
    Signal(u8),
    Failed,
}

/// Whether a child runs: it still takes input, or its output was asked for.
#[derive(Clone, Copy, Debug, PartialEq, Eq)]
pub enum Child {
    NoChild,
    Feeding,
    Taking,
}
