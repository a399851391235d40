//! The calls of a host as a list can hold them: a name is its bytes, and a room its length.
use crate::{
    Aged, Command, Cut, Fed, Finished, Looked, Made, Moved, Removed, Started, Synced, Took,
};
use pm_bytes::{Blob, Names};

#[derive(Drop)]
pub enum Call {
    Look { name: Blob },
    Read { name: Blob, at: u64, room: u64 },
    Create { name: Blob },
    Append { name: Blob, piece: Blob },
    Sync { name: Blob },
    Cut { name: Blob, len: u64 },
    Remove { name: Blob },
    Rename { from: Blob, to: Blob },
    MakeFolder { name: Blob },
    Names { folder: Blob },
    Age { name: Blob },
    Sleep { seconds: u64 },
    Now,
    Start { command: Command, want: bool },
    Feed { piece: Blob },
    Take { room: u64 },
    Finish,
}

/// `Read` and `Take` have the bytes that came, `Now` seconds since 1970 in UTC. `Failed` is that of a `read`, of
/// `names` and of a `take`, and `Memory` that of `names`.
#[derive(Drop)]
pub enum Answer {
    Look(Looked),
    Read(Blob),
    Create(Made),
    Append(Took),
    Sync(Synced),
    Cut(Cut),
    Remove(Removed),
    Rename(Moved),
    MakeFolder(Made),
    Names(Names),
    Age(Aged),
    Slept,
    Now(i64),
    Start(Started),
    Feed(Fed),
    Take(Blob),
    Finish(Finished),
    Failed,
    Memory,
}

/// A call that was made, with its answer.
#[derive(Drop)]
pub struct Logged {
    pub call: Call,
    pub answer: Answer,
}
