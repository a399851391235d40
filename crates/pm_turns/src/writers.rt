//! The writers: what each delivers, and where it stands.
use pm_append::AppendCore;
use pm_bytes::Blob;
use pm_host::Removed;
use pm_journal::{AppendEnd, LockEnd};
use pm_locks::LockCore;

/// A delivery of a piece, under a lock that is taken as these numbers say: after a lost try it sleeps so many
/// seconds, a lock file that is older than `limit` seconds is removed by force (if that isn't 0) and `suspend`
/// seconds of sleep follow, and after so many lost tries it gives up.
#[derive(Drop)]
pub struct Writer {
    pub piece: Blob,
    pub sleep: u64,
    pub limit: u64,
    pub suspend: u64,
    pub tries: u32,
}

/// How the next call of a writer is taken: as the mailbox and the lock have it, or it fails without an effect. The
/// number is the count of bytes that an append takes, if it isn't more than are left, and the age of a lock in seconds.
#[derive(Clone, Copy, Debug, PartialEq, Eq)]
pub enum Will {
    Serve(u64),
    Fail,
}

/// What came of an event.
#[derive(Clone, Copy, Debug, PartialEq, Eq)]
pub enum Stepped {
    /// The writer made a call.
    Went,
    /// The writer had ended before.
    Over,
    /// This event or an earlier one was the first that removed a lock by force.
    Forced,
}

/// Where a writer stands.
#[derive(Drop)]
pub enum Place {
    /// It takes the lock.
    Locking(LockCore),
    /// It has the lock, and appends.
    Appending(AppendCore),
    /// Its append has ended, and it gives the lock back.
    Giving(AppendEnd),
    /// It has given the lock back, or tried to.
    Gone(AppendEnd, Removed),
    /// It didn't get the lock.
    Away(LockEnd),
}

/// A piece, and where its writer stands.
#[derive(Drop)]
pub struct Delivery {
    pub piece: Blob,
    pub place: Place,
}

/// What a call made of the lock.
#[derive(Clone, Copy, Debug, PartialEq, Eq)]
pub struct Outcome {
    /// It is there.
    pub locked: bool,
    /// This writer got it.
    pub got: bool,
    /// It was removed by force.
    pub forced: bool,
}
