//! The taking of a lock file as a state machine, which the protocol's definition and the code share.

/// How a lock file is asked for (lockfile(1), and LOCKSLEEP, LOCKTIMEOUT and SUSPEND of procmailrc(5)), in seconds:
/// the sleep after a lost try, the age past which a lock file is removed by force (0 for never), and the sleep after
/// such a removal; and how many tries may be lost.
#[derive(Clone, Copy, Debug, PartialEq, Eq)]
pub struct LockRule {
    pub sleep: u64,
    pub limit: u64,
    pub suspend: u64,
    pub tries: u32,
}

/// The tries that were lost so far, the sleeps, and the removals by force.
#[derive(Clone, Copy, Debug, PartialEq, Eq)]
pub struct Tally {
    pub lost: u32,
    pub sleeps: u32,
    pub forced: u32,
}

/// How the taking of a lock ended.
#[derive(Clone, Copy, Debug, PartialEq, Eq)]
pub enum LockEnd {
    /// The lock file was made, after so many sleeps and removals by force.
    Held { sleeps: u32, forced: u32 },
    /// All tries were lost.
    Busy,
    /// A call failed.
    Failed,
}

/// Where the taking of a lock stands.
#[derive(Clone, Copy, Debug, PartialEq, Eq)]
pub enum LockState {
    Trying(Tally),
    Aging(Tally),
    Looking(Tally),
    Removing(Tally),
    Pausing { seconds: u64, so_far: Tally },
    Ended(LockEnd),
}

/// What the taking of a lock asks next; `Sleep` has seconds.
#[derive(Clone, Copy, Debug, PartialEq, Eq)]
pub enum LockStep {
    Create,
    Age,
    Look,
    Remove,
    Sleep(u64),
    Finish(LockEnd),
}
