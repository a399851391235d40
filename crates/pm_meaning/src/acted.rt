//! What comes of the action of a recipe (procmailrc(5), "Recipe action line").

/// Why an action wasn't done.
#[derive(Clone, Copy, Debug, PartialEq, Eq)]
pub enum Cause {
    /// A call failed, and the file or the folder has no byte of the mail.
    Undone,
    /// Calls failed, and a part of the mail is left at its destination.
    Torn,
    /// The file wasn't there, and then another program had made it.
    Raced,
    /// All names that were tried in the folder are taken.
    NamesOut,
    /// The lock file was another's at each try.
    Busy,
    /// A call failed by which the lock file was to be got.
    LockFailed,
    /// The program couldn't be started.
    NotStarted,
    /// A call failed that fed the program, took its output or waited for it.
    Broken,
    /// The program took less than all of its input.
    Closed,
    /// The program's output is too long, or the mail that it was to take a place in.
    TooLong,
    /// The program ended with this code.
    Code(u8),
    /// The mail couldn't be written to standard output.
    WriteFailed,
    /// The text has a word that can't be a name.
    BadName,
    /// The lock file is a destination or a lock that is held, or a destination is such a lock.
    NameIsLock,
    /// The text has no words.
    NoWords,
    /// A text or an output has so many bytes, which are too many for a value.
    Overflow { length: u64 },
    /// DEFAULT and ORGMAIL are unset or empty.
    NoName,
}

/// What came of an action.
#[derive(Clone, Copy, Debug, PartialEq, Eq)]
pub enum Acted {
    /// The mail was delivered, for good.
    Delivered,
    /// A copy of the mail was delivered.
    CopyDone,
    /// The mail was filtered, or a program's output captured.
    Went,
    /// The action wasn't done.
    Failed(Cause),
}
