//! A process that runs recipes, what comes of a delivery, and how a process ends.
ghost use Rattle.std.specs.Prelude.{◌≡◌, [], IfOk};

use crate::{Cause, Chain, new_chain};
use pm_bytes::{Blob, Memory, Name};
use pm_host::Command;
use pm_journal::{FolderKind, HeldLocks};
use pm_message::Mail;
use pm_vars::Vars;
use std::alloc::Global;

/// The state of a process: the message that it delivers, its variables, the folder `base` from which names are seen
/// (MAILDIR, procmailrc(5)), the host's name, whether the program is a mail filter (`-m`, procmail(1)), whether a mail
/// that isn't delivered shall be tried again later (`-t`), the locks that
/// it holds, which of them LOCKFILE names, what came of the recipes before, how many times the run has filed mail in a
/// folder, or tried to, the name of the rcfile that is being read, empty before the first one, how many rcfiles the run
/// has opened, or tried to, whether this is a copy of a process that was made for a block, which rcfiles of the command
/// line are left, the last one first, and where the mail was last delivered to.
#[derive(Drop)]
pub struct Process {
    pub filter: bool,
    pub fails_softly: bool,
    pub message: Mail,
    pub vars: Vars,
    pub base: Name,
    pub host_name: Name,
    pub locks: HeldLocks,
    pub global: Option<Name>,
    pub chain: Chain,
    pub placed: u64,
    pub rcfile: Name,
    pub openings: u32,
    pub is_clone: bool,
    pub later: Vec<Name>,
    pub stored: Stored,
}

impl Process {
    /// A process without a mail, a variable or a name, for the place of one that is taken out of it for a time.
    pub fn blank(alloc: Global) -> Result<Process, Memory>
        ensures { IfOk result (λ process. process.locks.names ≡ []) }
    {
        let message = Mail::split(alloc, Blob::empty(alloc))?;
        Ok(Process {
            filter: false,
            fails_softly: false,
            message,
            vars: Vars::new(alloc, 0),
            base: Name::from_text(String::new(alloc)),
            host_name: Name::from_text(String::new(alloc)),
            locks: HeldLocks::new(alloc),
            global: None,
            chain: new_chain(),
            placed: 0,
            rcfile: Name::from_text(String::new(alloc)),
            openings: 0,
            is_clone: false,
            later: Vec::new(alloc),
            stored: Stored {
                folder: Blob::empty(alloc),
                size: 0,
            },
        })
    }
}

/// Where the mail was last delivered to, as LASTFOLDER has it, and how many bytes were (procmailrc(5), "Environment").
#[derive(Drop)]
pub struct Stored {
    pub folder: Blob,
    pub size: u64,
}

/// How a process ended.
#[derive(Clone, Copy, Debug, PartialEq, Eq)]
pub enum End {
    /// A recipe delivered the mail.
    Delivered,
    /// No recipe delivered it.
    FellOff,
    /// The rcfile of a mail filter wasn't read.
    NoRc,
    /// HOST got another name than the host's, and no rcfile of the command line was left.
    HostOff,
}

/// A destination of a recipe (procmailrc(5), "Recipe action line"): its name, and the kind of folder that its ending
/// asks for. One without such an ending is a file, unless a folder stands there.
#[derive(Drop)]
pub struct Destination {
    pub kind: Option<FolderKind>,
    pub name: Name,
}

/// What came of the delivery to one destination, or to several in order up to one that didn't get the mail.
#[derive(Drop)]
pub enum Filed {
    /// Each destination has the mail.
    Stored,
    /// The file of this name couldn't be written to and has its old contents; or no file was added to the directory of
    /// this name.
    Unwritten(Name),
    /// The file of this name wasn't there, and then another program had made it.
    Raced(Name),
    /// The file couldn't be written to, and so many bytes of the piece are left at its end.
    Left { name: Name, count: u64 },
    /// All names that were tried in the folder of this name are taken.
    Crowded(Name),
    /// A folder stands there, and MSGPREFIX can't begin a name in it.
    Unnamed,
}

/// What came of an attempt to deliver to the destinations of an action, under a lock file where one was asked for.
#[derive(Drop)]
pub enum Attempt {
    /// No lock file was asked for.
    Unlocked(Filed),
    /// The lock of this name wasn't got for this cause, and no destination was tried.
    NotLocked {
        name: Name,
        cause: Cause,
    },
    /// The lock was got after so many removals by force; `stuck` where its own removal failed after the delivery.
    Locked {
        name: Name,
        forced: u32,
        filed: Filed,
        stuck: bool,
    },
}

/// A program line as it is read (procmailrc(5), "Recipe action line").
#[derive(Drop)]
pub enum ProgramLine {
    /// This program runs.
    Runs(Command),
    /// The line has no words.
    NoWords,
    /// The line has a word that no program can get.
    Unusable,
    /// The line expands to so many bytes, which are too many.
    TooLong(u64),
}

/// What came of handing the mail to a program or writing it to standard output.
#[derive(Clone, Copy, Debug, PartialEq, Eq)]
pub enum Outcome {
    Done,
    /// The program couldn't be started.
    NotStarted,
    /// A call failed that fed it, took its output or waited for it.
    Lost,
    /// It took less than all of its input.
    Closed,
    /// It ended with this code.
    Code(u8),
    /// Its output is too long, or the mail that it was to take a place in.
    TooLong,
    /// Its output has so many bytes, which are too many for a variable.
    Overflow(u64),
    /// The mail couldn't be written to standard output.
    Unwritten,
}

/// What came of it under a lock file, where one was asked for.
#[derive(Drop)]
pub enum Trial {
    /// No lock file was asked for.
    Unlocked(Outcome),
    /// The lock of this name wasn't got for this cause, and nothing was tried.
    NotLocked {
        name: Name,
        cause: Cause,
    },
    /// The lock was got after so many removals by force; `stuck` where its own removal failed after what was tried.
    Locked {
        name: Name,
        forced: u32,
        outcome: Outcome,
        stuck: bool,
    },
}
