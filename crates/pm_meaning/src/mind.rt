//! The state of a process in the parts that a caller has of it.
ghost use Rattle.std.specs.Prelude.{◌≡◌, reverse, IfOk, OnErr};
ghost use Rattle.pm_journal.specs.Held.{Keeping};
ghost use Rattle.pm_meaning.specs.Apart.{bare, last_of, state_of};
ghost use Rattle.pm_meaning.specs.Minds.{mind_of};

use crate::{Chain, Paused, Process, Stored};
use pm_bytes::{Blob, Memory, Name};
use pm_journal::{Entries, HeldLocks, Journal};
use pm_message::{Mail, Message};
use pm_vars::Vars;
use std::alloc::Global;
use std::mem;

/// Where the mail was last delivered to: the text of the destination, or the name of the file in a folder, and how many
/// bytes it got.
#[derive(Drop)]
pub struct Last {
    pub folder: Blob,
    pub length: u64,
}

/// The state of one process: its variables, the message that it delivers, the folder `base` from which names are seen
/// (MAILDIR, procmailrc(5)), what came of the recipes before, the locks that it holds, which of them LOCKFILE names,
/// the rcfiles of the command line that are left, and where the mail was last delivered to.
#[derive(Drop)]
pub struct Mind {
    pub vars: Vars,
    pub message: Message,
    pub base: Name,
    pub chain: Chain,
    pub locks: HeldLocks,
    pub global: Option<Name>,
    pub rcfiles: Vec<Name>,
    pub last: Option<Last>,
}

/// What the processes of a run share: how many rcfiles it has opened, or tried to, how many copies of processes were
/// made, how many times mail was filed in a folder, or tried to, and the host's name.
#[derive(Drop)]
pub struct Shared {
    pub openings: u32,
    pub clones: u32,
    pub placed: u64,
    pub host_name: Name,
}

/// How the first rcfile of a process is opened: whether the program is a mail filter (`-m`, procmail(1)), whether the
/// one name is that of the user's own rcfile, which may be missing, and whether MAILDIR stays as a word of the command
/// line set it.
#[derive(Clone, Copy, Debug, PartialEq, Eq)]
pub struct Opening {
    pub under_m: bool,
    pub implied: bool,
    pub keep_base: bool,
}

impl Mind {
    /// The state of this process. It takes no memory.
    pub fn of(process: Process) -> Mind
        ensures state { state_of result process.host_name process.placed ≡ bare (mind_of process) }
        ensures locks { result.locks ≡ process.locks }
        ensures rcfiles { result.rcfiles.items ≡ reverse process.later.items }
    {
        let Process {
            message,
            vars,
            base,
            locks,
            global,
            chain,
            later: mut rcfiles,
            stored,
            ..
        } = process;
        rcfiles.reverse();
        Mind {
            vars,
            message: message.into_parts(),
            base,
            chain,
            locks,
            global,
            rcfiles,
            last: remembered(stored),
        }
    }

    /// Takes the process of this state out, and its run's journal with it; `resume` puts both back. The only error is
    /// `Memory`.
    pub fn pause<K: Entries>(
        &mut self,
        alloc: Global,
        shared: &Shared,
        journal: &mut Journal<K>,
    ) -> Result<Paused<K>, Memory>
        requires keeping { Keeping journal.old self.old.locks.names }
        ensures state { IfOk result (λ paused.
            mind_of paused.process ≡ state_of self.old shared.now.host_name shared.now.placed) }
        ensures journal { IfOk result (λ paused. paused.journal ≡ journal.old) }
        ensures rcfiles { self.new.rcfiles ≡ self.old.rcfiles }
        ensures same { OnErr result (self.new ≡ self.old) }
        ensures unmoved { OnErr result (journal.new ≡ journal.old) }
    {
        let host_name = shared.host_name.copy(alloc)?;
        let process = self.take(alloc, host_name, shared.placed)?;
        Ok(Paused {
            process,
            journal: mem::replace(journal, Journal::empty(alloc)),
        })
    }

    /// Puts the process and the journal back. The run then shares the host's name that the process has, and how many
    /// times mail was filed.
    pub fn resume<K: Entries>(
        &mut self,
        paused: Paused<K>,
        shared: &mut Shared,
        journal: &mut Journal<K>,
    )
        ensures state { state_of self.new shared.new.host_name shared.new.placed ≡ bare (mind_of paused.process) }
        ensures counts { (shared.new.openings ≡ shared.old.openings) × (shared.new.clones ≡ shared.old.clones) }
        ensures journal { journal.new ≡ paused.journal }
        ensures keeping { Keeping journal.new self.new.locks.names }
        ensures rcfiles { self.new.rcfiles ≡ self.old.rcfiles }
    {
        let Paused {
            process,
            journal: noted,
        } = paused;
        *journal = noted;
        let (host_name, placed) = self.restore(process);
        shared.host_name = host_name;
        shared.placed = placed;
    }

    // Takes the process of this state out; `restore` puts it back.
    fn take(&mut self, alloc: Global, host_name: Name, placed: u64) -> Result<Process, Memory>
        ensures state { IfOk result (λ process. mind_of process ≡ state_of self.old host_name placed) }
        ensures locks { IfOk result (λ process. process.locks ≡ self.old.locks) }
        ensures rcfiles { self.new.rcfiles ≡ self.old.rcfiles }
        ensures same { OnErr result (self.new ≡ self.old) }
    {
        let message = Mail::of(alloc, self.message.copy(alloc)?)?;
        let last = mem::replace(&mut self.last, None);
        Ok(Process {
            filter: false,
            fails_softly: false,
            message,
            vars: mem::replace(&mut self.vars, Vars::new(alloc, 0)),
            base: mem::replace(&mut self.base, Name::from_text(String::new(alloc))),
            host_name,
            locks: mem::replace(&mut self.locks, HeldLocks::new(alloc)),
            global: mem::replace(&mut self.global, None),
            chain: self.chain,
            placed,
            rcfile: Name::from_text(String::new(alloc)),
            openings: 0,
            is_clone: false,
            later: Vec::new(alloc),
            stored: stored_as(alloc, last),
        })
    }

    // Puts the process back, and gives the host's name and how many times the run has filed mail.
    fn restore(&mut self, process: Process) -> (Name, u64)
        ensures state { state_of self.new result.0 result.1 ≡ bare (mind_of process) }
        ensures locks { self.new.locks ≡ process.locks }
        ensures rcfiles { self.new.rcfiles ≡ self.old.rcfiles }
    {
        let Process {
            message,
            vars,
            base,
            host_name,
            locks,
            global,
            chain,
            placed,
            stored,
            ..
        } = process;
        self.message = message.into_parts();
        self.vars = vars;
        self.base = base;
        self.locks = locks;
        self.global = global;
        self.chain = chain;
        self.last = remembered(stored);
        (host_name, placed)
    }
}

fn stored_as(alloc: Global, last: Option<Last>) -> Stored
    ensures { result ≡ last_of last }
{
    match last {
        None => Stored {
            folder: Blob::empty(alloc),
            size: 0,
        },
        Some(Last { folder, length }) => Stored {
            folder,
            size: length,
        },
    }
}

fn remembered(stored: Stored) -> Option<Last>
    ensures { last_of result ≡ stored }
{
    if stored.folder.len() == 0 && stored.size == 0 {
        return None;
    }
    let Stored { folder, size } = stored;
    Some(Last {
        folder,
        length: size,
    })
}
