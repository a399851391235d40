//! A process that runs, with what does its acts and the journal of them.
ghost use Rattle.std.specs.Prelude.{◌≡◌, [], ◌≤◌, length, IfOk, OnErr};
ghost use Rattle.pm_journal.specs.Acts.{ReadsWhole, SaysTo};
ghost use Rattle.pm_journal.specs.Contents.{FitsFile};
ghost use Rattle.pm_journal.specs.Executed.{Carries, OutOfMemory};
ghost use Rattle.pm_journal.specs.Held.{Keeps};
ghost use Rattle.pm_journal.specs.Plan.{ask};
ghost use Rattle.pm_journal.specs.Sayings.{say_act};
ghost use Rattle.pm_journal.specs.declared.acts.Act.TheVariants.{Probe, ReadFile, Run as RunAct};
ghost use Rattle.pm_journal.specs.declared.acts.Reply.TheVariants.{Found};
ghost use Rattle.pm_meaning.specs.Acts.{RunsProgram};
ghost use Rattle.pm_meaning.specs.KeepsProp.{Keeps-prop};

use crate::Process;
use pm_bytes::{Blob, Memory, Name};
use pm_host::{Command, Looked};
use pm_journal::{Asks, Effects, Entries, Journal, RunEnd};
use std::alloc::Global;

/// A process, what does its acts, and their journal. The locks that the process holds are those that the journal's
/// entries took and didn't give back, and the entry of each one's unlock has room.
#[derive(Drop)]
pub struct Run<D: Asks> {
    pub process: Process,
    pub journal: Journal<D::Kept>,
    pub outside: D,
    ghost keeps: { Keeps [] journal.entries process.locks.names } by { Keeps-prop _ _ _ },
    ghost room: { length process.locks.names ≤ journal.room },
}

/// A process without what does its acts, and the journal of them. Its locks are as those of a [`Run`].
#[derive(Drop)]
pub struct Paused<K: Entries> {
    pub process: Process,
    pub journal: Journal<K>,
    ghost keeps: { Keeps [] journal.entries process.locks.names } by { Keeps-prop _ _ _ },
    ghost room: { length process.locks.names ≤ journal.room },
}

/// The journal of a run between its processes: each lock that was taken was given back.
#[derive(Drop)]
pub struct Idle<K: Entries> {
    pub journal: Journal<K>,
    ghost keeps: { Keeps [] journal.entries [] } by { Keeps-prop _ _ _ },
}

impl<D: Asks> Run<D> {
    /// Says a line in the file `to`, or on `err` where there is none. If memory runs out, nothing was noted.
    pub fn say(&mut self, to: Option<Name>, line: Blob) -> Result<(), Memory>
        ensures ok { IfOk result (λ _. SaysTo to line
            self.old.journal self.new.journal (D.told self.old.outside) (D.told self.new.outside)) }
        ensures memory { OnErr result (OutOfMemory (ask (say_act to line))
            self.old.journal self.new.journal (D.told self.old.outside) (D.told self.new.outside)) }
        ensures untouched { OnErr result (self.new.journal.entries ≡ self.old.journal.entries) }
        ensures same { self.new.process ≡ self.old.process }
    {
        self.journal.reserve(self.process.locks.len() + 1)?;
        self.outside.say(&mut self.journal, to, line);
        Ok(())
    }

    /// Runs a program and waits for it. The journal's last entry then has its output, where that is wanted. If memory
    /// runs out, nothing was noted.
    pub fn run_program(
        &mut self,
        alloc: Global,
        command: Command,
        input: Blob,
        want: bool,
    ) -> Result<RunEnd, Memory>
        ensures ok { IfOk result (λ end. RunsProgram command input want end
            self.old.journal self.new.journal (D.told self.old.outside) (D.told self.new.outside)) }
        ensures memory { OnErr result (OutOfMemory (ask (RunAct command input want))
            self.old.journal self.new.journal (D.told self.old.outside) (D.told self.new.outside)) }
        ensures untouched { OnErr result (self.new.journal.entries ≡ self.old.journal.entries) }
        ensures same { self.new.process ≡ self.old.process }
    {
        self.journal.reserve(self.process.locks.len() + 1)?;
        self.outside
            .run(alloc, &mut self.journal, command, input, want)
    }
}

impl<D: Effects> Run<D> {
    /// Looks at a name. If memory runs out, nothing was noted.
    pub fn probe(&mut self, name: Name) -> Result<Looked, Memory>
        ensures carries { Carries (ask (Probe name)) (λ looked. Found looked) result
            self.old.journal self.new.journal (D.told self.old.outside) (D.told self.new.outside) }
        ensures untouched { OnErr result (self.new.journal.entries ≡ self.old.journal.entries) }
        ensures same { self.new.process ≡ self.old.process }
    {
        self.journal.reserve(self.process.locks.len() + 1)?;
        Ok(self.outside.probe(&mut self.journal, name))
    }

    /// Reads a whole file; `None` where the reply isn't its content. If memory runs out, nothing was noted.
    pub fn read(&mut self, alloc: Global, name: Name) -> Result<Option<Blob>, Memory>
        ensures ok { IfOk result (λ content. ReadsWhole name content
            self.old.journal self.new.journal (D.told self.old.outside) (D.told self.new.outside)) }
        ensures fits { IfOk result (λ content. FitsFile content) }
        ensures memory { OnErr result (OutOfMemory (ask (ReadFile name))
            self.old.journal self.new.journal (D.told self.old.outside) (D.told self.new.outside)) }
        ensures untouched { OnErr result (self.new.journal.entries ≡ self.old.journal.entries) }
        ensures same { self.new.process ≡ self.old.process }
    {
        self.journal.reserve(self.process.locks.len() + 1)?;
        self.outside.read(alloc, &mut self.journal, name)
    }
}
