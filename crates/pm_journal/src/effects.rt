//! The acts that a run can ask for, over whatever does them.
ghost use Rattle.std.specs.Prelude.{◌≡◌, ◌<◌, ◌≤◌, true, IfOk, OnErr};
ghost use Rattle.pm_journal.specs.Appending.{append_reply};
ghost use Rattle.pm_journal.specs.Entries.{View, unlock_reply};
ghost use Rattle.pm_journal.specs.Locking.{lock_act, lock_reply};
ghost use Rattle.pm_journal.specs.Noted.{NotesAct};
ghost use Rattle.pm_journal.specs.Contents.{FitsFile};
ghost use Rattle.pm_journal.specs.Sayings.{say_reply, NotesSaid};
ghost use Rattle.pm_journal.specs.declared.acts.Act.TheVariants.{ReadFile, Run};
ghost use Rattle.pm_journal.specs.Acts.{NotesRead, NotesPlace, NotesRun, LeavesAct, place_act};

use crate::{
    Act, AppendEnd, Entries, FolderEnd, FolderKind, Journal, LockEnd, LockRule, Reply, RunEnd,
    Stamp, WriteEnd,
};
use pm_bytes::{Blob, Memory, Name};
use pm_host::{Command, Looked, Removed};
use std::alloc::Global;

/// A piece that is filed in a folder as a file of its own, with what makes its name; `prefix` is that of a plain
/// folder.
#[derive(Drop)]
pub struct Filing {
    pub kind: FolderKind,
    pub folder: Name,
    pub prefix: Name,
    pub piece: Blob,
    pub stamp: Stamp,
}

/// Says lines and runs programs, which is all that conditions and the commands of texts ask for. Each is noted in the
/// journal as the one new entry. Only a `run` whose output is wanted takes memory.
pub trait Asks {
    /// What the journal keeps of its entries.
    type Kept: Entries;

    /// What the host and the sinks tell.
    ghost told: { Self → View };

    /// Adds the text at the end of the file `to`, or writes it to `err` where there is none. A text that can't be
    /// said changes nothing else.
    fn say(&mut self, journal: &mut Journal<Self::Kept>, to: Option<Name>, text: Blob)
        requires { 0 < journal.old.room }
        ensures { NotesSaid to text journal.old journal.new (told self.old) (told self.new) };

    /// Runs a program and waits for it. The journal's last entry then has its output, where that is wanted. After want
    /// of memory nothing is noted, and the program was waited for; without a wanted output there is none.
    fn run(
        &mut self,
        alloc: Global,
        journal: &mut Journal<Self::Kept>,
        command: Command,
        input: Blob,
        want: bool,
    ) -> Result<RunEnd, Memory>
        requires { 0 < journal.old.room }
        ensures ok { IfOk result (λ end. NotesRun command input want end
            journal.old journal.new (told self.old) (told self.new)) }
        ensures wanted { OnErr result (want ≡ true) }
        ensures left { OnErr result (LeavesAct (Run command input want) (told self.old) (told self.new)) }
        ensures same { OnErr result (journal.new ≡ journal.old) };
}

/// Does all acts of a run, and notes each in the journal as the one new entry. Of these only `read` and `place` take
/// memory.
pub trait Effects: Asks {
    /// Appends the piece to the file, whole and synced to disk, or cut back.
    fn append(&mut self, journal: &mut Journal<Self::Kept>, name: Name, piece: Blob) -> AppendEnd
        requires { 0 < journal.old.room }
        ensures { NotesAct (Act.Append name piece) (append_reply result)
            journal.old journal.new (Self.told self.old) (Self.told self.new) };

    /// Files the piece in the folder. The journal's last entry then has the file's name. After want of memory nothing
    /// is noted and no file was made.
    fn place(
        &mut self,
        alloc: Global,
        journal: &mut Journal<Self::Kept>,
        filing: Filing,
    ) -> Result<FolderEnd, Memory>
        requires { 0 < journal.old.room }
        ensures ok { IfOk result (λ end. NotesPlace filing end
            journal.old journal.new (Self.told self.old) (Self.told self.new)) }
        ensures left { OnErr result (LeavesAct (place_act filing) (Self.told self.old) (Self.told self.new)) }
        ensures same { OnErr result (journal.new ≡ journal.old) };

    /// Writes the piece to the run's standard output.
    fn write_out(&mut self, journal: &mut Journal<Self::Kept>, piece: Blob) -> WriteEnd
        requires { 0 < journal.old.room }
        ensures { NotesAct (Act.WriteOut piece) (say_reply result)
            journal.old journal.new (Self.told self.old) (Self.told self.new) };

    /// Reads the whole file; `None` where the reply isn't its content. After want of memory nothing is noted, and the
    /// file was read in part.
    fn read(
        &mut self,
        alloc: Global,
        journal: &mut Journal<Self::Kept>,
        name: Name,
    ) -> Result<Option<Blob>, Memory>
        requires { 0 < journal.old.room }
        ensures ok { IfOk result (λ content. NotesRead name content
            journal.old journal.new (Self.told self.old) (Self.told self.new)) }
        ensures fits { IfOk result (λ content. FitsFile content) }
        ensures left { OnErr result (LeavesAct (ReadFile name) (Self.told self.old) (Self.told self.new)) }
        ensures same { OnErr result (journal.new ≡ journal.old) };

    /// Asks what stands at the name.
    fn probe(&mut self, journal: &mut Journal<Self::Kept>, name: Name) -> Looked
        requires { 0 < journal.old.room }
        ensures { NotesAct (Act.Probe name) (Reply.Found result)
            journal.old journal.new (Self.told self.old) (Self.told self.new) };

    /// Asks the moment, in seconds since 1970 in UTC.
    fn moment(&mut self, journal: &mut Journal<Self::Kept>) -> i64
        requires { 0 < journal.old.room }
        ensures { NotesAct Act.Moment (Reply.Now result)
            journal.old journal.new (Self.told self.old) (Self.told self.new) };

    /// Takes a lock by the rule.
    fn lock(&mut self, journal: &mut Journal<Self::Kept>, name: Name, rule: LockRule) -> LockEnd
        requires room { 0 < journal.old.room }
        requires some { 1 ≤ rule.tries }
        requires few { rule.tries ≤ 1000000 }
        ensures { NotesAct (lock_act name rule) (lock_reply result)
            journal.old journal.new (Self.told self.old) (Self.told self.new) };

    /// Removes a lock file.
    fn unlock(&mut self, journal: &mut Journal<Self::Kept>, name: Name) -> Removed
        requires { 0 < journal.old.room }
        ensures { NotesAct (Act.Unlock name) (unlock_reply result)
            journal.old journal.new (Self.told self.old) (Self.told self.new) };
}
