//! The calls of the host: a failed one counts a fault.
ghost use Rattle.std.specs.Prelude.{◌≡◌, ◌<◌, ◌+◌, ◌-◌, ◌^◌, min, length};
ghost use Rattle.pm_host.specs.Answers.{IsWithin, read_answer, take_answer, names_answer};
ghost use Rattle.pm_host.specs.Told.{Makes};
ghost use Rattle.pm_host.specs.World.{IsRunning};
ghost use Rattle.pm_overlay.specs.Given.{line_of, answer_to};
ghost use Rattle.pm_overlay.specs.Programs.{Starts, IsFedAll, IsTaken};
ghost use Rattle.pm_overlay.specs.Steps.{layer, quiet, IsStep, IsSame};

use crate::{Base, Overlay};
use pm_bytes::Memory;
use pm_host::{
    Aged, Answer, Call, Child, Command, Cut, Fed, Finished, Got, Host, Listed, Looked, Made, Moved,
    Removed, Started, Synced, Took,
};
use std::alloc::Global;

impl<B: Base + Drop> Host for Overlay<B> {
    ghost told = { λ host. quiet host.faults host.child };

    ghost tells_calls = { λ _ told. told };

    fn faults(&self) -> u64 {
        self.faults
    }

    fn look(&mut self, name: &str) -> Looked
        ensures makes { Makes (Call.Look name.now) (Answer.Look result) (quiet self.old.faults self.old.child)
            (quiet self.new.faults self.new.child) }
        ensures step { IsStep (Call.Look name.now) (Answer.Look result)
            (layer (B.told self.old.tree.base) self.old.tree.changes self.old.tree.slept)
            (layer (B.told self.new.tree.base) self.new.tree.changes self.new.tree.slept) }
    {
        let answer = self.tree.look(name);
        if answer == Looked::Failed {
            self.count_fault();
        }
        answer
    }

    fn read(&mut self, name: &str, at: u64, room: &mut [u8]) -> Got
        requires { 0 < length room.old }
        ensures makes { Makes (Call.Read name.now at (length room.old)) (read_answer result room.new)
            (quiet self.old.faults self.old.child) (quiet self.new.faults self.new.child) }
        ensures step { IsStep (Call.Read name.now at (length room.old)) (read_answer result room.new)
            (layer (B.told self.old.tree.base) self.old.tree.changes self.old.tree.slept)
            (layer (B.told self.new.tree.base) self.new.tree.changes self.new.tree.slept) }
        ensures within { IsWithin result (length room.old) }
    {
        let answer = self.tree.read(name, at, room);
        if answer == Got::Failed {
            self.count_fault();
        }
        answer
    }

    fn create(&mut self, name: &str) -> Made
        ensures makes { Makes (Call.Create name.now) (Answer.Create result) (quiet self.old.faults self.old.child)
            (quiet self.new.faults self.new.child) }
        ensures step { IsStep (Call.Create name.now) (Answer.Create result)
            (layer (B.told self.old.tree.base) self.old.tree.changes self.old.tree.slept)
            (layer (B.told self.new.tree.base) self.new.tree.changes self.new.tree.slept) }
    {
        let answer = self.tree.create(name);
        if answer == Made::Failed {
            self.count_fault();
        }
        answer
    }

    fn append(&mut self, name: &str, piece: &[u8]) -> Took
        requires { 0 < length piece.now }
        ensures makes { Makes (Call.Append name.now piece.now) (Answer.Append result)
            (quiet self.old.faults self.old.child) (quiet self.new.faults self.new.child) }
        ensures step { IsStep (Call.Append name.now piece.now) (Answer.Append result)
            (layer (B.told self.old.tree.base) self.old.tree.changes self.old.tree.slept)
            (layer (B.told self.new.tree.base) self.new.tree.changes self.new.tree.slept) }
    {
        let answer = self.tree.append(name, piece);
        if answer == Took::Failed {
            self.count_fault();
        }
        answer
    }

    fn sync(&mut self, name: &str) -> Synced
        ensures makes { Makes (Call.Sync name.now) (Answer.Sync result) (quiet self.old.faults self.old.child)
            (quiet self.new.faults self.new.child) }
        ensures step { IsStep (Call.Sync name.now) (Answer.Sync result)
            (layer (B.told self.old.tree.base) self.old.tree.changes self.old.tree.slept)
            (layer (B.told self.new.tree.base) self.new.tree.changes self.new.tree.slept) }
    {
        let answer = self.tree.sync(name);
        if answer == Synced::Failed {
            self.count_fault();
        }
        answer
    }

    fn cut(&mut self, name: &str, len: u64) -> Cut
        ensures makes { Makes (Call.Cut name.now len) (Answer.Cut result) (quiet self.old.faults self.old.child)
            (quiet self.new.faults self.new.child) }
        ensures step { IsStep (Call.Cut name.now len) (Answer.Cut result)
            (layer (B.told self.old.tree.base) self.old.tree.changes self.old.tree.slept)
            (layer (B.told self.new.tree.base) self.new.tree.changes self.new.tree.slept) }
    {
        let answer = self.tree.cut(name, len);
        if answer == Cut::Failed {
            self.count_fault();
        }
        answer
    }

    fn remove(&mut self, name: &str) -> Removed
        ensures makes { Makes (Call.Remove name.now) (Answer.Remove result) (quiet self.old.faults self.old.child)
            (quiet self.new.faults self.new.child) }
        ensures step { IsStep (Call.Remove name.now) (Answer.Remove result)
            (layer (B.told self.old.tree.base) self.old.tree.changes self.old.tree.slept)
            (layer (B.told self.new.tree.base) self.new.tree.changes self.new.tree.slept) }
    {
        let answer = self.tree.remove(name);
        if answer == Removed::Failed {
            self.count_fault();
        }
        answer
    }

    fn rename(&mut self, from: &str, to: &str) -> Moved
        ensures makes { Makes (Call.Rename from.now to.now) (Answer.Rename result)
            (quiet self.old.faults self.old.child) (quiet self.new.faults self.new.child) }
        ensures step { IsStep (Call.Rename from.now to.now) (Answer.Rename result)
            (layer (B.told self.old.tree.base) self.old.tree.changes self.old.tree.slept)
            (layer (B.told self.new.tree.base) self.new.tree.changes self.new.tree.slept) }
    {
        let answer = self.tree.rename(from, to);
        if answer == Moved::Failed {
            self.count_fault();
        }
        answer
    }

    fn make_folder(&mut self, name: &str) -> Made
        ensures makes { Makes (Call.MakeFolder name.now) (Answer.MakeFolder result)
            (quiet self.old.faults self.old.child) (quiet self.new.faults self.new.child) }
        ensures step { IsStep (Call.MakeFolder name.now) (Answer.MakeFolder result)
            (layer (B.told self.old.tree.base) self.old.tree.changes self.old.tree.slept)
            (layer (B.told self.new.tree.base) self.new.tree.changes self.new.tree.slept) }
    {
        let answer = self.tree.make_folder(name);
        if answer == Made::Failed {
            self.count_fault();
        }
        answer
    }

    fn names(&mut self, alloc: Global, folder: &str) -> Listed
        ensures makes { Makes (Call.Names folder.now) (names_answer result) (quiet self.old.faults self.old.child)
            (quiet self.new.faults self.new.child) }
        ensures same { IsSame
            (layer (B.told self.old.tree.base) self.old.tree.changes self.old.tree.slept)
            (layer (B.told self.new.tree.base) self.new.tree.changes self.new.tree.slept) }
    {
        let answer = self.tree.names(alloc, folder);
        if let Listed::Failed = answer {
            self.count_fault();
        }
        answer
    }

    fn age(&mut self, name: &str) -> Aged
        ensures makes { Makes (Call.Age name.now) (Answer.Age result) (quiet self.old.faults self.old.child)
            (quiet self.new.faults self.new.child) }
        ensures step { IsStep (Call.Age name.now) (Answer.Age result)
            (layer (B.told self.old.tree.base) self.old.tree.changes self.old.tree.slept)
            (layer (B.told self.new.tree.base) self.new.tree.changes self.new.tree.slept) }
    {
        let answer = self.tree.age(name);
        if answer == Aged::Failed {
            self.count_fault();
        }
        answer
    }

    fn sleep(&mut self, seconds: u64)
        ensures makes { Makes (Call.Sleep seconds) Answer.Slept (quiet self.old.faults self.old.child)
            (quiet self.new.faults self.new.child) }
        ensures slept { self.new.tree.slept ≡ min (self.old.tree.slept + seconds) (2 ^ 64 - 1) }
        ensures base { self.new.tree.base ≡ self.old.tree.base }
        ensures changes { self.new.tree.changes ≡ self.old.tree.changes }
    {
        self.tree.slept = self.tree.slept.saturating_add(seconds);
    }

    fn now(&mut self) -> i64
        ensures makes { Makes Call.Now (Answer.Now result) (quiet self.old.faults self.old.child)
            (quiet self.new.faults self.new.child) }
        ensures step { IsStep Call.Now (Answer.Now result)
            (layer (B.told self.old.tree.base) self.old.tree.changes self.old.tree.slept)
            (layer (B.told self.new.tree.base) self.new.tree.changes self.new.tree.slept) }
    {
        self.tree.now()
    }

    fn start(&mut self, command: &Command, want: bool) -> Started
        ensures makes { Makes (Call.Start command.now want) (Answer.Start result) (quiet self.old.faults self.old.child)
            (quiet self.new.faults self.new.child) }
        ensures tree { self.new.tree ≡ self.old.tree }
        ensures started { result ≡ Started.Started → Starts (answer_to self.old.programs.given.items
            (line_of command.now)) want self.old.programs self.new.programs }
    {
        match self.programs.start(self.alloc, command, want) {
            Ok(()) => {
                self.child = Child::Feeding;
                Started::Started
            }
            Err(Memory) => {
                self.count_fault();
                Started::Failed
            }
        }
    }

    fn feed(&mut self, piece: &[u8]) -> Fed
        requires some { 0 < length piece.now }
        requires feeding { self.old.child ≡ Child.Feeding }
        ensures makes { Makes (Call.Feed piece.now) (Answer.Feed result) (quiet self.old.faults self.old.child)
            (quiet self.new.faults self.new.child) }
        ensures tree { self.new.tree ≡ self.old.tree }
        ensures all { IsFedAll piece.now self.old.programs self.new.programs result }
    {
        match self.programs.feed(piece) {
            Ok(()) => Fed::Took(piece.len()),
            Err(Memory) => {
                self.count_fault();
                Fed::Failed
            }
        }
    }

    fn take(&mut self, room: &mut [u8]) -> Got
        requires some { 0 < length room.old }
        requires running { IsRunning self.old.child }
        ensures makes { Makes (Call.Take (length room.old)) (take_answer result room.new)
            (quiet self.old.faults self.old.child) (quiet self.new.faults self.new.child) }
        ensures within { IsWithin result (length room.old) }
        ensures tree { self.new.tree ≡ self.old.tree }
        ensures came { IsTaken (length room.old) room.new self.old.programs self.new.programs result }
    {
        self.child = Child::Taking;
        Got::Got(self.programs.take(room))
    }

    fn finish(&mut self) -> Finished
        requires { IsRunning self.old.child }
        ensures makes { Makes Call.Finish (Answer.Finish result) (quiet self.old.faults self.old.child)
            (quiet self.new.faults self.new.child) }
        ensures tree { self.new.tree ≡ self.old.tree }
        ensures code { result ≡ Finished.Code self.old.programs.code }
    {
        self.child = Child::NoChild;
        Finished::Code(self.programs.code())
    }
}
