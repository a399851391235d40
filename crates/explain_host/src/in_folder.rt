//! A host as a program finds it that runs from a folder.
ghost use Rattle.std.specs.Prelude.{◌≡◌, ◌≤◌, ◌<◌, ◌++◌, length, string_bytes, IfOk};
ghost use Rattle.pm_bytes.specs.Path.{full_name};
ghost use Rattle.pm_host.specs.Answers.{IsWithin, read_answer, take_answer, names_answer};
ghost use Rattle.pm_host.specs.Told.{Makes, Rose};
ghost use Rattle.pm_host.specs.World.{IsRunning};
ghost use Rattle.pm_overlay.specs.Steps.{quiet};
ghost use Rattle.explain_host.specs.Passing.{Passes};

use pm_bytes::{Memory, Name};
use pm_host::{
    Aged, Answer, Call, Child, Command, Cut, Fed, Finished, Got, Host, Listed, Looked, Made, Moved,
    Removed, Started, Synced, Took,
};
use std::alloc::Global;

/// A host whose names are seen from a folder. Programs aren't started here: each takes all and ends with 0.
#[derive(Drop)]
pub(crate) struct InFolder<H: Host + Drop> {
    pub(crate) alloc: Global,
    pub(crate) host: H,
    pub(crate) folder: Name,
    pub(crate) child: Child,
    pub(crate) faults: u64,
}

impl<H: Host + Drop> InFolder<H> {
    /// Names are seen from this folder now, and no program runs.
    pub(crate) fn enter(&mut self, folder: Name)
        ensures folder { self.new.folder ≡ folder }
        ensures child { self.new.child ≡ Child.NoChild }
        ensures host { self.new.host ≡ self.old.host }
    {
        self.folder = folder;
        self.child = Child::NoChild;
    }

    fn count_fault(&mut self)
        ensures rose { Rose self.old.faults self.new.faults }
        ensures later { self.old.faults ≤ self.new.faults }
        ensures host { self.new.host ≡ self.old.host }
        ensures folder { self.new.folder ≡ self.old.folder }
        ensures child { self.new.child ≡ self.old.child }
    {
        self.faults = self.faults.saturating_add(1);
    }

    // The name as the host has it.
    fn full(&self, name: &str) -> Result<String, Memory>
        ensures { IfOk result (λ full. string_bytes full ≡ full_name self.now.folder name.now) }
    {
        full_text(self.alloc, self.folder.as_str(), name)
    }

    fn full_both(&self, from: &str, to: &str) -> Result<(String, String), Memory>
        ensures { IfOk result (λ full. (string_bytes full.0 ≡ full_name self.now.folder from.now)
            × (string_bytes full.1 ≡ full_name self.now.folder to.now)) }
    {
        Ok((self.full(from)?, self.full(to)?))
    }
}

fn full_text(alloc: Global, folder: &str, name: &str) -> Result<String, Memory>
    ensures { IfOk result (λ full. string_bytes full ≡ full_name folder.now name.now) }
{
    if name.as_bytes().starts_with(b"/") || folder == "." {
        return Ok(String::from_str(alloc, name)?);
    }
    let mut text = String::from_str(alloc, folder)?;
    if !folder.as_bytes().ends_with(b"/") {
        text.push_str("/")?;
    }
    text.push_str(name)?;
    Ok(text)
}

impl<H: Host + Drop> Host for InFolder<H> {
    ghost told = { λ host. quiet host.faults host.child };

    ghost tells_calls = { λ _ told. told };

    fn faults(&self) -> u64 {
        self.faults
    }

    fn look(&mut self, name: &str) -> Looked
        ensures made { Makes (Call.Look name.now) (Answer.Look result)
            (quiet self.old.faults self.old.child) (quiet self.new.faults self.new.child) }
        ensures passes { Passes (Call.Look (full_name self.old.folder name.now)) (Answer.Look result)
            (H.told self.old.host) (H.told self.new.host) }
    {
        let answer = match self.full(name) {
            Ok(name) => self.host.look(name.as_str()),
            Err(Memory) => Looked::Failed,
        };
        if answer == Looked::Failed {
            self.count_fault();
        }
        answer
    }

    fn read(&mut self, name: &str, at: u64, room: &mut [u8]) -> Got
        requires { 0 < length room.old }
        ensures made { Makes (Call.Read name.now at (length room.old)) (read_answer result room.new)
            (quiet self.old.faults self.old.child) (quiet self.new.faults self.new.child) }
        ensures passes { Passes (Call.Read (full_name self.old.folder name.now) at (length room.old))
            (read_answer result room.new) (H.told self.old.host) (H.told self.new.host) }
        ensures within { IsWithin result (length room.old) }
    {
        let answer = match self.full(name) {
            Ok(name) => self.host.read(name.as_str(), at, room),
            Err(Memory) => Got::Failed,
        };
        if answer == Got::Failed {
            self.count_fault();
        }
        answer
    }

    fn create(&mut self, name: &str) -> Made
        ensures made { Makes (Call.Create name.now) (Answer.Create result)
            (quiet self.old.faults self.old.child) (quiet self.new.faults self.new.child) }
        ensures passes { Passes (Call.Create (full_name self.old.folder name.now)) (Answer.Create result)
            (H.told self.old.host) (H.told self.new.host) }
    {
        let answer = match self.full(name) {
            Ok(name) => self.host.create(name.as_str()),
            Err(Memory) => Made::Failed,
        };
        if answer == Made::Failed {
            self.count_fault();
        }
        answer
    }

    fn append(&mut self, name: &str, piece: &[u8]) -> Took
        requires { 0 < length piece.now }
        ensures made { Makes (Call.Append name.now piece.now) (Answer.Append result)
            (quiet self.old.faults self.old.child) (quiet self.new.faults self.new.child) }
        ensures passes { Passes (Call.Append (full_name self.old.folder name.now) piece.now) (Answer.Append result)
            (H.told self.old.host) (H.told self.new.host) }
    {
        let answer = match self.full(name) {
            Ok(name) => self.host.append(name.as_str(), piece),
            Err(Memory) => Took::Failed,
        };
        if answer == Took::Failed {
            self.count_fault();
        }
        answer
    }

    fn sync(&mut self, name: &str) -> Synced
        ensures made { Makes (Call.Sync name.now) (Answer.Sync result)
            (quiet self.old.faults self.old.child) (quiet self.new.faults self.new.child) }
        ensures passes { Passes (Call.Sync (full_name self.old.folder name.now)) (Answer.Sync result)
            (H.told self.old.host) (H.told self.new.host) }
    {
        let answer = match self.full(name) {
            Ok(name) => self.host.sync(name.as_str()),
            Err(Memory) => Synced::Failed,
        };
        if answer == Synced::Failed {
            self.count_fault();
        }
        answer
    }

    fn cut(&mut self, name: &str, len: u64) -> Cut
        ensures made { Makes (Call.Cut name.now len) (Answer.Cut result)
            (quiet self.old.faults self.old.child) (quiet self.new.faults self.new.child) }
        ensures passes { Passes (Call.Cut (full_name self.old.folder name.now) len) (Answer.Cut result)
            (H.told self.old.host) (H.told self.new.host) }
    {
        let answer = match self.full(name) {
            Ok(name) => self.host.cut(name.as_str(), len),
            Err(Memory) => Cut::Failed,
        };
        if answer == Cut::Failed {
            self.count_fault();
        }
        answer
    }

    fn remove(&mut self, name: &str) -> Removed
        ensures made { Makes (Call.Remove name.now) (Answer.Remove result)
            (quiet self.old.faults self.old.child) (quiet self.new.faults self.new.child) }
        ensures passes { Passes (Call.Remove (full_name self.old.folder name.now)) (Answer.Remove result)
            (H.told self.old.host) (H.told self.new.host) }
    {
        let answer = match self.full(name) {
            Ok(name) => self.host.remove(name.as_str()),
            Err(Memory) => Removed::Failed,
        };
        if answer == Removed::Failed {
            self.count_fault();
        }
        answer
    }

    fn rename(&mut self, from: &str, to: &str) -> Moved
        ensures made { Makes (Call.Rename from.now to.now) (Answer.Rename result)
            (quiet self.old.faults self.old.child) (quiet self.new.faults self.new.child) }
        ensures passes { Passes
            (Call.Rename (full_name self.old.folder from.now) (full_name self.old.folder to.now))
            (Answer.Rename result) (H.told self.old.host) (H.told self.new.host) }
    {
        let answer = match self.full_both(from, to) {
            Ok((from, to)) => self.host.rename(from.as_str(), to.as_str()),
            Err(Memory) => Moved::Failed,
        };
        if answer == Moved::Failed {
            self.count_fault();
        }
        answer
    }

    fn make_folder(&mut self, name: &str) -> Made
        ensures made { Makes (Call.MakeFolder name.now) (Answer.MakeFolder result)
            (quiet self.old.faults self.old.child) (quiet self.new.faults self.new.child) }
        ensures passes { Passes (Call.MakeFolder (full_name self.old.folder name.now)) (Answer.MakeFolder result)
            (H.told self.old.host) (H.told self.new.host) }
    {
        let answer = match self.full(name) {
            Ok(name) => self.host.make_folder(name.as_str()),
            Err(Memory) => Made::Failed,
        };
        if answer == Made::Failed {
            self.count_fault();
        }
        answer
    }

    fn names(&mut self, alloc: Global, folder: &str) -> Listed
        ensures made { Makes (Call.Names folder.now) (names_answer result)
            (quiet self.old.faults self.old.child) (quiet self.new.faults self.new.child) }
        ensures passes { Passes (Call.Names (full_name self.old.folder folder.now)) (names_answer result)
            (H.told self.old.host) (H.told self.new.host) }
    {
        let answer = match self.full(folder) {
            Ok(name) => self.host.names(alloc, name.as_str()),
            Err(Memory) => Listed::Failed,
        };
        if let Listed::Failed = answer {
            self.count_fault();
        }
        answer
    }

    fn age(&mut self, name: &str) -> Aged
        ensures made { Makes (Call.Age name.now) (Answer.Age result)
            (quiet self.old.faults self.old.child) (quiet self.new.faults self.new.child) }
        ensures passes { Passes (Call.Age (full_name self.old.folder name.now)) (Answer.Age result)
            (H.told self.old.host) (H.told self.new.host) }
    {
        let answer = match self.full(name) {
            Ok(name) => self.host.age(name.as_str()),
            Err(Memory) => Aged::Failed,
        };
        if answer == Aged::Failed {
            self.count_fault();
        }
        answer
    }

    fn sleep(&mut self, seconds: u64)
        ensures made { Makes (Call.Sleep seconds) (Answer.Slept)
            (quiet self.old.faults self.old.child) (quiet self.new.faults self.new.child) }
        ensures host { Makes (Call.Sleep seconds) (Answer.Slept) (H.told self.old.host) (H.told self.new.host) }
    {
        self.host.sleep(seconds);
    }

    fn now(&mut self) -> i64
        ensures made { Makes (Call.Now) (Answer.Now result)
            (quiet self.old.faults self.old.child) (quiet self.new.faults self.new.child) }
        ensures host { Makes (Call.Now) (Answer.Now result) (H.told self.old.host) (H.told self.new.host) }
    {
        self.host.now()
    }

    fn start(&mut self, command: &Command, want: bool) -> Started
        ensures made { Makes (Call.Start command.now want) (Answer.Start result)
            (quiet self.old.faults self.old.child) (quiet self.new.faults self.new.child) }
        ensures host { self.new.host ≡ self.old.host }
    {
        self.child = Child::Feeding;
        Started::Started
    }

    fn feed(&mut self, piece: &[u8]) -> Fed
        requires some { 0 < length piece.now }
        requires feeding { self.old.child ≡ Child.Feeding }
        ensures made { Makes (Call.Feed piece.now) (Answer.Feed result)
            (quiet self.old.faults self.old.child) (quiet self.new.faults self.new.child) }
        ensures host { self.new.host ≡ self.old.host }
    {
        Fed::Took(piece.len())
    }

    fn take(&mut self, room: &mut [u8]) -> Got
        requires some { 0 < length room.old }
        requires running { IsRunning self.old.child }
        ensures made { Makes (Call.Take (length room.old)) (take_answer result room.new)
            (quiet self.old.faults self.old.child) (quiet self.new.faults self.new.child) }
        ensures host { self.new.host ≡ self.old.host }
        ensures within { IsWithin result (length room.old) }
    {
        self.child = Child::Taking;
        Got::Got(0)
    }

    fn finish(&mut self) -> Finished
        requires { IsRunning self.old.child }
        ensures made { Makes (Call.Finish) (Answer.Finish result)
            (quiet self.old.faults self.old.child) (quiet self.new.faults self.new.child) }
        ensures host { self.new.host ≡ self.old.host }
    {
        self.child = Child::NoChild;
        Finished::Code(0)
    }
}
