//! The calls of a host in memory before they are counted and listed: each is done in the tree or refused.
ghost use Rattle.std.specs.Prelude.{◌≡◌, ◌≤◌, ◌<◌, IfOk, IfErr, Err, false, length};
ghost use Rattle.pm_host.specs.World.{FedAtMost};
ghost use Rattle.pm_memory.specs.Tree.{child_at};

use crate::MemoryHost;
use crate::tree::Denied;
use pm_bytes::Names;
use pm_host::{
    Aged, Answer, Call, Child, Command, Cut, Fed, Finished, Looked, Made, Moved, Removed, Started,
    Synced,
};
use std::alloc::Global;

impl MemoryHost {
    ghost use Rattle.pm_memory.specs.Host.{is_to_fail};
    ghost use Rattle.pm_memory.specs.Hosting.{Does, DoesRead, DoesAppend, Denies};

    fn fails_now(&self) -> bool
        ensures { result ≡ is_to_fail self.now }
    {
        self.plan.fails(self.calls.next())
    }

    pub(crate) fn look_now(&self, name: &str) -> Result<Looked, Denied>
        ensures ok { IfOk result (λ looked. Does (Call.Look name.now) (Answer.Look looked) self.now self.now) }
        ensures err { IfErr result (Denies (Call.Look name.now) self.now self.now) }
    {
        if self.fails_now() {
            return Err(Denied::ToFail);
        }
        Ok(self.tree.look(name))
    }

    pub(crate) fn read_now(&self, name: &str, at: u64, room: &mut [u8]) -> Result<usize, Denied>
        requires { 0 < length room.old }
        ensures ok { IfOk result (DoesRead name.now at room.old room.new self.now) }
        ensures within { IfOk result (λ count. count ≤ length room.old) }
        ensures err { IfErr result (Denies (Call.Read name.now at (length room.old)) self.now self.now) }
    {
        if self.fails_now() {
            return Err(Denied::ToFail);
        }
        self.tree.read(name, at, room)
    }

    pub(crate) fn create_now(&mut self, name: &str) -> Result<Made, Denied>
        ensures ok { IfOk result (λ made. Does (Call.Create name.now) (Answer.Create made) self.old self.new) }
        ensures err { IfErr result (Denies (Call.Create name.now) self.old self.new) }
    {
        if self.fails_now() {
            return Err(Denied::ToFail);
        }
        self.tree.create(name)
    }

    pub(crate) fn append_now(&mut self, name: &str, piece: &[u8]) -> Result<usize, Denied>
        requires { 0 < length piece.now }
        ensures ok { IfOk result (DoesAppend name.now piece.now self.old self.new) }
        ensures some { IfOk result (λ count. (1 ≤ count) × (count ≤ length piece.now)) }
        ensures err { IfErr result (Denies (Call.Append name.now piece.now) self.old self.new) }
    {
        if self.fails_now() {
            return Err(Denied::ToFail);
        }
        let count = self.plan.most(self.calls.next(), piece.len());
        match self.tree.append(name, piece, count) {
            Ok(()) => Ok(count),
            Err(refused) => Err(refused),
        }
    }

    pub(crate) fn cut_now(&mut self, name: &str, len: u64) -> Result<(), Denied>
        ensures ok { IfOk result (λ _. Does (Call.Cut name.now len) (Answer.Cut Cut.Cut) self.old self.new) }
        ensures err { IfErr result (Denies (Call.Cut name.now len) self.old self.new) }
    {
        if self.fails_now() {
            return Err(Denied::ToFail);
        }
        self.tree.cut(name, len)
    }

    pub(crate) fn remove_now(&mut self, name: &str) -> Result<Removed, Denied>
        ensures ok { IfOk result (λ removed. Does (Call.Remove name.now) (Answer.Remove removed) self.old self.new) }
        ensures err { IfErr result (Denies (Call.Remove name.now) self.old self.new) }
    {
        if self.fails_now() {
            return Err(Denied::ToFail);
        }
        self.tree.remove(name)
    }
}

impl MemoryHost {
    ghost use Rattle.pm_memory.specs.Host.{is_to_fail};
    ghost use Rattle.pm_memory.specs.Hosting.{Does, Denies, DoesFeed, DoesTake, Ends};

    pub(crate) fn make_folder_now(&mut self, name: &str) -> Result<Made, Denied>
        ensures ok { IfOk result (λ made. Does (Call.MakeFolder name.now) (Answer.MakeFolder made) self.old self.new) }
        ensures err { IfErr result (Denies (Call.MakeFolder name.now) self.old self.new) }
    {
        if self.fails_now() {
            return Err(Denied::ToFail);
        }
        self.tree.make_folder(name)
    }

    pub(crate) fn sync_now(&self, name: &str) -> Result<(), Denied>
        ensures ok { IfOk result (λ _. Does (Call.Sync name.now) (Answer.Sync Synced.Synced) self.now self.now) }
        ensures err { IfErr result (Denies (Call.Sync name.now) self.now self.now) }
    {
        if self.fails_now() {
            return Err(Denied::ToFail);
        }
        self.tree.sync(name)
    }

    pub(crate) fn rename_now(&mut self, from: &str, to: &str) -> Result<Moved, Denied>
        ensures ok { IfOk result (λ moved. Does (Call.Rename from.now to.now) (Answer.Rename moved) self.old self.new) }
        ensures err { IfErr result (Denies (Call.Rename from.now to.now) self.old self.new) }
    {
        if self.fails_now() {
            return Err(Denied::ToFail);
        }
        self.tree.rename(from, to)
    }

    pub(crate) fn names_now(&self, alloc: Global, folder: &str) -> Result<Names, Denied>
        ensures ok { IfOk result (λ names. Does (Call.Names folder.now) (Answer.Names names) self.now self.now) }
        ensures err { IfErr result (Denies (Call.Names folder.now) self.now self.now) }
        ensures turn { result ≡ Err Denied.Memory → is_to_fail self.now ≡ false }
    {
        if self.fails_now() {
            return Err(Denied::ToFail);
        }
        let names = self.tree.names(alloc, folder)?;
        let count = names.as_slice().len();
        if self.plan.most(self.calls.next(), count) < count {
            return Err(Denied::Memory);
        }
        Ok(names)
    }

    pub(crate) fn age_now(&self, name: &str) -> Result<Aged, Denied>
        ensures ok { IfOk result (λ aged. Does (Call.Age name.now) (Answer.Age aged) self.now self.now) }
        ensures err { IfErr result (Denies (Call.Age name.now) self.now self.now) }
    {
        if self.fails_now() {
            return Err(Denied::ToFail);
        }
        self.tree.age(name)
    }

    pub(crate) fn start_now(&mut self, command: &Command, want: bool) -> Result<(), Denied>
        ensures ok { IfOk result (λ _. Does (Call.Start command.now want)
            (Answer.Start Started.Started) self.old self.new) }
        ensures err { IfErr result (Denies (Call.Start command.now want) self.old self.new) }
    {
        if self.fails_now() {
            return Err(Denied::ToFail);
        }
        self.tree.start(command, want)
    }

    pub(crate) fn feed_now(&mut self, piece: &[u8]) -> Result<Fed, Denied>
        requires { 0 < length piece.now }
        ensures ok { IfOk result (DoesFeed piece.now self.old self.new) }
        ensures fits { IfOk result (λ fed. FedAtMost (length piece.now) fed) }
        ensures err { IfErr result (Denies (Call.Feed piece.now) self.old self.new) }
    {
        if self.fails_now() {
            return Err(Denied::ToFail);
        }
        let most = self.plan.most(self.calls.next(), piece.len());
        self.tree.feed(piece, most)
    }

    pub(crate) fn take_now(&mut self, room: &mut [u8]) -> Result<usize, Denied>
        requires { 0 < length room.old }
        ensures ok { IfOk result (DoesTake room.old room.new self.old self.new) }
        ensures within { IfOk result (λ count. count ≤ length room.old) }
        ensures err { IfErr result (Denies (Call.Take (length room.old)) self.old self.new) }
    {
        if self.fails_now() {
            self.tree.programs.ask();
            return Err(Denied::ToFail);
        }
        Ok(self.tree.programs.take(room))
    }

    // Others don't act yet.
    pub(crate) fn finish_now(&mut self) -> Result<Finished, Denied>
        ensures ok { IfOk result (λ finished. Ends (Answer.Finish finished) self.old self.new) }
        ensures err { IfErr result (Denies Call.Finish self.old self.new) }
    {
        let finished = self.tree.programs.finish();
        if self.fails_now() {
            return Err(Denied::ToFail);
        }
        Ok(finished)
    }
}
