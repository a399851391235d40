//! The calls of a host in memory: each is done or refused, and then counted and listed.
ghost use Rattle.std.specs.Prelude.{◌≡◌, ◌<◌, length};
ghost use Rattle.pm_host.specs.Answers.{read_answer, take_answer, names_answer, IsWithin};
ghost use Rattle.pm_host.specs.World.{IsRunning};
ghost use Rattle.pm_memory.specs.Tree.{child_at};

use crate::MemoryHost;
use crate::entries::{
    aged_entry, appended_entry, created_entry, cut_entry, fed_entry, finished_entry, folder_entry,
    listed_entry, looked_entry, moment_entry, read_entry, removed_entry, renamed_entry,
    slept_entry, started_entry, synced_entry, taken_entry, unlisted_entry,
};
use crate::tree::Denied;
use pm_bytes::Memory;
use pm_host::{
    Aged, Answer, Call, Child, Command, Cut, Fed, Finished, Got, Host, Listed, Looked, Made, Moved,
    Removed, Started, Synced, Took,
};
use std::alloc::Global;

impl Host for MemoryHost {
    ghost use Rattle.pm_memory.specs.Host.{host_view, is_telling, world_of, calls_of, both_told, Serves};

    ghost told = { host_view };

    ghost tells_calls = { λ h. both_told (is_telling h) (world_of h) (calls_of h) };

    fn faults(&self) -> u64 {
        self.calls.faults()
    }

    fn look(&mut self, name: &str) -> Looked
        ensures { Serves (Call.Look name.now) (Answer.Look result) self.old self.new }
    {
        match self.look_now(name) {
            Ok(looked) => {
                let entry = looked_entry(self.alloc, name, looked);
                self.calls.settle(None, entry);
                looked
            }
            Err(refused) => {
                let entry = looked_entry(self.alloc, name, Looked::Failed);
                self.calls.settle(Some(refused), entry);
                Looked::Failed
            }
        }
    }

    fn read(&mut self, name: &str, at: u64, room: &mut [u8]) -> Got
        requires { 0 < length room.old }
        ensures within { IsWithin result (length room.old) }
        ensures serves { Serves (Call.Read name.now at (length room.old))
            (read_answer result room.new) self.old self.new }
    {
        match self.read_now(name, at, room) {
            Ok(count) => {
                let entry = read_entry(self.alloc, name, at, room, Got::Got(count));
                self.calls.settle(None, entry);
                Got::Got(count)
            }
            Err(refused) => {
                let entry = read_entry(self.alloc, name, at, room, Got::Failed);
                self.calls.settle(Some(refused), entry);
                Got::Failed
            }
        }
    }

    fn create(&mut self, name: &str) -> Made
        ensures { Serves (Call.Create name.now) (Answer.Create result) self.old self.new }
    {
        match self.create_now(name) {
            Ok(made) => {
                let entry = created_entry(self.alloc, name, made);
                self.calls.settle(None, entry);
                made
            }
            Err(refused) => {
                let entry = created_entry(self.alloc, name, Made::Failed);
                self.calls.settle(Some(refused), entry);
                Made::Failed
            }
        }
    }

    fn append(&mut self, name: &str, piece: &[u8]) -> Took
        requires { 0 < length piece.now }
        ensures { Serves (Call.Append name.now piece.now) (Answer.Append result) self.old self.new }
    {
        match self.append_now(name, piece) {
            Ok(count) => {
                let entry = appended_entry(self.alloc, name, piece, Took::Took(count));
                self.calls.settle(None, entry);
                Took::Took(count)
            }
            Err(refused) => {
                let entry = appended_entry(self.alloc, name, piece, Took::Failed);
                self.calls.settle(Some(refused), entry);
                Took::Failed
            }
        }
    }

    fn cut(&mut self, name: &str, len: u64) -> Cut
        ensures { Serves (Call.Cut name.now len) (Answer.Cut result) self.old self.new }
    {
        match self.cut_now(name, len) {
            Ok(()) => {
                let entry = cut_entry(self.alloc, name, len, Cut::Cut);
                self.calls.settle(None, entry);
                Cut::Cut
            }
            Err(refused) => {
                let entry = cut_entry(self.alloc, name, len, Cut::Failed);
                self.calls.settle(Some(refused), entry);
                Cut::Failed
            }
        }
    }

    fn remove(&mut self, name: &str) -> Removed
        ensures { Serves (Call.Remove name.now) (Answer.Remove result) self.old self.new }
    {
        match self.remove_now(name) {
            Ok(removed) => {
                let entry = removed_entry(self.alloc, name, removed);
                self.calls.settle(None, entry);
                removed
            }
            Err(refused) => {
                let entry = removed_entry(self.alloc, name, Removed::Failed);
                self.calls.settle(Some(refused), entry);
                Removed::Failed
            }
        }
    }

    fn now(&mut self) -> i64
        ensures { Serves Call.Now (Answer.Now result) self.old self.new }
    {
        let moment = self.tree.moment();
        self.calls.settle(None, Ok(moment_entry(moment)));
        moment
    }

    fn sync(&mut self, name: &str) -> Synced
        ensures { Serves (Call.Sync name.now) (Answer.Sync result) self.old self.new }
    {
        match self.sync_now(name) {
            Ok(()) => {
                let entry = synced_entry(self.alloc, name, Synced::Synced);
                self.calls.settle(None, entry);
                Synced::Synced
            }
            Err(refused) => {
                let entry = synced_entry(self.alloc, name, Synced::Failed);
                self.calls.settle(Some(refused), entry);
                Synced::Failed
            }
        }
    }

    fn rename(&mut self, from: &str, to: &str) -> Moved
        ensures { Serves (Call.Rename from.now to.now) (Answer.Rename result) self.old self.new }
    {
        match self.rename_now(from, to) {
            Ok(moved) => {
                let entry = renamed_entry(self.alloc, from, to, moved);
                self.calls.settle(None, entry);
                moved
            }
            Err(refused) => {
                let entry = renamed_entry(self.alloc, from, to, Moved::Failed);
                self.calls.settle(Some(refused), entry);
                Moved::Failed
            }
        }
    }

    fn make_folder(&mut self, name: &str) -> Made
        ensures { Serves (Call.MakeFolder name.now) (Answer.MakeFolder result) self.old self.new }
    {
        match self.make_folder_now(name) {
            Ok(made) => {
                let entry = folder_entry(self.alloc, name, made);
                self.calls.settle(None, entry);
                made
            }
            Err(refused) => {
                let entry = folder_entry(self.alloc, name, Made::Failed);
                self.calls.settle(Some(refused), entry);
                Made::Failed
            }
        }
    }

    fn names(&mut self, alloc: Global, folder: &str) -> Listed
        ensures { Serves (Call.Names folder.now) (names_answer result) self.old self.new }
    {
        match self.names_now(alloc, folder) {
            Ok(names) => {
                let entry = listed_entry(self.alloc, folder, &names);
                self.calls.settle(None, entry);
                Listed::Names(names)
            }
            Err(Denied::Memory) => {
                self.calls.settle(None, Err(Memory));
                Listed::Memory
            }
            Err(refused) => {
                let entry = unlisted_entry(self.alloc, folder);
                self.calls.settle(Some(refused), entry);
                Listed::Failed
            }
        }
    }

    fn age(&mut self, name: &str) -> Aged
        ensures { Serves (Call.Age name.now) (Answer.Age result) self.old self.new }
    {
        match self.age_now(name) {
            Ok(aged) => {
                let entry = aged_entry(self.alloc, name, aged);
                self.calls.settle(None, entry);
                aged
            }
            Err(refused) => {
                let entry = aged_entry(self.alloc, name, Aged::Failed);
                self.calls.settle(Some(refused), entry);
                Aged::Failed
            }
        }
    }

    fn sleep(&mut self, seconds: u64)
        ensures { Serves (Call.Sleep seconds) Answer.Slept self.old self.new }
    {
        match self.tree.sleep(seconds) {
            Ok(()) => self.calls.settle(None, Ok(slept_entry(seconds))),
            Err(Memory) => self.calls.settle(None, Err(Memory)),
        }
    }

    fn start(&mut self, command: &Command, want: bool) -> Started
        ensures { Serves (Call.Start command.now want) (Answer.Start result) self.old self.new }
    {
        match self.start_now(command, want) {
            Ok(()) => {
                let entry = started_entry(self.alloc, command, want, Started::Started);
                self.calls.settle(None, entry);
                Started::Started
            }
            Err(refused) => {
                let entry = started_entry(self.alloc, command, want, Started::Failed);
                self.calls.settle(Some(refused), entry);
                Started::Failed
            }
        }
    }

    fn feed(&mut self, piece: &[u8]) -> Fed
        requires some { 0 < length piece.now }
        requires feeding { child_at self.old.tree ≡ Child.Feeding }
        ensures { Serves (Call.Feed piece.now) (Answer.Feed result) self.old self.new }
    {
        match self.feed_now(piece) {
            Ok(fed) => {
                let entry = fed_entry(self.alloc, piece, fed);
                self.calls.settle(None, entry);
                fed
            }
            Err(refused) => {
                let entry = fed_entry(self.alloc, piece, Fed::Failed);
                self.calls.settle(Some(refused), entry);
                Fed::Failed
            }
        }
    }

    fn take(&mut self, room: &mut [u8]) -> Got
        requires some { 0 < length room.old }
        requires running { IsRunning (child_at self.old.tree) }
        ensures within { IsWithin result (length room.old) }
        ensures serves { Serves (Call.Take (length room.old)) (take_answer result room.new) self.old self.new }
    {
        match self.take_now(room) {
            Ok(count) => {
                let entry = taken_entry(self.alloc, room, Got::Got(count));
                self.calls.settle(None, entry);
                Got::Got(count)
            }
            Err(refused) => {
                let entry = taken_entry(self.alloc, room, Got::Failed);
                self.calls.settle(Some(refused), entry);
                Got::Failed
            }
        }
    }

    fn finish(&mut self) -> Finished
        requires { IsRunning (child_at self.old.tree) }
        ensures { Serves Call.Finish (Answer.Finish result) self.old self.new }
    {
        match self.finish_now() {
            Ok(finished) => {
                match self.tree.let_others_act() {
                    Ok(()) => self.calls.settle(None, Ok(finished_entry(finished))),
                    Err(Memory) => self.calls.settle(None, Err(Memory)),
                }
                finished
            }
            Err(refused) => {
                match self.tree.let_others_act() {
                    Ok(()) => self
                        .calls
                        .settle(Some(refused), Ok(finished_entry(Finished::Failed))),
                    Err(Memory) => self.calls.settle(Some(refused), Err(Memory)),
                }
                Finished::Failed
            }
        }
    }
}
