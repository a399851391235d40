//! A tree of files, by the calls that it takes.
ghost use Rattle.std.specs.Prelude.{◌≡◌, ◌<◌, length, IsSome};
ghost use Rattle.pm_host.specs.Told.{HostView, Makes};
ghost use Rattle.pm_host.specs.World.{IsRunning};
ghost use Rattle.pm_host.specs.Answers.{read_answer, take_answer, names_answer, IsWithin};

use crate::{
    Aged, Answer, Call, Child, Command, Cut, Fed, Finished, Got, Listed, Looked, Made, Moved,
    Removed, Started, Synced, Took,
};
use std::alloc::Global;

/// A host may tell its tree of files and the calls that it took. Clauses on these hold where it tells.
pub trait Host {
    /// What it tells of itself.
    ghost told: { Self → HostView };

    /// A count of faults, which never falls.
    fn faults(&self) -> u64
        ensures { result ≡ (told self.now).faults };

    /// What stands at the name.
    fn look(&mut self, name: &str) -> Looked
        ensures { Makes (Call.Look name.now) (Answer.Look result) (told self.old) (told self.new) };

    /// Bytes of the file from the offset `at` on, into the front of `room`; `Got(0)` at or past the file's end.
    fn read(&mut self, name: &str, at: u64, room: &mut [u8]) -> Got
        requires { 0 < length room.old }
        ensures made { Makes (Call.Read name.now at (length room.old)) (read_answer result room.new) (told self.old)
            (told self.new) }
        ensures within { IsWithin result (length room.old) };

    /// Makes an empty file, only where nothing stands at the name.
    fn create(&mut self, name: &str) -> Made
        ensures { Makes (Call.Create name.now) (Answer.Create result) (told self.old) (told self.new) };

    /// Adds a front of the piece at the end of the file.
    fn append(&mut self, name: &str, piece: &[u8]) -> Took
        requires { 0 < length piece.now }
        ensures { Makes (Call.Append name.now piece.now) (Answer.Append result) (told self.old) (told self.new) };

    /// Brings the file's bytes to the store. In the tree of files nothing changes.
    fn sync(&mut self, name: &str) -> Synced
        ensures { Makes (Call.Sync name.now) (Answer.Sync result) (told self.old) (told self.new) };

    /// Keeps the first `len` bytes of the file.
    fn cut(&mut self, name: &str, len: u64) -> Cut
        ensures { Makes (Call.Cut name.now len) (Answer.Cut result) (told self.old) (told self.new) };

    /// Removes the file.
    fn remove(&mut self, name: &str) -> Removed
        ensures { Makes (Call.Remove name.now) (Answer.Remove result) (told self.old) (told self.new) };

    /// Moves a file, with its bytes and the moment at which it was made, to a name where nothing stands.
    fn rename(&mut self, from: &str, to: &str) -> Moved
        ensures { Makes (Call.Rename from.now to.now) (Answer.Rename result) (told self.old) (told self.new) };

    /// Makes a folder; `Exists` where a folder stands there.
    fn make_folder(&mut self, name: &str) -> Made
        ensures { Makes (Call.MakeFolder name.now) (Answer.MakeFolder result) (told self.old) (told self.new) };

    /// The last parts of the names directly in the folder, in the order of their bytes.
    fn names(&mut self, alloc: Global, folder: &str) -> Listed
        ensures { Makes (Call.Names folder.now) (names_answer result) (told self.old) (told self.new) };

    /// Seconds since the file was made.
    fn age(&mut self, name: &str) -> Aged
        ensures { Makes (Call.Age name.now) (Answer.Age result) (told self.old) (told self.new) };

    /// Lets the moment move on. Others may change files meanwhile.
    fn sleep(&mut self, seconds: u64)
        ensures { Makes (Call.Sleep seconds) Answer.Slept (told self.old) (told self.new) };

    /// The moment, in seconds since 1970 in UTC. It never fails. Nothing is said of how one answer stands to another
    /// where no tree of files is told.
    fn now(&mut self) -> i64
        ensures { Makes Call.Now (Answer.Now result) (told self.old) (told self.new) };

    /// Starts a child; its output is kept where it is wanted. Who waits for each child before the next one is started
    /// has one at a time; a host may refuse to start another beside one that runs.
    fn start(&mut self, command: &Command, want: bool) -> Started
        ensures { Makes (Call.Start command.now want) (Answer.Start result) (told self.old) (told self.new) };

    /// Gives the child a front of the piece as input.
    fn feed(&mut self, piece: &[u8]) -> Fed
        requires some { 0 < length piece.now }
        requires feeding { (told self.old).child ≡ Child.Feeding }
        ensures { Makes (Call.Feed piece.now) (Answer.Feed result) (told self.old) (told self.new) };

    /// Ends the child's input. Then the next bytes of its output, into the front of `room`; `Got(0)` is their end.
    fn take(&mut self, room: &mut [u8]) -> Got
        requires some { 0 < length room.old }
        requires running { IsRunning (told self.old).child }
        ensures made { Makes (Call.Take (length room.old)) (take_answer result room.new) (told self.old)
            (told self.new) }
        ensures within { IsWithin result (length room.old) };

    /// Ends the child's input and waits for the child. Others may change files meanwhile. No child runs then,
    /// whatever it answers.
    fn finish(&mut self) -> Finished
        requires { IsRunning (told self.old).child }
        ensures { Makes Call.Finish (Answer.Finish result) (told self.old) (told self.new) };

    /// A host that tells its tree of files tells its calls too.
    ghost tells_calls: { (h : Self) → IsSome (told h).world → IsSome (told h).calls };
}
