//! What a run may read: the calls of a host that change nothing.
ghost use Rattle.std.specs.Prelude.{◌≡◌, ◌<◌, length};
ghost use Rattle.pm_host.specs.Answers.{read_answer, names_answer, IsWithin};
ghost use Rattle.pm_host.specs.World.{World};
ghost use Rattle.pm_overlay.specs.Base.{Asks};

use pm_host::{Aged, Answer, Call, Got, Host, Listed, Looked};
use std::alloc::Global;

/// A tree of files that is only read. It may tell its tree, which no call changes.
pub trait Base {
    ghost use Rattle.std.specs.Prelude.{Option};

    ghost told: { Self → Option World };

    /// What stands at the name.
    fn look(&mut self, name: &str) -> Looked
        ensures { Asks (Call.Look name.now) (Answer.Look result) (told self.old) (told self.new) };

    /// Bytes of the file from the offset `at` on, into the front of `room`; `Got(0)` at or past the file's end.
    fn read(&mut self, name: &str, at: u64, room: &mut [u8]) -> Got
        requires { 0 < length room.old }
        ensures asks { Asks (Call.Read name.now at (length room.old)) (read_answer result room.new) (told self.old)
            (told self.new) }
        ensures within { IsWithin result (length room.old) };

    /// The last parts of the names directly in the folder, in the order of their bytes.
    fn names(&mut self, alloc: Global, folder: &str) -> Listed
        ensures { Asks (Call.Names folder.now) (names_answer result) (told self.old) (told self.new) };

    /// Seconds since the file was made.
    fn age(&mut self, name: &str) -> Aged
        ensures { Asks (Call.Age name.now) (Answer.Age result) (told self.old) (told self.new) };

    /// The moment, in seconds since 1970 in UTC.
    fn now(&mut self) -> i64
        ensures { Asks Call.Now (Answer.Now result) (told self.old) (told self.new) };
}

/// A host of which only the calls that change nothing can be made.
#[derive(Drop)]
pub struct ReadOnly<H: Host + Drop> {
    host: H,
}

impl<H: Host + Drop> ReadOnly<H> {
    /// It takes no memory.
    pub fn new(host: H) -> ReadOnly<H>
        ensures { result.host ≡ host }
    {
        ReadOnly { host }
    }
}

impl<H: Host + Drop> Base for ReadOnly<H> {
    ghost told = { λ base. (H.told base.host).world };

    fn look(&mut self, name: &str) -> Looked {
        self.host.look(name)
    }

    fn read(&mut self, name: &str, at: u64, room: &mut [u8]) -> Got {
        self.host.read(name, at, room)
    }

    fn names(&mut self, alloc: Global, folder: &str) -> Listed {
        self.host.names(alloc, folder)
    }

    fn age(&mut self, name: &str) -> Aged {
        self.host.age(name)
    }

    fn now(&mut self) -> i64 {
        self.host.now()
    }
}
