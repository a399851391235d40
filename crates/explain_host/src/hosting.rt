//! The calls of the host. A failed one counts a fault.
ghost use Rattle.std.specs.Prelude.{◌≡◌, ◌<◌, length};
ghost use Rattle.pm_host.specs.Answers.{IsWithin, read_answer, take_answer, names_answer};
ghost use Rattle.pm_host.specs.Told.{Makes};
ghost use Rattle.pm_host.specs.World.{IsRunning};
ghost use Rattle.explain_host.specs.Started.{child_of, own_view, StartsAs, FeedsAs, TakesAs, FinishesAs};
ghost use Rattle.explain_host.specs.Tools.{code_for};

use crate::own_code::OwnCode;
use pm_bytes::Memory;
use pm_host::{
    Aged, Answer, Call, Child, Command, Cut, Fed, Finished, Got, Host, Listed, Looked, Made, Moved,
    Removed, Started, Synced, Took,
};
use std::alloc::Global;

impl<H: Host + Drop> Host for OwnCode<H> {
    ghost told = { λ own. own_view own.faults own.program own.child (H.told own.place.host) };

    ghost tells_calls = { λ _ told. told };

    fn faults(&self) -> u64 {
        self.faults
    }

    fn look(&mut self, name: &str) -> Looked
        ensures made { Makes (Call.Look name.now) (Answer.Look result)
            (own_view self.old.faults self.old.program self.old.child (H.told self.old.place.host))
            (own_view self.new.faults self.new.program self.new.child (H.told self.new.place.host)) }
        ensures below { Makes (Call.Look name.now) (Answer.Look result)
            (H.told self.old.place.host) (H.told self.new.place.host) }
    {
        let answer = self.place.host.look(name);
        if answer == Looked::Failed {
            self.count_fault();
        }
        answer
    }

    fn read(&mut self, name: &str, at: u64, room: &mut [u8]) -> Got
        requires { 0 < length room.old }
        ensures made { Makes (Call.Read name.now at (length room.old)) (read_answer result room.new)
            (own_view self.old.faults self.old.program self.old.child (H.told self.old.place.host))
            (own_view self.new.faults self.new.program self.new.child (H.told self.new.place.host)) }
        ensures below { Makes (Call.Read name.now at (length room.old)) (read_answer result room.new)
            (H.told self.old.place.host) (H.told self.new.place.host) }
        ensures within { IsWithin result (length room.old) }
    {
        let answer = self.place.host.read(name, at, room);
        if answer == Got::Failed {
            self.count_fault();
        }
        answer
    }

    fn create(&mut self, name: &str) -> Made
        ensures made { Makes (Call.Create name.now) (Answer.Create result)
            (own_view self.old.faults self.old.program self.old.child (H.told self.old.place.host))
            (own_view self.new.faults self.new.program self.new.child (H.told self.new.place.host)) }
        ensures below { Makes (Call.Create name.now) (Answer.Create result)
            (H.told self.old.place.host) (H.told self.new.place.host) }
    {
        let answer = self.place.host.create(name);
        if answer == Made::Failed {
            self.count_fault();
        }
        answer
    }

    fn append(&mut self, name: &str, piece: &[u8]) -> Took
        requires { 0 < length piece.now }
        ensures made { Makes (Call.Append name.now piece.now) (Answer.Append result)
            (own_view self.old.faults self.old.program self.old.child (H.told self.old.place.host))
            (own_view self.new.faults self.new.program self.new.child (H.told self.new.place.host)) }
        ensures below { Makes (Call.Append name.now piece.now) (Answer.Append result)
            (H.told self.old.place.host) (H.told self.new.place.host) }
    {
        let answer = self.place.host.append(name, piece);
        if answer == Took::Failed {
            self.count_fault();
        }
        answer
    }

    fn sync(&mut self, name: &str) -> Synced
        ensures made { Makes (Call.Sync name.now) (Answer.Sync result)
            (own_view self.old.faults self.old.program self.old.child (H.told self.old.place.host))
            (own_view self.new.faults self.new.program self.new.child (H.told self.new.place.host)) }
        ensures below { Makes (Call.Sync name.now) (Answer.Sync result)
            (H.told self.old.place.host) (H.told self.new.place.host) }
    {
        let answer = self.place.host.sync(name);
        if answer == Synced::Failed {
            self.count_fault();
        }
        answer
    }

    fn cut(&mut self, name: &str, len: u64) -> Cut
        ensures made { Makes (Call.Cut name.now len) (Answer.Cut result)
            (own_view self.old.faults self.old.program self.old.child (H.told self.old.place.host))
            (own_view self.new.faults self.new.program self.new.child (H.told self.new.place.host)) }
        ensures below { Makes (Call.Cut name.now len) (Answer.Cut result)
            (H.told self.old.place.host) (H.told self.new.place.host) }
    {
        let answer = self.place.host.cut(name, len);
        if answer == Cut::Failed {
            self.count_fault();
        }
        answer
    }

    fn remove(&mut self, name: &str) -> Removed
        ensures made { Makes (Call.Remove name.now) (Answer.Remove result)
            (own_view self.old.faults self.old.program self.old.child (H.told self.old.place.host))
            (own_view self.new.faults self.new.program self.new.child (H.told self.new.place.host)) }
        ensures below { Makes (Call.Remove name.now) (Answer.Remove result)
            (H.told self.old.place.host) (H.told self.new.place.host) }
    {
        let answer = self.place.host.remove(name);
        if answer == Removed::Failed {
            self.count_fault();
        }
        answer
    }

    fn rename(&mut self, from: &str, to: &str) -> Moved
        ensures made { Makes (Call.Rename from.now to.now) (Answer.Rename result)
            (own_view self.old.faults self.old.program self.old.child (H.told self.old.place.host))
            (own_view self.new.faults self.new.program self.new.child (H.told self.new.place.host)) }
        ensures below { Makes (Call.Rename from.now to.now) (Answer.Rename result)
            (H.told self.old.place.host) (H.told self.new.place.host) }
    {
        let answer = self.place.host.rename(from, to);
        if answer == Moved::Failed {
            self.count_fault();
        }
        answer
    }

    fn make_folder(&mut self, name: &str) -> Made
        ensures made { Makes (Call.MakeFolder name.now) (Answer.MakeFolder result)
            (own_view self.old.faults self.old.program self.old.child (H.told self.old.place.host))
            (own_view self.new.faults self.new.program self.new.child (H.told self.new.place.host)) }
        ensures below { Makes (Call.MakeFolder name.now) (Answer.MakeFolder result)
            (H.told self.old.place.host) (H.told self.new.place.host) }
    {
        let answer = self.place.host.make_folder(name);
        if answer == Made::Failed {
            self.count_fault();
        }
        answer
    }

    fn names(&mut self, alloc: Global, folder: &str) -> Listed
        ensures made { Makes (Call.Names folder.now) (names_answer result)
            (own_view self.old.faults self.old.program self.old.child (H.told self.old.place.host))
            (own_view self.new.faults self.new.program self.new.child (H.told self.new.place.host)) }
        ensures below { Makes (Call.Names folder.now) (names_answer result)
            (H.told self.old.place.host) (H.told self.new.place.host) }
    {
        let answer = self.place.host.names(alloc, folder);
        if let Listed::Failed = answer {
            self.count_fault();
        }
        answer
    }

    fn age(&mut self, name: &str) -> Aged
        ensures made { Makes (Call.Age name.now) (Answer.Age result)
            (own_view self.old.faults self.old.program self.old.child (H.told self.old.place.host))
            (own_view self.new.faults self.new.program self.new.child (H.told self.new.place.host)) }
        ensures below { Makes (Call.Age name.now) (Answer.Age result)
            (H.told self.old.place.host) (H.told self.new.place.host) }
    {
        let answer = self.place.host.age(name);
        if answer == Aged::Failed {
            self.count_fault();
        }
        answer
    }

    fn sleep(&mut self, seconds: u64)
        ensures made { Makes (Call.Sleep seconds) (Answer.Slept)
            (own_view self.old.faults self.old.program self.old.child (H.told self.old.place.host))
            (own_view self.new.faults self.new.program self.new.child (H.told self.new.place.host)) }
        ensures below { Makes (Call.Sleep seconds) (Answer.Slept)
            (H.told self.old.place.host) (H.told self.new.place.host) }
    {
        self.place.host.sleep(seconds);
    }

    fn now(&mut self) -> i64
        ensures made { Makes (Call.Now) (Answer.Now result)
            (own_view self.old.faults self.old.program self.old.child (H.told self.old.place.host))
            (own_view self.new.faults self.new.program self.new.child (H.told self.new.place.host)) }
        ensures below { Makes (Call.Now) (Answer.Now result)
            (H.told self.old.place.host) (H.told self.new.place.host) }
    {
        self.place.host.now()
    }

    fn start(&mut self, command: &Command, want: bool) -> Started
        ensures made { Makes (Call.Start command.now want) (Answer.Start result)
            (own_view self.old.faults self.old.program self.old.child (H.told self.old.place.host))
            (own_view self.new.faults self.new.program self.new.child (H.told self.new.place.host)) }
        ensures starts { StartsAs (code_for self.old.answered.items command.now) command.now want result
            (H.told self.old.place.host) (H.told self.new.place.host) self.new.program }
    {
        match self.program_of(command) {
            Ok(Some(program)) => {
                self.program = Some(program);
                self.child = Child::Feeding;
                Started::Started
            }
            Ok(None) => self.start_below(command, want),
            Err(Memory) => {
                self.count_fault();
                Started::Failed
            }
        }
    }

    fn feed(&mut self, piece: &[u8]) -> Fed
        requires some { 0 < length piece.now }
        requires feeding { child_of self.old.program self.old.child (H.told self.old.place.host).child ≡ Child.Feeding }
        ensures made { Makes (Call.Feed piece.now) (Answer.Feed result)
            (own_view self.old.faults self.old.program self.old.child (H.told self.old.place.host))
            (own_view self.new.faults self.new.program self.new.child (H.told self.new.place.host)) }
        ensures feeds { FeedsAs piece.now result self.old.program self.new.program
            (H.told self.old.place.host) (H.told self.new.place.host) }
    {
        let answer = match &mut self.program {
            None => self.place.host.feed(piece),
            Some(program) => match program.feed(piece) {
                Ok(()) => Fed::Took(piece.len()),
                Err(Memory) => Fed::Failed,
            },
        };
        if answer == Fed::Failed {
            self.count_fault();
        }
        answer
    }

    fn take(&mut self, room: &mut [u8]) -> Got
        requires some { 0 < length room.old }
        requires running { IsRunning (child_of self.old.program self.old.child (H.told self.old.place.host).child) }
        ensures made { Makes (Call.Take (length room.old)) (take_answer result room.new)
            (own_view self.old.faults self.old.program self.old.child (H.told self.old.place.host))
            (own_view self.new.faults self.new.program self.new.child (H.told self.new.place.host)) }
        ensures within { IsWithin result (length room.old) }
        ensures takes { TakesAs (length room.old) result room.new self.old.program self.new.program
            (H.told self.old.place.host) (H.told self.new.place.host) }
    {
        let alloc = self.place.alloc;
        let answer = match &mut self.program {
            None => self.place.host.take(room),
            Some(program) => match program.take(alloc, &mut self.place, room) {
                Ok(got) => got,
                Err(Memory) => Got::Failed,
            },
        };
        self.child = Child::Taking;
        if answer == Got::Failed {
            self.count_fault();
        }
        answer
    }

    fn finish(&mut self) -> Finished
        requires { IsRunning (child_of self.old.program self.old.child (H.told self.old.place.host).child) }
        ensures made { Makes (Call.Finish) (Answer.Finish result)
            (own_view self.old.faults self.old.program self.old.child (H.told self.old.place.host))
            (own_view self.new.faults self.new.program self.new.child (H.told self.new.place.host)) }
        ensures finishes { FinishesAs result self.old.program
            (H.told self.old.place.host) (H.told self.new.place.host) }
    {
        let alloc = self.place.alloc;
        let answer = match &mut self.program {
            None => self.place.host.finish(),
            Some(program) => match program.finish(alloc, &mut self.place) {
                Ok(code) => Finished::Code(code),
                Err(Memory) => Finished::Failed,
            },
        };
        self.child = Child::NoChild;
        if answer == Finished::Failed {
            self.count_fault();
        }
        answer
    }
}
