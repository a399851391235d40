//! The calls of the host. A failed one counts a fault.
ghost use Rattle.std.specs.Prelude.{◌≡◌, ◌<◌, ◌+◌, ◌-◌, ◌^◌, min, length};
ghost use Rattle.pm_host.specs.Answers.{IsWithin, read_answer, take_answer, names_answer};
ghost use Rattle.pm_host.specs.Told.{Makes};
ghost use Rattle.pm_host.specs.World.{IsRunning};
ghost use Rattle.explain_run.specs.Calls.{child_of, own_view, StartsBelow, StartsReal, PlaysAs};
ghost use Rattle.explain_run.specs.Calls.{FeedsAs, TakesAs, FinishesAs};
ghost use Rattle.explain_run.specs.Programs.{program_at};
ghost use Rattle.explain_run.specs.Scripts.{part_at};

use crate::playing::Playing;
use crate::script::Part;
use crate::stepping::Stepping;
use pm_bytes::Memory;
use pm_host::{
    Aged, Answer, Call, Child, Command, Cut, Fed, Finished, Got, Host, Listed, Looked, Made, Moved,
    Removed, Started, Synced, Took,
};
use std::alloc::Global;

impl<'a, H: Host + Drop, R: Host + Drop> Host for Stepping<'a, H, R> {
    ghost told = { λ own. own_view own.faults own.playing own.again (H.told own.below) (R.told own.real) };

    ghost tells_calls = { λ _ told. told };

    fn faults(&self) -> u64 {
        self.faults
    }

    fn look(&mut self, name: &str) -> Looked
        ensures made { Makes (Call.Look name.now) (Answer.Look result)
            (own_view self.old.faults self.old.playing self.old.again (H.told self.old.below) (R.told self.old.real))
            (own_view self.new.faults self.new.playing self.new.again (H.told self.new.below) (R.told self.new.real)) }
        ensures below { Makes (Call.Look name.now) (Answer.Look result)
            (H.told self.old.below) (H.told self.new.below) }
        ensures real { self.new.real ≡ self.old.real }
        ensures place { self.new.place ≡ self.old.place }
        ensures script { self.new.script ≡ self.old.script }
    {
        let answer = self.below.look(name);
        if answer == Looked::Failed {
            self.count_fault();
        }
        answer
    }

    fn read(&mut self, name: &str, at: u64, room: &mut [u8]) -> Got
        requires { 0 < length room.old }
        ensures made { Makes (Call.Read name.now at (length room.old)) (read_answer result room.new)
            (own_view self.old.faults self.old.playing self.old.again (H.told self.old.below) (R.told self.old.real))
            (own_view self.new.faults self.new.playing self.new.again (H.told self.new.below) (R.told self.new.real)) }
        ensures below { Makes (Call.Read name.now at (length room.old)) (read_answer result room.new)
            (H.told self.old.below) (H.told self.new.below) }
        ensures real { self.new.real ≡ self.old.real }
        ensures place { self.new.place ≡ self.old.place }
        ensures script { self.new.script ≡ self.old.script }
        ensures within { IsWithin result (length room.old) }
    {
        let answer = self.below.read(name, at, room);
        if answer == Got::Failed {
            self.count_fault();
        }
        answer
    }

    fn create(&mut self, name: &str) -> Made
        ensures made { Makes (Call.Create name.now) (Answer.Create result)
            (own_view self.old.faults self.old.playing self.old.again (H.told self.old.below) (R.told self.old.real))
            (own_view self.new.faults self.new.playing self.new.again (H.told self.new.below) (R.told self.new.real)) }
        ensures below { Makes (Call.Create name.now) (Answer.Create result)
            (H.told self.old.below) (H.told self.new.below) }
        ensures real { self.new.real ≡ self.old.real }
        ensures place { self.new.place ≡ self.old.place }
        ensures script { self.new.script ≡ self.old.script }
    {
        let answer = self.below.create(name);
        if answer == Made::Failed {
            self.count_fault();
        }
        answer
    }

    fn append(&mut self, name: &str, piece: &[u8]) -> Took
        requires { 0 < length piece.now }
        ensures made { Makes (Call.Append name.now piece.now) (Answer.Append result)
            (own_view self.old.faults self.old.playing self.old.again (H.told self.old.below) (R.told self.old.real))
            (own_view self.new.faults self.new.playing self.new.again (H.told self.new.below) (R.told self.new.real)) }
        ensures below { Makes (Call.Append name.now piece.now) (Answer.Append result)
            (H.told self.old.below) (H.told self.new.below) }
        ensures real { self.new.real ≡ self.old.real }
        ensures place { self.new.place ≡ self.old.place }
        ensures script { self.new.script ≡ self.old.script }
    {
        let answer = self.below.append(name, piece);
        if answer == Took::Failed {
            self.count_fault();
        }
        answer
    }

    fn sync(&mut self, name: &str) -> Synced
        ensures made { Makes (Call.Sync name.now) (Answer.Sync result)
            (own_view self.old.faults self.old.playing self.old.again (H.told self.old.below) (R.told self.old.real))
            (own_view self.new.faults self.new.playing self.new.again (H.told self.new.below) (R.told self.new.real)) }
        ensures below { Makes (Call.Sync name.now) (Answer.Sync result)
            (H.told self.old.below) (H.told self.new.below) }
        ensures real { self.new.real ≡ self.old.real }
        ensures place { self.new.place ≡ self.old.place }
        ensures script { self.new.script ≡ self.old.script }
    {
        let answer = self.below.sync(name);
        if answer == Synced::Failed {
            self.count_fault();
        }
        answer
    }

    fn cut(&mut self, name: &str, len: u64) -> Cut
        ensures made { Makes (Call.Cut name.now len) (Answer.Cut result)
            (own_view self.old.faults self.old.playing self.old.again (H.told self.old.below) (R.told self.old.real))
            (own_view self.new.faults self.new.playing self.new.again (H.told self.new.below) (R.told self.new.real)) }
        ensures below { Makes (Call.Cut name.now len) (Answer.Cut result)
            (H.told self.old.below) (H.told self.new.below) }
        ensures real { self.new.real ≡ self.old.real }
        ensures place { self.new.place ≡ self.old.place }
        ensures script { self.new.script ≡ self.old.script }
    {
        let answer = self.below.cut(name, len);
        if answer == Cut::Failed {
            self.count_fault();
        }
        answer
    }

    fn remove(&mut self, name: &str) -> Removed
        ensures made { Makes (Call.Remove name.now) (Answer.Remove result)
            (own_view self.old.faults self.old.playing self.old.again (H.told self.old.below) (R.told self.old.real))
            (own_view self.new.faults self.new.playing self.new.again (H.told self.new.below) (R.told self.new.real)) }
        ensures below { Makes (Call.Remove name.now) (Answer.Remove result)
            (H.told self.old.below) (H.told self.new.below) }
        ensures real { self.new.real ≡ self.old.real }
        ensures place { self.new.place ≡ self.old.place }
        ensures script { self.new.script ≡ self.old.script }
    {
        let answer = self.below.remove(name);
        if answer == Removed::Failed {
            self.count_fault();
        }
        answer
    }

    fn rename(&mut self, from: &str, to: &str) -> Moved
        ensures made { Makes (Call.Rename from.now to.now) (Answer.Rename result)
            (own_view self.old.faults self.old.playing self.old.again (H.told self.old.below) (R.told self.old.real))
            (own_view self.new.faults self.new.playing self.new.again (H.told self.new.below) (R.told self.new.real)) }
        ensures below { Makes (Call.Rename from.now to.now) (Answer.Rename result)
            (H.told self.old.below) (H.told self.new.below) }
        ensures real { self.new.real ≡ self.old.real }
        ensures place { self.new.place ≡ self.old.place }
        ensures script { self.new.script ≡ self.old.script }
    {
        let answer = self.below.rename(from, to);
        if answer == Moved::Failed {
            self.count_fault();
        }
        answer
    }

    fn make_folder(&mut self, name: &str) -> Made
        ensures made { Makes (Call.MakeFolder name.now) (Answer.MakeFolder result)
            (own_view self.old.faults self.old.playing self.old.again (H.told self.old.below) (R.told self.old.real))
            (own_view self.new.faults self.new.playing self.new.again (H.told self.new.below) (R.told self.new.real)) }
        ensures below { Makes (Call.MakeFolder name.now) (Answer.MakeFolder result)
            (H.told self.old.below) (H.told self.new.below) }
        ensures real { self.new.real ≡ self.old.real }
        ensures place { self.new.place ≡ self.old.place }
        ensures script { self.new.script ≡ self.old.script }
    {
        let answer = self.below.make_folder(name);
        if answer == Made::Failed {
            self.count_fault();
        }
        answer
    }

    fn names(&mut self, alloc: Global, folder: &str) -> Listed
        ensures made { Makes (Call.Names folder.now) (names_answer result)
            (own_view self.old.faults self.old.playing self.old.again (H.told self.old.below) (R.told self.old.real))
            (own_view self.new.faults self.new.playing self.new.again (H.told self.new.below) (R.told self.new.real)) }
        ensures below { Makes (Call.Names folder.now) (names_answer result)
            (H.told self.old.below) (H.told self.new.below) }
        ensures real { self.new.real ≡ self.old.real }
        ensures place { self.new.place ≡ self.old.place }
        ensures script { self.new.script ≡ self.old.script }
    {
        let answer = self.below.names(alloc, folder);
        if let Listed::Failed = answer {
            self.count_fault();
        }
        answer
    }

    fn age(&mut self, name: &str) -> Aged
        ensures made { Makes (Call.Age name.now) (Answer.Age result)
            (own_view self.old.faults self.old.playing self.old.again (H.told self.old.below) (R.told self.old.real))
            (own_view self.new.faults self.new.playing self.new.again (H.told self.new.below) (R.told self.new.real)) }
        ensures below { Makes (Call.Age name.now) (Answer.Age result)
            (H.told self.old.below) (H.told self.new.below) }
        ensures real { self.new.real ≡ self.old.real }
        ensures place { self.new.place ≡ self.old.place }
        ensures script { self.new.script ≡ self.old.script }
    {
        let answer = self.below.age(name);
        if answer == Aged::Failed {
            self.count_fault();
        }
        answer
    }

    fn sleep(&mut self, seconds: u64)
        ensures made { Makes (Call.Sleep seconds) (Answer.Slept)
            (own_view self.old.faults self.old.playing self.old.again (H.told self.old.below) (R.told self.old.real))
            (own_view self.new.faults self.new.playing self.new.again (H.told self.new.below) (R.told self.new.real)) }
        ensures below { Makes (Call.Sleep seconds) (Answer.Slept)
            (H.told self.old.below) (H.told self.new.below) }
        ensures real { self.new.real ≡ self.old.real }
        ensures place { self.new.place ≡ self.old.place }
        ensures script { self.new.script ≡ self.old.script }
    {
        self.below.sleep(seconds);
    }

    fn now(&mut self) -> i64
        ensures made { Makes (Call.Now) (Answer.Now result)
            (own_view self.old.faults self.old.playing self.old.again (H.told self.old.below) (R.told self.old.real))
            (own_view self.new.faults self.new.playing self.new.again (H.told self.new.below) (R.told self.new.real)) }
        ensures below { Makes (Call.Now) (Answer.Now result)
            (H.told self.old.below) (H.told self.new.below) }
        ensures real { self.new.real ≡ self.old.real }
        ensures place { self.new.place ≡ self.old.place }
        ensures script { self.new.script ≡ self.old.script }
    {
        self.below.now()
    }

    fn start(&mut self, command: &Command, want: bool) -> Started
        ensures made { Makes (Call.Start command.now want) (Answer.Start result)
            (own_view self.old.faults self.old.playing self.old.again (H.told self.old.below) (R.told self.old.real))
            (own_view self.new.faults self.new.playing self.new.again (H.told self.new.below) (R.told self.new.real)) }
        ensures below { StartsBelow
            (part_at self.old.script.entries.now self.old.script.started.now self.old.script.next
            self.old.place command.now want)
            command.now want result (H.told self.old.below) (H.told self.new.below) }
        ensures real { StartsReal
            (part_at self.old.script.entries.now self.old.script.started.now self.old.script.next
            self.old.place command.now want)
            command.now want result (R.told self.old.real) (R.told self.new.real) }
        ensures plays { result ≡ Started.Started → PlaysAs
            (part_at self.old.script.entries.now self.old.script.started.now self.old.script.next
            self.old.place command.now want)
            (program_at self.old.script.entries.now self.old.place) self.new.playing }
        ensures place { self.new.place ≡ min (self.old.place + 1) (2 ^ 64 - 1) }
        ensures script { self.new.script ≡ self.old.script }
    {
        let place = self.place;
        self.place = place.saturating_add(1);
        match self.script.part_at(self.alloc, place, command, want) {
            Ok(Part::Below) => self.start_below(command, want),
            Ok(Part::Real) => self.start_real(command, want),
            Ok(Part::Again) => self.start_again(place),
            Err(Memory) => {
                self.count_fault();
                Started::Failed
            }
        }
    }

    fn feed(&mut self, piece: &[u8]) -> Fed
        requires some { 0 < length piece.now }
        requires feeding { child_of self.old.playing self.old.again (H.told self.old.below).child
            (R.told self.old.real).child ≡ Child.Feeding }
        ensures made { Makes (Call.Feed piece.now) (Answer.Feed result)
            (own_view self.old.faults self.old.playing self.old.again (H.told self.old.below) (R.told self.old.real))
            (own_view self.new.faults self.new.playing self.new.again (H.told self.new.below) (R.told self.new.real)) }
        ensures feeds { FeedsAs piece.now result self.old.playing self.new.playing
            (H.told self.old.below) (H.told self.new.below) (R.told self.old.real) (R.told self.new.real) }
        ensures place { self.new.place ≡ self.old.place }
        ensures script { self.new.script ≡ self.old.script }
    {
        let answer = match &mut self.playing {
            Playing::Below => self.below.feed(piece),
            Playing::Real => self.real.feed(piece),
            Playing::Again(past) => past.feed(piece.len()),
        };
        if answer == Fed::Failed {
            self.count_fault();
        }
        answer
    }

    fn take(&mut self, room: &mut [u8]) -> Got
        requires some { 0 < length room.old }
        requires running { IsRunning (child_of self.old.playing self.old.again (H.told self.old.below).child
            (R.told self.old.real).child) }
        ensures made { Makes (Call.Take (length room.old)) (take_answer result room.new)
            (own_view self.old.faults self.old.playing self.old.again (H.told self.old.below) (R.told self.old.real))
            (own_view self.new.faults self.new.playing self.new.again (H.told self.new.below) (R.told self.new.real)) }
        ensures within { IsWithin result (length room.old) }
        ensures takes { TakesAs (length room.old) result room.new self.old.playing self.new.playing
            (H.told self.old.below) (H.told self.new.below) (R.told self.old.real) (R.told self.new.real) }
        ensures place { self.new.place ≡ self.old.place }
        ensures script { self.new.script ≡ self.old.script }
    {
        let answer = match &mut self.playing {
            Playing::Below => self.below.take(room),
            Playing::Real => self.real.take(room),
            Playing::Again(past) => past.take(room),
        };
        self.again = Child::Taking;
        if answer == Got::Failed {
            self.count_fault();
        }
        answer
    }

    fn finish(&mut self) -> Finished
        requires { IsRunning (child_of self.old.playing self.old.again (H.told self.old.below).child
            (R.told self.old.real).child) }
        ensures made { Makes (Call.Finish) (Answer.Finish result)
            (own_view self.old.faults self.old.playing self.old.again (H.told self.old.below) (R.told self.old.real))
            (own_view self.new.faults self.new.playing self.new.again (H.told self.new.below) (R.told self.new.real)) }
        ensures finishes { FinishesAs result self.old.playing
            (H.told self.old.below) (H.told self.new.below) (R.told self.old.real) (R.told self.new.real) }
        ensures place { self.new.place ≡ self.old.place }
        ensures script { self.new.script ≡ self.old.script }
    {
        let answer = match &mut self.playing {
            Playing::Below => self.below.finish(),
            Playing::Real => self.real.finish(),
            Playing::Again(past) => Finished::Code(past.code),
        };
        self.again = Child::NoChild;
        if answer == Finished::Failed {
            self.count_fault();
        }
        answer
    }
}
