//! A host that starts one program of a run, and answers others as they ended in an earlier run.
ghost use Rattle.std.specs.Prelude.{◌≡◌, ◌≤◌};
ghost use Rattle.pm_host.specs.Told.{Rose};
ghost use Rattle.explain_run.specs.Programs.{program_at};
ghost use Rattle.explain_run.specs.Calls.{IsAnsweredAgain, Passes};
ghost use Rattle.explain_run.specs.declared.playing.Playing.TheVariants as play;

use crate::playing::Playing;
use crate::script::Script;
use pm_bytes::Memory;
use pm_host::{Answer, Call, Child, Command, Host, Started};
use std::alloc::Global;

/// A host on which the program at one place is started by a real host, and those that were started before have their
/// earlier answers. The host below takes all other calls: the real one takes none that reads or changes a file.
#[derive(Drop)]
pub struct Stepping<'a, H: Host + Drop, R: Host + Drop> {
    pub(crate) alloc: Global,
    pub(crate) below: H,
    pub(crate) real: R,
    pub(crate) script: Script<'a>,
    pub(crate) place: usize,
    pub(crate) playing: Playing,
    pub(crate) again: Child,
    pub(crate) faults: u64,
}

impl<'a, H: Host + Drop, R: Host + Drop> Stepping<'a, H, R> {
    /// No program was started yet. It takes no memory.
    pub fn new(alloc: Global, below: H, real: R, script: Script<'a>) -> Stepping<'a, H, R>
        requires below { (H.told below).child ≡ Child.NoChild }
        requires real { (R.told real).child ≡ Child.NoChild }
        ensures child { (H.told result.below).child ≡ Child.NoChild }
        ensures below { result.below ≡ below }
        ensures real { result.real ≡ real }
        ensures playing { result.playing ≡ play.Below }
        ensures place { result.place ≡ 0 }
        ensures faults { result.faults ≡ 0 }
        ensures script { result.script ≡ script.entry }
    {
        Stepping {
            alloc,
            below,
            real,
            script,
            place: 0,
            playing: Playing::Below,
            again: Child::NoChild,
            faults: 0,
        }
    }

    pub(crate) fn count_fault(&mut self)
        ensures rose { Rose self.old.faults self.new.faults }
        ensures later { self.old.faults ≤ self.new.faults }
        ensures below { self.new.below ≡ self.old.below }
        ensures real { self.new.real ≡ self.old.real }
        ensures script { self.new.script ≡ self.old.script }
        ensures place { self.new.place ≡ self.old.place }
        ensures playing { self.new.playing ≡ self.old.playing }
        ensures again { self.new.again ≡ self.old.again }
    {
        self.faults = self.faults.saturating_add(1);
    }

    // The program is one of the host below.
    pub(crate) fn start_below(&mut self, command: &Command, want: bool) -> Started
        ensures below { Passes (Call.Start command.now want) (Answer.Start result)
            (H.told self.old.below) (H.told self.new.below) }
        ensures started { result ≡ Started.Started → self.new.playing ≡ play.Below }
        ensures runs { result ≡ Started.Started → (H.told self.new.below).child ≡ Child.Feeding }
        ensures same { result ≡ Started.Failed → (H.told self.new.below).child ≡ (H.told self.old.below).child }
        ensures failed { result ≡ Started.Failed → self.new.playing ≡ self.old.playing }
        ensures rose { result ≡ Started.Failed → Rose self.old.faults self.new.faults }
        ensures later { self.old.faults ≤ self.new.faults }
        ensures real { self.new.real ≡ self.old.real }
        ensures script { self.new.script ≡ self.old.script }
        ensures place { self.new.place ≡ self.old.place }
        ensures again { self.new.again ≡ self.old.again }
    {
        let answer = self.below.start(command, want);
        match answer {
            Started::Started => self.playing = Playing::Below,
            Started::Failed => self.count_fault(),
        }
        answer
    }

    // The program is started.
    pub(crate) fn start_real(&mut self, command: &Command, want: bool) -> Started
        ensures real { Passes (Call.Start command.now want) (Answer.Start result)
            (R.told self.old.real) (R.told self.new.real) }
        ensures started { result ≡ Started.Started → self.new.playing ≡ play.Real }
        ensures runs { result ≡ Started.Started → (R.told self.new.real).child ≡ Child.Feeding }
        ensures same { result ≡ Started.Failed → (R.told self.new.real).child ≡ (R.told self.old.real).child }
        ensures failed { result ≡ Started.Failed → self.new.playing ≡ self.old.playing }
        ensures rose { result ≡ Started.Failed → Rose self.old.faults self.new.faults }
        ensures later { self.old.faults ≤ self.new.faults }
        ensures below { self.new.below ≡ self.old.below }
        ensures script { self.new.script ≡ self.old.script }
        ensures place { self.new.place ≡ self.old.place }
        ensures again { self.new.again ≡ self.old.again }
    {
        let answer = self.real.start(command, want);
        match answer {
            Started::Started => self.playing = Playing::Real,
            Started::Failed => self.count_fault(),
        }
        answer
    }

    // The program at this place has its earlier answer.
    pub(crate) fn start_again(&mut self, place: usize) -> Started
        ensures started { result ≡ Started.Started
            → IsAnsweredAgain (program_at self.old.script.entries.now place) self.new.playing }
        ensures runs { result ≡ Started.Started → self.new.again ≡ Child.Feeding }
        ensures same { result ≡ Started.Failed → self.new.again ≡ self.old.again }
        ensures failed { result ≡ Started.Failed → self.new.playing ≡ self.old.playing }
        ensures rose { result ≡ Started.Failed → Rose self.old.faults self.new.faults }
        ensures later { self.old.faults ≤ self.new.faults }
        ensures below { self.new.below ≡ self.old.below }
        ensures real { self.new.real ≡ self.old.real }
        ensures script { self.new.script ≡ self.old.script }
        ensures place { self.new.place ≡ self.old.place }
    {
        match self.script.past_at(self.alloc, place) {
            Ok(Some(past)) => {
                self.playing = Playing::Again(past);
                self.again = Child::Feeding;
                Started::Started
            }
            Ok(None) | Err(Memory) => {
                self.count_fault();
                Started::Failed
            }
        }
    }
}
