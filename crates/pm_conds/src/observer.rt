//! Who follows a run, as a program that shows what its recipes judged.
use pm_bytes::{Memory, Name};
use pm_meaning::question::Outcome;

/// What is heard of a run: that it came to a recipe, or what came of a condition. `entries` is how many entries the
/// journal had then.
#[derive(Drop)]
pub enum Note {
    /// The step at `place`, counted from 0, of the rcfile's code is a recipe. It's admitted by its flags after the
    /// recipes before it, or it isn't tried.
    CameTo {
        rcfile: Name,
        place: usize,
        admitted: bool,
        entries: usize,
    },
    /// The next condition of that recipe was judged, which left this score.
    Judged {
        outcome: Outcome,
        score: i32,
        entries: usize,
    },
}

/// Hears of each recipe that a run comes to, and of each condition that is judged, in order. It changes nothing of the
/// run.
pub trait Observer {
    ghost use Rattle.std.specs.Prelude.{List, [], ◌∷◌, Option, IfOk};
    ghost use Rattle.pm_host.specs.Told.{Tells, Adds};
    ghost use Rattle.pm_conds.specs.declared.observer.Note.{Note};

    /// What it has heard, if it tells that.
    ghost heard: { Self → Option (List Note) };

    /// The run came to a recipe.
    fn came_to(
        &mut self,
        rcfile: &Name,
        place: usize,
        admitted: bool,
        entries: usize,
    ) -> Result<(), Memory>
        ensures { IfOk result (λ _. Tells (Adds (Note.CameTo rcfile.now place admitted entries ∷ []))
            (heard self.old) (heard self.new)) };

    /// A condition was judged.
    fn judged(&mut self, outcome: &Outcome, score: i32, entries: usize) -> Result<(), Memory>
        ensures { IfOk result (λ _. Tells (Adds (Note.Judged outcome.now score entries ∷ []))
            (heard self.old) (heard self.new)) };
}

/// Hears nothing.
#[derive(Drop)]
pub struct NoObserver;

impl Observer for NoObserver {
    ghost use Rattle.std.specs.Prelude.{None};

    ghost heard = { λ _. None };

    fn came_to(
        &mut self,
        _rcfile: &Name,
        _place: usize,
        _admitted: bool,
        _entries: usize,
    ) -> Result<(), Memory> {
        Ok(())
    }

    fn judged(&mut self, _outcome: &Outcome, _score: i32, _entries: usize) -> Result<(), Memory> {
        Ok(())
    }
}
