//! What comes of a statement.
ghost use Rattle.std.specs.Prelude.{◌≡◌};
ghost use Rattle.pm_journal.specs.JournalState.{JournalState};
ghost use Rattle.pm_journal.specs.Entries.{View};
ghost use Rattle.pm_journal.specs.Executed.{Carries};
ghost use Rattle.pm_journal.specs.Plan.{Plan};
ghost use Rattle.pm_meaning.specs.Minds.{Mind};
ghost use Rattle.pm_meaning.specs.Turns.{Turn};
ghost use Rattle.pm_meaning.specs.Turning.{turn_of};
ghost use Rattle.pm_run.specs.Turned.{turn_in};

use pm_bytes::{Memory, Name};
use pm_meaning::End;

/// The next statement comes, the process ends, the rcfile of this name is asked for before the next statement or in the
/// place of the current one, or that one is over.
#[derive(Drop)]
pub enum Turned {
    Goes,
    Halts(End),
    Includes(Name),
    Switches(Name),
    EndsFile,
}

/// What comes of a statement that asks for no rcfile: the process ends so, or the next statement comes.
pub fn turned_of(ended: Option<End>) -> Turned
    ensures { (p : Mind) → turn_in result p ≡ turn_of ended p }
{
    match ended {
        None => Turned::Goes,
        Some(end) => Turned::Halts(end),
    }
}

/// The same where memory may have been wanting in it.
pub fn turned_by(ended: Result<Option<End>, Memory>) -> Result<Turned, Memory>
    ensures { (plan : Plan Turn) (p : Mind) (x y : JournalState) (a b : View) →
        Carries plan (λ end. turn_of end p) ended x y a b →
        Carries plan (λ turned. turn_in turned p) result x y a b }
{
    match ended {
        Err(Memory) => Err(Memory),
        Ok(None) => Ok(Turned::Goes),
        Ok(Some(end)) => Ok(Turned::Halts(end)),
    }
}
