//! An action or the default mailboxes, done by a process that was taken out of its mind for that.
ghost use Rattle.std.specs.Prelude.{OnErr};
ghost use Rattle.pm_journal.specs.Executed.{Carries};
ghost use Rattle.pm_meaning.specs.Apart.{acted_with};
ghost use Rattle.pm_meaning.specs.Minds.{mind_of};
ghost use Rattle.pm_perform.specs.Undelivered.{Undelivered};
ghost use Rattle.pm_actions.specs.Works.{work_of, flags_of};

use core::mem::replace_with;
use pm_bytes::Memory;
use pm_journal::{Effects, Entries};
use pm_meaning::{Acted, Paused, Run};
use pm_recipe::Recipe;
use std::alloc::Global;

/// What is to be done: the action of this recipe, or a delivery to a default mailbox.
#[derive(Clone, Copy)]
pub enum Work<'a> {
    Action(&'a Recipe),
    Fallback,
}

/// What came of it, with the process and the journal afterwards.
pub struct Done<K: Entries> {
    pub acted: Result<Acted, Memory>,
    pub paused: Paused<K>,
}

/// Does it for this process.
pub fn do_work<D: Effects>(
    alloc: Global,
    work: Work<'_>,
    paused: Paused<D::Kept>,
    outside: &mut D,
) -> Done<D::Kept>
    ensures carries { Carries (work_of work.entry (mind_of paused.process))
        (λ acted. acted_with acted (mind_of result.paused.process)) result.acted
        paused.journal result.paused.journal (D.told outside.old) (D.told outside.new) }
    ensures sure { OnErr result.acted (Undelivered (flags_of work.entry) paused.journal result.paused.journal) }
{
    let working = Working {
        alloc,
        work,
        paused,
    };
    replace_with(outside, working, work_all)
}

// What is done, and for which process.
struct Working<'a, K: Entries> {
    alloc: Global,
    work: Work<'a>,
    paused: Paused<K>,
}

// The same, while what does the acts is the run's own.
fn work_all<D: Effects>(outside: D, working: Working<'_, D::Kept>) -> (D, Done<D::Kept>)
    ensures carries { Carries (work_of working.entry.work (mind_of working.entry.paused.process))
        (λ acted. acted_with acted (mind_of result.1.paused.process)) result.1.acted
        working.entry.paused.journal result.1.paused.journal (D.told outside) (D.told result.0) }
    ensures sure { OnErr result.1.acted
        (Undelivered (flags_of working.entry.work) working.entry.paused.journal result.1.paused.journal) }
{
    let Working {
        alloc,
        work,
        paused,
    } = working;
    let Paused { process, journal } = paused;
    let mut run = Run {
        process,
        journal,
        outside,
    };
    let acted = work_in(alloc, &mut run, work);
    let Run {
        process,
        journal,
        outside,
    } = run;
    let paused = Paused { process, journal };
    (outside, Done { acted, paused })
}

// The same in a run.
fn work_in<D: Effects>(alloc: Global, run: &mut Run<D>, work: Work<'_>) -> Result<Acted, Memory>
    ensures carries { Carries (work_of work.entry (mind_of run.old.process))
        (λ acted. acted_with acted (mind_of run.new.process)) result
        run.old.journal run.new.journal (D.told run.old.outside) (D.told run.new.outside) }
    ensures sure { OnErr result (Undelivered (flags_of work.entry) run.old.journal run.new.journal) }
{
    match work {
        Work::Action(recipe) => pm_perform::perform(alloc, run, recipe),
        Work::Fallback => pm_perform::fall_back(alloc, run),
    }
}
