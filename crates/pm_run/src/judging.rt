//! Recipes: whether one is admitted by those before it, and its conditions, which are judged before the action
//! (procmailrc(5), "Recipe format").
ghost use Rattle.std.specs.Prelude.{◌≡◌, IfOk, OnErr};
ghost use Rattle.pm_journal.specs.Executed.{Carries, OutOfMemory};
ghost use Rattle.pm_journal.specs.Plan.{Plan};
ghost use Rattle.pm_recipe.specs.View.{act_of, top_of};
ghost use Rattle.pm_meaning.specs.Acting.{acted_turn, acting};
ghost use Rattle.pm_meaning.specs.Chains.{passed, executed};
ghost use Rattle.pm_meaning.specs.Judging.{judge_first};
ghost use Rattle.pm_meaning.specs.Minds.{Mind, mind_of};
ghost use Rattle.pm_meaning.specs.Turns.{Turn};
ghost use Rattle.pm_perform.specs.Undelivered.{Undelivered};
ghost use Rattle.pm_meaning.specs.Turning.{turn_of};
ghost use Rattle.pm_run.specs.Coming.{ComesTo, HearsCome};
ghost use Rattle.pm_run.specs.Drafts.{IsDrafted};

use crate::draft::Draft;
use crate::drafting::renew;
use pm_bytes::Memory;
use pm_conds::{Observer, conditions_hold};
use pm_journal::Effects;
use pm_meaning::{Acted, End, Process, Run, admits, after};
use pm_perform::perform;
use pm_recipe::{Flags, Recipe};
use std::alloc::Global;

/// Comes to the recipe at this place of the rcfile: its conditions are judged where its flags admit it. The answer is
/// whether it is executed, which leaves its action to do.
pub fn come_to<D: Effects, N: Observer>(
    alloc: Global,
    run: &mut Run<D>,
    recipe: &Recipe,
    place: usize,
    observer: &mut N,
) -> Result<bool, Memory>
    ensures comes { IfOk result (λ acts. ComesTo acts (top_of recipe.now)
        (mind_of run.old.process) (mind_of run.new.process)
        run.old.journal run.new.journal (D.told run.old.outside) (D.told run.new.outside)) }
    ensures memory { OnErr result ((acts : Mind → Plan Turn) →
        OutOfMemory (judge_first (top_of recipe.now) acts (mind_of run.old.process))
        run.old.journal run.new.journal (D.told run.old.outside) (D.told run.new.outside)) }
    ensures hears { IfOk result (λ _. HearsCome (top_of recipe.now) place (mind_of run.old.process)
        run.old.journal run.new.journal (N.heard observer.old) (N.heard observer.new)) }
{
    let flags = recipe.flags;
    let admitted = admits(&flags, &run.process.chain);
    let entries = run.journal.len();
    observer.came_to(&run.process.rcfile, place, admitted, entries)?;
    if !admitted {
        pass(&flags, &mut run.process);
        return Ok(false);
    }
    let conditions = recipe.conditions.as_slice();
    if conditions_hold(alloc, run, conditions, flags, observer)? {
        execute(&flags, &mut run.process);
        return Ok(true);
    }
    pass(&flags, &mut run.process);
    Ok(false)
}

// The recipe isn't executed.
fn pass(flags: &Flags, process: &mut Process)
    ensures mind { mind_of process.new ≡ passed flags.now (mind_of process.old) }
    ensures locks { process.new.locks ≡ process.old.locks }
{
    process.chain = after(flags, &process.chain, false, false, false);
}

// The recipe is executed, and has failed unless its action succeeds.
fn execute(flags: &Flags, process: &mut Process)
    ensures mind { mind_of process.new ≡ executed flags.now (mind_of process.old) }
    ensures locks { process.new.locks ≡ process.old.locks }
{
    process.chain = after(flags, &process.chain, true, true, false);
}

/// Does the action of a recipe that is executed, and before it the draft of its abstract.
pub fn act<D: Effects>(
    alloc: Global,
    run: &mut Run<D>,
    recipe: &Recipe,
    draft: &mut Option<Draft>,
) -> Result<Option<End>, Memory>
    ensures carries { Carries
        (acting (top_of recipe.now) (act_of recipe.now.action) (mind_of run.old.process))
        (λ end. turn_of end (mind_of run.new.process)) result
        run.old.journal run.new.journal (D.told run.old.outside) (D.told run.new.outside) }
    ensures sure { OnErr result (Undelivered recipe.now.flags run.old.journal run.new.journal) }
    ensures drafted { IfOk result (λ _. IsDrafted draft.new (mind_of run.old.process)) }
{
    renew(alloc, &run.process, draft)?;
    let acted = perform(alloc, run, recipe)?;
    Ok(end_after(acted))
}

// Only a delivery for good ends the process.
fn end_after(acted: Acted) -> Option<End>
    ensures { (p : Mind) → acted_turn acted p ≡ turn_of result p }
{
    match acted {
        Acted::Delivered => Some(End::Delivered),
        Acted::CopyDone | Acted::Went | Acted::Failed(_) => None,
    }
}
