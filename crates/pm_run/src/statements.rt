//! The statements of an rcfile.
ghost use Rattle.std.specs.Prelude.{◌≡◌, OnErr};
ghost use Rattle.pm_code.specs.Flat.{flat_of};
ghost use Rattle.pm_journal.specs.Executed.{Carries};
ghost use Rattle.pm_meaning.specs.Assigning.{skip_defect};
ghost use Rattle.pm_meaning.specs.Minds.{mind_of};
ghost use Rattle.pm_meaning.specs.Turning.{turn_of};
ghost use Rattle.pm_run.specs.Turned.{turn_in};
ghost use Rattle.pm_run.specs.RunningOut.{OfNew};
ghost use Rattle.pm_run.specs.Walk.{plan_of, StatementMay};

use crate::assigning::{assign_text, unset_variable};
use crate::draft::Draft;
use crate::judging::{act, come_to};
use crate::turned::{Turned, turned_by, turned_of};
use pm_bytes::Memory;
use pm_code::Step;
use pm_conds::Observer;
use pm_journal::{Effects, skipped};
use pm_meaning::{End, Run, tell};
use std::alloc::Global;

/// Does the step at this place of the rcfile, which is a statement; the beginning and the end of a block are none. The
/// draft is that of a recipe's abstract.
pub fn run_statement<D: Effects, N: Observer>(
    alloc: Global,
    run: &mut Run<D>,
    step: &Step,
    place: usize,
    draft: &mut Option<Draft>,
    observer: &mut N,
) -> Result<Turned, Memory>
    ensures carries { Carries (plan_of (flat_of step.now) (mind_of run.old.process))
        (λ turned. turn_in turned (mind_of run.new.process)) result
        run.old.journal run.new.journal (D.told run.old.outside) (D.told run.new.outside) }
    ensures sure { OnErr result (OfNew (StatementMay (flat_of step.now) (mind_of run.old.process))
        run.old.journal run.new.journal) }
{
    match step {
        Step::Assign { name, value } => assign_text(alloc, run, name.as_slice(), value.as_slice()),
        Step::Unset { name } => unset_variable(alloc, run, name.as_slice()),
        Step::Plain(recipe) => {
            if !come_to(alloc, run, recipe, place, observer)? {
                return Ok(Turned::Goes);
            }
            let ended = act(alloc, run, recipe, draft)?;
            Ok(turned_of(ended))
        }
        Step::Defect { text, .. } => turned_by(skip_line(alloc, run, text.as_slice())),
        Step::Enter { .. } => Ok(Turned::Goes),
        Step::Leave { .. } => Ok(Turned::Goes),
    }
}

// A line that isn't understood is told.
fn skip_line<D: Effects>(
    alloc: Global,
    run: &mut Run<D>,
    text: &[u8],
) -> Result<Option<End>, Memory>
    ensures carries { Carries (skip_defect text.now (mind_of run.old.process))
        (λ end. turn_of end (mind_of run.new.process)) result
        run.old.journal run.new.journal (D.told run.old.outside) (D.told run.new.outside) }
    ensures same { run.new.process ≡ run.old.process }
{
    let line = skipped(alloc, text)?;
    tell(alloc, run, line)?;
    Ok(None)
}
