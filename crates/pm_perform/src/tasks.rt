//! Actions that hand the mail to a program or write it to standard output (procmailrc(5), "Recipe action line"): they
//! are tried, and what came of them is told.
ghost use Rattle.std.specs.Prelude.{◌≡◌, IfOk, OnErr};
ghost use Rattle.pm_journal.specs.Executed.{Carries, LeadsTo, OutOfMemory};
ghost use Rattle.pm_journal.specs.Plan.{Plan};
ghost use Rattle.pm_meaning.specs.Minds.{Mind, mind_of};
ghost use Rattle.pm_meaning.specs.ProgramActions.{Tried};
ghost use Rattle.pm_meaning.specs.ProgramActions;
ghost use Rattle.pm_meaning.specs.ProgramActions.{told_first};
ghost use Rattle.pm_meaning.specs.Turns.{ActEnd};
ghost use Rattle.pm_perform.specs.Copies.{IsFreeLock};
ghost use Rattle.pm_perform.specs.Errands.{task_of, purpose_of, IsWork};
ghost use Rattle.pm_meaning.specs.Apart.{acted_with};
ghost use Rattle.pm_perform.specs.Undelivered.{Undelivered};

use crate::errands::Errand;
use crate::lock_texts::lacks_lock;
use crate::outcomes::trial_lines;
use crate::saying::say_each;
use crate::trying::{acted_by, is_fine_trial, settle, try_under};
use pm_bytes::{Blob, Memory, Name};
use pm_journal::{Effects, no_lock};
use pm_meaning::{Acted, Run, push_copy, tell};
use pm_recipe::Flags;
use std::alloc::Global;

/// What an action hands the mail on for: it is delivered to the destination of this text, its place is taken by what
/// comes out, or the variable of this name gets that.
#[derive(Clone, Copy)]
pub enum Purpose<'a> {
    Delivers(&'a [u8]),
    Filters,
    Captures(&'a Blob),
}

/// An action that is to be done: its recipe's flags, the text of its lock file, the text that names the automatic one,
/// its own text, and what it hands the mail on for.
#[derive(Drop)]
pub struct Task<'a> {
    pub flags: Flags,
    pub lock: &'a Option<Blob>,
    pub automatic: &'a [u8],
    pub text: &'a [u8],
    pub purpose: Purpose<'a>,
}

// Whether the task delivers the mail.
fn is_delivery(task: &Task<'_>) -> bool
    ensures { result ≡ ProgramActions.is_delivery (purpose_of task.now.purpose) }
{
    matches!(task.purpose, Purpose::Delivers(_))
}

/// The errand is done under a lock file that isn't held yet.
pub fn do_free<D: Effects>(
    alloc: Global,
    run: &mut Run<D>,
    task: &Task<'_>,
    lock: Option<Name>,
    errand: Errand,
) -> Result<Acted, Memory>
    requires free { IsFreeLock lock run.old.process.locks.names }
    ensures carries { (work : Mind → Plan Tried) → IsWork task.now.flags errand work
        → let t = task_of task.now in let p = mind_of run.old.process in
        Carries (told_first t p (ProgramActions.try_and_say t lock work p))
        (λ acted. acted_with acted (mind_of run.new.process)) result
        run.old.journal run.new.journal (D.told run.old.outside) (D.told run.new.outside) }
    ensures sure { (work : Mind → Plan Tried) → IsWork task.now.flags errand work
        → OnErr result (Undelivered task.now.flags run.old.journal run.new.journal) }
{
    tell_first(alloc, run, task)?;
    try_and_say(alloc, run, task, lock, errand)
}

// Tells that there is no automatic lock file, where one is asked for.
fn tell_first<D: Effects>(alloc: Global, run: &mut Run<D>, task: &Task<'_>) -> Result<(), Memory>
    ensures told { (next : Plan ActEnd) → IfOk result (λ _. LeadsTo
        (told_first (task_of task.now) (mind_of run.old.process) next) next
        run.old.journal run.new.journal (D.told run.old.outside) (D.told run.new.outside)) }
    ensures memory { (next : Plan ActEnd) → OnErr result (OutOfMemory
        (told_first (task_of task.now) (mind_of run.old.process) next)
        run.old.journal run.new.journal (D.told run.old.outside) (D.told run.new.outside)) }
    ensures same { run.new.process ≡ run.old.process }
{
    if !lacks_lock(task) {
        return Ok(());
    }
    let line = no_lock(alloc, task.text)?;
    tell(alloc, run, line)
}

// Does the errand, and tells what came of it.
fn try_and_say<D: Effects>(
    alloc: Global,
    run: &mut Run<D>,
    task: &Task<'_>,
    lock: Option<Name>,
    errand: Errand,
) -> Result<Acted, Memory>
    requires free { IsFreeLock lock run.old.process.locks.names }
    ensures carries { (work : Mind → Plan Tried) → IsWork task.now.flags errand work
        → Carries (ProgramActions.try_and_say (task_of task.now) lock work (mind_of run.old.process))
        (λ acted. acted_with acted (mind_of run.new.process)) result
        run.old.journal run.new.journal (D.told run.old.outside) (D.told run.new.outside) }
    ensures sure { (work : Mind → Plan Tried) → IsWork task.now.flags errand work
        → OnErr result (Undelivered task.now.flags run.old.journal run.new.journal) }
{
    let trial = try_under(alloc, run, lock, errand, task.flags)?;
    settle(&trial, &mut run.process);
    let acted = acted_by(task, &trial);
    let mut lines = trial_lines(alloc, task.flags, task.text, &trial)?;
    let delivered = is_delivery(task) && is_fine_trial(&trial);
    push_copy(alloc, delivered, task.flags, &run.process, &mut lines)?;
    say_each(alloc, run, lines, acted)
}
