//! An errand under its lock file, where one is asked for.
ghost use Rattle.std.specs.Prelude.{◌≡◌, ◌+◌, ◌<◌, ◌≤◌, false, length, Some, None, IfOk, OnOk, OnErr, true};
ghost use Rattle.pm_journal.specs.Executed.{Carries};
ghost use Rattle.pm_journal.specs.Held.{holds_name};
ghost use Rattle.pm_journal.specs.Plan.{Plan};
ghost use Rattle.pm_meaning.specs.Minds.{Mind, mind_of};
ghost use Rattle.pm_meaning.specs.ProgramActions.{Tried};
ghost use Rattle.pm_meaning.specs.ProgramActions;
ghost use Rattle.pm_meaning.specs.ProgramActions.{settled_by, trial_acted};
ghost use Rattle.pm_perform.specs.Copies.{IsFreeLock};
ghost use Rattle.pm_perform.specs.Errands.{task_of, trying_of, IsWork, is_for_good};

use crate::attempting::is_stuck;
use crate::delivering::all_stored;
use crate::ends::is_fine;
use crate::errands::{Errand, carry};
use crate::locks::lock_rule;
use crate::tasks::{Purpose, Task};
use pm_bytes::{Memory, Name};
use pm_journal::{Effects, Entries, HeldLocks, Journal, LockEnd, give, take};
use pm_meaning::{Acted, Cause, Outcome, Process, Run, Trial, succeed};
use pm_recipe::Flags;
use std::alloc::Global;

// A lock that is to be taken: its name, for the entry and for the held locks too.
#[derive(Drop)]
struct LockRequest {
    name: Name,
    noted: Name,
    kept: Name,
}

/// Does the errand under the lock of this name.
pub fn try_under<D: Effects>(
    alloc: Global,
    run: &mut Run<D>,
    lock: Option<Name>,
    errand: Errand,
    flags: Flags,
) -> Result<Trial, Memory>
    requires free { IsFreeLock lock run.old.process.locks.names }
    ensures carries { (work : Mind → Plan Tried) → IsWork flags errand work
        → Carries (ProgramActions.try_under lock work (mind_of run.old.process))
        (λ trial. trying_of trial (mind_of run.new.process)) result
        run.old.journal run.new.journal (D.told run.old.outside) (D.told run.new.outside) }
    ensures sure { OnErr result (is_for_good errand ≡ true → run.new.journal.entries ≡ run.old.journal.entries) }
{
    match lock {
        None => try_free(alloc, run, errand, flags),
        Some(name) => match lock_request(alloc, name, &mut run.process.locks, &mut run.journal) {
            Err(Memory) => {
                let_go(errand);
                Err(Memory)
            }
            Ok(request) => try_locked(alloc, run, request, errand, flags),
        },
    }
}

// The entry of an abstract has room too.
fn try_free<D: Effects>(
    alloc: Global,
    run: &mut Run<D>,
    errand: Errand,
    flags: Flags,
) -> Result<Trial, Memory>
    ensures carries { (work : Mind → Plan Tried) → IsWork flags errand work
        → Carries (ProgramActions.try_under None work (mind_of run.old.process))
        (λ trial. trying_of trial (mind_of run.new.process)) result
        run.old.journal run.new.journal (D.told run.old.outside) (D.told run.new.outside) }
    ensures sure { OnErr result (is_for_good errand ≡ true → run.new.journal.entries ≡ run.old.journal.entries) }
{
    run.journal.reserve(run.process.locks.len() + 2)?;
    let outcome = carry(alloc, run, errand, flags)?;
    Ok(Trial::Unlocked(outcome))
}

// Copies the lock's name; its entry, that of its removal and that of an abstract have room too.
fn lock_request<K: Entries>(
    alloc: Global,
    name: Name,
    locks: &mut HeldLocks,
    journal: &mut Journal<K>,
) -> Result<LockRequest, Memory>
    requires fits { length locks.old.names ≤ journal.old.room }
    ensures name { IfOk result (λ request. request.name ≡ name) }
    ensures noted { IfOk result (λ request. request.noted ≡ request.name) }
    ensures kept { IfOk result (λ request. request.kept ≡ request.name) }
    ensures space { OnOk result (0 < locks.new.room) }
    ensures room { OnOk result (length locks.new.names + 3 ≤ journal.new.room) }
    ensures names { locks.new.names ≡ locks.old.names }
    ensures entries { journal.new.entries ≡ journal.old.entries }
    ensures fits { length locks.new.names ≤ journal.new.room }
{
    let noted = name.copy(alloc)?;
    let kept = name.copy(alloc)?;
    locks.reserve()?;
    journal.reserve(locks.len() + 4)?;
    Ok(LockRequest { name, noted, kept })
}

// After want of memory in the errand the lock is still held.
fn try_locked<D: Effects>(
    alloc: Global,
    run: &mut Run<D>,
    request: LockRequest,
    errand: Errand,
    flags: Flags,
) -> Result<Trial, Memory>
    requires noted { request.noted ≡ request.name }
    requires kept { request.kept ≡ request.name }
    requires free { holds_name run.old.process.locks.names request.name ≡ false }
    requires space { 0 < run.old.process.locks.room }
    requires room { length run.old.process.locks.names + 3 ≤ run.old.journal.room }
    ensures carries { (work : Mind → Plan Tried) → IsWork flags errand work
        → Carries (ProgramActions.try_under (Some request.name) work (mind_of run.old.process))
        (λ trial. trying_of trial (mind_of run.new.process)) result
        run.old.journal run.new.journal (D.told run.old.outside) (D.told run.new.outside) }
    ensures sure { OnErr result (is_for_good errand ≡ false) }
{
    let LockRequest { name, noted, kept } = request;
    let rule = lock_rule(&run.process.vars);
    match take(
        &mut run.process.locks,
        noted,
        kept,
        rule,
        &mut run.outside,
        &mut run.journal,
    ) {
        LockEnd::Held { forced, .. } => {
            let outcome = carry(alloc, run, errand, flags)?;
            let removed = give(
                &mut run.process.locks,
                &name,
                &mut run.outside,
                &mut run.journal,
            );
            let stuck = is_stuck(removed);
            Ok(Trial::Locked {
                name,
                forced,
                outcome,
                stuck,
            })
        }
        LockEnd::Busy => {
            let_go(errand);
            let cause = Cause::Busy;
            Ok(Trial::NotLocked { name, cause })
        }
        LockEnd::Failed => {
            let_go(errand);
            let cause = Cause::LockFailed;
            Ok(Trial::NotLocked { name, cause })
        }
    }
}

/// The errand isn't done.
pub fn let_go(_errand: Errand) {}

/// Whether the errand was done.
pub fn is_fine_trial(trial: &Trial) -> bool
    ensures { result ≡ ProgramActions.is_fine_trial trial.now }
{
    match trial {
        Trial::Unlocked(outcome) => is_fine(*outcome),
        Trial::NotLocked { .. } => false,
        Trial::Locked { outcome, .. } => is_fine(*outcome),
    }
}

/// A recipe whose action was done succeeded.
pub fn settle(trial: &Trial, process: &mut Process)
    ensures mind { mind_of process.new ≡ settled_by trial.now (mind_of process.old) }
    ensures locks { process.new.locks ≡ process.old.locks }
{
    if is_fine_trial(trial) {
        process.chain = succeed(&process.chain);
    }
}

/// What came of the task.
pub fn acted_by(task: &Task<'_>, trial: &Trial) -> Acted
    ensures { let t = task_of task.now in result ≡ trial_acted t.purpose t.flags trial.now }
{
    match trial {
        Trial::Unlocked(outcome) => outcome_acted(task, *outcome),
        Trial::NotLocked { cause, .. } => Acted::Failed(*cause),
        Trial::Locked { outcome, .. } => outcome_acted(task, *outcome),
    }
}

fn outcome_acted(task: &Task<'_>, outcome: Outcome) -> Acted
    ensures { let t = task_of task.now in result ≡ ProgramActions.outcome_acted t.purpose t.flags outcome }
{
    match outcome {
        Outcome::Done => done_acted(task),
        Outcome::NotStarted => Acted::Failed(Cause::NotStarted),
        Outcome::Lost => Acted::Failed(Cause::Broken),
        Outcome::Closed => Acted::Failed(Cause::Closed),
        Outcome::Code(code) => Acted::Failed(Cause::Code(code)),
        Outcome::TooLong => Acted::Failed(Cause::TooLong),
        Outcome::Overflow(length) => Acted::Failed(Cause::Overflow { length }),
        Outcome::Unwritten => Acted::Failed(Cause::WriteFailed),
    }
}

// What a task comes to that was done.
fn done_acted(task: &Task<'_>) -> Acted
    ensures { let t = task_of task.now in result ≡ ProgramActions.done_acted t.purpose t.flags }
{
    match task.purpose {
        Purpose::Delivers(_) => all_stored(task.flags),
        Purpose::Filters | Purpose::Captures(_) => Acted::Went,
    }
}
