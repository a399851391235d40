//! An attempt to deliver to destinations, under a lock file where one is asked for. All memory that files want is taken
//! before the first act, so that none can be wanting between two deliveries to files. A folder wants some of its own;
//! where that is wanting under the lock, the lock is still held, and whoever holds it gives it back.
ghost use Rattle.std.specs.Prelude.{◌≡◌, ◌+◌, ◌*◌, false, IfOk, OnErr};
ghost use Rattle.pm_journal.specs.Entries.{unlock_reply};
ghost use Rattle.pm_journal.specs.Executed.{Carries};
ghost use Rattle.pm_journal.specs.Held.{holds_name};
ghost use Rattle.pm_meaning.specs.Delivering;
ghost use Rattle.pm_meaning.specs.Locks.{is_fault};
ghost use Rattle.pm_meaning.specs.Minds.{mind_of};
ghost use Rattle.pm_perform.specs.Copies.{attempted_of};
ghost use Rattle.pm_perform.specs.Filing.{HasNone};

use crate::filing::{copies_for, file_each};
use crate::locks::lock_rule;
use pm_bytes::{Memory, Name};
use pm_host::Removed;
use pm_journal::{Effects, LockEnd, give, take};
use pm_meaning::{Attempt, Cause, Destination, Run};
use pm_recipe::Flags;
use std::alloc::Global;

/// Delivers to each destination in order, up to one that doesn't get the mail. After want of memory nothing was noted,
/// unless a folder was met.
pub fn file_all<D: Effects>(
    alloc: Global,
    run: &mut Run<D>,
    flags: Flags,
    destinations: &[Destination],
) -> Result<Attempt, Memory>
    ensures carries { Carries (Delivering.attempt None flags destinations.now (mind_of run.old.process))
        (λ attempt. attempted_of attempt (mind_of run.new.process)) result
        run.old.journal run.new.journal (D.told run.old.outside) (D.told run.new.outside) }
    ensures untouched { OnErr result (HasNone run.old.journal run.new.journal) }
{
    let copies = copies_for(alloc, flags, destinations, &mut run.process)?;
    let room = room_for(copies.len(), run.process.locks.len())?;
    run.journal.reserve(room)?;
    let filed = file_each(alloc, run, flags, copies)?;
    Ok(Attempt::Unlocked(filed))
}

/// The same under the lock of this name. The lock's entry and that of its removal have room too.
pub fn file_locked<D: Effects>(
    alloc: Global,
    run: &mut Run<D>,
    name: Name,
    flags: Flags,
    destinations: &[Destination],
) -> Result<Attempt, Memory>
    requires free { holds_name run.old.process.locks.names name ≡ false }
    ensures carries { Carries (Delivering.attempt (Some name) flags destinations.now (mind_of run.old.process))
        (λ attempt. attempted_of attempt (mind_of run.new.process)) result
        run.old.journal run.new.journal (D.told run.old.outside) (D.told run.new.outside) }
    ensures untouched { OnErr result (HasNone run.old.journal run.new.journal) }
{
    let rule = lock_rule(&run.process.vars);
    let noted = name.copy(alloc)?;
    let kept = name.copy(alloc)?;
    let copies = copies_for(alloc, flags, destinations, &mut run.process)?;
    run.process.locks.reserve()?;
    let room = room_for(copies.len(), run.process.locks.len() + 2)?;
    run.journal.reserve(room)?;
    match take(
        &mut run.process.locks,
        noted,
        kept,
        rule,
        &mut run.outside,
        &mut run.journal,
    ) {
        LockEnd::Held { forced, .. } => {
            let filed = file_each(alloc, run, flags, copies)?;
            let removed = give(
                &mut run.process.locks,
                &name,
                &mut run.outside,
                &mut run.journal,
            );
            let stuck = is_stuck(removed);
            Ok(Attempt::Locked {
                name,
                forced,
                filed,
                stuck,
            })
        }
        LockEnd::Busy => {
            let cause = Cause::Busy;
            Ok(Attempt::NotLocked { name, cause })
        }
        LockEnd::Failed => {
            let cause = Cause::LockFailed;
            Ok(Attempt::NotLocked { name, cause })
        }
    }
}

// Room for so many deliveries, each of which has three entries at most, and for so many other entries.
fn room_for(deliveries: usize, others: usize) -> Result<usize, Memory>
    ensures { IfOk result (λ room. room ≡ 3 * deliveries + others) }
{
    match deliveries.checked_mul(3) {
        None => Err(Memory),
        Some(entries) => match entries.checked_add(others) {
            Some(room) => Ok(room),
            None => Err(Memory),
        },
    }
}

/// Whether the removal of a lock file failed.
pub fn is_stuck(removed: Removed) -> bool
    ensures { result ≡ is_fault (unlock_reply removed) }
{
    match removed {
        Removed::Failed => true,
        Removed::Removed | Removed::Absent => false,
    }
}
