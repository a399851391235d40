//! LOCKFILE (procmailrc(5), "Environment"): a lock that a process holds from one statement to another.
ghost use Rattle.std.specs.Prelude.{◌≡◌, true, false, nat_lt, if◌then◌else◌, OnErr};
ghost use Rattle.pm_journal.specs.Executed.{Carries};
ghost use Rattle.pm_journal.specs.Held.{holds_name};
ghost use Rattle.pm_journal.specs.Locking.{lock_act};
ghost use Rattle.pm_journal.specs.LogText.{couldnt_lock_line, forcing_lock_line};
ghost use Rattle.pm_journal.specs.Plan.{Ends, and_then, ask};
ghost use Rattle.pm_journal.specs.declared.acts.Act.TheVariants.{Unlock};
ghost use Rattle.pm_meaning.specs.GlobalLock.{without_global, after_giving, give_named};
ghost use Rattle.pm_meaning.specs.GlobalLock;
ghost use Rattle.pm_meaning.specs.GlobalLock.{got_lock};
ghost use Rattle.pm_meaning.specs.Locks.{rule_of};
ghost use Rattle.pm_meaning.specs.Minds.{mind_of};
ghost use Rattle.pm_meaning.specs.Turns.{GoesOn, say_then};
ghost use Rattle.pm_meaning.specs.Turning.{turn_of};
ghost use Rattle.pm_run.specs.RunningOut.{HinderedSince};

use pm_bytes::{Memory, Name, full};
use pm_journal::{
    Effects, Journal, LockEnd, couldnt_lock, couldnt_unlock, forcing_lock, give, take,
};
use pm_meaning::{End, Run, file_name, tell};
use pm_perform::{is_stuck, lock_rule, refuse};
use std::alloc::Global;

/// LOCKFILE got this value.
pub fn change_lock<D: Effects>(
    alloc: Global,
    run: &mut Run<D>,
    value: &[u8],
) -> Result<Option<End>, Memory>
    ensures carries { Carries (GlobalLock.change_lock value.now (mind_of run.old.process))
        (λ end. turn_of end (mind_of run.new.process)) result
        run.old.journal run.new.journal (D.told run.old.outside) (D.told run.new.outside) }
{
    if value.is_empty() {
        return drop_lock(alloc, run);
    }
    match file_name(alloc, value)? {
        Some(name) => {
            give_lock(alloc, run)?;
            take_lock(alloc, run, value, &name)
        }
        None => refuse(alloc, run, value),
    }
}

/// The lock of LOCKFILE is given back, and the process goes on.
pub fn drop_lock<D: Effects>(alloc: Global, run: &mut Run<D>) -> Result<Option<End>, Memory>
    ensures carries { Carries (GlobalLock.drop_lock (mind_of run.old.process))
        (λ end. turn_of end (mind_of run.new.process)) result
        run.old.journal run.new.journal (D.told run.old.outside) (D.told run.new.outside) }
{
    give_lock(alloc, run)?;
    Ok(None)
}

/// Gives the lock of LOCKFILE back, where there is one and it is held. Only the line about a lock file that stays wants
/// memory.
pub fn give_lock<D: Effects>(alloc: Global, run: &mut Run<D>) -> Result<(), Memory>
    ensures carries { Carries (give_named (mind_of run.old.process).global (mind_of run.old.process))
        (λ _. mind_of run.new.process) result
        run.old.journal run.new.journal (D.told run.old.outside) (D.told run.new.outside) }
    ensures stuck { OnErr result (HinderedSince run.old.journal run.new.journal) }
{
    match run.process.global.take() {
        None => Ok(()),
        Some(name) => {
            if !run.process.locks.holds(&name) {
                run.process.global = Some(name);
                return Ok(());
            }
            give_held(alloc, run, &name)
        }
    }
}

fn give_held<D: Effects>(alloc: Global, run: &mut Run<D>, name: &Name) -> Result<(), Memory>
    requires held { holds_name run.old.process.locks.names name.now ≡ true }
    ensures carries { let p = mind_of run.old.process in
        Carries (and_then (ask (Unlock name.now)) (after_giving name.now (without_global name.now p)))
        (λ _. mind_of run.new.process) result
        run.old.journal run.new.journal (D.told run.old.outside) (D.told run.new.outside) }
    ensures stuck { OnErr result (HinderedSince run.old.journal run.new.journal) }
{
    let removed = give(
        &mut run.process.locks,
        name,
        &mut run.outside,
        &mut run.journal,
    );
    run.process.global = None;
    if !is_stuck(removed) {
        return Ok(());
    }
    let line = couldnt_unlock(alloc, name)?;
    tell(alloc, run, line)?;
    Ok(())
}

// Takes the lock of this name, if it isn't held already.
fn take_lock<D: Effects>(
    alloc: Global,
    run: &mut Run<D>,
    value: &[u8],
    name: &Name,
) -> Result<Option<End>, Memory>
    requires same { name.now ≡ value.now }
    ensures carries { Carries (GlobalLock.take_lock value.now (mind_of run.old.process))
        (λ end. turn_of end (mind_of run.new.process)) result
        run.old.journal run.new.journal (D.told run.old.outside) (D.told run.new.outside) }
{
    let lock = full(alloc, &run.process.base, name)?;
    if run.process.locks.holds(&lock) {
        return refuse(alloc, run, value);
    }
    ask_lock(alloc, run, lock)
}

fn ask_lock<D: Effects>(alloc: Global, run: &mut Run<D>, name: Name) -> Result<Option<End>, Memory>
    requires free { holds_name run.old.process.locks.names name ≡ false }
    ensures carries { let p = mind_of run.old.process in
        Carries (and_then (ask (lock_act name (rule_of p.vars))) (got_lock name p))
        (λ end. turn_of end (mind_of run.new.process)) result
        run.old.journal run.new.journal (D.told run.old.outside) (D.told run.new.outside) }
{
    let rule = lock_rule(&run.process.vars);
    let noted = name.copy(alloc)?;
    let kept = name.copy(alloc)?;
    let shown = name.copy(alloc)?;
    run.process.locks.reserve()?;
    run.journal.reserve(run.process.locks.len() + 2)?;
    match take(
        &mut run.process.locks,
        noted,
        kept,
        rule,
        &mut run.outside,
        &mut run.journal,
    ) {
        LockEnd::Held { forced, .. } => {
            run.process.global = Some(name);
            tell_forced(alloc, run, forced, &shown)
        }
        _ => tell_not_got(alloc, run, &shown),
    }
}

// A lock file that was removed by force is told.
fn tell_forced<D: Effects>(
    alloc: Global,
    run: &mut Run<D>,
    forced: u32,
    name: &Name,
) -> Result<Option<End>, Memory>
    ensures carries { let p = mind_of run.old.process in
        Carries (if nat_lt 0 forced then say_then p (forcing_lock_line name.now) (GoesOn p) else Ends (GoesOn p))
        (λ end. turn_of end (mind_of run.new.process)) result
        run.old.journal run.new.journal (D.told run.old.outside) (D.told run.new.outside) }
    ensures same { run.new.process ≡ run.old.process }
{
    if forced == 0 {
        return Ok(None);
    }
    let line = forcing_lock(alloc, name)?;
    tell(alloc, run, line)?;
    Ok(None)
}

// A lock that wasn't got is told.
fn tell_not_got<D: Effects>(
    alloc: Global,
    run: &mut Run<D>,
    name: &Name,
) -> Result<Option<End>, Memory>
    ensures carries { let p = mind_of run.old.process in
        Carries (say_then p (couldnt_lock_line name.now) (GoesOn p))
        (λ end. turn_of end (mind_of run.new.process)) result
        run.old.journal run.new.journal (D.told run.old.outside) (D.told run.new.outside) }
    ensures same { run.new.process ≡ run.old.process }
{
    let line = couldnt_lock(alloc, name)?;
    tell(alloc, run, line)?;
    Ok(None)
}
