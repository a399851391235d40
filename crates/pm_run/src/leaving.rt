//! Blocks that are left, and their locks.
ghost use Rattle.std.specs.Prelude.{◌≡◌, ◌<◌, ◌≤◌, true, false, [], List, IfOk, OnErr};
ghost use Rattle.pm_journal.specs.Executed.{Carries};
ghost use Rattle.pm_journal.specs.Held.{holds_name};
ghost use Rattle.pm_journal.specs.Plan.{and_then, ask};
ghost use Rattle.pm_journal.specs.declared.acts.Act.TheVariants.{Unlock};
ghost use Rattle.pm_meaning.specs.Blocks.{without_lock, give_block_lock as block_lock_given, give_maybe as maybe_given};
ghost use Rattle.pm_meaning.specs.GlobalLock.{after_giving};
ghost use Rattle.pm_meaning.specs.Minds.{mind_of};
ghost use Rattle.pm_meaning.specs.Running.{Item, Running, LeavingFile, Leaving, left_by};
ghost use Rattle.pm_run.specs.Frames.{block_locks, all_locks, left_in};
ghost use Rattle.pm_run.specs.RunningOut.{HinderedSince};
ghost use Rattle.pm_run.specs.Stretches.{Walks};

use crate::frames::{Frames, Open, Waiting};
use pm_bytes::{Memory, Name};
use pm_journal::{Effects, couldnt_unlock, give};
use pm_meaning::{End, Run, tell};
use pm_perform::is_stuck;
use std::alloc::Global;
use std::collections::VecDeque;

/// Leaves all blocks of a process that ends so, the innermost first.
pub fn leave_blocks<D: Effects>(
    alloc: Global,
    run: &mut Run<D>,
    frame: &mut Frames,
    end: End,
) -> Result<(), Memory>
    ensures walks { Walks (Leaving (all_locks frame.old) end (mind_of run.old.process))
        (λ _. left_by end (mind_of run.new.process)) result
        run.old.journal run.new.journal (D.told run.old.outside) (D.told run.new.outside) }
    ensures count { run.new.process.openings ≡ run.old.process.openings }
    ensures left { left_in frame.new ≤ left_in frame.old }
{
    loop {
        match frame.blocks.pop_front() {
            Some(open) => {
                let Open { lock, .. } = open;
                give_maybe(alloc, run, &lock)?;
            }
            None => {
                if !come_out(frame) {
                    return Ok(());
                }
            }
        }
    }
}

// The blocks of the rcfile that waits first are those to leave; or no rcfile waits.
fn come_out(frame: &mut Frames) -> bool
    requires { frame.old.blocks.items ≡ [] }
    ensures locks { all_locks frame.new ≡ all_locks frame.old }
    ensures least { left_in frame.new ≤ left_in frame.old }
    ensures further { result ≡ true → left_in frame.new < left_in frame.old }
    ensures last { result ≡ false → all_locks frame.new ≡ [] }
{
    match frame.outer.pop_front() {
        None => false,
        Some(waiting) => {
            let Waiting { blocks, .. } = waiting;
            frame.blocks = blocks;
            true
        }
    }
}

/// Leaves the blocks of an rcfile, the innermost first.
pub fn leave_file<D: Effects>(
    alloc: Global,
    run: &mut Run<D>,
    blocks: &mut VecDeque<Open>,
) -> Result<(), Memory>
    ensures walks { (items : List Item) →
        Walks (LeavingFile (block_locks blocks.old.items) items (mind_of run.old.process))
        (λ _. Running items (mind_of run.new.process)) result
        run.old.journal run.new.journal (D.told run.old.outside) (D.told run.new.outside) }
    ensures empty { IfOk result (λ _. blocks.new.items ≡ []) }
    ensures count { run.new.process.openings ≡ run.old.process.openings }
{
    while let Some(open) = blocks.pop_front() {
        let Open { lock, .. } = open;
        match give_maybe(alloc, run, &lock) {
            Err(Memory) => return Err(Memory),
            Ok(()) => {}
        }
    }
    Ok(())
}

/// Gives the lock of a block back, where it has one.
pub fn give_maybe<D: Effects>(
    alloc: Global,
    run: &mut Run<D>,
    lock: &Option<Name>,
) -> Result<(), Memory>
    ensures carries { Carries (maybe_given lock.now (mind_of run.old.process))
        (λ _. mind_of run.new.process) result
        run.old.journal run.new.journal (D.told run.old.outside) (D.told run.new.outside) }
    ensures stuck { OnErr result (HinderedSince run.old.journal run.new.journal) }
    ensures count { run.new.process.openings ≡ run.old.process.openings }
{
    match lock {
        None => Ok(()),
        Some(name) => give_block_lock(alloc, run, name),
    }
}

fn give_block_lock<D: Effects>(alloc: Global, run: &mut Run<D>, name: &Name) -> Result<(), Memory>
    ensures carries { Carries (block_lock_given name.now (mind_of run.old.process))
        (λ _. mind_of run.new.process) result
        run.old.journal run.new.journal (D.told run.old.outside) (D.told run.new.outside) }
    ensures stuck { OnErr result (HinderedSince run.old.journal run.new.journal) }
    ensures count { run.new.process.openings ≡ run.old.process.openings }
{
    if !run.process.locks.holds(name) {
        return Ok(());
    }
    give_held(alloc, run, name)
}

fn give_held<D: Effects>(alloc: Global, run: &mut Run<D>, name: &Name) -> Result<(), Memory>
    requires held { holds_name run.old.process.locks.names name.now ≡ true }
    ensures carries { let p = mind_of run.old.process in
        Carries (and_then (ask (Unlock name.now)) (after_giving name.now (without_lock name.now p)))
        (λ _. mind_of run.new.process) result
        run.old.journal run.new.journal (D.told run.old.outside) (D.told run.new.outside) }
    ensures stuck { OnErr result (HinderedSince run.old.journal run.new.journal) }
    ensures count { run.new.process.openings ≡ run.old.process.openings }
{
    let removed = give(
        &mut run.process.locks,
        name,
        &mut run.outside,
        &mut run.journal,
    );
    if !is_stuck(removed) {
        return Ok(());
    }
    let line = couldnt_unlock(alloc, name)?;
    tell(alloc, run, line)?;
    Ok(())
}
