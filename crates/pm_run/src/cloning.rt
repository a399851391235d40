//! Copies of a process for blocks with the flag c (procmailrc(5), "Flags").
ghost use Rattle.std.specs.Prelude.{◌≡◌, ◌<◌, ◌≤◌, List, drop};
ghost use Rattle.pm_code.specs.Ahead.{others, lists_of};
ghost use Rattle.pm_journal.specs.Executed.{Carries};
ghost use Rattle.pm_journal.specs.Walking.{Go};
ghost use Rattle.pm_meaning.specs.Minds.{mind_of};
ghost use Rattle.pm_meaning.specs.Running.{Item, Running, Cloning, Refusing, step};
ghost use Rattle.pm_run.specs.Copies.{block_at};
ghost use Rattle.pm_run.specs.Frames.{items_of, steps_of, weave};
ghost use Rattle.pm_run.specs.declared.frames.Open.{Open};
ghost use Rattle.pm_run.specs.Ends.{copies_left};
ghost use Rattle.pm_run.specs.Stretches.{Proceeds};

use crate::copies::copy_for_block;
use crate::frames::Frames;
use crate::queue::Queue;
use pm_bytes::Memory;
use pm_journal::{Effects, too_many_clones};
use pm_meaning::{Run, succeed, tell};
use std::alloc::Global;

/// The most copies that a run makes.
const MOST_COPIES: u32 = 16;

/// A copy of the process is made for the block whose first statement stands at this place, unless the run has made 16,
/// which is told. The process goes on after the block.
pub fn make_clone<D: Effects>(
    alloc: Global,
    run: &mut Run<D>,
    place: usize,
    frame: &Frames,
    queue: &mut Queue,
) -> Result<(), Memory>
    requires begun { 0 < place }
    requires behind { (blocks : List Open) (rest : List Item) →
        weave (others (lists_of (drop place (steps_of frame.now)))) blocks rest
        ≡ weave (lists_of (drop frame.now.place (steps_of frame.now))) blocks rest }
    ensures proceeds { Proceeds queue.old queue.new
        (Cloning (block_at place frame.now) (items_of frame.now) (mind_of run.old.process))
        (λ _. Running (items_of frame.now) (mind_of run.new.process)) result
        run.old.journal run.new.journal (D.told run.old.outside) (D.told run.new.outside) }
    ensures few { copies_left queue.new ≤ copies_left queue.old }
    ensures count { run.new.process.openings ≡ run.old.process.openings }
{
    if queue.made >= MOST_COPIES {
        return refuse_clone(alloc, run);
    }
    let copy = copy_for_block(alloc, place, frame, &run.process)?;
    queue.copies.push_back(copy)?;
    queue.made += 1;
    run.process.chain = succeed(&run.process.chain);
    Ok(())
}

// No copy is made: the recipe has failed.
fn refuse_clone<D: Effects>(alloc: Global, run: &mut Run<D>) -> Result<(), Memory>
    ensures carries { (items : List Item) → Carries (step (Refusing items (mind_of run.old.process)))
        (λ _. Go (Running items (mind_of run.new.process))) result
        run.old.journal run.new.journal (D.told run.old.outside) (D.told run.new.outside) }
    ensures same { run.new.process ≡ run.old.process }
{
    let line = too_many_clones(alloc)?;
    tell(alloc, run, line)
}
