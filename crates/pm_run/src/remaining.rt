//! What is left of a process: its rcfiles, and then the default mailboxes.
ghost use Rattle.std.specs.Prelude.{◌≡◌, ◌≤◌, true, map};
ghost use Rattle.pm_meaning.specs.Minds.{mind_of};
ghost use Rattle.pm_meaning.specs.Running.{Running, Over};
ghost use Rattle.pm_run.specs.Ends.{copies_left, opened_at};
ghost use Rattle.pm_run.specs.Nested.{are_nested, frame_of, items_in};
ghost use Rattle.pm_run.specs.Stretches.{Proceeds};
ghost use Rattle.pm_run.specs.Tasks.{begun_at, AreBegun};

use crate::draft::Draft;
use crate::falling_off::fall_off;
use crate::frames::{Frames, RcFrame};
use crate::opening::{Rule, begin_frame, open_first};
use crate::queue::Queue;
use crate::resuming::resume;
use crate::walk::run_frame;
use pm_bytes::{Memory, Name};
use pm_code::Code;
use pm_conds::Observer;
use pm_journal::Effects;
use pm_meaning::{End, Run};
use std::alloc::Global;
use std::ops::ControlFlow;

/// What a process begins with: the rcfiles of the command line, the last one first, which are opened by this rule, or
/// rcfiles in progress, the innermost first.
#[derive(Drop)]
pub enum Begun {
    Opens(Rule, Vec<Name>),
    GoesOn(Vec<RcFrame>),
}

/// The process, from there to its end.
pub fn run_begun<D: Effects, N: Observer>(
    alloc: Global,
    run: &mut Run<D>,
    begun: Begun,
    queue: &mut Queue,
    draft: &mut Option<Draft>,
    observer: &mut N,
) -> Result<End, Memory>
    requires nested { AreBegun begun }
    ensures proceeds { Proceeds queue.old queue.new (begun_at begun (mind_of run.old.process))
        (λ end. Over end (mind_of run.new.process)) result
        run.old.journal run.new.journal (D.told run.old.outside) (D.told run.new.outside) }
    ensures few { copies_left queue.new ≤ copies_left queue.old }
{
    match begun {
        Begun::Opens(rule, names) => match open_first(alloc, run, rule, names) {
            Ok(opened) => run_opened(alloc, run, opened, queue, draft, observer),
            Err(Memory) => Err(Memory),
        },
        Begun::GoesOn(frames) => run_frames(alloc, run, frames, queue, draft, observer),
    }
}

/// The process, once its first rcfile was read or none was.
pub fn run_opened<D: Effects, N: Observer>(
    alloc: Global,
    run: &mut Run<D>,
    opened: ControlFlow<End, Option<Code>>,
    queue: &mut Queue,
    draft: &mut Option<Draft>,
    observer: &mut N,
) -> Result<End, Memory>
    ensures proceeds { Proceeds queue.old queue.new (opened_at opened (mind_of run.old.process))
        (λ end. Over end (mind_of run.new.process)) result
        run.old.journal run.new.journal (D.told run.old.outside) (D.told run.new.outside) }
    ensures few { copies_left queue.new ≤ copies_left queue.old }
{
    match opened {
        ControlFlow::Continue(Some(code)) => {
            let mut frame = begin_frame(alloc, code);
            let ended = run_frame(alloc, run, &mut frame, queue, draft, observer);
            drop(frame);
            ended
        }
        ControlFlow::Continue(None) => fall_off(alloc, run, draft),
        ControlFlow::Break(end) => Ok(end),
    }
}

/// The process of these rcfiles in progress.
pub fn run_frames<D: Effects, N: Observer>(
    alloc: Global,
    run: &mut Run<D>,
    frames: Vec<RcFrame>,
    queue: &mut Queue,
    draft: &mut Option<Draft>,
    observer: &mut N,
) -> Result<End, Memory>
    requires nested { are_nested (map frame_of frames.items) ≡ true }
    ensures proceeds { Proceeds queue.old queue.new
        (Running (items_in (map frame_of frames.items)) (mind_of run.old.process))
        (λ end. Over end (mind_of run.new.process)) result
        run.old.journal run.new.journal (D.told run.old.outside) (D.told run.new.outside) }
    ensures few { copies_left queue.new ≤ copies_left queue.old }
{
    match resume(alloc, frames) {
        Ok(None) => fall_off(alloc, run, draft),
        Ok(Some(mut frame)) => {
            let ended = run_frame(alloc, run, &mut frame, queue, draft, observer);
            drop(frame);
            ended
        }
        Err(Memory) => Err(Memory),
    }
}
