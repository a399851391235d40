//! The items of an rcfile, one after the other.
ghost use Rattle.std.specs.Prelude.{◌≡◌, ◌<◌, ◌≤◌, ◌+◌, [], length, drop, IfOk, MatchOption};
ghost use Rattle.pm_code.specs.Ahead.{others, lists_of};
ghost use Rattle.pm_code.specs.Flat.{flats_of};
ghost use Rattle.pm_meaning.specs.Minds.{mind_of};
ghost use Rattle.pm_meaning.specs.Running.{Running, Leaving, Over, left_by};
ghost use Rattle.pm_meaning.specs.declared.process.End.TheVariants.{HostOff};
ghost use Rattle.pm_run.specs.Ends.{copies_left};
ghost use Rattle.pm_run.specs.Frames.{items_of, steps_of, left_over, all_locks};
ghost use Rattle.pm_run.specs.Stretches.{Walks, Proceeds};
ghost use Rattle.pm_run.specs.Walk.{after_item, after_statement, after_gate, Falls, IsStepAt, EndsAt, ComesBack};

use crate::cloning::make_clone;
use crate::draft::Draft;
use crate::falling_off::fall_off;
use crate::frames::{Frames, Open, Waiting};
use crate::gates::{Gate, pass_gate};
use crate::leaving::{give_maybe, leave_blocks};
use crate::opening::{begin_frame, open_later};
use crate::queue::Queue;
use crate::rcfiles::{end_file, include, switch};
use crate::statements::run_statement;
use crate::turned::Turned;
use pm_bytes::Memory;
use pm_code::Step;
use pm_conds::Observer;
use pm_journal::Effects;
use pm_meaning::{End, Process, Run, new_chain, succeed};
use std::alloc::Global;
use std::ops::ControlFlow;

/// Runs what is left of the rcfiles, up to the process's end, and then leaves the open blocks. A process that no
/// statement ends falls off. The draft is that of the last action's abstract. The observer hears of the recipes and
/// their conditions.
pub fn run_frame<D: Effects, N: Observer>(
    alloc: Global,
    run: &mut Run<D>,
    frame: &mut Frames,
    queue: &mut Queue,
    draft: &mut Option<Draft>,
    observer: &mut N,
) -> Result<End, Memory>
    ensures proceeds { Proceeds queue.old queue.new (Running (items_of frame.old) (mind_of run.old.process))
        (λ end. Over end (mind_of run.new.process)) result
        run.old.journal run.new.journal (D.told run.old.outside) (D.told run.new.outside) }
    ensures few { copies_left queue.new ≤ copies_left queue.old }
{
    loop {
        match step_frame(alloc, run, frame, queue, draft, observer)? {
            ControlFlow::Continue(()) => {}
            ControlFlow::Break(Some(end)) => return Ok(end),
            ControlFlow::Break(None) => return fall_off(alloc, run, draft),
        }
    }
}

// Does the first item, and what comes of it. The process goes on with the next one, or falls off its rcfiles, of which
// nothing is left, or has ended so. What a statement does leaves the count of openings as it was.
fn step_frame<D: Effects, N: Observer>(
    alloc: Global,
    run: &mut Run<D>,
    frame: &mut Frames,
    queue: &mut Queue,
    draft: &mut Option<Draft>,
    observer: &mut N,
) -> Result<ControlFlow<Option<End>>, Memory>
    ensures proceeds { Proceeds queue.old queue.new (Running (items_of frame.old) (mind_of run.old.process))
        (λ flow. after_item flow (items_of frame.new) (mind_of run.new.process)) result
        run.old.journal run.new.journal (D.told run.old.outside) (D.told run.new.outside) }
    ensures falls { IfOk result (λ flow. Falls flow
        (left_over run.new.process.openings frame.new) (left_over run.old.process.openings frame.old)) }
    ensures few { copies_left queue.new ≤ copies_left queue.old }
{
    let opened = run.process.openings;
    match step_at(&frame.code.steps, frame.place) {
        None => {
            let place = frame.place;
            end_innermost(alloc, run, frame, place)
        }
        Some(step) => match step {
            Step::Leave { .. } => {
                let next = frame.place + 1;
                end_innermost(alloc, run, frame, next)
            }
            Step::Enter { recipe, end } => {
                let behind = *end + 1;
                match pass_gate(alloc, run, recipe, frame.place, observer) {
                    Err(Memory) => Err(Memory),
                    Ok(gate) => {
                        run.process.openings = opened;
                        enter_block(alloc, run, gate, behind, frame, queue)
                    }
                }
            }
            _ => match run_statement(alloc, run, step, frame.place, draft, observer) {
                Err(Memory) => Err(Memory),
                Ok(turned) => {
                    run.process.openings = opened;
                    frame.place += 1;
                    take_turn(alloc, run, turned, frame)
                }
            },
        },
    }
}

// The step at this place, where the code goes so far.
fn step_at(steps: &[Step], place: usize) -> Option<&Step>
    ensures { MatchOption result (drop place (flats_of steps.now) ≡ [])
        (λ step. IsStepAt step.now (flats_of steps.now) place) }
{
    if place < steps.len() {
        Some(&steps[place])
    } else {
        None
    }
}

// Does what a statement asks for: the next item comes, the process ends, another rcfile is opened or this one ends.
fn take_turn<D: Effects>(
    alloc: Global,
    run: &mut Run<D>,
    turned: Turned,
    frame: &mut Frames,
) -> Result<ControlFlow<Option<End>>, Memory>
    ensures walks { Walks (after_statement turned frame.old (mind_of run.old.process))
        (λ flow. after_item flow (items_of frame.new) (mind_of run.new.process)) result
        run.old.journal run.new.journal (D.told run.old.outside) (D.told run.new.outside) }
    ensures falls { IfOk result (λ flow. Falls flow
        (left_over run.new.process.openings frame.new) (left_over run.old.process.openings frame.old + 1)) }
{
    match turned {
        Turned::Goes => Ok(ControlFlow::Continue(())),
        Turned::Halts(end) => halt(alloc, run, end, frame),
        Turned::Includes(name) => {
            include(alloc, run, name, frame)?;
            Ok(ControlFlow::Continue(()))
        }
        Turned::Switches(name) => {
            switch(alloc, run, name, frame)?;
            Ok(ControlFlow::Continue(()))
        }
        Turned::EndsFile => {
            end_file(alloc, run, frame)?;
            Ok(ControlFlow::Continue(()))
        }
    }
}

// The block at the place, of which nothing is left at `behind`, is entered or passed by, a copy of the process is made
// for it, or the process ends.
fn enter_block<D: Effects>(
    alloc: Global,
    run: &mut Run<D>,
    gate: Gate,
    behind: usize,
    frame: &mut Frames,
    queue: &mut Queue,
) -> Result<ControlFlow<Option<End>>, Memory>
    requires further { frame.old.place < behind }
    requires within { behind ≤ length frame.old.code.steps.items }
    requires over { others (lists_of (drop (frame.old.place + 1) (steps_of frame.old)))
        ≡ lists_of (drop behind (steps_of frame.old)) }
    ensures proceeds { Proceeds queue.old queue.new (after_gate behind gate frame.old (mind_of run.old.process))
        (λ flow. after_item flow (items_of frame.new) (mind_of run.new.process)) result
        run.old.journal run.new.journal (D.told run.old.outside) (D.told run.new.outside) }
    ensures falls { IfOk result (λ flow. Falls flow
        (left_over run.new.process.openings frame.new) (left_over run.old.process.openings frame.old)) }
    ensures few { copies_left queue.new ≤ copies_left queue.old }
{
    match gate {
        Gate::Passes => {
            frame.place = behind;
            Ok(ControlFlow::Continue(()))
        }
        Gate::Halts(end) => halt(alloc, run, end, frame),
        Gate::Clones => {
            let place = frame.place + 1;
            frame.place = behind;
            make_clone(alloc, run, place, frame, queue)?;
            Ok(ControlFlow::Continue(()))
        }
        Gate::Enters(lock) => {
            let block = Open {
                enter: frame.place,
                saved: run.process.chain,
                lock,
            };
            frame.blocks.push_front(block)?;
            frame.place += 1;
            run.process.chain = new_chain();
            Ok(ControlFlow::Continue(()))
        }
    }
}

// Leaves all blocks of a process that a statement ends. One that isn't on its host goes on with the next rcfile of the
// command line that can be read.
fn halt<D: Effects>(
    alloc: Global,
    run: &mut Run<D>,
    end: End,
    frame: &mut Frames,
) -> Result<ControlFlow<Option<End>>, Memory>
    ensures walks { Walks (Leaving (all_locks frame.old) end (mind_of run.old.process))
        (λ flow. after_item flow (items_of frame.new) (mind_of run.new.process)) result
        run.old.journal run.new.journal (D.told run.old.outside) (D.told run.new.outside) }
    ensures falls { IfOk result (λ flow. Falls flow
        (left_over run.new.process.openings frame.new) (left_over run.old.process.openings frame.old)) }
{
    leave_blocks(alloc, run, frame, end)?;
    match end {
        End::HostOff => begin_later(alloc, run, frame),
        _ => Ok(ControlFlow::Break(Some(end))),
    }
}

// The next rcfile of the command line that can be read takes the place of all others.
fn begin_later<D: Effects>(
    alloc: Global,
    run: &mut Run<D>,
    frame: &mut Frames,
) -> Result<ControlFlow<Option<End>>, Memory>
    ensures walks { Walks (left_by HostOff (mind_of run.old.process))
        (λ flow. after_item flow (items_of frame.new) (mind_of run.new.process)) result
        run.old.journal run.new.journal (D.told run.old.outside) (D.told run.new.outside) }
    ensures falls { IfOk result (λ flow. Falls flow
        (left_over run.new.process.openings frame.new) (left_over run.old.process.openings frame.old)) }
{
    match open_later(alloc, run)? {
        ControlFlow::Continue(Some(code)) => {
            *frame = begin_frame(alloc, code);
            Ok(ControlFlow::Continue(()))
        }
        ControlFlow::Continue(None) => Ok(ControlFlow::Break(None)),
        ControlFlow::Break(end) => Ok(ControlFlow::Break(Some(end))),
    }
}

// Ends the innermost block; without one the rcfile is over, and the one that waits first goes on.
fn end_innermost<D: Effects>(
    alloc: Global,
    run: &mut Run<D>,
    frame: &mut Frames,
    next: usize,
) -> Result<ControlFlow<Option<End>>, Memory>
    requires ends { EndsAt (steps_of frame.old) frame.old.place next }
    ensures walks { Walks (Running (items_of frame.old) (mind_of run.old.process))
        (λ flow. after_item flow (items_of frame.new) (mind_of run.new.process)) result
        run.old.journal run.new.journal (D.told run.old.outside) (D.told run.new.outside) }
    ensures falls { IfOk result (λ flow. Falls flow
        (left_over run.new.process.openings frame.new) (left_over run.old.process.openings frame.old)) }
{
    match frame.blocks.pop_front() {
        None => come_back(frame, &mut run.process),
        Some(open) => {
            let Open { saved, lock, .. } = open;
            give_maybe(alloc, run, &lock)?;
            frame.place = next;
            run.process.chain = succeed(&saved);
            Ok(ControlFlow::Continue(()))
        }
    }
}

// The rcfile that waits first goes on; without one nothing is left.
fn come_back(frame: &mut Frames, process: &mut Process) -> Result<ControlFlow<Option<End>>, Memory>
    ensures back { IfOk result (λ flow.
        ComesBack flow frame.old frame.new (mind_of process.old) (mind_of process.new)) }
    ensures locks { process.new.locks ≡ process.old.locks }
    ensures count { process.new.openings ≡ process.old.openings }
{
    match frame.outer.pop_front() {
        None => Ok(ControlFlow::Break(None)),
        Some(waiting) => {
            let Waiting {
                name,
                code,
                place,
                blocks,
            } = waiting;
            process.vars.set_rcfile(&name)?;
            process.rcfile = name;
            frame.code = code;
            frame.place = place;
            frame.blocks = blocks;
            Ok(ControlFlow::Continue(()))
        }
    }
}
