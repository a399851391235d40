//! A process that is taken out of its task, and put back as its end.
ghost use Rattle.std.specs.Prelude.{◌≡◌, true, map, reverse};
ghost use Rattle.pm_journal.specs.Held.{Keeping};
ghost use Rattle.pm_meaning.specs.Apart.{bare};
ghost use Rattle.pm_meaning.specs.Minds.{mind_of};
ghost use Rattle.pm_meaning.specs.Running.{Over, State};
ghost use Rattle.pm_run.specs.Nested.{are_nested, frame_of};
ghost use Rattle.pm_run.specs.Stretches.{Proceeds};
ghost use Rattle.pm_run.specs.Tasks.{AreBegun, Processes, ComesTo, Stand, begins, begun_at, started};
ghost use Rattle.pm_run.specs.Tasks.{locks_at};

use crate::frames::RcFrame;
use crate::opening::Rule;
use crate::parts::ProcessEnd;
use crate::queue::Queue;
use crate::remaining::{Begun, run_begun};
use crate::task::Task;
use core::mem::replace_with;
use pm_bytes::{Memory, Name};
use pm_conds::NoObserver;
use pm_journal::{Effects, Entries, Journal, give_all};
use pm_meaning::{End, Mind, Opening, Paused, Process, Run, Shared};
use std::alloc::Global;
use std::mem;

/// Runs the process of this task.
pub fn run_task<D: Effects>(
    alloc: Global,
    task: Task,
    queue: &mut Queue,
    shared: &mut Shared,
    outside: &mut D,
    journal: &mut Journal<D::Kept>,
) -> ProcessEnd
    requires keeping { Keeping journal.old task.mind.locks.names }
    ensures processes { Processes result (begins task shared.old)
        (record { queue = queue.old; shared = shared.old; journal = journal.old; view = D.told outside.old })
        (record { queue = queue.new; shared = shared.new; journal = journal.new; view = D.told outside.new }) }
    ensures keeping { Keeping journal.new (locks_at result) }
{
    let Task {
        frames,
        opening,
        mut mind,
        rcfile,
    } = task;
    let mut names = mem::replace(&mut mind.rcfiles, Vec::new(alloc));
    names.reverse();
    match mind.pause(alloc, shared, journal) {
        Err(Memory) => {
            drop(frames);
            drop(names);
            give_all(&mut mind.locks, outside, journal);
            drop(mind);
            ProcessEnd::Memory
        }
        Ok(mut paused) => {
            paused.process.openings = shared.openings;
            paused.process.rcfile = rcfile;
            let begun = begin(opening, frames, names, &mut paused.process);
            queue.made = shared.clones;
            let Worked { ended, mut paused } = run_apart(alloc, begun, paused, queue, outside);
            shared.clones = queue.made;
            match ended {
                Ok(end) => {
                    shared.openings = paused.process.openings;
                    mind.rcfiles = rcfiles_left(alloc, &mut paused.process);
                    mind.resume(paused, shared, journal);
                    ended_with(end, mind)
                }
                Err(Memory) => {
                    drop(mind);
                    let Paused {
                        mut process,
                        journal: noted,
                    } = paused;
                    *journal = noted;
                    give_all(&mut process.locks, outside, journal);
                    drop(process);
                    ProcessEnd::Memory
                }
            }
        }
    }
}

// What it begins with.
fn begin(
    opening: Option<Opening>,
    frames: Vec<RcFrame>,
    names: Vec<Name>,
    process: &mut Process,
) -> Begun
    requires nested { are_nested (map frame_of frames.items) ≡ true }
    ensures nested { AreBegun result }
    ensures state { begun_at result (mind_of process.new)
        ≡ started opening frames.items (reverse names.items) (mind_of process.old) }
    ensures locks { process.new.locks ≡ process.old.locks }
{
    match opening {
        Some(opening) => {
            process.filter = opening.under_m;
            let rule = Rule {
                is_implied: opening.implied,
                keeps_folder: opening.keep_base,
            };
            Begun::Opens(rule, names)
        }
        None => {
            process.is_clone = true;
            process.later = names;
            Begun::GoesOn(frames)
        }
    }
}

// The rcfiles of the command line that are left, the first one first.
fn rcfiles_left(alloc: Global, process: &mut Process) -> Vec<Name>
    ensures left { result.items ≡ reverse process.old.later.items }
    ensures rest { bare (mind_of process.new) ≡ bare (mind_of process.old) }
    ensures locks { process.new.locks ≡ process.old.locks }
{
    let mut rcfiles = mem::replace(&mut process.later, Vec::new(alloc));
    rcfiles.reverse();
    rcfiles
}

// The process ended so.
fn ended_with(end: End, mind: Mind) -> ProcessEnd
    ensures comes { (old new : Stand) (s : State) → ComesTo end mind s old new → Processes result s old new }
    ensures locks { locks_at result ≡ mind.locks.names }
{
    match end {
        End::Delivered => ProcessEnd::Delivered(mind),
        End::FellOff => ProcessEnd::FellOff(mind),
        End::HostOff => ProcessEnd::HostOff(mind),
        End::NoRc => ProcessEnd::NoRc(mind),
    }
}

// How a process ended, and what is left of it.
struct Worked<K: Entries> {
    ended: Result<End, Memory>,
    paused: Paused<K>,
}

// Runs a process from there to its end.
fn run_apart<D: Effects>(
    alloc: Global,
    begun: Begun,
    paused: Paused<D::Kept>,
    queue: &mut Queue,
    outside: &mut D,
) -> Worked<D::Kept>
    requires nested { AreBegun begun }
    ensures proceeds { Proceeds queue.old queue.new (begun_at begun (mind_of paused.process))
        (λ end. Over end (mind_of result.paused.process)) result.ended
        paused.journal result.paused.journal (D.told outside.old) (D.told outside.new) }
{
    let working = Working {
        alloc,
        begun,
        paused,
        queue: mem::replace(queue, Queue::new(alloc)),
    };
    let Done {
        worked,
        queue: others,
    } = replace_with(outside, working, run_all);
    *queue = others;
    worked
}

// What a process begins with.
struct Working<K: Entries> {
    alloc: Global,
    begun: Begun,
    paused: Paused<K>,
    queue: Queue,
}

// How it ended, and the copies that wait then.
struct Done<K: Entries> {
    worked: Worked<K>,
    queue: Queue,
}

// The same, while what does the acts is the run's own.
fn run_all<D: Effects>(outside: D, working: Working<D::Kept>) -> (D, Done<D::Kept>)
    requires nested { AreBegun working.begun }
    ensures proceeds { Proceeds working.queue result.1.queue (begun_at working.begun (mind_of working.paused.process))
        (λ end. Over end (mind_of result.1.worked.paused.process)) result.1.worked.ended
        working.paused.journal result.1.worked.paused.journal (D.told outside) (D.told result.0) }
{
    let Working {
        alloc,
        begun,
        paused,
        mut queue,
    } = working;
    let Paused { process, journal } = paused;
    let mut run = Run {
        process,
        journal,
        outside,
    };
    let mut draft = None;
    let ended = run_begun(
        alloc,
        &mut run,
        begun,
        &mut queue,
        &mut draft,
        &mut NoObserver,
    );
    drop(draft);
    let Run {
        process,
        journal,
        outside,
    } = run;
    let paused = Paused { process, journal };
    let worked = Worked { ended, paused };
    (outside, Done { worked, queue })
}
