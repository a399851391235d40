//! A whole run, from the mail's arrival to the end of the last of its processes.
ghost use Rattle.std.specs.Prelude.{◌≡◌, ◌≤◌, true, map, IfOk, OnErr};
ghost use Rattle.pm_journal.specs.Executed.{GivesEach};
ghost use Rattle.pm_journal.specs.Walking.{Stop, Completes};
ghost use Rattle.pm_meaning.specs.FirstValues.{home_folder};
ghost use Rattle.pm_meaning.specs.Minds.{mind_of};
ghost use Rattle.pm_meaning.specs.Courses.{advance, run_of};
ghost use Rattle.pm_meaning.specs.Running.{Running, Setting, Closing, home_by};
ghost use Rattle.pm_run.specs.Nested.{are_nested, frame_of, items_in};
ghost use Rattle.pm_run.specs.Ends.{copies_left};
ghost use Rattle.pm_run.specs.Others.{next_in, GoesOn, GivesUp};
ghost use Rattle.pm_run.specs.RunningOut.{GaveUp};
ghost use Rattle.pm_run.specs.Stretches.{Proceeds};

use crate::arriving::{arrive, begin_rcfiles};
use crate::ends::close;
use crate::frames::RcFrame;
use crate::queue::{Queue, next_copy};
use crate::remaining::{run_frames, run_opened};
use crate::task::Copy;
use core::mem::replace_with;
use pm_bytes::{Blob, Environ, Memory};
use pm_conds::Observer;
use pm_journal::{Effects, Entries, Journal, give_all};
use pm_meaning::{CommandLine, Ending, Idle, Process, Run};
use std::alloc::Global;
use std::mem;

/// How many times a run has filed mail in a folder, or tried to, and how many rcfiles it has opened, or tried to.
#[derive(Clone, Copy)]
pub struct Counts {
    pub placed: u64,
    pub openings: u32,
}

/// What a run is about: its command line, its environment, and the bytes of the mail.
pub struct Arrival<'a> {
    pub line: CommandLine,
    pub env: &'a Environ,
    pub bytes: Blob,
}

/// What a whole run is given besides what does its acts.
pub struct Start<'a, N: Observer, K: Entries> {
    pub alloc: Global,
    pub arrival: Arrival<'a>,
    pub idle: Idle<K>,
    pub observer: &'a mut N,
}

/// How the first process of a run ended, and the journal of all.
pub struct Ran<K: Entries> {
    pub ended: Result<Ending, Memory>,
    pub idle: Idle<K>,
}

/// Runs the process that delivers this mail, and then the copies of it that were made for blocks, one after the other.
/// The answer is how the first process ended. No lock is held afterwards, and after want of memory the removal of each
/// one that was held has been tried once. The observer hears of the recipes that the processes come to, and of the
/// conditions that are judged.
pub fn run_processes<D: Effects, N: Observer>(
    alloc: Global,
    arrival: Arrival<'_>,
    outside: &mut D,
    idle: &mut Idle<D::Kept>,
    observer: &mut N,
) -> Result<Ending, Memory>
    ensures ok { IfOk result (λ ending.
        Completes advance (run_of arrival.entry.line arrival.entry.env.now arrival.entry.bytes) ending
        idle.old.journal idle.new.journal (D.told outside.old) (D.told outside.new)) }
    ensures memory { OnErr result (GaveUp (run_of arrival.entry.line arrival.entry.env.now arrival.entry.bytes)
        idle.old.journal idle.new.journal (D.told outside.old) (D.told outside.new)) }
{
    let none = Idle {
        journal: Journal::empty(alloc),
    };
    let start = Start {
        alloc,
        arrival,
        idle: mem::replace(idle, none),
        observer,
    };
    let Ran { ended, idle: noted } = replace_with(outside, start, run_all);
    *idle = noted;
    ended
}

// The processes, while what does their acts is theirs.
fn run_all<D: Effects, N: Observer>(
    mut outside: D,
    start: Start<'_, N, D::Kept>,
) -> (D, Ran<D::Kept>)
    ensures ok { IfOk result.1.ended (λ ending.
        Completes advance (run_of start.entry.arrival.line start.entry.arrival.env.now start.entry.arrival.bytes) ending
        start.entry.idle.journal result.1.idle.journal (D.told outside) (D.told result.0)) }
    ensures memory { OnErr result.1.ended
        (GaveUp (run_of start.entry.arrival.line start.entry.arrival.env.now start.entry.arrival.bytes)
        start.entry.idle.journal result.1.idle.journal (D.told outside) (D.told result.0)) }
{
    let Start {
        alloc,
        arrival,
        mut idle,
        observer,
    } = start;
    let Arrival { line, env, bytes } = arrival;
    let process = match arrive(alloc, &line, env, bytes, &mut outside, &mut idle) {
        Ok(process) => process,
        Err(Memory) => return (
            outside,
            Ran {
                ended: Err(Memory),
                idle,
            },
        ),
    };
    let Idle { journal } = idle;
    let mut run = Run {
        process,
        journal,
        outside,
    };
    let mut queue = Queue::new(alloc);
    let ended = run_first(alloc, &mut run, &line, env, &mut queue, &mut *observer);
    let Left {
        outside,
        idle,
        counts,
    } = leave_process(run);
    match ended {
        Ok(first) => {
            let others = Others {
                first,
                counts,
                queue,
            };
            run_copies(alloc, others, outside, idle, observer)
        }
        Err(Memory) => (
            outside,
            Ran {
                ended: Err(Memory),
                idle,
            },
        ),
    }
}

// What is left of a process that is over: what does the acts, the journal, and what the run has counted.
struct Left<D: Effects> {
    outside: D,
    idle: Idle<D::Kept>,
    counts: Counts,
}

// Gives each lock of a process that is over back.
fn leave_process<D: Effects>(run: Run<D>) -> Left<D>
    ensures gives { GivesEach run.process.locks.names
        run.journal result.idle.journal (D.told run.outside) (D.told result.outside) }
    ensures placed { result.counts.placed ≡ run.process.placed }
    ensures openings { result.counts.openings ≡ run.process.openings }
{
    let Run {
        mut process,
        mut journal,
        mut outside,
    } = run;
    give_all(&mut process.locks, &mut outside, &mut journal);
    let counts = Counts {
        placed: process.placed,
        openings: process.openings,
    };
    drop(process);
    Left {
        outside,
        idle: Idle { journal },
        counts,
    }
}

// The first process, from the words of the command line to its end.
fn run_first<D: Effects, N: Observer>(
    alloc: Global,
    run: &mut Run<D>,
    line: &CommandLine,
    env: &Environ,
    queue: &mut Queue,
    observer: &mut N,
) -> Result<Ending, Memory>
    ensures proceeds { let home = home_by line.now.values (home_folder env.now) in
        Proceeds queue.old queue.new (Setting line.now.values line.now home (mind_of run.old.process))
        (λ ending. Closing ending (mind_of run.new.process)) result
        run.old.journal run.new.journal (D.told run.old.outside) (D.told run.new.outside) }
    ensures few { copies_left queue.new ≤ copies_left queue.old }
{
    let opened = begin_rcfiles(alloc, run, line, env)?;
    let mut draft = None;
    match run_opened(alloc, run, opened, queue, &mut draft, observer) {
        Ok(end) => close(alloc, run, end, draft),
        Err(Memory) => {
            drop(draft);
            Err(Memory)
        }
    }
}

// A copy of a process, from the rest of its rcfiles to its end.
fn run_copy<D: Effects, N: Observer>(
    alloc: Global,
    run: &mut Run<D>,
    frames: Vec<RcFrame>,
    queue: &mut Queue,
    observer: &mut N,
) -> Result<Ending, Memory>
    requires nested { are_nested (map frame_of frames.items) ≡ true }
    ensures proceeds { Proceeds queue.old queue.new
        (Running (items_in (map frame_of frames.items)) (mind_of run.old.process))
        (λ ending. Closing ending (mind_of run.new.process)) result
        run.old.journal run.new.journal (D.told run.old.outside) (D.told run.new.outside) }
    ensures few { copies_left queue.new ≤ copies_left queue.old }
{
    let mut draft = None;
    match run_frames(alloc, run, frames, queue, &mut draft, observer) {
        Ok(end) => close(alloc, run, end, draft),
        Err(Memory) => {
            drop(draft);
            Err(Memory)
        }
    }
}

// How the first process ended, what the run has counted since, and the copies that wait.
struct Others {
    first: Ending,
    counts: Counts,
    queue: Queue,
}

// The copies, one after the other, each from its block on.
fn run_copies<D: Effects, N: Observer>(
    alloc: Global,
    others: Others,
    mut outside: D,
    mut idle: Idle<D::Kept>,
    observer: &mut N,
) -> (D, Ran<D::Kept>)
    ensures ok { IfOk result.1.ended (λ ending. GoesOn (next_in others.queue others.first others.counts) (Stop ending)
        idle.journal result.1.idle.journal (D.told outside) (D.told result.0)) }
    ensures memory { OnErr result.1.ended (GivesUp (next_in others.queue others.first others.counts)
        idle.journal result.1.idle.journal (D.told outside) (D.told result.0)) }
{
    let Others {
        first,
        counts: mut counted,
        mut queue,
    } = others;
    while let Some(copy) = next_copy(&mut queue) {
        let Copy {
            frames,
            mut process,
        } = copy;
        process.placed = counted.placed;
        process.openings = counted.openings;
        let Idle { journal } = idle;
        let mut run = Run {
            process,
            journal,
            outside,
        };
        let ended = run_copy(alloc, &mut run, frames, &mut queue, &mut *observer);
        let Left {
            outside: lent,
            idle: noted,
            counts,
        } = leave_process(run);
        outside = lent;
        idle = noted;
        counted = counts;
        match ended {
            Ok(_) => {}
            Err(Memory) => {
                return (
                    outside,
                    Ran {
                        ended: Err(Memory),
                        idle,
                    },
                );
            }
        }
    }
    (
        outside,
        Ran {
            ended: Ok(first),
            idle,
        },
    )
}
