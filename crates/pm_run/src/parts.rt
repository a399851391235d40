//! One process of a run, over the state of its mind, its host and its sinks (procmail(1), "DESCRIPTION").
ghost use Rattle.std.specs.Prelude.{◌≡◌};
ghost use Rattle.pm_journal.specs.Entries.{view_of};
ghost use Rattle.pm_journal.specs.Held.{Keeping};
ghost use Rattle.pm_run.specs.HeldLocks.{AllRight, HoldsRight};
ghost use Rattle.pm_run.specs.Tasks.{EndsRight, Processes, begins, locks_at, tasks_of};

use crate::alone::run_task;
use crate::queue::Queue;
use crate::task::Task;
use pm_host::{Host, Sink};
use pm_journal::Journal;
use pm_meaning::{Mind, Shared};
use pm_objects::{Objects, lend};
use std::alloc::Global;

/// How a process ended, with its state then. Of the locks it holds LOCKFILE's alone, as long as it began with that and
/// those of its blocks.
#[derive(Drop)]
pub enum ProcessEnd {
    /// The mail was delivered.
    Delivered(Mind),
    /// No delivery was made.
    FellOff(Mind),
    /// HOST got another name than the host's, and no rcfile of the command line was left.
    HostOff(Mind),
    /// The rcfile of a mail filter wasn't read.
    NoRc(Mind),
    /// Memory was wanting, and each lock that was held was given back.
    Memory,
}

/// Runs a process from its rcfiles to its end, the delivery to a default mailbox included. Copies for blocks are put
/// into the queue. The abstract of the last delivery, TRAP's program and the removal of LOCKFILE's lock are left to the
/// caller.
pub fn run_process<H: Host, O: Sink, E: Sink>(
    alloc: Global,
    task: Task,
    queue: &mut Queue,
    shared: &mut Shared,
    host: &mut H,
    out: &mut O,
    err: &mut E,
    journal: &mut Journal,
) -> ProcessEnd
    requires keeping { Keeping journal.old task.mind.locks.names }
    ensures processes { Processes result (begins task shared.old)
        (record {
          queue = queue.old;
          shared = shared.old;
          journal = journal.old;
          view = view_of (H.told host.old) (O.told out.old) (E.told err.old);
        })
        (record {
          queue = queue.new;
          shared = shared.new;
          journal = journal.new;
          view = view_of (H.told host.new) (O.told out.new) (E.told err.new);
        }) }
    ensures keeping { Keeping journal.new (locks_at result) }
    ensures right { HoldsRight (begins task shared.old) → AllRight (tasks_of queue.old) →
        EndsRight result (tasks_of queue.new) }
{
    let mut objects = lend(host, out, err);
    run_lent(alloc, task, queue, shared, &mut objects, journal)
}

// The same over objects that are lent; they are the same ones afterwards.
fn run_lent<'a, H: Host, O: Sink, E: Sink>(
    alloc: Global,
    task: Task,
    queue: &mut Queue,
    shared: &mut Shared,
    objects: &mut Objects<'a, H, &'a mut O, E>,
    journal: &mut Journal,
) -> ProcessEnd
    requires keeping { Keeping journal.old task.mind.locks.names }
    ensures processes { Processes result (begins task shared.old)
        (record {
          queue = queue.old;
          shared = shared.old;
          journal = journal.old;
          view = view_of (H.told objects.old.host.now) (O.told objects.old.out.now) (E.told objects.old.err.now);
        })
        (record {
          queue = queue.new;
          shared = shared.new;
          journal = journal.new;
          view = view_of (H.told objects.new.host.now) (O.told objects.new.out.now) (E.told objects.new.err.now);
        }) }
    ensures keeping { Keeping journal.new (locks_at result) }
    ensures host { objects.new.host.ghost_name ≡ objects.old.host.ghost_name }
    ensures out { objects.new.out.ghost_name ≡ objects.old.out.ghost_name }
    ensures err { objects.new.err.ghost_name ≡ objects.old.err.ghost_name }
{
    run_task(alloc, task, queue, shared, objects, journal)
}
