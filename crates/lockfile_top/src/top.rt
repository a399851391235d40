//! The whole run of the program, from its words to its exit status.
ghost use Rattle.std.specs.Prelude.{◌≡◌};
ghost use Rattle.pm_journal.specs.Entries.{view_of};
ghost use Rattle.lockfile_top.specs.Words.{all_bytes};
ghost use Rattle.lockfile_top.specs.Jobs.{AllFit, IsReadyFor, tasks_of};
ghost use Rattle.lockfile_top.specs.Nowhere.{nowhere};
ghost use Rattle.lockfile_top.specs.Promise.{Promise, Did, RunsLine};

use crate::{
    CommandLine, Ending, Nowhere, Ready, Status, do_jobs, make_ready, read_words, status_of,
};
use pm_bytes::{Environ, Memory};
use pm_host::{Host, Sink};
use pm_objects::{Objects, lend};
use std::alloc::Global;

/// Makes and removes the lock files that the words name, and answers the exit status (lockfile(1)). The words leave out
/// the program's name.
pub fn lockfile<H: Host, E: Sink>(
    alloc: Global,
    words: &[String],
    env: &Environ,
    host: &mut H,
    err: &mut E,
) -> u8
    ensures promise { Promise (record {
      words = all_bytes words.now;
      env = env.now;
      status = result;
      before = view_of (H.told host.old) nowhere (E.told err.old);
      after = view_of (H.told host.new) nowhere (E.told err.new);
    }) }
{
    match read_words(alloc, env, words) {
        Ok(Some(line)) => run_line(alloc, line, host, err),
        Ok(None) => Status::Usage.number(),
        Err(Memory) => Status::SystemError.number(),
    }
}

fn run_line<H: Host, E: Sink>(alloc: Global, line: CommandLine, host: &mut H, err: &mut E) -> u8
    requires { AllFit line.tasks }
    ensures { RunsLine line result
        (view_of (H.told host.old) nowhere (E.told err.old))
        (view_of (H.told host.new) nowhere (E.told err.new)) }
{
    let CommandLine { tasks, inverted } = line;
    match make_ready(alloc, tasks) {
        Ok(ready) => status_of(inverted, do_ready(ready, host, err)).number(),
        Err(Memory) => Status::SystemError.number(),
    }
}

// The jobs, done over these objects.
fn do_ready<H: Host, E: Sink>(ready: Ready, host: &mut H, err: &mut E) -> Ending
    requires { IsReadyFor (tasks_of ready.jobs.items) ready }
    ensures { Did (tasks_of ready.jobs.items) result
        (view_of (H.told host.old) nowhere (E.told err.old))
        (view_of (H.told host.new) nowhere (E.told err.new)) }
{
    let mut out = Nowhere;
    let mut objects = lend(host, &mut out, err);
    do_objects(ready, &mut objects)
}

// The same, after which the objects are the same ones.
fn do_objects<'a, H: Host, E: Sink>(
    ready: Ready,
    objects: &mut Objects<'a, H, &'a mut Nowhere, E>,
) -> Ending
    requires { IsReadyFor (tasks_of ready.jobs.items) ready }
    ensures did { Did (tasks_of ready.jobs.items) result
        (view_of (H.told objects.old.host.now) nowhere (E.told objects.old.err.now))
        (view_of (H.told objects.new.host.now) nowhere (E.told objects.new.err.now)) }
    ensures host { objects.new.host.ghost_name ≡ objects.old.host.ghost_name }
    ensures out { objects.new.out.ghost_name ≡ objects.old.out.ghost_name }
    ensures err { objects.new.err.ghost_name ≡ objects.old.err.ghost_name }
{
    let Ready {
        jobs,
        made,
        mut journal,
    } = ready;
    do_jobs(jobs, made, objects, &mut journal)
}
