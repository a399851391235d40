//! Tasks with all that is wanted for them, made before the first is done: no memory can be wanting after a lock file
//! that was made.
ghost use Rattle.std.specs.Prelude.{◌≡◌, ◌++◌, ◌+◌, ◌*◌, map, codes, IfOk};
ghost use Rattle.lockfile_top.specs.Jobs.{AllFit, IsReadyFor};
ghost use Rattle.lockfile_top.specs.Doing;
ghost use Rattle.lockfile_top.specs.Jobs.{job_for};

use crate::{Task, Tasks};
use pm_bytes::{Blob, Memory, Name};
use pm_journal::Journal;
use std::alloc::Global;
use std::collections::VecDeque;

/// A task, its name for the lock files that were made, and the lines that may be said of it.
#[derive(Drop)]
pub struct Job {
    pub task: Task,
    pub again: Name,
    pub forcing: Blob,
    pub sorry: Blob,
}

/// The jobs, with room for the names of the lock files that are made and for the entries of what is done.
#[derive(Drop)]
pub struct Ready {
    pub jobs: VecDeque<Job>,
    pub made: Vec<Name>,
    pub journal: Journal,
}

/// Makes ready for these tasks.
pub fn make_ready(alloc: Global, tasks: Tasks) -> Result<Ready, Memory>
    requires { AllFit tasks }
    ensures { IfOk result (λ ready. IsReadyFor tasks ready) }
{
    let jobs = make_jobs(alloc, tasks)?;
    let mut made = Vec::new(alloc);
    made.try_reserve_exact(jobs.len())?;
    let mut journal = Journal::new(alloc);
    journal.reserve(most_entries(jobs.len())?)?;
    Ok(Ready {
        jobs,
        made,
        journal,
    })
}

// Each job has at most three entries: the lock, the line that it was forced, and its removal. One more line may come
// at the end.
fn most_entries(jobs: usize) -> Result<usize, Memory>
    ensures { IfOk result (λ most. most ≡ 3 * jobs + 1) }
{
    match jobs.checked_mul(3) {
        Some(most) if most < usize::MAX => Ok(most + 1),
        _ => Err(Memory),
    }
}

// The tasks as jobs.
fn make_jobs(alloc: Global, tasks: Tasks) -> Result<VecDeque<Job>, Memory>
    ensures { IfOk result (λ jobs. jobs.items ≡ map job_for tasks) }
{
    let mut jobs = VecDeque::new(alloc);
    let mut tasks = tasks.into_queue();
    while let Some(task) = tasks.pop_front() {
        jobs.push_back(make_job(alloc, task)?)?;
    }
    Ok(jobs)
}

fn make_job(alloc: Global, task: Task) -> Result<Job, Memory>
    ensures { IfOk result (λ job. job ≡ job_for task) }
{
    let name = name_of(&task);
    let again = name.copy(alloc)?;
    let forcing = line(alloc, b"lockfile: Forcing lock on \"", name)?;
    let sorry = line(alloc, b"lockfile: Sorry, giving up on \"", name)?;
    Ok(Job {
        task,
        again,
        forcing,
        sorry,
    })
}

// The name that the task is about.
fn name_of(task: &Task) -> &Name
    ensures { result.now ≡ Doing.name_of task.now }
{
    match task {
        Task::Take { name, .. } | Task::Give { name } => name,
    }
}

fn line(alloc: Global, says: &[u8], name: &Name) -> Result<Blob, Memory>
    ensures { IfOk result (λ line. line ≡ says.now ++ name.now ++ codes "\"\n") }
{
    let mut line = Blob::from_slice(alloc, says)?;
    line.push_slice(name.as_str().as_bytes())?;
    line.push_slice(b"\"\n")?;
    Ok(line)
}
