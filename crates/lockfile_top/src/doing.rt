//! The tasks are done in order, up to one that can't be; then the lock files that were made are removed again. Nothing
//! here takes memory.
ghost use Rattle.std.specs.Prelude.{◌≡◌, ◌+◌, ◌*◌, ◌<◌, ◌≤◌, ℕ, List, Option, length, reverse};
ghost use Rattle.std.specs.Prelude.{nat_eq, vec_capacity, if◌then◌else◌};
ghost use Rattle.std.specs.Bool.{OnFalse};
ghost use Rattle.pm_journal.specs.Executed.{Executes};
ghost use Rattle.pm_journal.specs.Locking.{lock_act};
ghost use Rattle.pm_journal.specs.Plan.{Ends, and_then, ask};
ghost use Rattle.pm_journal.specs.declared.acts.Act.TheVariants.{Unlock};
ghost use Rattle.lockfile_top.specs.Lines.{forcing_line};
ghost use Rattle.lockfile_top.specs.Doing.{name_of, without_name, with_name, one_task, after_take, after_give};
ghost use Rattle.lockfile_top.specs.Doing.{remove_each, say_then, do_tasks};
ghost use Rattle.lockfile_top.specs.Jobs.{IsFit, IsFitTask, AllReady, tasks_of, made_by};

use crate::{Ending, Job, Task};
use pm_bytes::{Blob, Name};
use pm_host::Removed;
use pm_journal::{Effects, Journal, LockEnd, LockRule};
use std::collections::VecDeque;

/// Does the jobs in order, where these lock files were made so far.
pub fn do_jobs<D: Effects>(
    mut jobs: VecDeque<Job>,
    mut made: Vec<Name>,
    outside: &mut D,
    journal: &mut Journal<D::Kept>,
) -> Ending
    requires ready { AllReady jobs.items }
    requires space { length made.items + length jobs.items ≤ vec_capacity made }
    requires room { 3 * length jobs.items + length made.items + 1 ≤ journal.old.room }
    ensures { Executes (do_tasks (tasks_of jobs.items) made.items) result
        journal.old journal.new (D.told outside.old) (D.told outside.new) }
{
    while let Some(job) = jobs.pop_front() {
        let Job {
            task,
            again,
            forcing,
            sorry,
        } = job;
        if !do_task(task, again, forcing, &mut made, outside, journal) {
            give_up(made, sorry, outside, journal);
            return Ending::GaveUp;
        }
    }
    Ending::AllDone
}

// Whether the task was done.
fn do_task<D: Effects>(
    task: Task,
    again: Name,
    forcing: Blob,
    made: &mut Vec<Name>,
    outside: &mut D,
    journal: &mut Journal<D::Kept>,
) -> bool
    requires again { again ≡ name_of task }
    requires forcing { forcing ≡ forcing_line (name_of task) }
    requires fit { IsFitTask task }
    requires space { length made.old.items < vec_capacity made.old }
    requires room { 2 ≤ journal.old.room }
    ensures done { Executes (one_task task made.old.items) (made_by result made.new.items)
        journal.old journal.new (D.told outside.old) (D.told outside.new) }
    ensures same { OnFalse result (made.new.items ≡ made.old.items) }
    ensures few { length made.new.items ≤ length made.old.items + 1 }
    ensures space { vec_capacity made.new ≡ vec_capacity made.old }
    ensures room { journal.old.room ≤ journal.new.room + 2 }
{
    match task {
        Task::Take { name, rule } => take(name, again, rule, forcing, made, outside, journal),
        Task::Give { name } => give(name, again, made, outside, journal),
    }
}

fn take<D: Effects>(
    name: Name,
    again: Name,
    rule: LockRule,
    forcing: Blob,
    made: &mut Vec<Name>,
    outside: &mut D,
    journal: &mut Journal<D::Kept>,
) -> bool
    requires again { again ≡ name }
    requires forcing { forcing ≡ forcing_line name }
    requires fit { IsFit rule }
    requires space { length made.old.items < vec_capacity made.old }
    requires room { 2 ≤ journal.old.room }
    ensures done { Executes (and_then (ask (lock_act name rule)) (after_take name made.old.items))
        (made_by result made.new.items)
        journal.old journal.new (D.told outside.old) (D.told outside.new) }
    ensures same { OnFalse result (made.new.items ≡ made.old.items) }
    ensures few { length made.new.items ≤ length made.old.items + 1 }
    ensures space { vec_capacity made.new ≡ vec_capacity made.old }
    ensures room { journal.old.room ≤ journal.new.room + 2 }
{
    match outside.lock(journal, name, rule) {
        LockEnd::Held { forced, .. } => {
            add(made, again);
            tell_force(forced, forcing, outside, journal);
            true
        }
        LockEnd::Busy | LockEnd::Failed => false,
    }
}

// Says the line where a lock file was removed by force.
fn tell_force<D: Effects>(forced: u32, line: Blob, outside: &mut D, journal: &mut Journal<D::Kept>)
    requires { 1 ≤ journal.old.room }
    ensures says { (names : Option (List (List ℕ))) →
        Executes (if nat_eq forced 0 then Ends names else say_then line names) names
        journal.old journal.new (D.told outside.old) (D.told outside.new) }
    ensures room { journal.old.room ≤ journal.new.room + 1 }
{
    if forced != 0 {
        outside.say(journal, None, line);
    }
}

fn give<D: Effects>(
    name: Name,
    again: Name,
    made: &mut Vec<Name>,
    outside: &mut D,
    journal: &mut Journal<D::Kept>,
) -> bool
    requires again { again ≡ name }
    requires room { 1 ≤ journal.old.room }
    ensures done { Executes (and_then (ask (Unlock name)) (λ reply. Ends (after_give name made.old.items reply)))
        (made_by result made.new.items)
        journal.old journal.new (D.told outside.old) (D.told outside.new) }
    ensures same { OnFalse result (made.new.items ≡ made.old.items) }
    ensures few { length made.new.items ≤ length made.old.items + 1 }
    ensures space { vec_capacity made.new ≡ vec_capacity made.old }
    ensures room { journal.old.room ≤ journal.new.room + 2 }
{
    match outside.unlock(journal, name) {
        Removed::Removed => {
            forget(made, &again);
            true
        }
        Removed::Absent | Removed::Failed => false,
    }
}

// The lock file was made now, and is the last.
fn add(made: &mut Vec<Name>, name: Name)
    requires { length made.old.items < vec_capacity made.old }
    ensures names { made.new.items ≡ with_name name made.old.items }
    ensures few { length made.new.items ≤ length made.old.items + 1 }
    ensures space { vec_capacity made.new ≡ vec_capacity made.old }
{
    forget(made, &name);
    made.push_reserved(name);
}

// The lock file is none of those that were made any more.
fn forget(made: &mut Vec<Name>, name: &Name)
    ensures names { made.new.items ≡ without_name name.now made.old.items }
    ensures few { length made.new.items ≤ length made.old.items }
    ensures space { vec_capacity made.new ≡ vec_capacity made.old }
{
    made.retain(|other| other.as_str() != name.as_str());
}

// Removes each lock file that was made, the last one first, and says the line.
fn give_up<D: Effects>(
    mut made: Vec<Name>,
    sorry: Blob,
    outside: &mut D,
    journal: &mut Journal<D::Kept>,
)
    requires { length made.items + 1 ≤ journal.old.room }
    ensures { Executes (remove_each (reverse made.items) (say_then sorry Ending.GaveUp)) Ending.GaveUp
        journal.old journal.new (D.told outside.old) (D.told outside.new) }
{
    while let Some(name) = made.pop() {
        outside.unlock(journal, name);
    }
    outside.say(journal, None, sorry);
}
