//! Which program gets the mail, and under which lock file (procmailrc(5), "Recipe action line"): the texts are
//! expanded, and the names in them are read. All of this only reads the process, and nothing is told yet.
ghost use Rattle.std.specs.Prelude.{◌≡◌, length, IfOk};
ghost use Rattle.pm_journal.specs.Plan.{Plan};
ghost use Rattle.pm_meaning.specs.Minds.{Mind, mind_of};
ghost use Rattle.pm_meaning.specs.ProgramActions.{Tried};
ghost use Rattle.pm_meaning.specs.ProgramActions;
ghost use Rattle.pm_meaning.specs.ProgramActions.{do_line, do_named, lock_first, program_with, unusable_text};
ghost use Rattle.pm_meaning.specs.ProgramActions.{fed_piece, work_of};
ghost use Rattle.pm_meaning.specs.Ready.{ready_of};
ghost use Rattle.pm_perform.specs.Copies.{IsFreeLock};
ghost use Rattle.pm_perform.specs.Errands.{task_of};
ghost use Rattle.pm_perform.specs.Jobs.{run_at, try_at};
ghost use Rattle.pm_perform.specs.Programs.{reading_of};
ghost use Rattle.pm_perform.specs.Refusals.{Continues};

use crate::lock_texts::lock_word;
use crate::locks::{blamed_text, full_lock, is_taken, lock_name};
use crate::pipes::{Reading, read_text};
use crate::refusing::Refusal;
use crate::tasks::Task;
use pm_bytes::{Blob, Memory, Name, NameRefused};
use pm_host::Command;
use pm_meaning::{Cause, Process, ProgramLine, Ready};
use std::alloc::Global;

/// The lock file of a program, if one is asked for, and how the program is run.
#[derive(Drop)]
pub struct Job {
    pub lock: Option<Name>,
    pub command: Command,
}

/// What is to be run for a task, by the outputs of the commands in its texts.
pub fn job_of<'a>(
    alloc: Global,
    task: &Task<'a>,
    reading: Reading,
    ready: &Ready,
    process: &Process,
) -> Result<Job, Refusal<'a>>
    requires locks { length ready.now.lock_outputs.items ≡ length (ProgramActions.lock_commands (task_of task.now)) }
    requires each { length ready.now.outputs.items ≡ length (reading_of reading task.now.text.now).commands }
    ensures job { let t = task_of task.now in let p = mind_of process.now in
        Continues (run_at t p) (program_with t (reading_of reading t.text) (ready_of ready.now p)) p result }
    ensures free { IfOk result (λ job. IsFreeLock job.lock process.now.locks.names) }
{
    let word = lock_word(alloc, task, ready.lock_outputs.as_slice(), process)?;
    let line = read_text(alloc, task.text, reading, ready.outputs.as_slice(), process)?;
    job_with(alloc, task, word, line, process)
}

// What is to be run where the lock file's text gives this word, and the task's own text was read so.
fn job_with<'a>(
    alloc: Global,
    task: &Task<'a>,
    word: Option<Blob>,
    line: ProgramLine,
    process: &Process,
) -> Result<Job, Refusal<'a>>
    ensures job { let t = task_of task.now in let p = mind_of process.now in
        Continues (run_at t p) (do_line t word (work_of t.purpose t.flags (fed_piece t.flags p)) line p) p result }
    ensures free { IfOk result (λ job. IsFreeLock job.lock process.now.locks.names) }
{
    match line {
        ProgramLine::Runs(command) => {
            let lock = free_lock(alloc, task, word, process)?;
            Ok(Job { lock, command })
        }
        ProgramLine::NoWords => Err(Refusal::Unusable(Cause::NoWords, task.text)),
        ProgramLine::Unusable => {
            let text = unusable_word(alloc, task, word)?;
            Err(Refusal::Unusable(Cause::BadName, text))
        }
        ProgramLine::TooLong(length) => Err(Refusal::TooLong(length)),
    }
}

// The text that is told where a word of the line is unusable: the lock file's where its name can't be a file's either.
fn unusable_word<'a>(alloc: Global, task: &Task<'a>, word: Option<Blob>) -> Result<&'a [u8], Memory>
    ensures { IfOk result (λ text. text.now ≡ unusable_text (task_of task.now) word) }
{
    match lock_name(alloc, word) {
        Ok(_) => Ok(task.text),
        Err(NameRefused::Unusable) => Ok(blamed_text(task.lock, task.text)),
        Err(NameRefused::Memory) => Err(Memory),
    }
}

/// The lock file of a task that writes to standard output, by the outputs of the commands in its text.
pub fn lock_of<'a>(
    alloc: Global,
    task: &Task<'a>,
    ready: &Ready,
    process: &Process,
) -> Result<Option<Name>, Refusal<'a>>
    requires { length ready.now.lock_outputs.items ≡ length (ProgramActions.lock_commands (task_of task.now)) }
    ensures lock { (work : Mind → Plan Tried) → let t = task_of task.now in let p = mind_of process.now in
        Continues (try_at t work p)
        (lock_first t ready.now.lock_outputs.items (λ word. do_named t word work p) p) p result }
    ensures free { IfOk result (λ lock. IsFreeLock lock process.now.locks.names) }
{
    let word = lock_word(alloc, task, ready.lock_outputs.as_slice(), process)?;
    free_lock(alloc, task, word, process)
}

// The lock file, if its name can be a file's and it isn't held yet.
fn free_lock<'a>(
    alloc: Global,
    task: &Task<'a>,
    word: Option<Blob>,
    process: &Process,
) -> Result<Option<Name>, Refusal<'a>>
    ensures lock { (work : Mind → Plan Tried) → let t = task_of task.now in let p = mind_of process.now in
        Continues (try_at t work p) (do_named t word work p) p result }
    ensures free { IfOk result (λ lock. IsFreeLock lock process.now.locks.names) }
{
    let blamed = blamed_text(task.lock, task.text);
    match lock_name(alloc, word) {
        Ok(name) => {
            let lock = full_lock(alloc, &process.base, name)?;
            if is_taken(&lock, &[], &process.locks) {
                Err(Refusal::Unusable(Cause::NameIsLock, blamed))
            } else {
                Ok(lock)
            }
        }
        Err(NameRefused::Unusable) => Err(Refusal::Unusable(Cause::BadName, blamed)),
        Err(NameRefused::Memory) => Err(Refusal::Memory),
    }
}
