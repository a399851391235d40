//! The texts that name the lock files of tasks (procmailrc(5), "Local lockfile").
ghost use Rattle.std.specs.Prelude.{◌≡◌, ◌++◌, ℕ, List, Option, codes, length, IfOk};
ghost use Rattle.pm_journal.specs.Plan.{Plan};
ghost use Rattle.pm_meaning.specs.Locks.{value_or};
ghost use Rattle.pm_meaning.specs.Minds.{mind_of};
ghost use Rattle.pm_meaning.specs.ProgramActions.{lock_first};
ghost use Rattle.pm_meaning.specs.ProgramActions;
ghost use Rattle.pm_meaning.specs.Turns.{ActEnd};
ghost use Rattle.pm_perform.specs.Errands.{task_of};
ghost use Rattle.pm_perform.specs.Refusals.{Continues};

use crate::locks::{lock_extension, lock_text};
use crate::refusing::Refusal;
use crate::tasks::Task;
use pm_bytes::{Blob, Memory};
use pm_meaning::{Expansion, Process, expand_text, first_word};
use pm_subst::{Mode, commands};
use std::alloc::Global;

/// The commands of the text that names the lock file.
pub fn lock_commands(alloc: Global, task: &Task<'_>) -> Result<Vec<Blob>, Memory>
    ensures { IfOk result (λ commands. commands.items ≡ ProgramActions.lock_commands (task_of task.now)) }
{
    commands(alloc, lock_source(task), lock_mode(task))
}

/// The word that names the lock file, if any, by the outputs of the commands in its text.
pub fn lock_word<'a>(
    alloc: Global,
    task: &Task<'a>,
    outputs: &[Blob],
    process: &Process,
) -> Result<Option<Blob>, Refusal<'a>>
    requires { length outputs.now ≡ length (ProgramActions.lock_commands (task_of task.now)) }
    ensures { (next : Option (List ℕ) → Plan ActEnd) → let p = mind_of process.now in
        Continues next (lock_first (task_of task.now) outputs.now next p) p result }
{
    let source = lock_source(task);
    match expand_text(alloc, source, lock_mode(task), &process.vars, outputs)? {
        Expansion::Words(words) => {
            let value = first_word(alloc, words);
            Ok(named_lock(task, value, process)?)
        }
        Expansion::TooLong(length) => Err(Refusal::TooLong(length)),
    }
}

// Whether the automatic lock file is asked for.
fn is_automatic(lock: &Option<Blob>) -> bool
    ensures { result ≡ ProgramActions.is_automatic lock.now }
{
    match lock {
        None => false,
        Some(text) => text.len() == 0,
    }
}

// The text that names the lock file.
fn lock_source<'a>(task: &Task<'a>) -> &'a [u8]
    ensures { result.now ≡ ProgramActions.lock_source (task_of task.now) }
{
    if is_automatic(task.lock) {
        task.automatic
    } else {
        lock_text(task.lock)
    }
}

// How it is expanded.
fn lock_mode(task: &Task<'_>) -> Mode
    ensures { result ≡ ProgramActions.lock_mode (task_of task.now) }
{
    if is_automatic(task.lock) {
        Mode::Quoted
    } else {
        Mode::One
    }
}

/// Whether there is no automatic lock file though one is asked for.
pub fn lacks_lock(task: &Task<'_>) -> bool
    ensures { result ≡ ProgramActions.lacks_lock (task_of task.now) }
{
    is_automatic(task.lock) && task.automatic.is_empty()
}

// The word that names the lock file, by what its text expands to.
fn named_lock(task: &Task<'_>, value: Blob, process: &Process) -> Result<Option<Blob>, Memory>
    ensures { IfOk result (λ word. word ≡ ProgramActions.named_lock (task_of task.now) value (mind_of process.now)) }
{
    if lacks_lock(task) {
        return Ok(None);
    }
    if is_automatic(task.lock) {
        return Ok(Some(with_extension(value, process)?));
    }
    if task.lock.is_some() {
        Ok(Some(value))
    } else {
        Ok(None)
    }
}

fn with_extension(mut word: Blob, process: &Process) -> Result<Blob, Memory>
    ensures { IfOk result (λ whole. whole ≡ word ++ value_or (codes ".lock") (codes "LOCKEXT") process.now.vars) }
{
    word.push_slice(lock_extension(&process.vars))?;
    Ok(word)
}
