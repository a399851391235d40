//! Lines are logged in LOGFILE's file, or on `err` (procmailrc(5), LOGFILE).
ghost use Rattle.std.specs.Prelude.{◌≡◌, [], codes, IfOk};
ghost use Rattle.pm_journal.specs.Executed.{Carries};
ghost use Rattle.pm_meaning.specs.Locks.{value_or};
ghost use Rattle.pm_meaning.specs.Logging.{log, logged};
ghost use Rattle.pm_meaning.specs.Minds.{mind_of};
ghost use Rattle.pm_meaning.specs.Telling.{free_name};
ghost use Rattle.pm_meaning.specs.Telling;

use crate::names::{file_name, is_nothing};
use crate::programs::value_or;
use crate::{Process, Run};
use pm_bytes::{Blob, Memory, Name, full};
use pm_journal::{Asks, HeldLocks};
use std::alloc::Global;

/// Logs the line in LOGFILE's file, or on `err` where LOGFILE names none, no usable one or a held lock. `/dev/null`
/// takes it without an act. A line that can't be written is lost.
pub fn tell<D: Asks>(alloc: Global, run: &mut Run<D>, line: Blob) -> Result<(), Memory>
    ensures carries { Carries (log line (mind_of run.old.process)) (λ _. logged) result
        run.old.journal run.new.journal (D.told run.old.outside) (D.told run.new.outside) }
    ensures same { run.new.process ≡ run.old.process }
{
    let name = log_name(alloc, &run.process)?;
    tell_in(run, name, line)
}

/// LOGFILE's file, as seen from where the run began, where it can be a file's name.
pub fn log_name(alloc: Global, process: &Process) -> Result<Option<Name>, Memory>
    ensures { let p = mind_of process.now in
        IfOk result (λ name. name ≡ Telling.log_name (value_or [] (codes "LOGFILE") p.vars) p.base) }
{
    match file_name(alloc, value_or(b"", b"LOGFILE", &process.vars))? {
        None => Ok(None),
        Some(name) => Ok(Some(full(alloc, &process.base, &name)?)),
    }
}

/// Logs the line where this is LOGFILE's file. Memory is wanted for the entry alone.
pub fn tell_in<D: Asks>(run: &mut Run<D>, name: Option<Name>, line: Blob) -> Result<(), Memory>
    requires named { let p = mind_of run.old.process in
        name ≡ Telling.log_name (value_or [] (codes "LOGFILE") p.vars) p.base }
    ensures carries { Carries (log line (mind_of run.old.process)) (λ _. logged) result
        run.old.journal run.new.journal (D.told run.old.outside) (D.told run.new.outside) }
    ensures same { run.new.process ≡ run.old.process }
{
    let to = unless_held(name, &run.process.locks);
    if is_nowhere(&to) {
        return Ok(());
    }
    run.say(to, line)
}

// A held lock's file isn't written to.
fn unless_held(name: Option<Name>, locks: &HeldLocks) -> Option<Name>
    ensures { result ≡ free_name name locks.now.names }
{
    match name {
        None => None,
        Some(file) => { if locks.holds(&file) { None } else { Some(file) } }
    }
}

// Whether `/dev/null` takes what goes there.
fn is_nowhere(file: &Option<Name>) -> bool
    ensures { result ≡ Telling.is_nowhere file.now }
{
    match file {
        None => false,
        Some(name) => is_nothing(name),
    }
}
