//! What a process does at its end: the abstract of its delivery, the program of TRAP, and its exit status
//! (procmailrc(5), "Environment").
ghost use Rattle.std.specs.Prelude.{◌≡◌, true, [], ◌&&◌, codes, decimal, IfOk, OnErr};
ghost use Rattle.pm_journal.specs.Executed.{Carries};
ghost use Rattle.pm_vars.specs.Variables.{value_of};
ghost use Rattle.pm_journal.specs.LogText.{unusable_name_line, value_too_long_line};
ghost use Rattle.pm_meaning.specs.Abstracts;
ghost use Rattle.pm_meaning.specs.Changes.{overflowed};
ghost use Rattle.pm_meaning.specs.Changes;
ghost use Rattle.pm_meaning.specs.Locks;
ghost use Rattle.pm_meaning.specs.Logging.{log, logged};
ghost use Rattle.pm_meaning.specs.Minds.{mind_of};
ghost use Rattle.pm_meaning.specs.Turns.{say_then};
ghost use Rattle.pm_meaning.specs.Ends.{is_delivered};
ghost use Rattle.pm_meaning.specs.Ends;
ghost use Rattle.pm_meaning.specs.Ends.{trapped_with};
ghost use Rattle.pm_meaning.specs.Running.{Over, Closing};
ghost use Rattle.pm_meaning.specs.Status.{base_status as status_so_far, with_exit_status, is_set};
ghost use Rattle.pm_meaning.specs.Status.{is_there_empty, says_delivered};
ghost use Rattle.pm_meaning.specs.Status.{chosen_status as status_chosen, exit_status as status_at};
ghost use Rattle.pm_run.specs.Codes.{code_written};
ghost use Rattle.pm_run.specs.Stretches.{Walks};

use crate::draft::Draft;
use crate::drafting::{is_for, tell_draft};
use crate::global_lock::give_lock;
use itoa::Buffer;
use pm_bytes::{Blob, Memory, read_count};
use pm_host::Command;
use pm_journal::{Effects, unusable_name, value_too_long};
use pm_meaning::{
    End, Ending, Process, ProgramLine, Run, Status, abstract_of, code_of, logs_last, note_code,
    read_line, status_of, tell, tell_run, value_or,
};
use std::alloc::Global;

/// The process is over: the abstract of its delivery, of which there may be a draft, is logged, TRAP's program runs,
/// and LOCKFILE's lock is given back.
pub fn close<D: Effects>(
    alloc: Global,
    run: &mut Run<D>,
    end: End,
    draft: Option<Draft>,
) -> Result<Ending, Memory>
    ensures walks { Walks (Over end (mind_of run.old.process))
        (λ ending. Closing ending (mind_of run.new.process)) result
        run.old.journal run.new.journal (D.told run.old.outside) (D.told run.new.outside) }
{
    tell_delivery(alloc, run, end, draft)?;
    let code = trap(alloc, run, end)?;
    let status = exit_status(end, code, &run.process);
    give_lock(alloc, run)?;
    Ok(Ending { end, status })
}

// Logs the abstract of the delivery that ended the process, where LOGABSTRACT wants it.
fn tell_delivery<D: Effects>(
    alloc: Global,
    run: &mut Run<D>,
    end: End,
    draft: Option<Draft>,
) -> Result<(), Memory>
    ensures carries { Carries (Ends.tell_delivery end (mind_of run.old.process)) (λ _. logged) result
        run.old.journal run.new.journal (D.told run.old.outside) (D.told run.new.outside) }
    ensures told { OnErr result ((is_delivered end && Abstracts.logs_last (mind_of run.old.process)) ≡ true) }
    ensures same { run.new.process ≡ run.old.process }
{
    if !is_told(end, &run.process) {
        drop(draft);
        return Ok(());
    }
    tell_abstract(alloc, run, draft)
}

// A draft that is for this process is finished.
fn tell_abstract<D: Effects>(
    alloc: Global,
    run: &mut Run<D>,
    draft: Option<Draft>,
) -> Result<(), Memory>
    ensures carries { let p = mind_of run.old.process in Carries (log (Abstracts.abstract_of p) p) (λ _. logged) result
        run.old.journal run.new.journal (D.told run.old.outside) (D.told run.new.outside) }
    ensures same { run.new.process ≡ run.old.process }
{
    if let Some(draft) = draft {
        if is_for(&draft, &run.process) {
            return tell_draft(run, draft);
        }
        drop(draft);
    }
    let text = abstract_of(alloc, &run.process)?;
    tell(alloc, run, text)
}

// Whether the abstract is logged.
fn is_told(end: End, process: &Process) -> bool
    ensures { result ≡ (is_delivered end && Abstracts.logs_last (mind_of process.now)) }
{
    match end {
        End::Delivered => logs_last(process),
        _ => false,
    }
}

// Runs TRAP's program at the end of the first process, and answers its exit code: 127 where it didn't run to its end.
fn trap<D: Effects>(alloc: Global, run: &mut Run<D>, end: End) -> Result<u8, Memory>
    ensures carries { Carries (Ends.trap end (mind_of run.old.process))
        (λ code. trapped_with code (mind_of run.new.process)) result
        run.old.journal run.new.journal (D.told run.old.outside) (D.told run.new.outside) }
    ensures set { OnErr result (Ends.is_trapped end (mind_of run.old.process) ≡ true) }
{
    if !is_trapped(end, &run.process) {
        return Ok(127);
    }
    let text = value_copy(alloc, &run.process)?;
    set_exit_status(alloc, end, &mut run.process)?;
    trap_line(alloc, run, text.as_slice())
}

// Whether TRAP's program runs.
fn is_trapped(end: End, process: &Process) -> bool
    ensures { result ≡ Ends.is_trapped end (mind_of process.now) }
{
    match end {
        End::NoRc => false,
        _ => !process.is_clone && is_given(b"TRAP", process),
    }
}

// Whether the variable is set and not empty.
fn is_given(name: &[u8], process: &Process) -> bool
    ensures { result ≡ Changes.is_given name.now (mind_of process.now) }
{
    match process.vars.get(name) {
        Some(value) => !value.as_slice().is_empty(),
        None => false,
    }
}

// TRAP's value.
fn value_copy(alloc: Global, process: &Process) -> Result<Blob, Memory>
    ensures { IfOk result (λ text. text ≡ Locks.value_or [] (codes "TRAP") process.now.vars) }
{
    Blob::from_slice(alloc, value_or(b"", b"TRAP", &process.vars))
}

// An EXITCODE that isn't set gets the status so far, which TRAP's program finds there.
fn set_exit_status(alloc: Global, end: End, process: &mut Process) -> Result<(), Memory>
    ensures ok { IfOk result (λ _. mind_of process.new ≡ with_exit_status end (mind_of process.old)) }
    ensures locks { process.new.locks ≡ process.old.locks }
{
    if is_code_set(process) {
        return Ok(());
    }
    let number = base_status(end, process);
    let value = digits(alloc, number)?;
    process.vars.set(b"EXITCODE", value)?;
    Ok(())
}

// Whether EXITCODE is set.
fn is_code_set(process: &Process) -> bool
    ensures { result ≡ is_set (value_of (codes "EXITCODE") process.now.vars.variables) }
{
    match process.vars.get(b"EXITCODE") {
        Some(_) => true,
        None => false,
    }
}

// The program line of TRAP is read after its commands, and its program runs.
fn trap_line<D: Effects>(alloc: Global, run: &mut Run<D>, text: &[u8]) -> Result<u8, Memory>
    ensures carries { Carries (Ends.trap_line text.now (mind_of run.old.process))
        (λ code. trapped_with code (mind_of run.new.process)) result
        run.old.journal run.new.journal (D.told run.old.outside) (D.told run.new.outside) }
{
    let line = read_line(alloc, run, text)?;
    trap_by(alloc, run, line, text)
}

// The program by its line; one that can't be run is told.
fn trap_by<D: Effects>(
    alloc: Global,
    run: &mut Run<D>,
    line: ProgramLine,
    text: &[u8],
) -> Result<u8, Memory>
    ensures carries { Carries (Ends.trap_by line text.now (mind_of run.old.process))
        (λ code. trapped_with code (mind_of run.new.process)) result
        run.old.journal run.new.journal (D.told run.old.outside) (D.told run.new.outside) }
{
    match line {
        ProgramLine::Runs(command) => run_trap(alloc, run, command, text),
        ProgramLine::NoWords => tell_unusable(alloc, run, text),
        ProgramLine::Unusable => tell_unusable(alloc, run, text),
        ProgramLine::TooLong(length) => tell_long(alloc, run, length),
    }
}

// The program gets the whole mail.
fn run_trap<D: Effects>(
    alloc: Global,
    run: &mut Run<D>,
    command: Command,
    text: &[u8],
) -> Result<u8, Memory>
    ensures carries { Carries (Ends.run_trap command text.now (mind_of run.old.process))
        (λ code. trapped_with code (mind_of run.new.process)) result
        run.old.journal run.new.journal (D.told run.old.outside) (D.told run.new.outside) }
{
    let input = run.process.message.whole(alloc)?;
    let end = run.run_program(alloc, command, input, false)?;
    note_code(end, &mut run.process);
    tell_run(alloc, run, end, text)?;
    Ok(code_of(end))
}

// A program line that can't be run is told.
fn tell_unusable<D: Effects>(alloc: Global, run: &mut Run<D>, text: &[u8]) -> Result<u8, Memory>
    ensures carries { let p = mind_of run.old.process in
        Carries (say_then p (unusable_name_line text.now) (trapped_with 127 p))
        (λ code. trapped_with code (mind_of run.new.process)) result
        run.old.journal run.new.journal (D.told run.old.outside) (D.told run.new.outside) }
    ensures same { run.new.process ≡ run.old.process }
{
    let line = unusable_name(alloc, text)?;
    tell(alloc, run, line)?;
    Ok(127)
}

// A program line that expands to too many bytes is told.
fn tell_long<D: Effects>(alloc: Global, run: &mut Run<D>, length: u64) -> Result<u8, Memory>
    ensures carries { let p = mind_of run.old.process in
        Carries (say_then p (value_too_long_line length) (trapped_with 127 (overflowed p)))
        (λ code. trapped_with code (mind_of run.new.process)) result
        run.old.journal run.new.journal (D.told run.old.outside) (D.told run.new.outside) }
{
    let line = value_too_long(alloc, length)?;
    let mark = Blob::from_slice(alloc, b"yes")?;
    tell(alloc, run, line)?;
    run.process.vars.set(b"PROCMAIL_OVERFLOW", mark)?;
    Ok(127)
}

// The exit status so far: DELIVERED may say that the mail was delivered.
fn base_status(end: End, process: &Process) -> u8
    ensures { result ≡ status_so_far end (mind_of process.now) }
{
    if is_said_delivered(process) {
        return 0;
    }
    status_of(process.fails_softly, end).number()
}

// Whether DELIVERED is `yes`.
fn is_said_delivered(process: &Process) -> bool
    ensures { result ≡ says_delivered process.now.vars }
{
    value_or(b"", b"DELIVERED", &process.vars) == b"yes".as_slice()
}

/// The exit status of a process, by the exit code of TRAP's program.
fn exit_status(end: End, trapped: u8, process: &Process) -> u8
    ensures { result ≡ status_at end trapped (mind_of process.now) }
{
    match end {
        End::NoRc => Status::NoInput.number(),
        _ => chosen_status(end, trapped, process),
    }
}

// EXITCODE's number, TRAP's code where EXITCODE is empty, and otherwise the status so far.
fn chosen_status(end: End, trapped: u8, process: &Process) -> u8
    ensures { result ≡ status_chosen end trapped (mind_of process.now) }
{
    if let Some(code) = exit_code(process) {
        return code;
    }
    if is_set_empty(process) && is_given(b"TRAP", process) {
        trapped
    } else {
        base_status(end, process)
    }
}

// The number that EXITCODE writes, if it is one of 1 to 255.
fn exit_code(process: &Process) -> Option<u8>
    ensures { result ≡ code_written (Locks.value_or [] (codes "EXITCODE") process.now.vars) }
{
    code_by(value_or(b"", b"EXITCODE", &process.vars))
}

fn code_by(text: &[u8]) -> Option<u8>
    ensures { result ≡ code_written text.now }
{
    match read_count(text) {
        Some(count) if 1 <= count && count <= 255 => Some(count as u8),
        _ => None,
    }
}

// Whether EXITCODE is set and empty.
fn is_set_empty(process: &Process) -> bool
    ensures { result ≡ is_there_empty (value_of (codes "EXITCODE") process.now.vars.variables) }
{
    match process.vars.get(b"EXITCODE") {
        Some(value) => value.as_slice().is_empty(),
        None => false,
    }
}

// The number in decimal digits.
fn digits(alloc: Global, number: u8) -> Result<Blob, Memory>
    ensures { IfOk result (λ text. text ≡ decimal number) }
{
    let mut buffer = Buffer::new();
    Blob::from_slice(alloc, buffer.format(number).as_bytes())
}
