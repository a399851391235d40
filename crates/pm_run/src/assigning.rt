//! Assignments and unsettings, and what each has for an effect (procmailrc(5), "Environment").
ghost use Rattle.std.specs.Prelude.{◌≡◌, bytes_eq, codes, length};
ghost use Rattle.pm_journal.specs.Executed.{Carries};
ghost use Rattle.pm_journal.specs.Plan.{and_then, ask};
ghost use Rattle.pm_journal.specs.declared.acts.Act.TheVariants.{Probe};
ghost use Rattle.pm_meaning.specs.Assigning.{probed, change_folder};
ghost use Rattle.pm_meaning.specs.Assigning;
ghost use Rattle.pm_meaning.specs.Assigning.{assigned, assign, assign_with, unset};
ghost use Rattle.pm_meaning.specs.Minds.{mind_of};
ghost use Rattle.pm_meaning.specs.Turns.{GoesOn, say_then};
ghost use Rattle.pm_subst.specs.Commands.{commands_in};
ghost use Rattle.pm_subst.specs.declared.kinds.Mode.TheVariants.{One};
ghost use Rattle.pm_meaning.specs.Turning.{turn_of};
ghost use Rattle.pm_run.specs.Turned.{turn_in};

use crate::global_lock::{change_lock, drop_lock};
use crate::turned::{Turned, turned_by};
use pm_bytes::{Blob, Memory, Name, full, read_count};
use pm_host::Looked;
use pm_journal::{Effects, couldnt_chdir, host_mismatched, unusable_name};
use pm_meaning::{
    End, Expansion, Process, Run, expand_text, file_name, first_word, outputs_of, skip_value, tell,
};
use pm_perform::refuse;
use pm_subst::Mode;
use std::alloc::Global;

/// Expands the text and gives it to the variable, with the effect that this has.
pub fn assign_text<D: Effects>(
    alloc: Global,
    run: &mut Run<D>,
    name: &[u8],
    text: &[u8],
) -> Result<Turned, Memory>
    ensures carries { Carries (assign name.now text.now (mind_of run.old.process))
        (λ turned. turn_in turned (mind_of run.new.process)) result
        run.old.journal run.new.journal (D.told run.old.outside) (D.told run.new.outside) }
{
    let outputs = outputs_of(alloc, run, text, Mode::One)?;
    assign_expanded(alloc, run, name, text, outputs.as_slice())
}

// Expands the text with the outputs of its commands, and gives it to the variable.
fn assign_expanded<D: Effects>(
    alloc: Global,
    run: &mut Run<D>,
    name: &[u8],
    text: &[u8],
    outputs: &[Blob],
) -> Result<Turned, Memory>
    requires each { length outputs.now ≡ length (commands_in One text.now) }
    ensures carries { Carries (assign_with name.now text.now outputs.now (mind_of run.old.process))
        (λ turned. turn_in turned (mind_of run.new.process)) result
        run.old.journal run.new.journal (D.told run.old.outside) (D.told run.new.outside) }
{
    match expand_text(alloc, text, Mode::One, &run.process.vars, outputs)? {
        Expansion::Words(words) => {
            let value = first_word(alloc, words);
            assign_value(alloc, run, name, value)
        }
        Expansion::TooLong(length) => turned_by(skip_value(alloc, run, length)),
    }
}

pub fn assign_value<D: Effects>(
    alloc: Global,
    run: &mut Run<D>,
    name: &[u8],
    value: Blob,
) -> Result<Turned, Memory>
    ensures carries { Carries (assigned name.now value (mind_of run.old.process))
        (λ turned. turn_in turned (mind_of run.new.process)) result
        run.old.journal run.new.journal (D.told run.old.outside) (D.told run.new.outside) }
{
    let copy = value.copy(alloc)?;
    run.process.vars.set(name, value)?;
    if is_maildir(name) {
        turned_by(move_to_folder(alloc, run, copy.as_slice()))
    } else if is_lockfile(name) {
        turned_by(change_lock(alloc, run, copy.as_slice()))
    } else {
        change_other(alloc, run, name, copy.as_slice())
    }
}

// The value may be a line to log, or say how many arguments are dropped.
fn change_other<D: Effects>(
    alloc: Global,
    run: &mut Run<D>,
    name: &[u8],
    value: &[u8],
) -> Result<Turned, Memory>
    ensures carries { Carries (Assigning.change_other name.now value.now (mind_of run.old.process))
        (λ turned. turn_in turned (mind_of run.new.process)) result
        run.old.journal run.new.journal (D.told run.old.outside) (D.told run.new.outside) }
{
    if is_log(name) {
        return log_value(alloc, run, value);
    }
    if is_shift(name) {
        shift_arguments(value, &mut run.process);
        return Ok(Turned::Goes);
    }
    change_rcfile(alloc, run, name, value)
}

// LOG got this value.
fn log_value<D: Effects>(alloc: Global, run: &mut Run<D>, value: &[u8]) -> Result<Turned, Memory>
    ensures carries { let p = mind_of run.old.process in
        Carries (say_then p value.now (GoesOn p)) (λ turned. turn_in turned (mind_of run.new.process)) result
        run.old.journal run.new.journal (D.told run.old.outside) (D.told run.new.outside) }
    ensures same { run.new.process ≡ run.old.process }
{
    let line = Blob::from_slice(alloc, value)?;
    tell(alloc, run, line)?;
    Ok(Turned::Goes)
}

// SHIFT got this value: without a number nothing is dropped.
fn shift_arguments(value: &[u8], process: &mut Process)
    ensures shifted { mind_of process.new ≡ Assigning.shift_arguments value.now (mind_of process.old) }
    ensures locks { process.new.locks ≡ process.old.locks }
{
    if let Some(count) = read_count(value) {
        process.vars.shift(count);
    }
}

// Whether the variable is LOG.
fn is_log(name: &[u8]) -> bool
    ensures { result ≡ bytes_eq name.now (codes "LOG") }
{
    name == b"LOG".as_slice()
}

// Whether the variable is SHIFT.
fn is_shift(name: &[u8]) -> bool
    ensures { result ≡ bytes_eq name.now (codes "SHIFT") }
{
    name == b"SHIFT".as_slice()
}

// The value may name another rcfile, that of INCLUDERC or SWITCHRC, or another host.
fn change_rcfile<D: Effects>(
    alloc: Global,
    run: &mut Run<D>,
    name: &[u8],
    value: &[u8],
) -> Result<Turned, Memory>
    ensures carries { Carries (Assigning.change_rcfile name.now value.now (mind_of run.old.process))
        (λ turned. turn_in turned (mind_of run.new.process)) result
        run.old.journal run.new.journal (D.told run.old.outside) (D.told run.new.outside) }
    ensures same { run.new.process ≡ run.old.process }
{
    if is_includerc(name) {
        return include_rcfile(alloc, run, value);
    }
    if is_switchrc(name) {
        return switch_rcfile(alloc, run, value);
    }
    if is_host(name) {
        return change_host(alloc, run, value);
    }
    Ok(Turned::Goes)
}

// HOST got this value.
fn change_host<D: Effects>(alloc: Global, run: &mut Run<D>, value: &[u8]) -> Result<Turned, Memory>
    ensures carries { Carries (Assigning.change_host value.now (mind_of run.old.process))
        (λ turned. turn_in turned (mind_of run.new.process)) result
        run.old.journal run.new.journal (D.told run.old.outside) (D.told run.new.outside) }
    ensures same { run.new.process ≡ run.old.process }
{
    if is_own_name(value, &run.process) {
        return Ok(Turned::Goes);
    }
    let line = host_mismatched(alloc, value)?;
    tell(alloc, run, line)?;
    Ok(Turned::Halts(End::HostOff))
}

// INCLUDERC got this value.
fn include_rcfile<D: Effects>(
    alloc: Global,
    run: &mut Run<D>,
    value: &[u8],
) -> Result<Turned, Memory>
    ensures carries { Carries (Assigning.include_rcfile value.now (mind_of run.old.process))
        (λ turned. turn_in turned (mind_of run.new.process)) result
        run.old.journal run.new.journal (D.told run.old.outside) (D.told run.new.outside) }
    ensures same { run.new.process ≡ run.old.process }
{
    if value.is_empty() {
        return Ok(Turned::Goes);
    }
    match file_name(alloc, value)? {
        Some(name) => Ok(Turned::Includes(full(alloc, &run.process.base, &name)?)),
        None => turned_by(refuse(alloc, run, value)),
    }
}

// SWITCHRC got this value.
fn switch_rcfile<D: Effects>(
    alloc: Global,
    run: &mut Run<D>,
    value: &[u8],
) -> Result<Turned, Memory>
    ensures carries { Carries (Assigning.switch_rcfile value.now (mind_of run.old.process))
        (λ turned. turn_in turned (mind_of run.new.process)) result
        run.old.journal run.new.journal (D.told run.old.outside) (D.told run.new.outside) }
    ensures same { run.new.process ≡ run.old.process }
{
    if value.is_empty() {
        return Ok(Turned::EndsFile);
    }
    match file_name(alloc, value)? {
        Some(name) => Ok(Turned::Switches(full(alloc, &run.process.base, &name)?)),
        None => turned_by(refuse(alloc, run, value)),
    }
}

// Whether the variable is LOCKFILE.
fn is_lockfile(name: &[u8]) -> bool
    ensures { result ≡ bytes_eq name.now (codes "LOCKFILE") }
{
    name == b"LOCKFILE".as_slice()
}

// Whether the variable is MAILDIR.
fn is_maildir(name: &[u8]) -> bool
    ensures { result ≡ bytes_eq name.now (codes "MAILDIR") }
{
    name == b"MAILDIR".as_slice()
}

// Names are seen from this folder from now on, if it is there.
fn move_to_folder<D: Effects>(
    alloc: Global,
    run: &mut Run<D>,
    value: &[u8],
) -> Result<Option<End>, Memory>
    ensures carries { Carries (change_folder value.now (mind_of run.old.process))
        (λ end. turn_of end (mind_of run.new.process)) result
        run.old.journal run.new.journal (D.told run.old.outside) (D.told run.new.outside) }
{
    match file_name(alloc, value)? {
        Some(name) => {
            let name = full(alloc, &run.process.base, &name)?;
            probe_folder(alloc, run, name)
        }
        None => {
            let line = unusable_name(alloc, value)?;
            tell(alloc, run, line)?;
            Ok(None)
        }
    }
}

fn probe_folder<D: Effects>(
    alloc: Global,
    run: &mut Run<D>,
    name: Name,
) -> Result<Option<End>, Memory>
    ensures carries { Carries (and_then (ask (Probe name)) (probed name (mind_of run.old.process)))
        (λ end. turn_of end (mind_of run.new.process)) result
        run.old.journal run.new.journal (D.told run.old.outside) (D.told run.new.outside) }
{
    let folder = name.copy(alloc)?;
    match run.probe(name)? {
        Looked::Folder => {
            run.process.base = folder;
            Ok(None)
        }
        _ => {
            let line = couldnt_chdir(alloc, &folder)?;
            tell(alloc, run, line)?;
            Ok(None)
        }
    }
}

/// Takes the variable away. With LOCKFILE goes its lock, and without SWITCHRC the current rcfile is over.
pub fn unset_variable<D: Effects>(
    alloc: Global,
    run: &mut Run<D>,
    name: &[u8],
) -> Result<Turned, Memory>
    ensures carries { Carries (unset name.now (mind_of run.old.process))
        (λ turned. turn_in turned (mind_of run.new.process)) result
        run.old.journal run.new.journal (D.told run.old.outside) (D.told run.new.outside) }
{
    run.process.vars.unset(name);
    if is_switchrc(name) {
        return Ok(Turned::EndsFile);
    }
    if is_lockfile(name) {
        turned_by(drop_lock(alloc, run))
    } else {
        Ok(Turned::Goes)
    }
}

// Whether the value is the host's name.
fn is_own_name(value: &[u8], process: &Process) -> bool
    ensures { result ≡ bytes_eq value.now process.now.host_name }
{
    value == process.host_name.as_str().as_bytes()
}

// Whether the variable is HOST.
fn is_host(name: &[u8]) -> bool
    ensures { result ≡ bytes_eq name.now (codes "HOST") }
{
    name == b"HOST".as_slice()
}

// Whether the variable is INCLUDERC.
fn is_includerc(name: &[u8]) -> bool
    ensures { result ≡ bytes_eq name.now (codes "INCLUDERC") }
{
    name == b"INCLUDERC".as_slice()
}

// Whether the variable is SWITCHRC.
fn is_switchrc(name: &[u8]) -> bool
    ensures { result ≡ bytes_eq name.now (codes "SWITCHRC") }
{
    name == b"SWITCHRC".as_slice()
}
