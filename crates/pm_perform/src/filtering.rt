//! Programs whose output is wanted: it takes the place of the parts of the mail that they were fed, or becomes the
//! value of a variable (procmailrc(5), "Recipe flags" and "Recipe action line"). Memory can be wanting after their run.
ghost use Rattle.std.specs.Prelude.{◌≡◌, ◌++◌, ◌+◌, ℕ, List, [], length, nat_lt, IfOk, OnOk};
ghost use Rattle.pm_journal.specs.Executed.{Carries};
ghost use Rattle.pm_journal.specs.Outcomes;
ghost use Rattle.pm_meaning.specs.Changes.{overflowed};
ghost use Rattle.pm_meaning.specs.Delivering.{feed_of};
ghost use Rattle.pm_meaning.specs.Locks.{text_or};
ghost use Rattle.pm_meaning.specs.Minds.{mind_of};
ghost use Rattle.pm_meaning.specs.ProgramActions.{filter_mail, mail_if, unless_too_long};
ghost use Rattle.pm_meaning.specs.ProgramActions;
ghost use Rattle.pm_meaning.specs.ProgramActions.{captured_in, unless_overflow};
ghost use Rattle.pm_perform.specs.Errands.{tried_of};

use crate::ends::{end_outcome, feed_outcome, is_fine};
use crate::filing::fed_parts;
use pm_bytes::{Blob, Memory};
use pm_host::Command;
use pm_journal::{Effects, Entries, Journal, RunEnd};
use pm_meaning::{Outcome, Process, Run, note_code};
use pm_message::{Feed, Mail, Message};
use pm_recipe::Flags;
use pm_subst::without_newlines;
use std::alloc::Global;

/// The most bytes of a mail.
const MOST_MAIL: usize = 67_108_864;

/// The most bytes of a variable's value.
const MOST_VALUE: usize = 1_048_576;

/// Runs a program that filters the mail.
pub fn filter<D: Effects>(
    alloc: Global,
    run: &mut Run<D>,
    command: Command,
    input: Blob,
    flags: Flags,
) -> Result<Outcome, Memory>
    ensures carries { Carries (filter_mail flags command input (mind_of run.old.process))
        (λ outcome. tried_of outcome (mind_of run.new.process)) result
        run.old.journal run.new.journal (D.told run.old.outside) (D.told run.new.outside) }
    ensures locks { run.new.process.locks ≡ run.old.process.locks }
{
    let count = input.len() as u64;
    let end = run.run_program(alloc, command, input, true)?;
    note_code(end, &mut run.process);
    let fed = feed_outcome(flags, count, end);
    take_mail(alloc, flags, fed, &run.journal, &mut run.process)
}

/// Runs a program whose output is for the variable of this name.
pub fn capture<D: Effects>(
    alloc: Global,
    run: &mut Run<D>,
    command: Command,
    input: Blob,
    name: Blob,
    flags: Flags,
) -> Result<Outcome, Memory>
    ensures carries { Carries (ProgramActions.capture flags name command input (mind_of run.old.process))
        (λ outcome. tried_of outcome (mind_of run.new.process)) result
        run.old.journal run.new.journal (D.told run.old.outside) (D.told run.new.outside) }
    ensures locks { run.new.process.locks ≡ run.old.process.locks }
{
    let end = run.run_program(alloc, command, input, true)?;
    note_code(end, &mut run.process);
    take_value(
        alloc,
        flags,
        end,
        name.as_slice(),
        last_output(&run.journal),
        &mut run.process,
    )
}

// The output of the program that ran last, or nothing where none came.
fn last_output<K: Entries>(journal: &Journal<K>) -> &[u8]
    ensures { result.now ≡ text_or [] (Outcomes.last_output journal.now.entries) }
{
    match journal.last_output() {
        None => b"",
        Some(output) => output.as_slice(),
    }
}

// The same, in the memory of the entry.
fn output_copy<K: Entries>(alloc: Global, journal: &Journal<K>) -> Result<Blob, Memory>
    ensures { IfOk result (λ output. output ≡ text_or [] (Outcomes.last_output journal.now.entries)) }
{
    match journal.last_output() {
        None => Ok(Blob::empty(alloc)),
        Some(output) => output.copy(alloc),
    }
}

// Where the program did well, its output takes its place in the mail, unless that is too long then.
fn take_mail<K: Entries>(
    alloc: Global,
    flags: Flags,
    fed: Outcome,
    journal: &Journal<K>,
    process: &mut Process,
) -> Result<Outcome, Memory>
    ensures outcome { let output = text_or [] (Outcomes.last_output journal.now.entries) in
        let mail = ProgramActions.refilled (feed_of flags) output process.old.message in
        IfOk result (λ outcome. outcome ≡ unless_too_long fed (length mail)) }
    ensures mind { let output = text_or [] (Outcomes.last_output journal.now.entries) in
        let mail = ProgramActions.refilled (feed_of flags) output process.old.message in
        IfOk result (λ outcome. mind_of process.new ≡ mail_if outcome mail (mind_of process.old)) }
    ensures locks { process.new.locks ≡ process.old.locks }
{
    let output = output_copy(alloc, journal)?;
    take_output(alloc, flags, fed, output, process)
}

fn take_output(
    alloc: Global,
    flags: Flags,
    fed: Outcome,
    output: Blob,
    process: &mut Process,
) -> Result<Outcome, Memory>
    ensures outcome { let mail = ProgramActions.refilled (feed_of flags) output process.old.message in
        IfOk result (λ outcome. outcome ≡ unless_too_long fed (length mail)) }
    ensures mind { let mail = ProgramActions.refilled (feed_of flags) output process.old.message in
        IfOk result (λ outcome. mind_of process.new ≡ mail_if outcome mail (mind_of process.old)) }
    ensures locks { process.new.locks ≡ process.old.locks }
{
    if !is_fine(fed) {
        return Ok(fed);
    }
    let feed = fed_parts(flags);
    let parts = process.message.parts();
    if is_too_long(feed, &output, parts) {
        return Ok(Outcome::TooLong);
    }
    let bytes = refilled(alloc, feed, output, parts)?;
    process.message = Mail::split_own(alloc, bytes)?;
    Ok(fed)
}

// Whether the mail with the output in its place has too many bytes.
fn is_too_long(feed: Feed, output: &Blob, message: &Message) -> bool
    ensures { result ≡ nat_lt 67108864 (length (ProgramActions.refilled feed output.now message.now)) }
{
    output.len() > MOST_MAIL || kept_length(feed, message) > MOST_MAIL - output.len()
}

// How many bytes of the mail stay.
fn kept_length(feed: Feed, message: &Message) -> usize
    ensures { (output : List ℕ) → length output + result ≡ length (ProgramActions.refilled feed output message.now) }
{
    match feed {
        Feed::Both => 0,
        Feed::Head => message.body.len(),
        Feed::Body => message.head.len(),
    }
}

// The mail with the output in the place of the parts that were fed.
fn refilled(alloc: Global, feed: Feed, output: Blob, message: &Message) -> Result<Blob, Memory>
    ensures { IfOk result (λ bytes. bytes ≡ ProgramActions.refilled feed output message.now) }
{
    match feed {
        Feed::Both => Ok(output),
        Feed::Head => followed_by(output, message.body.as_slice()),
        Feed::Body => followed_by(message.head.copy(alloc)?, output.as_slice()),
    }
}

fn followed_by(mut front: Blob, rest: &[u8]) -> Result<Blob, Memory>
    ensures { IfOk result (λ both. both ≡ front ++ rest.now) }
{
    front.push_slice(rest)?;
    Ok(front)
}

// Where all went well, the variable gets the output without the newlines at its end, unless that is too long for it.
fn take_value(
    alloc: Global,
    flags: Flags,
    end: RunEnd,
    name: &[u8],
    output: &[u8],
    process: &mut Process,
) -> Result<Outcome, Memory>
    ensures outcome { IfOk result (λ outcome. outcome
        ≡ unless_overflow (ProgramActions.end_outcome flags end) (length output.now)) }
    ensures mind { IfOk result (λ outcome. mind_of process.new
        ≡ captured_in name.now output.now outcome (mind_of process.old)) }
    ensures locks { process.new.locks ≡ process.old.locks }
{
    let came = end_outcome(flags, end);
    if !is_fine(came) {
        return Ok(came);
    }
    if output.len() > MOST_VALUE {
        mark_overflow(alloc, process)?;
        return Ok(Outcome::Overflow(output.len() as u64));
    }
    let value = Blob::from_slice(alloc, without_newlines(output))?;
    process.vars.set(name, value)?;
    Ok(Outcome::Done)
}

// PROCMAIL_OVERFLOW tells that a value was too long.
fn mark_overflow(alloc: Global, process: &mut Process) -> Result<(), Memory>
    ensures marked { OnOk result (mind_of process.new ≡ overflowed (mind_of process.old)) }
    ensures locks { process.new.locks ≡ process.old.locks }
{
    let mark = Blob::from_slice(alloc, b"yes")?;
    process.vars.set(b"PROCMAIL_OVERFLOW", mark)?;
    Ok(())
}
