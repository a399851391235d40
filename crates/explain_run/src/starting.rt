//! Which programs of a run may be started: those of conditions, commands in backquotes, and filters.
ghost use Rattle.std.specs.Prelude.{◌≡◌, ◌++◌, ◌&&◌, true, IfOk, OnOk, IfSome, option_copied};
ghost use Rattle.explain_run.specs.Starting.{is_asked, start_of, listed, starts_of, is_past, first_from, is_repeatable};
ghost use Rattle.explain_run.specs.Starting.{can_repeat, goes_on, next_start};

use crate::captures::may_be_captured;
use crate::heard::is_of_condition;
use crate::programs::program_at;
use pm_bytes::{Blob, Memory};
use pm_conds::Note;
use pm_journal::{Act, Entry, Reply};
use pm_overlay::has_answer;
use std::alloc::Global;

/// The place of the program that is started next, after the one that was started last, by the journal and the notes of
/// the run in which that was. It is a condition's or a filter, or a command in backquotes, and the commands of these
/// lines have answers.
pub fn next_start(
    alloc: Global,
    lines: &[Blob],
    entries: &[Entry],
    notes: &[Note],
    last: Option<usize>,
) -> Result<Option<usize>, Memory>
    ensures next { IfOk result (λ next. next ≡ next_start lines.now entries.now notes.now last) }
    ensures later { IfOk result (λ next. IfSome next (λ place. is_past last place ≡ true)) }
{
    if !goes_on(entries, last) {
        return Ok(None);
    }
    let starts = starts_of(alloc, lines, entries, notes)?;
    Ok(first_after(last, starts.as_slice()))
}

// Whether the answer of the program that was started last can be given again.
fn goes_on(entries: &[Entry], last: Option<usize>) -> bool
    ensures { result ≡ goes_on entries.now last }
{
    match last {
        None => true,
        Some(last) => can_repeat(program_at(entries, last)),
    }
}

fn can_repeat(program: Option<&Entry>) -> bool
    ensures { result ≡ can_repeat (option_copied program.entry) }
{
    match program {
        None => true,
        Some(entry) => is_repeatable(&entry.reply),
    }
}

fn is_repeatable(reply: &Reply) -> bool
    ensures { result ≡ is_repeatable reply.now }
{
    matches!(reply, Reply::Ended { .. } | Reply::NotStarted)
}

fn first_after(last: Option<usize>, starts: &[bool]) -> Option<usize>
    ensures first { result ≡ first_from last 0 starts.now }
    ensures later { IfSome result (λ place. is_past last place ≡ true) }
{
    for (place, start) in starts.iter().enumerate() {
        if is_due(last, place, *start) {
            return Some(place);
        }
    }
    None
}

// Whether the program at the place comes after the last one and may be started.
fn is_due(last: Option<usize>, place: usize, start: bool) -> bool
    ensures is { result ≡ (is_past last place && start) }
    ensures later { result ≡ true → is_past last place ≡ true }
{
    is_past(last, place) && start
}

fn is_past(last: Option<usize>, place: usize) -> bool
    ensures { result ≡ is_past last place }
{
    match last {
        None => true,
        Some(last) => last < place,
    }
}

// Whether each program of the run may be started.
fn starts_of(
    alloc: Global,
    lines: &[Blob],
    entries: &[Entry],
    notes: &[Note],
) -> Result<Vec<bool>, Memory>
    ensures { IfOk result (λ starts. starts.items ≡ starts_of lines.now entries.now notes.now) }
{
    let mut starts = Vec::new(alloc);
    for (index, entry) in entries.iter().enumerate() {
        let start = start_of(alloc, lines, entries, notes, index, &entry.act)?;
        add(&mut starts, start)?;
    }
    Ok(starts)
}

fn add(starts: &mut Vec<bool>, start: Option<bool>) -> Result<(), Memory>
    ensures { OnOk result (starts.new.items ≡ starts.old.items ++ listed start) }
{
    if let Some(start) = start {
        starts.push(start)?;
    }
    Ok(())
}

fn start_of(
    alloc: Global,
    lines: &[Blob],
    entries: &[Entry],
    notes: &[Note],
    index: usize,
    act: &Act,
) -> Result<Option<bool>, Memory>
    ensures { IfOk result (λ start. start ≡ start_of lines.now entries.now notes.now index act.now) }
{
    match act {
        Act::Run { command, want, .. } => {
            if has_answer(alloc, lines, command)? {
                return Ok(Some(false));
            }
            Ok(Some(is_asked(alloc, entries, notes, index, *want)?))
        }
        _ => Ok(None),
    }
}

// Whether a condition asked for the program, or its output is wanted, and not by a variable.
fn is_asked(
    alloc: Global,
    entries: &[Entry],
    notes: &[Note],
    index: usize,
    want: bool,
) -> Result<bool, Memory>
    ensures { IfOk result (λ is. is ≡ is_asked entries.now notes.now index want) }
{
    if is_of_condition(notes, index) {
        return Ok(true);
    }
    if !want {
        return Ok(false);
    }
    Ok(!may_be_captured(alloc, entries, notes, index)?)
}
