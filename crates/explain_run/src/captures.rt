//! Which programs may be those of recipes `VAR=| program`, whose output a variable gets.
ghost use Rattle.std.specs.Prelude.{◌≡◌, IfOk, Some, take, drop, slice_get, option_copied, option_map};
ghost use Rattle.pm_code.specs.Flat.{flat_of, flats_of};
ghost use Rattle.pm_meaning.specs.Programs.{has_backquote};
ghost use Rattle.pm_recipe.specs.View.{act_of};
ghost use Rattle.explain_run.specs.Captures.{read_of, text_of, lock_has_backquote, captures_by, captures_in};
ghost use Rattle.explain_run.specs.Captures.{HasCode, is_captured, by_text, by_recipe, is_wanted, any_wanted};
ghost use Rattle.explain_run.specs.Captures.{may_be_captured};

use crate::heard::{entries_at, last_note, last_recipe, may_act};
use pm_bytes::{BACKQUOTE, Blob, Memory};
use pm_code::{Code, Step, compile};
use pm_conds::Note;
use pm_journal::{Act, Entry, Reply};
use pm_recipe::{Action, RcRefused, one_rc, read_rc};
use std::alloc::Global;

/// Whether a recipe gives the output of its program to a variable, maybe after commands in backquotes.
#[derive(Clone, Copy)]
pub(crate) enum Captures {
    Nothing,
    Output,
    AfterCommands,
}

/// Whether the program of the entry at this index, whose output is wanted and which no condition asked for, may be that
/// of a recipe `VAR=| program`.
pub(crate) fn may_be_captured(
    alloc: Global,
    entries: &[Entry],
    notes: &[Note],
    index: usize,
) -> Result<bool, Memory>
    ensures { IfOk result (λ may. may ≡ may_be_captured entries.now notes.now index) }
{
    match last_note(notes, index) {
        Some(last) if may_act(last) => {
            let earlier = any_wanted(entries, entries_at(last), index);
            by_recipe(alloc, entries, last_recipe(notes, index), earlier)
        }
        _ => Ok(false),
    }
}

fn by_recipe(
    alloc: Global,
    entries: &[Entry],
    recipe: Option<&Note>,
    earlier: bool,
) -> Result<bool, Memory>
    ensures { IfOk result (λ may. may ≡ by_recipe entries.now (option_copied recipe.entry) earlier) }
{
    match recipe {
        Some(
            Note::CameTo {
                rcfile,
                place,
                entries: heard,
                ..
            },
        ) => {
            let text = text_of(front(entries, *heard), rcfile.as_str().as_bytes());
            by_text(alloc, text, *place, earlier)
        }
        _ => Ok(true),
    }
}

// The first so many entries.
fn front(entries: &[Entry], count: usize) -> &[Entry]
    ensures { result.now ≡ take count entries.now }
{
    if count < entries.len() {
        &entries[..count]
    } else {
        entries
    }
}

// The entries from one index up to another.
fn between(entries: &[Entry], from: usize, to: usize) -> &[Entry]
    ensures { result.now ≡ drop from (take to entries.now) }
{
    let before = front(entries, to);
    if from < before.len() {
        &before[from..]
    } else {
        &[]
    }
}

fn any_wanted(entries: &[Entry], from: usize, to: usize) -> bool
    ensures { result ≡ any_wanted entries.now from to }
{
    between(entries, from, to)
        .iter()
        .any(|entry| is_wanted(&entry.act))
}

fn is_wanted(act: &Act) -> bool
    ensures { result ≡ is_wanted act.now }
{
    match act {
        Act::Run { want, .. } => *want,
        _ => false,
    }
}

// The text of the rcfile of this name, as it was read last.
fn text_of<'a>(entries: &'a [Entry], name: &[u8]) -> Option<&'a Blob>
    ensures { option_copied result ≡ text_of name.now entries.now }
{
    let mut found = None;
    for entry in entries {
        if let Some(text) = read_of(entry, name) {
            found = Some(text);
        }
    }
    found
}

fn read_of<'a>(entry: &'a Entry, name: &[u8]) -> Option<&'a Blob>
    ensures { option_copied result ≡ read_of name.now entry.now.act entry.now.reply }
{
    match (&entry.act, &entry.reply) {
        (Act::ReadFile { name: other }, Reply::Content(bytes))
            if other.as_str().as_bytes() == name => { Some(bytes) }
        _ => None,
    }
}

fn by_text(alloc: Global, text: Option<&Blob>, place: usize, earlier: bool) -> Result<bool, Memory>
    ensures { IfOk result (λ may. may ≡ by_text (option_copied text.entry) place earlier) }
{
    match text {
        None => Ok(true),
        Some(text) => by_bytes(alloc, text.as_slice(), place, earlier),
    }
}

fn by_bytes(alloc: Global, text: &[u8], place: usize, earlier: bool) -> Result<bool, Memory>
    ensures { IfOk result (λ may. may ≡ by_text (Some text.now) place earlier) }
{
    match code_of(alloc, text)? {
        None => Ok(true),
        Some(code) => Ok(is_captured(captures_at(&code, place), earlier)),
    }
}

// The code of an rcfile of these bytes; one that is too long has none.
fn code_of(alloc: Global, text: &[u8]) -> Result<Option<Code>, Memory>
    ensures { IfOk result (HasCode text.now) }
{
    one_rc();
    match read_rc(alloc, text) {
        Ok(rc) => Ok(Some(compile(alloc, &rc)?)),
        Err(RcRefused::TooLong { .. }) => Ok(None),
        Err(RcRefused::Memory) => Err(Memory),
    }
}

fn captures_at(code: &Code, place: usize) -> Captures
    ensures { result ≡ captures_in (slice_get (flats_of code.now.steps.items) place) }
{
    captures_in(code.steps.as_slice().get(place))
}

fn captures_in(step: Option<&Step>) -> Captures
    ensures { result ≡ captures_in (option_map flat_of (option_copied step.entry)) }
{
    match step {
        Some(Step::Plain(recipe)) => captures_by(&recipe.lock, &recipe.action),
        _ => Captures::Nothing,
    }
}

fn captures_by(lock: &Option<Blob>, action: &Action) -> Captures
    ensures { result ≡ captures_by lock.now (act_of action.now) }
{
    match action {
        Action::Capture { line, .. } => {
            if lock_has_backquote(lock) || has_backquote(line.as_slice()) {
                Captures::AfterCommands
            } else {
                Captures::Output
            }
        }
        _ => Captures::Nothing,
    }
}

fn lock_has_backquote(lock: &Option<Blob>) -> bool
    ensures { result ≡ lock_has_backquote lock.now }
{
    match lock {
        None => false,
        Some(text) => has_backquote(text.as_slice()),
    }
}

fn has_backquote(text: &[u8]) -> bool
    ensures { result ≡ has_backquote text.now }
{
    text.contains(&BACKQUOTE)
}

fn is_captured(captures: Captures, earlier: bool) -> bool
    ensures { result ≡ is_captured captures earlier }
{
    match captures {
        Captures::Nothing => false,
        Captures::Output => !earlier,
        Captures::AfterCommands => true,
    }
}
