//! The recipes that a run came to, with what came of their conditions.
ghost use Rattle.std.specs.Prelude.{◌≡◌, ◌+◌, ◌<◌, ◌^◌, OnOk, false};
ghost use Rattle.explain_mails.specs.Members.{Adds};
ghost use Rattle.explain_mails.specs.Recipes.{recipes_member, recipes_from, closed, shown_tokens, told_tokens};
ghost use Rattle.explain_mails.specs.Recipes.{recipe_begun, condition_tokens, line_members, came_members, match_member};
ghost use Rattle.explain_mails.specs.Recipes.{counted_members, compared_members, exited_members, long_members};
ghost use Rattle.explain_mails.specs.Recipes.{sizes_members, matched_member, error_member, is_open_after, steps_after};

use crate::members::{
    put_maybe_member, put_maybe_number_member, put_number_member, put_signed_member,
    put_text_member, put_truth_member,
};
use explain_notes::{Line, Shown, Told, What, shown_of};
use json::Writer;
use pm_bytes::{Blob, Memory};
use pm_conds::Note;
use pm_journal::Entry;
use pm_meaning::question::Outcome;
use std::alloc::Global;

pub(crate) fn put_recipes_member(
    alloc: Global,
    writer: &mut Writer,
    quiet: bool,
    entries: &[Entry],
    notes: &[Note],
) -> Result<(), Memory>
    ensures { OnOk result (Adds writer.old writer.new (recipes_member quiet entries.now notes.now)) }
{
    if quiet {
        return Ok(());
    }
    let shown = shown_of(alloc, entries, notes)?;
    writer.key("recipes")?;
    writer.begin_array()?;
    put_recipes(alloc, writer, shown.as_slice())?;
    writer.end_array()?;
    Ok(())
}

fn put_recipes(alloc: Global, writer: &mut Writer, shown: &[Shown]) -> Result<(), Memory>
    ensures { OnOk result (Adds writer.old writer.new (recipes_from false 0 shown.now)) }
{
    let mut is_open = false;
    let mut steps = 0;
    for one in shown {
        put_shown(alloc, writer, one, is_open, steps as u64)?;
        is_open = is_open_after(one, is_open);
        steps = steps_after(one, steps);
    }
    put_closed(writer, is_open)
}

fn is_open_after(shown: &Shown, is_open: bool) -> bool
    ensures { result ≡ is_open_after shown.now is_open }
{
    match shown {
        Shown::Told(told) => match &told.what {
            What::Recipe { .. } => true,
            What::Condition { .. } => is_open,
        },
        Shown::Step(_) => is_open,
    }
}

fn steps_after(shown: &Shown, steps: usize) -> usize
    requires { steps + 1 < 2 ^ 64 }
    ensures { result ≡ steps_after shown.now steps }
{
    match shown {
        Shown::Step(_) => steps + 1,
        Shown::Told(_) => steps,
    }
}

// The object of the last recipe ends.
fn put_closed(writer: &mut Writer, is_open: bool) -> Result<(), Memory>
    ensures { OnOk result (Adds writer.old writer.new (closed is_open)) }
{
    if is_open {
        writer.end_array()?;
        writer.end_object()?;
    }
    Ok(())
}

fn put_shown(
    alloc: Global,
    writer: &mut Writer,
    shown: &Shown,
    is_open: bool,
    steps: u64,
) -> Result<(), Memory>
    ensures { OnOk result (Adds writer.old writer.new (shown_tokens shown.now is_open steps)) }
{
    match shown {
        Shown::Step(_) => Ok(()),
        Shown::Told(told) => put_told(alloc, writer, told, is_open, steps),
    }
}

fn put_told(
    alloc: Global,
    writer: &mut Writer,
    told: &Told,
    is_open: bool,
    steps: u64,
) -> Result<(), Memory>
    ensures { OnOk result (Adds writer.old writer.new (told_tokens told.now told.now.what is_open steps)) }
{
    match &told.what {
        What::Recipe { tried, .. } => {
            put_closed(writer, is_open)?;
            put_recipe(alloc, writer, told, *tried, steps)
        }
        What::Condition { outcome, score } => {
            if !is_open {
                return Ok(());
            }
            put_condition(alloc, writer, told, outcome, *score)
        }
    }
}

// The object of a recipe up to its first condition.
fn put_recipe(
    alloc: Global,
    writer: &mut Writer,
    told: &Told,
    tried: bool,
    steps: u64,
) -> Result<(), Memory>
    ensures { OnOk result (Adds writer.old writer.new (recipe_begun told.now tried steps)) }
{
    writer.begin_object()?;
    put_text_member(alloc, writer, "rcfile", told.rcfile.as_slice())?;
    put_line(alloc, writer, &told.line)?;
    put_truth_member(writer, "tried", tried)?;
    put_number_member(writer, "steps", steps)?;
    writer.key("conditions")?;
    writer.begin_array()?;
    Ok(())
}

fn put_condition(
    alloc: Global,
    writer: &mut Writer,
    told: &Told,
    outcome: &Outcome,
    score: i32,
) -> Result<(), Memory>
    ensures { OnOk result (Adds writer.old writer.new (condition_tokens told.now outcome.now score)) }
{
    writer.begin_object()?;
    put_line(alloc, writer, &told.line)?;
    put_came(alloc, writer, outcome, score)?;
    writer.end_object()?;
    Ok(())
}

// The number and the text of a line; `null` where it isn't known.
fn put_line(alloc: Global, writer: &mut Writer, line: &Option<Line>) -> Result<(), Memory>
    ensures { OnOk result (Adds writer.old writer.new (line_members line.now)) }
{
    match line {
        None => {
            put_maybe_number_member(writer, "line", None)?;
            put_maybe_member(alloc, writer, "text", None)
        }
        Some(line) => {
            put_maybe_number_member(writer, "line", Some(line.number))?;
            put_maybe_member(alloc, writer, "text", Some(&line.text))
        }
    }
}

fn put_came(alloc: Global, writer: &mut Writer, outcome: &Outcome, score: i32) -> Result<(), Memory>
    ensures { OnOk result (Adds writer.old writer.new (came_members outcome.now score)) }
{
    match outcome {
        Outcome::Holds => put_truth_member(writer, "holds", true),
        Outcome::Matched(bytes) => {
            put_truth_member(writer, "holds", true)?;
            put_matched(alloc, writer, bytes.as_slice())
        }
        Outcome::Fails => put_truth_member(writer, "holds", false),
        Outcome::Counted { matches, bytes, .. } => {
            put_counted(alloc, writer, *matches, bytes, score)
        }
        Outcome::Compared { length, number, .. } => put_compared(writer, *length, *number, score),
        Outcome::Exited { code, .. } => put_exited(writer, *code, score),
        Outcome::Defective => put_error(alloc, writer, b"not a condition"),
        Outcome::TooLong(length) => put_long(alloc, writer, *length),
    }
}

fn put_counted(
    alloc: Global,
    writer: &mut Writer,
    matches: u64,
    bytes: &Option<Blob>,
    score: i32,
) -> Result<(), Memory>
    ensures { OnOk result (Adds writer.old writer.new (counted_members matches bytes.now score)) }
{
    put_number_member(writer, "matches", matches)?;
    put_signed_member(writer, "score", score)?;
    put_match(alloc, writer, bytes)
}

fn put_compared(writer: &mut Writer, length: u64, number: u64, score: i32) -> Result<(), Memory>
    ensures { OnOk result (Adds writer.old writer.new (compared_members length number score)) }
{
    put_sizes(writer, length, number)?;
    put_signed_member(writer, "score", score)
}

#[tactic(auto, unfolding(crate::specs::Recipes::sizes_members))]
fn put_sizes(writer: &mut Writer, length: u64, number: u64) -> Result<(), Memory>
    ensures { OnOk result (Adds writer.old writer.new (sizes_members length number)) }
{
    put_number_member(writer, "length", length)?;
    put_number_member(writer, "limit", number)
}

fn put_exited(writer: &mut Writer, code: u8, score: i32) -> Result<(), Memory>
    ensures { OnOk result (Adds writer.old writer.new (exited_members code score)) }
{
    put_number_member(writer, "code", code as u64)?;
    put_signed_member(writer, "score", score)
}

fn put_long(alloc: Global, writer: &mut Writer, length: u64) -> Result<(), Memory>
    ensures { OnOk result (Adds writer.old writer.new (long_members length)) }
{
    put_error(alloc, writer, b"value too long")?;
    put_number_member(writer, "length", length)
}

#[tactic(auto, unfolding(crate::specs::Recipes::error_member))]
fn put_error(alloc: Global, writer: &mut Writer, words: &[u8]) -> Result<(), Memory>
    ensures { OnOk result (Adds writer.old writer.new (error_member words.now)) }
{
    put_text_member(alloc, writer, "error", words)
}

fn put_match(alloc: Global, writer: &mut Writer, bytes: &Option<Blob>) -> Result<(), Memory>
    ensures { OnOk result (Adds writer.old writer.new (match_member bytes.now)) }
{
    match bytes {
        None => Ok(()),
        Some(bytes) => put_matched(alloc, writer, bytes.as_slice()),
    }
}

#[tactic(auto, unfolding(crate::specs::Recipes::matched_member))]
fn put_matched(alloc: Global, writer: &mut Writer, bytes: &[u8]) -> Result<(), Memory>
    ensures { OnOk result (Adds writer.old writer.new (matched_member bytes.now)) }
{
    put_text_member(alloc, writer, "match", bytes)
}
