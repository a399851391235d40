//! The line of a recipe, and that of a condition.
ghost use Rattle.std.specs.Prelude.{◌≡◌, ◌++◌, IfOk, OnOk};
ghost use Rattle.explain_notes.specs.Lines.{told_line, recipe_line, condition_line, place_told, number_told};
ghost use Rattle.explain_notes.specs.Lines.{recipe_text, recipe_told, untried, condition_text, why, why_line};
ghost use Rattle.pm_journal.specs.LogText.{quoted};

use crate::came::push_came;
use crate::pushing::{push_in_columns, push_number, push_quoted};
use crate::recipe::Line;
use crate::told::{Told, What};
use pm_bytes::{Blob, Memory};
use pm_meaning::question::Outcome;
use pm_recipe::{Flags, read_flags};
use std::alloc::Global;

/// The line, with its end.
pub fn told_line(alloc: Global, told: &Told) -> Result<Blob, Memory>
    ensures { IfOk result (λ line. line ≡ told_line told.now) }
{
    let mut line = Blob::empty(alloc);
    match &told.what {
        What::Recipe { place, tried } => push_recipe(alloc, &mut line, told, *place, *tried)?,
        What::Condition { outcome, score } => push_condition(
            alloc, &mut line, told, outcome, *score,
        )?,
    }
    line.push_slice(b"\n")?;
    Ok(line)
}

fn push_recipe(
    alloc: Global,
    line: &mut Blob,
    told: &Told,
    place: usize,
    tried: bool,
) -> Result<(), Memory>
    ensures { OnOk result (line.new ≡ line.old ++ recipe_line told.now place tried) }
{
    push_place(alloc, line, told)?;
    let text = recipe_text(alloc, &told.line, place)?;
    push_text(line, &told.line, text.as_slice(), tried)
}

fn push_text(line: &mut Blob, at: &Option<Line>, text: &[u8], tried: bool) -> Result<(), Memory>
    ensures { OnOk result (line.new ≡ line.old ++ recipe_told at.now text.now tried) }
{
    if tried {
        line.push_slice(text)
    } else {
        push_untried(line, at, text)
    }
}

fn push_untried(line: &mut Blob, at: &Option<Line>, text: &[u8]) -> Result<(), Memory>
    ensures { OnOk result (line.new ≡ line.old ++ untried at.now text.now) }
{
    push_in_columns(line, 36, text)?;
    line.push_slice(b"  not tried")?;
    line.push_slice(why_line(at))
}

fn push_condition(
    alloc: Global,
    line: &mut Blob,
    told: &Told,
    outcome: &Outcome,
    score: i32,
) -> Result<(), Memory>
    ensures { OnOk result (line.new ≡ line.old ++ condition_line told.now outcome.now score) }
{
    line.push_slice(b"  ")?;
    push_place(alloc, line, told)?;
    let text = condition_text(alloc, &told.line)?;
    push_in_columns(line, 34, text.as_slice())?;
    line.push_slice(b"  ")?;
    push_came(alloc, line, outcome, score)
}

// The rcfile and the number of the line.
fn push_place(alloc: Global, line: &mut Blob, told: &Told) -> Result<(), Memory>
    ensures { OnOk result (line.new ≡ line.old ++ place_told told.now) }
{
    push_quoted(alloc, line, told.rcfile.as_slice())?;
    let number = number_told(alloc, &told.line)?;
    push_in_columns(line, 4, number.as_slice())?;
    line.push_slice(b" ")
}

fn number_told(alloc: Global, line: &Option<Line>) -> Result<Blob, Memory>
    ensures { IfOk result (λ number. number ≡ number_told line.now) }
{
    match line {
        None => Ok(Blob::empty(alloc)),
        Some(line) => {
            let mut number = Blob::from_slice(alloc, b":")?;
            push_number(&mut number, line.number)?;
            Ok(number)
        }
    }
}

fn recipe_text(alloc: Global, line: &Option<Line>, place: usize) -> Result<Blob, Memory>
    ensures { IfOk result (λ text. text ≡ recipe_text line.now place) }
{
    match line {
        None => {
            let mut text = Blob::from_slice(alloc, b"recipe at place ")?;
            push_number(&mut text, place as u64)?;
            Ok(text)
        }
        Some(line) => line_text(alloc, line),
    }
}

fn condition_text(alloc: Global, line: &Option<Line>) -> Result<Blob, Memory>
    ensures { IfOk result (λ text. text ≡ condition_text line.now) }
{
    match line {
        None => Blob::from_slice(alloc, b"condition"),
        Some(line) => line_text(alloc, line),
    }
}

fn line_text(alloc: Global, line: &Line) -> Result<Blob, Memory>
    ensures { IfOk result (λ text. text ≡ quoted line.now.text) }
{
    let mut text = Blob::empty(alloc);
    push_quoted(alloc, &mut text, line.text.as_slice())?;
    Ok(text)
}

#[tactic(auto, unfolding(crate::specs::Lines::why_line))]
fn why_line(line: &Option<Line>) -> &'static [u8]
    ensures { result.now ≡ why_line line.now }
{
    match line {
        None => b"",
        Some(line) => why(read_flags(line.text.as_slice())),
    }
}

// Where one of the flags A, a, E and e alone can keep it from that.
fn why(flags: Flags) -> &'static [u8]
    ensures { result.now ≡ why flags.and_chain flags.and_ok flags.or_else flags.on_error }
{
    match (flags.and_chain, flags.and_ok, flags.or_else, flags.on_error) {
        (true, false, false, false) => b": the last recipe without A or a didn't match",
        (_, true, false, false) => {
            b": the last recipe without A or a didn't match, or the one before didn't succeed"
        }
        (false, false, true, false) => b": a recipe before it was executed",
        (false, false, false, true) => b": the recipe before it didn't fail",
        _ => b"",
    }
}
