//! All lines of a run.
ghost use Rattle.std.specs.Prelude.{◌≡◌, ◌++◌, IfOk, OnOk, flat_map};
ghost use Rattle.explain_notes.specs.Explained.{shown_line, explained};
ghost use Rattle.explain_text.specs.Steps.{steps_of};
ghost use Rattle.explain_text.specs.Lines.{result_line};

use crate::line::told_line;
use crate::shown::{Shown, shown_of};
use explain_text::{result_line, step_line, steps_of};
use pm_bytes::{Blob, Memory};
use pm_conds::Note;
use pm_journal::Entry;
use std::alloc::Global;

/// The line of each step, with those of the recipes and conditions between them, and the result's.
pub fn explain(alloc: Global, entries: &[Entry], notes: &[Note], status: u8) -> Result<Blob, Memory>
    ensures { IfOk result (λ text. text ≡ explained entries.now notes.now status) }
{
    let shown = shown_of(alloc, entries, notes)?;
    let mut text = Blob::empty(alloc);
    push_lines(alloc, &mut text, shown.as_slice())?;
    push_result(alloc, &mut text, entries, status)?;
    Ok(text)
}

fn push_lines(alloc: Global, text: &mut Blob, shown: &[Shown]) -> Result<(), Memory>
    ensures { OnOk result (text.new ≡ text.old ++ flat_map shown_line shown.now) }
{
    for one in shown {
        let line = shown_line(alloc, one)?;
        text.push_slice(line.as_slice())?;
    }
    Ok(())
}

fn shown_line(alloc: Global, shown: &Shown) -> Result<Blob, Memory>
    ensures { IfOk result (λ line. line ≡ shown_line shown.now) }
{
    match shown {
        Shown::Step(step) => step_line(alloc, step),
        Shown::Told(told) => told_line(alloc, told),
    }
}

fn push_result(alloc: Global, text: &mut Blob, entries: &[Entry], status: u8) -> Result<(), Memory>
    ensures { OnOk result (text.new ≡ text.old ++ result_line (steps_of entries.now) status) }
{
    let steps = steps_of(alloc, entries)?;
    let line = result_line(alloc, steps.as_slice(), status)?;
    text.push_slice(line.as_slice())
}
