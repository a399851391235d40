//! All lines of a run, and where the mail went.
ghost use Rattle.std.specs.Prelude.{◌≡◌, ◌++◌, IfOk, OnOk, Some, option_copied};
ghost use Rattle.explain_text.specs.Lines.{step_lines, can_deliver, delivers, delivered_to, where_to, ending_line};
ghost use Rattle.explain_text.specs.Lines.{result_line, explained};
ghost use Rattle.explain_text.specs.Steps.{steps_of};

use crate::line::{push_amount, push_quoted};
use crate::{Kind, Step, step_line, steps_of};
use pm_bytes::{Blob, Memory};
use pm_journal::Entry;
use std::alloc::Global;

/// The line of each step, and the result's.
pub fn explain(alloc: Global, entries: &[Entry], status: u8) -> Result<Blob, Memory>
    ensures { IfOk result (λ text. text ≡ explained entries.now status) }
{
    let steps = steps_of(alloc, entries)?;
    let mut text = Blob::empty(alloc);
    push_steps(alloc, &mut text, steps.as_slice())?;
    let line = result_line(alloc, steps.as_slice(), status)?;
    text.push_slice(line.as_slice())?;
    Ok(text)
}

fn push_steps(alloc: Global, text: &mut Blob, steps: &[Step]) -> Result<(), Memory>
    ensures { OnOk result (text.new ≡ text.old ++ step_lines steps.now) }
{
    for step in steps {
        let line = step_line(alloc, step)?;
        text.push_slice(line.as_slice())?;
    }
    Ok(())
}

/// Where the mail went, and the exit status.
pub fn result_line(alloc: Global, steps: &[Step], status: u8) -> Result<Blob, Memory>
    ensures { IfOk result (λ line. line ≡ result_line steps.now status) }
{
    let mut line = where_to(alloc, delivered_to(steps))?;
    push_status(&mut line, status)?;
    Ok(line)
}

fn push_status(line: &mut Blob, status: u8) -> Result<(), Memory>
    ensures { OnOk result (line.new ≡ line.old ++ ending_line status) }
{
    push_amount(
        line,
        b", status ",
        status as u64,
        b". Nothing was changed.\n",
    )
}

fn where_to(alloc: Global, name: Option<&Blob>) -> Result<Blob, Memory>
    ensures { IfOk result (λ line. line ≡ where_to (option_copied name.entry)) }
{
    match name {
        None => Blob::from_slice(alloc, b"not delivered"),
        Some(name) => delivered_line(alloc, name.as_slice()),
    }
}

fn delivered_line(alloc: Global, name: &[u8]) -> Result<Blob, Memory>
    ensures { IfOk result (λ line. line ≡ where_to (Some name.now)) }
{
    let mut line = Blob::from_slice(alloc, b"delivered to ")?;
    push_quoted(alloc, &mut line, name)?;
    Ok(line)
}

/// The name of the last step that delivered the mail: a file, a program that ended with 0, or standard output.
pub fn delivered_to(steps: &[Step]) -> Option<&Blob>
    ensures { option_copied result ≡ delivered_to steps.now }
{
    let mut found = None;
    for step in steps {
        if delivers(step) {
            found = Some(&step.name);
        }
    }
    found
}

fn delivers(step: &Step) -> bool
    ensures { result ≡ delivers step.now }
{
    can_deliver(step.kind) && step.done && step.code == 0
}

fn can_deliver(kind: Kind) -> bool
    ensures { result ≡ can_deliver kind }
{
    matches!(kind, Kind::Append | Kind::File | Kind::Run | Kind::Write)
}
