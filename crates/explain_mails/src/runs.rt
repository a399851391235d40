//! A run as an object.
ghost use Rattle.std.specs.Prelude.{◌≡◌, ◌++◌, IfOk, OnOk, codes, flat_map};
ghost use Rattle.json.specs.Print.{print};
ghost use Rattle.explain_text.specs.Steps.{steps_of};
ghost use Rattle.explain_text.specs.Lines.{delivered_to};
ghost use Rattle.explain_mails.specs.Members.{Adds};
ghost use Rattle.explain_mails.specs.Objects.{run_object, run_members, steps_member, step_tokens, what_members};
ghost use Rattle.explain_mails.specs.Objects.{how_members, act_member, act_of};

use crate::members::{put_maybe_member, put_number_member, put_text_member, put_truth_member};
use crate::recipes::put_recipes_member;
use explain_text::{Kind, Step, delivered_to, steps_of};
use json::Writer;
use pm_bytes::{Blob, Memory};
use pm_conds::Note;
use pm_journal::Entry;
use std::alloc::Global;

/// `steps`, `recipes`, `delivered_to` and `status`; with `quiet` the last two alone.
pub fn run_object(
    alloc: Global,
    quiet: bool,
    entries: &[Entry],
    notes: &[Note],
    status: u8,
) -> Result<Blob, Memory>
    ensures { IfOk result (λ text. text ≡ run_object quiet entries.now notes.now status) }
{
    let mut writer = Writer::new(Vec::new(alloc));
    writer.begin_object()?;
    put_run(alloc, &mut writer, quiet, entries, notes, status)?;
    writer.end_object()?;
    line_of(writer)
}

/// What was written, and the end of its line.
pub(crate) fn line_of(writer: Writer) -> Result<Blob, Memory>
    ensures { IfOk result (λ text. text ≡ writer.before ++ print writer.tokens ++ codes "\n") }
{
    let mut text = writer.into_inner();
    text.push(b'\n')?;
    Ok(Blob::from_vec(text))
}

pub(crate) fn put_run(
    alloc: Global,
    writer: &mut Writer,
    quiet: bool,
    entries: &[Entry],
    notes: &[Note],
    status: u8,
) -> Result<(), Memory>
    ensures { OnOk result (Adds writer.old writer.new (run_members quiet entries.now notes.now status)) }
{
    let steps = steps_of(alloc, entries)?;
    put_steps_member(alloc, writer, quiet, steps.as_slice())?;
    put_recipes_member(alloc, writer, quiet, entries, notes)?;
    put_maybe_member(
        alloc,
        writer,
        "delivered_to",
        delivered_to(steps.as_slice()),
    )?;
    put_number_member(writer, "status", status as u64)
}

fn put_steps_member(
    alloc: Global,
    writer: &mut Writer,
    quiet: bool,
    steps: &[Step],
) -> Result<(), Memory>
    ensures { OnOk result (Adds writer.old writer.new (steps_member quiet steps.now)) }
{
    if quiet {
        return Ok(());
    }
    writer.key("steps")?;
    writer.begin_array()?;
    put_steps(alloc, writer, steps)?;
    writer.end_array()?;
    Ok(())
}

fn put_steps(alloc: Global, writer: &mut Writer, steps: &[Step]) -> Result<(), Memory>
    ensures { OnOk result (Adds writer.old writer.new (flat_map step_tokens steps.now)) }
{
    for step in steps {
        put_step(alloc, writer, step)?;
    }
    Ok(())
}

fn put_step(alloc: Global, writer: &mut Writer, step: &Step) -> Result<(), Memory>
    ensures { OnOk result (Adds writer.old writer.new (step_tokens step.now)) }
{
    writer.begin_object()?;
    put_what(alloc, writer, step)?;
    put_how(alloc, writer, step)?;
    writer.end_object()?;
    Ok(())
}

fn put_what(alloc: Global, writer: &mut Writer, step: &Step) -> Result<(), Memory>
    ensures { OnOk result (Adds writer.old writer.new (what_members step.now)) }
{
    put_act(alloc, writer, step.kind)?;
    put_text_member(alloc, writer, "name", step.name.as_slice())?;
    put_number_member(writer, "bytes", step.bytes)
}

#[tactic(auto, unfolding(crate::specs::Objects::act_member))]
fn put_act(alloc: Global, writer: &mut Writer, kind: Kind) -> Result<(), Memory>
    ensures { OnOk result (Adds writer.old writer.new (act_member kind)) }
{
    put_text_member(alloc, writer, "act", act_of(kind).as_bytes())
}

fn put_how(alloc: Global, writer: &mut Writer, step: &Step) -> Result<(), Memory>
    ensures { OnOk result (Adds writer.old writer.new (how_members step.now)) }
{
    put_truth_member(writer, "done", step.done)?;
    put_number_member(writer, "code", step.code as u64)?;
    put_text_member(alloc, writer, "text", step.text.as_slice())
}

fn act_of(kind: Kind) -> &'static str
    ensures { result.now ≡ act_of kind }
{
    match kind {
        Kind::Read => "read",
        Kind::Append => "append",
        Kind::File => "file",
        Kind::Lock => "lock",
        Kind::Unlock => "unlock",
        Kind::Run => "run",
        Kind::Filter => "filter",
        Kind::Log => "log",
        Kind::Say => "say",
        Kind::Write => "write",
    }
}
