//! The mails of a mailbox as objects.
ghost use Rattle.std.specs.Prelude.{◌≡◌, IfOk, OnOk, codes, flat_map, count_by};
ghost use Rattle.explain_mails.specs.Compared.{goes_elsewhere as goes};
ghost use Rattle.explain_mails.specs.Members.{Adds, number_member};
ghost use Rattle.explain_mails.specs.Objects.{mail_object, outcome_object, comparison_object, mail_members};
ghost use Rattle.explain_mails.specs.Objects.{outcome_members, outcome_member, count_members};
ghost use Rattle.explain_mails.specs.Objects.{moves_member, listed_tokens, move_tokens};

use crate::members::{put_maybe_member, put_number_member, put_texts_member};
use crate::outcome::{Compared, Outcome, goes_elsewhere};
use crate::report::count_moved;
use crate::runs::{line_of, put_run};
use json::Writer;
use pm_bytes::{Blob, Memory};
use pm_conds::Note;
use pm_journal::Entry;
use std::alloc::Global;

/// `mail`, `subject`, and what `run_object` has.
pub fn mail_object(
    alloc: Global,
    number: u64,
    subject: &Option<Blob>,
    entries: &[Entry],
    notes: &[Note],
    status: u8,
) -> Result<Blob, Memory>
    ensures { IfOk result (λ text. text ≡ mail_object number subject.now entries.now notes.now status) }
{
    let mut writer = Writer::new(Vec::new(alloc));
    writer.begin_object()?;
    put_mail(alloc, &mut writer, number, subject)?;
    put_run(alloc, &mut writer, false, entries, notes, status)?;
    writer.end_object()?;
    line_of(writer)
}

/// `mail`, `subject`, `destinations` and `status`.
pub fn outcome_object(
    alloc: Global,
    number: u64,
    subject: &Option<Blob>,
    outcome: &Outcome,
) -> Result<Blob, Memory>
    ensures { IfOk result (λ text. text ≡ outcome_object number subject.now outcome.now) }
{
    let mut writer = Writer::new(Vec::new(alloc));
    writer.begin_object()?;
    put_mail(alloc, &mut writer, number, subject)?;
    put_outcome(alloc, &mut writer, outcome)?;
    writer.end_object()?;
    line_of(writer)
}

/// `mails` and `elsewhere`, which are counts, and `moves`, with `mail`, `subject`, `old` and `new` for each mail that
/// goes elsewhere; with `quiet` without `moves`.
pub fn comparison_object(alloc: Global, quiet: bool, mails: &[Compared]) -> Result<Blob, Memory>
    ensures { IfOk result (λ text. text ≡ comparison_object quiet mails.now) }
{
    let mut writer = Writer::new(Vec::new(alloc));
    writer.begin_object()?;
    put_counts(alloc, &mut writer, mails)?;
    put_moves_member(alloc, &mut writer, quiet, mails)?;
    writer.end_object()?;
    line_of(writer)
}

fn put_counts(alloc: Global, writer: &mut Writer, mails: &[Compared]) -> Result<(), Memory>
    ensures { OnOk result (Adds writer.old writer.new (count_members mails.now)) }
{
    put_number_member(writer, "mails", mails.len() as u64)?;
    put_moved(alloc, writer, mails)
}

fn put_moved(alloc: Global, writer: &mut Writer, mails: &[Compared]) -> Result<(), Memory>
    ensures { OnOk result (Adds writer.old writer.new (number_member (codes "elsewhere") (count_by goes mails.now))) }
{
    let moved = count_moved(alloc, mails)?;
    put_number_member(writer, "elsewhere", moved as u64)
}

fn put_mail(
    alloc: Global,
    writer: &mut Writer,
    number: u64,
    subject: &Option<Blob>,
) -> Result<(), Memory>
    ensures { OnOk result (Adds writer.old writer.new (mail_members number subject.now)) }
{
    put_number_member(writer, "mail", number)?;
    put_maybe_member(alloc, writer, "subject", subject.as_ref())
}

fn put_outcome(alloc: Global, writer: &mut Writer, outcome: &Outcome) -> Result<(), Memory>
    ensures { OnOk result (Adds writer.old writer.new (outcome_members outcome.now)) }
{
    put_texts_member(alloc, writer, "destinations", outcome.names())?;
    put_number_member(writer, "status", outcome.status() as u64)
}

fn put_outcome_member(
    alloc: Global,
    writer: &mut Writer,
    name: &str,
    outcome: &Outcome,
) -> Result<(), Memory>
    ensures { OnOk result (Adds writer.old writer.new (outcome_member name.now outcome.now)) }
{
    writer.key(name)?;
    writer.begin_object()?;
    put_outcome(alloc, writer, outcome)?;
    writer.end_object()?;
    Ok(())
}

fn put_moves_member(
    alloc: Global,
    writer: &mut Writer,
    quiet: bool,
    mails: &[Compared],
) -> Result<(), Memory>
    ensures { OnOk result (Adds writer.old writer.new (moves_member quiet mails.now)) }
{
    if quiet {
        return Ok(());
    }
    writer.key("moves")?;
    writer.begin_array()?;
    put_moves(alloc, writer, mails)?;
    writer.end_array()?;
    Ok(())
}

fn put_moves(alloc: Global, writer: &mut Writer, mails: &[Compared]) -> Result<(), Memory>
    ensures { OnOk result (Adds writer.old writer.new (flat_map listed_tokens mails.now)) }
{
    for mail in mails {
        put_listed(alloc, writer, mail)?;
    }
    Ok(())
}

fn put_listed(alloc: Global, writer: &mut Writer, mail: &Compared) -> Result<(), Memory>
    ensures { OnOk result (Adds writer.old writer.new (listed_tokens mail.now)) }
{
    if goes_elsewhere(alloc, mail)? {
        put_move(alloc, writer, mail)?;
    }
    Ok(())
}

fn put_move(alloc: Global, writer: &mut Writer, mail: &Compared) -> Result<(), Memory>
    ensures { OnOk result (Adds writer.old writer.new (move_tokens mail.now)) }
{
    writer.begin_object()?;
    put_mail(alloc, writer, mail.number, &mail.subject)?;
    put_outcome_member(alloc, writer, "old", &mail.old)?;
    put_outcome_member(alloc, writer, "new", &mail.new)?;
    writer.end_object()?;
    Ok(())
}
