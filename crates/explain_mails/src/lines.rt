//! The lines of mails.
ghost use Rattle.std.specs.Prelude.{◌≡◌, ◌++◌, IfOk, OnOk, codes, option_copied};
ghost use Rattle.explain_mails.specs.Lines.{mail_front, mail_heading, mail_line, goes_to};
ghost use Rattle.explain_mails.specs.Lines.{ends_otherwise, move_line};
ghost use Rattle.explain_mails.specs.Subjects.{subject_shown};

use crate::columns::{push_in_columns, push_number, push_right};
use crate::outcome::{Compared, Outcome};
use crate::subject::quoted;
use pm_bytes::{Blob, Memory};
use std::alloc::Global;
use test_text::told_text;

/// The line of a mail: its number, its subject, its destinations and the status.
pub fn mail_line(
    alloc: Global,
    number: u64,
    subject: &Option<Blob>,
    outcome: &Outcome,
) -> Result<Blob, Memory>
    ensures { IfOk result (λ line. line ≡ mail_line number subject.now outcome.now) }
{
    let mut line = Blob::empty(alloc);
    push_front(alloc, &mut line, number, subject)?;
    push_outcome(alloc, &mut line, true, outcome)?;
    line.push_slice(b"\n")?;
    Ok(line)
}

/// The line before the steps of a mail.
pub fn mail_heading(alloc: Global, number: u64, subject: &Option<Blob>) -> Result<Blob, Memory>
    ensures { IfOk result (λ line. line ≡ mail_heading number subject.now) }
{
    let mut line = Blob::from_slice(alloc, b"mail ")?;
    push_number(&mut line, number)?;
    line.push_slice(b": ")?;
    let shown = subject_shown(alloc, subject)?;
    line.push_slice(shown.as_slice())?;
    line.push_slice(b"\n")?;
    Ok(line)
}

fn subject_shown(alloc: Global, subject: &Option<Blob>) -> Result<Blob, Memory>
    ensures { IfOk result (λ shown. shown ≡ subject_shown subject.now) }
{
    match subject {
        None => Blob::from_slice(alloc, b"(no Subject)"),
        Some(value) => {
            let mut shown = Blob::from_slice(alloc, b"Subject: ")?;
            shown.push_slice(value.as_slice())?;
            Ok(shown)
        }
    }
}

fn push_front(
    alloc: Global,
    line: &mut Blob,
    number: u64,
    subject: &Option<Blob>,
) -> Result<(), Memory>
    ensures { OnOk result (line.new ≡ line.old ++ mail_front number subject.now) }
{
    push_right(line, number)?;
    line.push_slice(b"  ")?;
    let shown = subject_shown(alloc, subject)?;
    push_in_columns(line, shown.as_slice())?;
    line.push_slice(b"  ")
}

fn push_outcome(
    alloc: Global,
    line: &mut Blob,
    wants_status: bool,
    outcome: &Outcome,
) -> Result<(), Memory>
    ensures { OnOk result (line.new ≡ line.old ++ goes_to wants_status outcome.now) }
{
    let status = if wants_status {
        Some(outcome.status())
    } else {
        None
    };
    let text = told_text(alloc, outcome.names(), status)?;
    let shown = quoted(alloc, text.as_slice())?;
    line.push_slice(shown.as_slice())
}

/// The line of a mail that goes elsewhere.
pub fn push_move(alloc: Global, lines: &mut Blob, mail: &Compared) -> Result<(), Memory>
    ensures { OnOk result (lines.new ≡ lines.old ++ move_line mail.now) }
{
    let wants_status = ends_otherwise(mail);
    push_front(alloc, lines, mail.number, &mail.subject)?;
    push_outcome(alloc, lines, wants_status, &mail.old)?;
    lines.push_slice(b" -> ")?;
    push_outcome(alloc, lines, wants_status, &mail.new)?;
    lines.push_slice(b"\n")
}

fn ends_otherwise(mail: &Compared) -> bool
    ensures { result ≡ ends_otherwise mail.now }
{
    mail.old.status() != mail.new.status()
}
