//! The subject of a mail.
ghost use Rattle.std.specs.Prelude.{◌≡◌, IfOk, map, take};
ghost use Rattle.pm_bytes.specs.Letter.{lower_case};
ghost use Rattle.pm_journal.specs.LogText.{shown_byte, quoted};
ghost use Rattle.pm_meaning.specs.Abstracts.{is_subject as subject_is};
ghost use Rattle.explain_mails.specs.Subjects.{subject_of, subject_in, field_value, without_newline};

use pm_bytes::{Blob, Memory, fold};
use pm_meaning::past_blanks;
use pm_message::{field_texts, split};
use std::alloc::Global;

/// What the subject of a mail says, on one line; control characters are shown as blanks. `None` where it has none.
pub fn subject_of(alloc: Global, mail: &[u8]) -> Result<Option<Blob>, Memory>
    ensures { IfOk result (λ found. found ≡ subject_of mail.now) }
{
    let message = split(alloc, mail)?;
    let fields = field_texts(alloc, &message)?;
    subject_in(alloc, fields.as_slice())
}

fn subject_in(alloc: Global, fields: &[Blob]) -> Result<Option<Blob>, Memory>
    ensures { IfOk result (λ found. found ≡ subject_in fields.now) }
{
    for field in fields {
        if is_subject(alloc, field.as_slice())? {
            return Ok(Some(field_value(alloc, field.as_slice())?));
        }
    }
    Ok(None)
}

fn is_subject(alloc: Global, field: &[u8]) -> Result<bool, Memory>
    ensures { IfOk result (λ is. is ≡ subject_is field.now) }
{
    let name = folded(alloc, front(field))?;
    Ok(name.as_slice() == b"subject:".as_slice())
}

// The text with its ASCII capitals made small.
fn folded(alloc: Global, text: &[u8]) -> Result<Vec<u8>, Memory>
    ensures { IfOk result (λ folded. folded.items ≡ map lower_case text.now) }
{
    Ok(text.iter().map(|byte| fold(*byte)).collect(alloc)?)
}

// The first eight bytes, as many as `Subject:` has.
fn front(field: &[u8]) -> &[u8]
    ensures { result.now ≡ take 8 field.now }
{
    if field.len() < 8 { field } else { &field[..8] }
}

fn field_value(alloc: Global, field: &[u8]) -> Result<Blob, Memory>
    ensures { IfOk result (λ value. value ≡ field_value field.now) }
{
    let text = without_newline(&field[field.len().min(8)..]);
    let shown = quoted(alloc, text)?;
    Blob::from_slice(alloc, past_blanks(shown.as_slice()))
}

fn without_newline(text: &[u8]) -> &[u8]
    ensures { result.now ≡ without_newline text.now }
{
    if text.ends_with(b"\n") {
        &text[..text.len() - 1]
    } else {
        text
    }
}

/// The text with a blank for each byte below 32.
pub(crate) fn quoted(alloc: Global, text: &[u8]) -> Result<Vec<u8>, Memory>
    ensures { IfOk result (λ shown. shown.items ≡ quoted text.now) }
{
    Ok(text.iter().map(|byte| shown_byte(*byte)).collect(alloc)?)
}

fn shown_byte(byte: u8) -> u8
    ensures { result ≡ shown_byte byte }
{
    if byte < 32 { b' ' } else { byte }
}
