//! What formail writes of one mail.
ghost use Rattle.std.specs.Prelude.{◌≡◌, ◌≤◌, ◌+◌, ◌++◌, ℕ, List, true, false, codes, length, option_copied, IfOk};
ghost use Rattle.std.specs.List.{flat_map, concat, prefix_len, suffix_len};
ghost use Rattle.bstr.specs.Text.{lines_of};
ghost use Rattle.pm_bytes.specs.Letter.{is_space_byte};
ghost use Rattle.pm_message.specs.Lines.{lines};
ghost use Rattle.pm_message.specs.Piece.{ended};
ghost use Rattle.pm_message.specs.Field.{texts_of};
ghost use Rattle.pm_message.specs.Split.{split_of};
ghost use Rattle.formail_edit.specs.Keyed.{keyed, keyed_as};
ghost use Rattle.formail_edit.specs.Sender.{line_at};
ghost use Rattle.formail_edit.specs.Step.{edited_fields};
ghost use Rattle.formail_edit.specs.Output.{prefixed_line, body_for, Stays, trimmed, content_for, extraction};
ghost use Rattle.formail_edit.specs.Output.{taken_from, taken, front_of, mail_of, edited};

use crate::application::edit_fields;
use crate::meaning::is_meant;
use crate::sender::line_before;
use crate::unchanged::is_unchanged;
use crate::{Edited, Edits, Take};
use bstr::ByteSlice;
use memchr::memmem;
use pm_bytes::{Blob, Memory, is_space};
use pm_message::{Message, divide, field_texts, read_key};
use std::alloc::Global;

// The text with the lines after it, each that would begin a mail in a mailbox with the prefix.
fn with_prefixed(mut text: Blob, prefix: &[u8], body: &[u8]) -> Result<Blob, Memory>
    ensures { IfOk result (λ whole. whole ≡ text ++ flat_map (prefixed_line prefix.now) (lines_of body.now)) }
{
    for line in body.lines_with_terminator() {
        if line.starts_with(b"From ") {
            text.push_slice(prefix)?;
        }
        text.push_slice(line)?;
    }
    Ok(text)
}

/// The text with the body after it, its lines `From ` as the edits ask.
pub fn with_body(mut text: Blob, body: &[u8], edits: &Edits) -> Result<Blob, Memory>
    ensures { IfOk result (λ whole. whole ≡ text ++ body_for edits.now body.now) }
{
    if edits.keep_body {
        text.push_slice(body)?;
        return Ok(text);
    }
    with_prefixed(text, edits.prefix.as_slice(), body)
}

// Ends the last line, and puts an empty line after it.
fn end(mut text: Blob) -> Result<Blob, Memory>
    ensures { IfOk result (λ whole. whole ≡ ended text) }
{
    if !text.as_slice().ends_with(b"\n") {
        text.push_slice(b"\n")?;
    }
    if !text.as_slice().ends_with(b"\n\n") {
        text.push_slice(b"\n")?;
    }
    Ok(text)
}

fn with_fields(mut text: Blob, fields: &[Blob]) -> Result<Blob, Memory>
    ensures { IfOk result (λ whole. whole ≡ text ++ concat fields.now) }
{
    for field in fields {
        text.push_slice(field.as_slice())?;
    }
    Ok(text)
}

// The line to put in front, where there is one.
fn front(alloc: Global, line: &Option<Blob>) -> Result<Blob, Memory>
    ensures { IfOk result (λ front. front ≡ front_of line.now) }
{
    match line {
        None => Ok(Blob::empty(alloc)),
        Some(line) => line.copy(alloc),
    }
}

// The mail up to its body.
fn head(alloc: Global, fields: &[Blob], line: &Option<Blob>) -> Result<Blob, Memory>
    ensures { IfOk result (λ head. head ≡ front_of line.now ++ concat fields.now ++ codes "\n") }
{
    let mut text = front(alloc, line)?;
    text = with_fields(text, fields)?;
    text.push_slice(b"\n")?;
    Ok(text)
}

// Whether some line would begin a mail in a mailbox.
fn has_from_line(text: &[u8]) -> bool
    ensures { result ≡ false → (prefix : List ℕ) → flat_map (prefixed_line prefix) (lines text.now) ≡ text.now }
{
    if text.starts_with(b"From ") {
        return true;
    }
    match memmem::find(text, b"\nFrom ") {
        None => false,
        Some(_) => true,
    }
}

/// Whether the body can stay as it is, after any head.
pub fn stays(body: &[u8], edits: &Edits) -> bool
    ensures { result ≡ true → Stays edits.now body.now }
{
    if !edits.keep_from && !body.ends_with(b"\n\n") {
        return false;
    }
    edits.keep_body || !has_from_line(body)
}

fn mail(
    alloc: Global,
    fields: &[Blob],
    body: &Blob,
    edits: &Edits,
    line: &Option<Blob>,
) -> Result<Edited, Memory>
    ensures { IfOk result (λ mail. mail ≡ mail_of edits.now fields.now body.now line.now) }
{
    let head = head(alloc, fields, line)?;
    if stays(body.as_slice(), edits) {
        return Ok(Edited::new(head, body.copy(alloc)?));
    }
    let text = with_body(head, body.as_slice(), edits)?;
    if edits.keep_from {
        return Ok(Edited::whole(alloc, text));
    }
    Ok(Edited::whole(alloc, end(text)?))
}

// How many bytes the margin at the front has.
fn front_margin(text: &[u8]) -> usize
    ensures margin { result ≡ prefix_len is_space_byte text.now }
    ensures within { result ≤ length text.now }
{
    text.iter().take_while(|byte| is_space(**byte)).count()
}

// Where the margin at the end begins.
fn text_end(text: &[u8]) -> usize
    ensures { result + suffix_len is_space_byte text.now ≡ length text.now }
{
    let mut end = text.len();
    while end > 0 && is_space(text[end - 1]) {
        end -= 1;
    }
    end
}

// The text without its margins.
fn trim(text: &[u8]) -> &[u8]
    ensures { result.now ≡ trimmed text.now }
{
    let (_, rest) = text.split_at(front_margin(text));
    let (inner, _) = rest.split_at(text_end(rest));
    inner
}

// The text with a field's content after it.
fn with_content(mut text: Blob, content: &[u8], zap: bool) -> Result<Blob, Memory>
    ensures { IfOk result (λ whole. whole ≡ text ++ content_for zap content.now) }
{
    if !zap {
        text.push_slice(content)?;
        return Ok(text);
    }
    text.push_slice(trim(content))?;
    text.push_slice(b"\n")?;
    Ok(text)
}

// The text with what one `-x` or `-X` gives of the field after it.
fn with_one(
    mut text: Blob,
    field: &[u8],
    first: bool,
    wanted: &Take,
    zap: bool,
) -> Result<Blob, Memory>
    ensures { IfOk result (λ whole. whole ≡ text ++ extraction zap (keyed_as first field.now) wanted.now) }
{
    if !is_meant(field, first, wanted.name.as_slice()) {
        return Ok(text);
    }
    if wanted.whole {
        text.push_slice(field)?;
        return Ok(text);
    }
    let (_, content) = field.split_at(read_key(field, first).length);
    with_content(text, content, zap)
}

// The text with what the field gives after it.
fn with_taken(text: Blob, field: &[u8], first: bool, edits: &Edits) -> Result<Blob, Memory>
    ensures { IfOk result (λ whole. whole ≡ text ++ taken_from edits.now (keyed_as first field.now)) }
{
    let mut text = text;
    for wanted in edits.takes.as_slice() {
        text = with_one(text, field, first, wanted, edits.zap)?;
    }
    Ok(text)
}

// What is taken of all fields, with the body where it is wanted too.
fn take_all(alloc: Global, fields: &[Blob], body: &[u8], edits: &Edits) -> Result<Blob, Memory>
    ensures { IfOk result (λ whole. whole ≡ taken edits.now fields.now body.now) }
{
    let mut text = Blob::empty(alloc);
    for (place, field) in fields.iter().enumerate() {
        text = with_taken(text, field.as_slice(), place == 0, edits)?;
    }
    if edits.with_body {
        text.push_slice(b"\n")?;
        text = with_body(text, body, edits)?;
    }
    Ok(text)
}

// What formail writes of a mail that has these fields after the edits, in two parts.
fn write(
    alloc: Global,
    message: &Message,
    fields: &[Blob],
    edits: &Edits,
    line: &Option<Blob>,
) -> Result<Edited, Memory>
    requires { fields.now ≡ edited_fields edits.now (texts_of message.now.head) }
    ensures { IfOk result (λ text. text ≡ edited message.now edits.now line.now) }
{
    if !edits.takes.as_slice().is_empty() {
        let text = take_all(alloc, fields, message.body.as_slice(), edits)?;
        return Ok(Edited::whole(alloc, text));
    }
    mail(alloc, fields, &message.body, edits, line)
}

// The line as a text of its own.
fn owned(alloc: Global, line: Option<&[u8]>) -> Result<Option<Blob>, Memory>
    ensures { IfOk result (λ owned. owned ≡ option_copied line.entry) }
{
    match line {
        None => Ok(None),
        Some(line) => Ok(Some(Blob::from_slice(alloc, line)?)),
    }
}

/// What formail writes of a mail (formail(1)). `from` is the line `From ` to put in front, with its newline, for the
/// sender that [`from_sender`](crate::from_sender) names; with `-x` and `-X` it is left out. `Memory` is the only
/// error.
pub fn edit(
    alloc: Global,
    message: &Message,
    edits: &Edits,
    from: Option<&[u8]>,
) -> Result<Blob, Memory>
    ensures { IfOk result (λ text. text ≡ edited message.now edits.now (option_copied from.entry)) }
{
    let fields = edit_fields(alloc, field_texts(alloc, message)?, edits)?;
    let line = owned(alloc, from)?;
    let text = write(alloc, message, fields.as_slice(), edits, &line)?;
    text.join()
}

// What formail writes of a mail at a moment, in two parts.
fn edit_message(
    alloc: Global,
    message: &Message,
    edits: &Edits,
    moment: i64,
) -> Result<Edited, Memory>
    ensures { IfOk result (λ text. text ≡ edited message.now edits.now (line_at moment message.now edits.now)) }
{
    let fields = edit_fields(alloc, field_texts(alloc, message)?, edits)?;
    let line = line_before(alloc, message, fields.as_slice(), edits, moment)?;
    write(alloc, message, fields.as_slice(), edits, &line)
}

/// What formail writes of a mail at a moment, in seconds since 1970, in UTC: in two parts, so that the body is shared
/// with the mail if it stays as it is. `Memory` is the only error.
pub fn edit_mail(alloc: Global, mail: &Blob, edits: &Edits, moment: i64) -> Result<Edited, Memory>
    ensures { IfOk result (λ text. text ≡ edited (split_of mail.now) edits.now
        (line_at moment (split_of mail.now) edits.now)) }
{
    if is_unchanged(alloc, mail, edits)? {
        return Ok(Edited::whole(alloc, mail.copy(alloc)?));
    }
    let message = divide(alloc, mail.copy(alloc)?)?;
    edit_message(alloc, &message, edits, moment)
}
