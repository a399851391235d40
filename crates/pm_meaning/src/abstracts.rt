//! The abstract of a delivery, and when it is logged (procmailrc(5), LOGFILE and LOGABSTRACT).
ghost use Rattle.std.specs.Prelude.{◌≡◌, ◌==◌, ◌≤◌, ◌-◌, ◌++◌, position, take, drop, true, IfOk, OnOk, OnErr, map};
ghost use Rattle.std.specs.Prelude.{vec_capacity, vec_len};
ghost use Rattle.pm_bytes.specs.Letter.{lower_case};
ghost use Rattle.pm_message.specs.Field.{texts_of};
ghost use Rattle.pm_journal.specs.LogText.{shown_byte, quoted};
ghost use Rattle.pm_meaning.specs.Abstracts;
ghost use Rattle.pm_meaning.specs.Abstracts.{folder_part};
ghost use Rattle.pm_meaning.specs.Abstracts.{copy_lines};
ghost use Rattle.pm_meaning.specs.Minds.{mind_of};
ghost use Rattle.pm_meaning.specs.AbstractParts;

use crate::blanks::past_blanks;
use crate::process::{Process, Stored};
use crate::programs::value_or;
use itoa::Buffer;
use pm_bytes::{Blob, Memory, fold};
use pm_message::{Message, field_texts};
use pm_recipe::Flags;
use std::alloc::{AllocError, Global};
use std::collections::VecDeque;

/// The abstract of the last delivery: the line From of the mail and its first subject, where it has them, and where it
/// was delivered to, with the number of bytes.
pub fn abstract_of(alloc: Global, process: &Process) -> Result<Blob, Memory>
    ensures { IfOk result (λ text. text ≡ Abstracts.abstract_of (mind_of process.now)) }
{
    let mut text = mail_part(alloc, process.message.parts(), 0)?;
    push_folder(&process.stored, &mut text)?;
    Ok(Blob::from_vec(text))
}

/// What an abstract says of the mail itself, with room for so many bytes more.
pub fn mail_part(alloc: Global, message: &Message, room: usize) -> Result<Vec<u8>, Memory>
    ensures text { IfOk result (λ text. text.items ≡ AbstractParts.mail_part message.now.head) }
    ensures room { IfOk result (λ text. room ≤ vec_capacity text - vec_len text) }
{
    let mut text = from_part(alloc, message.head.as_slice())?;
    let subject = subject_part(alloc, message)?;
    text.push_slice(subject.as_slice())?;
    let mut bytes = text.into_vec(alloc)?;
    bytes.try_reserve_exact(room)?;
    Ok(bytes)
}

// The line From, where the mail has one.
fn from_part(alloc: Global, head: &[u8]) -> Result<Blob, Memory>
    ensures { IfOk result (λ text. text ≡ Abstracts.from_part head.now) }
{
    if !head.starts_with(b"From ") {
        return Ok(Blob::empty(alloc));
    }
    let mut line = Blob::from_slice(alloc, first_line(head))?;
    line.push_slice(b"\n")?;
    Ok(line)
}

// The text up to its first newline.
fn first_line(text: &[u8]) -> &[u8]
    ensures { result.now ≡ Abstracts.first_line text.now }
{
    &text[..line_end(text).unwrap_or(text.len())]
}

fn line_end(text: &[u8]) -> Option<usize>
    ensures { result ≡ position (λ byte. byte == 10) text.now }
{
    text.iter().position(|byte| *byte == b'\n')
}

fn subject_part(alloc: Global, message: &Message) -> Result<Blob, Memory>
    ensures { IfOk result (λ text. text ≡ Abstracts.subject_part (texts_of message.now.head)) }
{
    let fields = field_texts(alloc, message)?;
    first_subject(alloc, fields.as_slice())
}

// The first subject among these fields.
fn first_subject(alloc: Global, fields: &[Blob]) -> Result<Blob, Memory>
    ensures { IfOk result (λ text. text ≡ Abstracts.subject_part fields.now) }
{
    for field in fields {
        if is_subject(alloc, field.as_slice())? {
            return subject_line(alloc, field.as_slice());
        }
    }
    Ok(Blob::empty(alloc))
}

fn is_subject(alloc: Global, field: &[u8]) -> Result<bool, Memory>
    ensures { IfOk result (λ is. is ≡ Abstracts.is_subject field.now) }
{
    let name = folded(alloc, front(field, 8))?;
    Ok(name.as_slice() == b"subject:".as_slice())
}

// The text with its ASCII capitals made small.
fn folded(alloc: Global, text: &[u8]) -> Result<Vec<u8>, AllocError>
    ensures { IfOk result (λ folded. folded.items ≡ map lower_case text.now) }
{
    text.iter().map(|byte| fold(*byte)).collect(alloc)
}

// What the subject's first line says, as far as 78 bytes.
fn subject_line(alloc: Global, field: &[u8]) -> Result<Blob, Memory>
    ensures { IfOk result (λ text. text ≡ Abstracts.subject_line field.now) }
{
    let value = past_blanks(first_line(behind(field, 8)));
    let mut line = Blob::from_slice(alloc, b" Subject: ")?;
    line.push_slice(front(value, 78))?;
    line.push_slice(b"\n")?;
    Ok(line)
}

// At most so many bytes at the front of the text.
fn front(text: &[u8], most: usize) -> &[u8]
    ensures { result.now ≡ take most text.now }
{
    if text.len() < most {
        text
    } else {
        &text[..most]
    }
}

// What stands after so many bytes.
fn behind(text: &[u8], count: usize) -> &[u8]
    ensures { result.now ≡ drop count text.now }
{
    if text.len() < count {
        b""
    } else {
        &text[count..]
    }
}

/// Adds where the mail was delivered to, and how many bytes.
pub fn push_folder(stored: &Stored, text: &mut Vec<u8>) -> Result<(), Memory>
    ensures { OnOk result (text.new.items ≡ text.old.items ++ folder_part stored.now) }
{
    let mut buffer = Buffer::new();
    text.extend_from_slice(b"  Folder: ")?;
    push_quoted(stored.folder.as_slice(), text)?;
    text.extend_from_slice(b" ")?;
    text.extend_from_slice(buffer.format(stored.size).as_bytes())?;
    text.extend_from_slice(b"\n")?;
    Ok(())
}

// Adds the bytes; those below 32 are shown as blanks.
fn push_quoted(bytes: &[u8], text: &mut Vec<u8>) -> Result<(), Memory>
    ensures { OnOk result (text.new.items ≡ text.old.items ++ quoted bytes.now) }
{
    for byte in bytes {
        text.push(shown(*byte))?;
    }
    Ok(())
}

fn shown(byte: u8) -> u8
    ensures { result ≡ shown_byte byte }
{
    if byte < 32 { b' ' } else { byte }
}

// Whether there is a log for abstracts.
fn has_log(process: &Process) -> bool
    ensures { result ≡ Abstracts.has_log (mind_of process.now) }
{
    !value_or(b"", b"LOGFILE", &process.vars).is_empty()
}

/// Whether the abstract of each delivery is logged: LOGFILE isn't empty, and LOGABSTRACT is `all`.
pub fn logs_all(process: &Process) -> bool
    ensures { result ≡ Abstracts.logs_all (mind_of process.now) }
{
    has_log(process) && value_or(b"", b"LOGABSTRACT", &process.vars) == b"all".as_slice()
}

/// Whether the abstract of the last delivery is logged: LOGFILE isn't empty, and LOGABSTRACT isn't `no`.
pub fn logs_last(process: &Process) -> bool
    ensures { result ≡ Abstracts.logs_last (mind_of process.now) }
{
    has_log(process) && value_or(b"", b"LOGABSTRACT", &process.vars) != b"no".as_slice()
}

/// Adds the abstract of a copy that was delivered, where those are logged.
pub fn push_copy(
    alloc: Global,
    done: bool,
    flags: Flags,
    process: &Process,
    lines: &mut VecDeque<Blob>,
) -> Result<(), Memory>
    ensures lines { OnOk result (lines.new.items ≡
        lines.old.items ++ copy_lines done flags (mind_of process.now)) }
    ensures sure { OnErr result (flags.copy ≡ true) }
{
    if done && flags.copy && logs_all(process) {
        lines.push_back(abstract_of(alloc, process)?)?;
    }
    Ok(())
}
