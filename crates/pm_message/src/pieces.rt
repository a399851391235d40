//! What of a mail is written to a mailbox or fed to a program.
ghost use Rattle.std.specs.Prelude.{◌≡◌, ◌≤◌, ◌++◌, IfOk, OnOk, false, length, take};
ghost use Rattle.pm_message.specs.Piece.{piece_of, chosen, escaped, escaped_chosen, ended, ended_unless};

use crate::{Message, whole};
use memchr::memmem;
use pm_bytes::{Blob, Memory};
use std::alloc::Global;

/// Which parts of the mail are wanted.
#[derive(Clone, Copy, PartialEq, Eq)]
pub enum Feed {
    Both,
    Head,
    Body,
}

/// What the piece is for: a file that holds many mails, in which a line `From ` begins each, or
/// anything else.
#[derive(Clone, Copy)]
pub enum Kind {
    MailboxFile,
    Other,
}

/// The wanted parts as they are.
fn plain(alloc: Global, message: &Message, feed: Feed) -> Result<Blob, Memory>
    ensures { IfOk result (λ text. text ≡ chosen message.now feed) }
{
    match feed {
        Feed::Head => message.head.copy(alloc),
        Feed::Body => message.body.copy(alloc),
        Feed::Both => whole(alloc, message),
    }
}

/// The text with the lines after it, each that would begin a mail in a mailbox with `>` before it.
#[tactic(auto, using(crate::proofs::EscapeLemmas::escaped_on, crate::proofs::EscapeLemmas::escaped_end))]
fn with_escaped(mut text: Blob, lines: &[u8]) -> Result<Blob, Memory>
    ensures { IfOk result (λ whole. whole ≡ text ++ escaped lines.now) }
{
    if lines.starts_with(b"From ") {
        text.push_slice(b">")?;
    }
    let mut rest = lines;
    while let Some(place) = memmem::find(rest, b"\nFrom ") {
        let (before, line) = rest.split_at(place + 1);
        text.push_slice(before)?;
        text.push_slice(b">")?;
        rest = line;
    }
    text.push_slice(rest)?;
    Ok(text)
}

/// The wanted parts, the body's lines escaped.
fn for_mailbox(alloc: Global, message: &Message, feed: Feed) -> Result<Blob, Memory>
    ensures { IfOk result (λ text. text ≡ escaped_chosen message.now feed) }
{
    match feed {
        Feed::Head => message.head.copy(alloc),
        Feed::Body => with_escaped(Blob::empty(alloc), message.body.as_slice()),
        Feed::Both => with_escaped(message.head.copy(alloc)?, message.body.as_slice()),
    }
}

/// Ends the last line, and puts an empty line after it.
fn end(text: &mut Blob) -> Result<(), Memory>
    ensures { OnOk result (text.new ≡ ended text.old) }
{
    if !text.as_slice().ends_with(b"\n") {
        text.push_slice(b"\n")?;
    }
    if !text.as_slice().ends_with(b"\n\n") {
        text.push_slice(b"\n")?;
    }
    Ok(())
}

/// Ends a text that isn't empty.
#[tactic(auto, using(crate::proofs::PieceLemmas::ended_front, crate::proofs::PieceLemmas::ended_longer))]
pub(crate) fn end_unless_empty(text: &mut Blob) -> Result<(), Memory>
    ensures ended { OnOk result (text.new ≡ ended_unless false text.old) }
    ensures front { OnOk result (take (length text.old) text.new ≡ text.old) }
    ensures longer { OnOk result (length text.old ≤ length text.new) }
{
    if text.len() > 0 {
        end(text)?;
    }
    Ok(())
}

/// Whether a line of the text is escaped.
#[tactic(auto, using(crate::proofs::EscapeLemmas::none_escaped))]
pub(crate) fn needs_escape(lines: &[u8]) -> bool
    ensures { result ≡ false → escaped lines.now ≡ lines.now }
{
    if lines.starts_with(b"From ") {
        return true;
    }
    match memmem::find(lines, b"\nFrom ") {
        None => false,
        Some(_) => true,
    }
}

/// What of the mail is written or fed. `raw` is the flag `r` of procmailrc(5): no newline is added.
pub fn piece(
    alloc: Global,
    message: &Message,
    feed: Feed,
    kind: Kind,
    raw: bool,
) -> Result<Blob, Memory>
    ensures { IfOk result (λ piece. piece ≡ piece_of message.now feed kind raw) }
{
    match kind {
        Kind::Other => plain(alloc, message, feed),
        Kind::MailboxFile => {
            let mut text = for_mailbox(alloc, message, feed)?;
            if !raw && text.len() > 0 {
                end(&mut text)?;
            }
            Ok(text)
        }
    }
}
