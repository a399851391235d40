//! Mailboxes that are brought over.
ghost use Rattle.std.specs.Prelude.{◌≡◌, ◌++◌, OnOk};
ghost use Rattle.std.specs.List.{list_any};
ghost use Rattle.pm_bytes.specs.Letter.{is_blank_byte};
ghost use Rattle.check_fix.specs.Mailboxes;
ghost use Rattle.check_fix.specs.Mailboxes.{several_edits, hash_edits};
ghost use Rattle.check_fix.specs.Mailboxes.{match_edits};

use crate::edits::{Edit, put};
use crate::parts::{from_blank, from_part};
use pm_bytes::{BACKQUOTE, BACKSLASH, Blob, DOUBLE_QUOTE, HASH, Memory, SINGLE_QUOTE, is_blank};
use pm_recipe::Span;
use std::alloc::Global;

fn is_special(byte: u8) -> bool
    ensures { result ≡ Mailboxes.is_special byte }
{
    byte == DOUBLE_QUOTE
        || byte == SINGLE_QUOTE
        || byte == BACKQUOTE
        || byte == BACKSLASH
        || byte == HASH
}

fn has_special(text: &[u8]) -> bool
    ensures { result ≡ list_any Mailboxes.is_special text.now }
{
    text.iter().any(|byte| is_special(*byte))
}

fn is_simple(text: &[u8]) -> bool
    ensures { result ≡ Mailboxes.is_simple text.now }
{
    !has_special(text)
}

/// Several words.
pub fn put_several(alloc: Global, span: &Span<'_>, edits: &mut Vec<Edit>) -> Result<(), Memory>
    ensures { OnOk result (edits.new.items ≡ edits.old.items ++ several_edits span.now.first span.now.bytes.now) }
{
    if is_simple(span.bytes) {
        let more = from_blank(span.bytes);
        put(alloc, span, more, more.len(), &[], edits)
    } else {
        Ok(())
    }
}

/// A `#` within a name.
pub fn put_hash(alloc: Global, span: &Span<'_>, edits: &mut Vec<Edit>) -> Result<(), Memory>
    ensures { OnOk result (edits.new.items ≡ edits.old.items ++ hash_edits span.now.first span.now.bytes.now) }
{
    put(alloc, span, from_part(b"#", span.bytes), 0, b" ", edits)
}

fn has_blank(text: &[u8]) -> bool
    ensures { result ≡ list_any is_blank_byte text.now }
{
    text.iter().any(|byte| is_blank(*byte))
}

fn is_word(text: &[u8]) -> bool
    ensures { result ≡ Mailboxes.is_word text.now }
{
    is_simple(text) && !has_blank(text)
}

/// MATCH without quotes.
pub fn put_match(alloc: Global, span: &Span<'_>, edits: &mut Vec<Edit>) -> Result<(), Memory>
    ensures { OnOk result (edits.new.items ≡ edits.old.items ++ match_edits span.now.first span.now.bytes.now) }
{
    if is_word(span.bytes) {
        let mut quoted = Blob::from_slice(alloc, b"\"")?;
        quoted.push_slice(span.bytes)?;
        quoted.push_slice(b"\"")?;
        put(
            alloc,
            span,
            span.bytes,
            span.bytes.len(),
            quoted.as_slice(),
            edits,
        )
    } else {
        Ok(())
    }
}
