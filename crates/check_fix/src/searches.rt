//! Expressions that are brought over.
ghost use Rattle.std.specs.Prelude.{◌≡◌, ◌++◌, ◌<◌, OnOk, IfSome, length, not, position};
ghost use Rattle.check_fix.specs.Conditions;
ghost use Rattle.check_fix.specs.Conditions.{after_front};
ghost use Rattle.check_fix.specs.Conditions.{backslash_edits, end_edits, anchor_edits};
ghost use Rattle.check_fix.specs.Conditions.{indent_edits, continued_edits};

use crate::conditions::{is_lead_byte, is_weight_byte};
use crate::edits::{Edit, put};
use crate::parts::{from_part, past, past_blanks};
use pm_bytes::{DOT, Memory, is_blank};
use pm_recipe::Span;
use std::alloc::Global;

fn is_front_byte(byte: u8) -> bool
    ensures { result ≡ Conditions.is_front_byte byte }
{
    is_blank(byte) || is_lead_byte(byte) || is_weight_byte(byte) || byte == DOT
}

fn front_end(text: &[u8]) -> Option<usize>
    ensures place { result ≡ position (λ byte. not (Conditions.is_front_byte byte)) text.now }
    ensures within { IfSome result (λ end. end < length text.now) }
{
    text.iter().position(|byte| !is_front_byte(*byte))
}

fn past_front(text: &[u8]) -> &[u8]
    ensures { result.now ≡ after_front text.now }
{
    let rest = past(1, text);
    match front_end(rest) {
        None => &[],
        Some(end) => &rest[end..],
    }
}

fn is_escape(text: &[u8]) -> bool
    ensures { result ≡ Conditions.is_escape text.now }
{
    text.starts_with(b"\\") && !text.starts_with(b"\\\n")
}

/// A backslash at the beginning.
pub fn put_backslash(alloc: Global, span: &Span<'_>, edits: &mut Vec<Edit>) -> Result<(), Memory>
    ensures { OnOk result (edits.new.items ≡ edits.old.items ++ backslash_edits span.now.first span.now.bytes.now) }
{
    let expression = past_front(span.bytes);
    if is_escape(expression) {
        put(alloc, span, expression, 0, b"()", edits)
    } else {
        Ok(())
    }
}

fn is_idle_end(text: &[u8]) -> bool
    ensures { result ≡ Conditions.is_idle_end text.now }
{
    text.ends_with(b".*$") || text.ends_with(b".+$")
}

/// `\/`, and a `$` at the end.
pub fn put_end(alloc: Global, span: &Span<'_>, edits: &mut Vec<Edit>) -> Result<(), Memory>
    ensures { OnOk result (edits.new.items ≡ edits.old.items ++ end_edits span.now.first span.now.bytes.now) }
{
    if is_idle_end(span.bytes) {
        let last = past(span.bytes.len().saturating_sub(1), span.bytes);
        put(alloc, span, last, 1, &[], edits)
    } else {
        Ok(())
    }
}

/// `$^`.
pub fn put_anchors(alloc: Global, span: &Span<'_>, edits: &mut Vec<Edit>) -> Result<(), Memory>
    ensures { OnOk result (edits.new.items ≡ edits.old.items ++ anchor_edits span.now.first span.now.bytes.now) }
{
    let anchor = past(3, from_part(b".*$^", span.bytes));
    put(alloc, span, anchor, 1, &[], edits)
}

fn put_indent(
    alloc: Global,
    span: &Span<'_>,
    rest: &[u8],
    edits: &mut Vec<Edit>,
) -> Result<(), Memory>
    ensures { OnOk result (edits.new.items ≡ edits.old.items
        ++ indent_edits span.now.first span.now.bytes.now rest.now) }
{
    let count = rest.len().saturating_sub(past_blanks(rest).len());
    put(alloc, span, rest, count, &[], edits)
}

fn joined_blanks(text: &[u8]) -> &[u8]
    ensures { result.now ≡ Conditions.joined_blanks text.now }
{
    if text.starts_with(b"\\\n ") || text.starts_with(b"\\\n\t") {
        past(2, text)
    } else {
        &[]
    }
}

/// Blanks at the beginning of further lines.
pub fn put_continued(alloc: Global, span: &Span<'_>, edits: &mut Vec<Edit>) -> Result<(), Memory>
    ensures { OnOk result (edits.new.items ≡ edits.old.items ++ continued_edits span.now.first span.now.bytes.now) }
{
    let mut rest = span.bytes;
    while let Some((_, after)) = rest.split_first() {
        put_indent(alloc, span, joined_blanks(rest), edits)?;
        rest = after;
    }
    Ok(())
}
