//! Assignments and names alone that are brought over.
ghost use Rattle.std.specs.Prelude.{◌≡◌, ◌++◌, OnOk};
ghost use Rattle.check_fix.specs.Values;
ghost use Rattle.check_fix.specs.Values.{host_edits, idle_edits};
ghost use Rattle.check_fix.specs.Values.{value_edits, log_edits, delivered_edits};

use crate::edits::{Edit, put};
use crate::parts::{has_part, is, unquoted};
use pm_bytes::{HASH, Memory, NEWLINE, is_blank};
use pm_recipe::{Kind, Span};
use std::alloc::Global;

fn is_line_end(bytes: &[u8]) -> bool
    ensures { result ≡ Values.is_line_end bytes.now }
{
    match bytes {
        [] => false,
        [byte, ..] => *byte == NEWLINE || *byte == HASH,
    }
}

/// Whether these bytes begin with a blank.
pub fn is_blank_gap(bytes: &[u8]) -> bool
    ensures { result ≡ Values.is_blank_gap bytes.now }
{
    match bytes {
        [] => false,
        [byte, ..] => is_blank(*byte),
    }
}

/// Whether a span of this kind is no statement.
pub fn is_gap(kind: Kind) -> bool
    ensures { result ≡ Values.is_gap kind }
{
    match kind {
        Kind::Gap => true,
        _ => false,
    }
}

fn ends_line(spans: &[Span<'_>]) -> bool
    ensures { result ≡ Values.ends_line spans.now }
{
    for span in spans {
        if !is_gap(span.kind) {
            return false;
        }
        if !is_blank_gap(span.bytes) {
            return is_line_end(span.bytes);
        }
    }
    true
}

/// `HOST` at the end of its line.
pub fn put_host(
    alloc: Global,
    span: &Span<'_>,
    spans: &[Span<'_>],
    edits: &mut Vec<Edit>,
) -> Result<(), Memory>
    ensures { OnOk result (edits.new.items ≡ edits.old.items
        ++ host_edits span.now.first span.now.bytes.now spans.now) }
{
    if ends_line(spans) {
        put(alloc, span, span.bytes, span.bytes.len(), b"HOST=", edits)
    } else {
        Ok(())
    }
}

/// A variable without an effect.
pub fn put_idle(alloc: Global, span: &Span<'_>, edits: &mut Vec<Edit>) -> Result<(), Memory>
    ensures { OnOk result (edits.new.items ≡ edits.old.items ++ idle_edits span.now.first span.now.bytes.now) }
{
    if has_part(b"`", span.bytes) {
        Ok(())
    } else {
        put(alloc, span, span.bytes, span.bytes.len(), &[], edits)
    }
}

fn is_yes(value: &[u8]) -> bool
    ensures { result ≡ Values.is_yes value.now }
{
    is(value, b"yes") || is(value, b"on") || is(value, b"1")
}

fn is_no(value: &[u8]) -> bool
    ensures { result ≡ Values.is_no value.now }
{
    is(value, b"off") || is(value, b"0")
}

fn put_value(
    alloc: Global,
    span: &Span<'_>,
    value: &[u8],
    edits: &mut Vec<Edit>,
) -> Result<(), Memory>
    ensures { OnOk result (edits.new.items ≡ edits.old.items
        ++ value_edits span.now.first span.now.bytes.now span.now.text.now value.now) }
{
    put(alloc, span, span.text, span.text.len(), value, edits)
}

/// LOGABSTRACT with another value than all or no.
pub fn put_log(alloc: Global, span: &Span<'_>, edits: &mut Vec<Edit>) -> Result<(), Memory>
    ensures { OnOk result (edits.new.items ≡ edits.old.items
        ++ log_edits span.now.first span.now.bytes.now span.now.text.now) }
{
    if is_yes(unquoted(span.text)) {
        put_value(alloc, span, b"all", edits)
    } else if is_no(unquoted(span.text)) {
        put_value(alloc, span, b"no", edits)
    } else {
        Ok(())
    }
}

/// DELIVERED with another value than yes.
pub fn put_delivered(alloc: Global, span: &Span<'_>, edits: &mut Vec<Edit>) -> Result<(), Memory>
    ensures { OnOk result (edits.new.items ≡ edits.old.items
        ++ delivered_edits span.now.first span.now.bytes.now span.now.text.now) }
{
    if is_yes(unquoted(span.text)) {
        put_value(alloc, span, b"yes", edits)
    } else {
        Ok(())
    }
}
