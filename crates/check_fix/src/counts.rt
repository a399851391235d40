//! Counts of conditions that are brought over.
ghost use Rattle.std.specs.Prelude.{◌≡◌, ◌++◌, ◌≤◌, OnOk};
ghost use Rattle.check_fix.specs.Counts;
ghost use Rattle.check_fix.specs.Counts.{star_edits, numbered_edits, count_edits};

use crate::braces::is_skipped;
use crate::edits::{Edit, put};
use crate::parts::{is, past};
use crate::values::is_gap;
use pm_bytes::Memory;
use pm_recipe::Span;
use std::alloc::Global;

fn digit(byte: u8) -> usize
    ensures { result ≡ Counts.digit byte }
{
    if 49 <= byte && byte <= 57 {
        (byte - 48) as usize
    } else {
        0
    }
}

fn one_digit(text: &[u8]) -> usize
    ensures { result ≡ Counts.one_digit text.now }
{
    match text {
        [] => 0,
        [byte] => digit(*byte),
        [byte, other, ..] => {
            if 48 <= *other && *other <= 57 {
                0
            } else {
                digit(*byte)
            }
        }
    }
}

fn counted(text: &[u8]) -> usize
    ensures { result ≡ Counts.counted text.now }
{
    if is(text, b":") {
        1
    } else if text.starts_with(b":") {
        one_digit(past(1, text))
    } else {
        0
    }
}

fn is_bare(text: &[u8]) -> bool
    ensures { result ≡ Counts.is_bare text.now }
{
    !text.starts_with(b":") && !text.starts_with(b"*")
}

fn is_condition(span: &Span<'_>) -> bool
    ensures { result ≡ Counts.is_condition span.now }
{
    is_skipped(span.kind) && is_bare(span.bytes)
}

fn follow(count: usize, spans: &[Span<'_>]) -> bool
    ensures { result ≡ Counts.follow count spans.now }
{
    let mut left = count;
    for span in spans {
        if left == 0 {
            return true;
        }
        if !is_gap(span.kind) {
            if !is_condition(span) {
                return false;
            }
            left -= 1;
        }
    }
    left == 0
}

fn put_stars(
    alloc: Global,
    count: usize,
    spans: &[Span<'_>],
    edits: &mut Vec<Edit>,
) -> Result<(), Memory>
    ensures { OnOk result (edits.new.items ≡ edits.old.items ++ star_edits count spans.now) }
{
    let mut left = count;
    for span in spans {
        if left == 0 {
            return Ok(());
        }
        if !is_gap(span.kind) {
            put(alloc, span, span.bytes, 0, b"* ", edits)?;
            left -= 1;
        }
    }
    Ok(())
}

fn count_length(text: &[u8]) -> usize
    ensures { result ≡ Counts.count_length text.now }
{
    if is(text, b":") { 1 } else { 2 }
}

fn put_numbered(
    alloc: Global,
    count: usize,
    span: &Span<'_>,
    spans: &[Span<'_>],
    edits: &mut Vec<Edit>,
) -> Result<(), Memory>
    ensures { OnOk result (edits.new.items ≡ edits.old.items ++ numbered_edits count span.now spans.now) }
{
    if count != 0 && follow(count, spans) {
        put(
            alloc,
            span,
            span.bytes,
            count_length(span.bytes),
            b":0",
            edits,
        )?;
        put_stars(alloc, count, spans, edits)
    } else {
        Ok(())
    }
}

/// A colon line with a count of conditions, and they.
pub fn put_count(
    alloc: Global,
    span: &Span<'_>,
    spans: &[Span<'_>],
    edits: &mut Vec<Edit>,
) -> Result<(), Memory>
    ensures { OnOk result (edits.new.items ≡ edits.old.items ++ count_edits span.now spans.now) }
{
    put_numbered(alloc, counted(span.bytes), span, spans, edits)
}
