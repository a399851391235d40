//! Values with a blank within `${` that are brought over.
ghost use Rattle.std.specs.Prelude.{◌≡◌, ◌++◌, OnOk};
ghost use Rattle.check_fix.specs.Braces;
ghost use Rattle.check_fix.specs.Braces.{from_close};
ghost use Rattle.check_fix.specs.Braces.{close_edits, rest_edits, requoted, brace_edits};

use crate::edits::{Edit, put};
use crate::parts::{before, from_part, has_part, past};
use crate::values::{is_blank_gap, is_gap};
use pm_bytes::Memory;
use pm_recipe::{Kind, Span};
use std::alloc::Global;

/// Whether a span of this kind is a line that isn't understood.
pub fn is_skipped(kind: Kind) -> bool
    ensures { result ≡ Braces.is_skipped kind }
{
    match kind {
        Kind::Skipped => true,
        _ => false,
    }
}

fn from_close(rest: &[u8]) -> &[u8]
    ensures { result.now ≡ from_close rest.now }
{
    from_part(b"\"}", past(1, rest))
}

fn in_quotes(rest: &[u8]) -> &[u8]
    ensures { result.now ≡ Braces.in_quotes rest.now }
{
    before(past(1, rest), from_close(rest))
}

/// Whether nothing, a blank or a newline comes next.
pub fn ends_word(text: &[u8]) -> bool
    ensures { result ≡ Braces.ends_word text.now }
{
    match text {
        [] => true,
        [byte, ..] => *byte == b' ' || *byte == b'\t' || *byte == b'\n',
    }
}

fn is_quoted(rest: &[u8]) -> bool
    ensures { result ≡ Braces.is_quoted rest.now }
{
    rest.starts_with(b"\"")
        && from_close(rest).starts_with(b"\"}")
        && !has_part(b"\"", in_quotes(rest))
        && ends_word(past(2, from_close(rest)))
}

fn opens_brace(value: &[u8]) -> bool
    ensures { result ≡ Braces.opens_brace value.now }
{
    value.starts_with(b"${") && !has_part(b"\"", value) && !has_part(b"'", value)
}

fn is_cut(value: &[u8], gap: &Span<'_>, rest: &Span<'_>) -> bool
    ensures { result ≡ Braces.is_cut value.now gap.now rest.now }
{
    opens_brace(value)
        && is_gap(gap.kind)
        && is_blank_gap(gap.bytes)
        && is_skipped(rest.kind)
        && is_quoted(rest.bytes)
}

fn put_close(alloc: Global, rest: &Span<'_>, edits: &mut Vec<Edit>) -> Result<(), Memory>
    ensures { OnOk result (edits.new.items ≡ edits.old.items ++ close_edits rest.now.first rest.now.bytes.now) }
{
    put(alloc, rest, rest.bytes, 1, &[], edits)?;
    put(alloc, rest, from_close(rest.bytes), 2, b"}\"", edits)
}

fn put_rest(
    alloc: Global,
    gap: &Span<'_>,
    rest: &Span<'_>,
    edits: &mut Vec<Edit>,
) -> Result<(), Memory>
    ensures { OnOk result (edits.new.items ≡ edits.old.items
        ++ rest_edits gap.now rest.now) }
{
    put(alloc, gap, gap.bytes, gap.bytes.len(), &[], edits)?;
    put_close(alloc, rest, edits)
}

fn put_requoted(
    alloc: Global,
    span: &Span<'_>,
    gap: &Span<'_>,
    rest: &Span<'_>,
    edits: &mut Vec<Edit>,
) -> Result<(), Memory>
    ensures { OnOk result (edits.new.items ≡ edits.old.items
        ++ requoted span.now.first span.now.bytes.now span.now.text.now gap.now rest.now) }
{
    put(alloc, span, span.text, 0, b"\"", edits)?;
    put_rest(alloc, gap, rest, edits)
}

/// A value that ends at a blank within `${`.
pub fn put_brace(
    alloc: Global,
    span: &Span<'_>,
    spans: &[Span<'_>],
    edits: &mut Vec<Edit>,
) -> Result<(), Memory>
    ensures { OnOk result (edits.new.items ≡ edits.old.items
        ++ brace_edits span.now.first span.now.bytes.now span.now.text.now spans.now) }
{
    match spans {
        [gap, rest, ..] if is_cut(span.text, gap, rest) => {
            put_requoted(alloc, span, gap, rest, edits)
        }
        _ => Ok(()),
    }
}
