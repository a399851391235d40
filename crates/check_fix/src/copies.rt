//! Copies that a variable decides on.
ghost use Rattle.std.specs.Prelude.{◌≡◌, ◌++◌, IfOk, OnOk};
ghost use Rattle.std.specs.List.{list_all};
ghost use Rattle.check_fix.specs.Copies;
ghost use Rattle.check_fix.specs.Copies.{copy_edits, stop_at, stop_under, stop_edits};

use crate::edits::{Edit, put};
use crate::numbers::{begins_variable, name_on, past_whole, variable_name};
use crate::parts::{before, from_part, past};
use pm_bytes::{Blob, COLON, Memory, continues_name, is_blank};
use pm_recipe::{Flags, Kind, Span, read_flags};
use std::alloc::Global;

fn from_braces(text: &[u8]) -> &[u8]
    ensures { result.now ≡ Copies.from_braces text.now }
{
    from_part(b"${", text)
}

/// What is before the variable of a colon line.
pub fn before_braces(text: &[u8]) -> &[u8]
    ensures { result.now ≡ Copies.before_braces text.now }
{
    before(text, from_braces(text))
}

fn is_flag_byte(byte: u8) -> bool
    ensures { result ≡ Copies.is_flag_byte byte }
{
    is_blank(byte) || continues_name(byte)
}

fn has_flag_bytes(text: &[u8]) -> bool
    ensures { result ≡ list_all Copies.is_flag_byte text.now }
{
    text.iter().all(|byte| is_flag_byte(*byte))
}

fn is_delivering(flags: Flags) -> bool
    ensures { result ≡ Copies.is_delivering flags }
{
    !flags.filter && !flags.copy
}

/// Whether it is a colon line's front, with flags that deliver the mail.
pub fn has_front(front: &[u8]) -> bool
    ensures { result ≡ Copies.has_front front.now }
{
    front.starts_with(b":0") && has_flag_bytes(past(2, front)) && is_delivering(read_flags(front))
}

fn past_copy(text: &[u8]) -> &[u8]
    ensures { result.now ≡ Copies.after_copy text.now }
{
    past(4, past_whole(from_braces(text)))
}

fn ends_flags(text: &[u8]) -> bool
    ensures { result ≡ Copies.ends_flags text.now }
{
    match text {
        [] => true,
        [byte, ..] => is_blank(*byte) || *byte == COLON,
    }
}

fn is_giving(rest: &[u8]) -> bool
    ensures { result ≡ Copies.is_giving rest.now }
{
    begins_variable(name_on(rest)) && past_whole(rest).starts_with(b":+c}")
}

fn gives_copy(text: &[u8]) -> bool
    ensures { result ≡ Copies.gives_copy text.now }
{
    has_front(before_braces(text)) && is_giving(from_braces(text)) && ends_flags(past_copy(text))
}

fn copy_name(text: &[u8]) -> &[u8]
    ensures { result.now ≡ Copies.copy_name text.now }
{
    variable_name(from_braces(text))
}

fn is_delivery(kind: Kind) -> bool
    ensures { result ≡ Copies.is_delivery kind }
{
    match kind {
        Kind::Mailbox | Kind::Pipe | Kind::Forward => true,
        _ => false,
    }
}

/// Whether a recipe begins here.
pub fn is_colon(kind: Kind) -> bool
    ensures { result ≡ Copies.is_colon kind }
{
    match kind {
        Kind::Colon => true,
        _ => false,
    }
}

/// Whether a block ends here.
pub fn is_closing(kind: Kind) -> bool
    ensures { result ≡ Copies.is_closing kind }
{
    match kind {
        Kind::Close => true,
        _ => false,
    }
}

/// Whether it can stand between a colon line and its action.
pub fn is_between(kind: Kind) -> bool
    ensures { result ≡ Copies.is_between kind }
{
    match kind {
        Kind::Gap | Kind::Condition => true,
        _ => false,
    }
}

fn looks_back(flags: Flags) -> bool
    ensures { result ≡ Copies.looks_back flags }
{
    flags.or_else || flags.on_error
}

fn is_looked_at(spans: &[Span<'_>]) -> bool
    ensures { result ≡ Copies.is_looked_at spans.now }
{
    for span in spans {
        if is_colon(span.kind) {
            return looks_back(read_flags(before_braces(span.bytes)));
        }
        if is_closing(span.kind) {
            return false;
        }
    }
    false
}

fn can_stop(spans: &[Span<'_>]) -> bool
    ensures { result ≡ Copies.can_stop spans.now }
{
    match spans {
        [] => false,
        [_, ..] => !is_looked_at(spans),
    }
}

fn is_copied(text: &[u8], action: Kind, spans: &[Span<'_>]) -> bool
    ensures { result ≡ Copies.is_copied text.now action spans.now }
{
    gives_copy(text) && is_delivery(action) && can_stop(spans)
}

/// A flag c that a variable gives, in the colon line of an action with these spans after it.
pub fn put_copy(
    alloc: Global,
    span: &Span<'_>,
    action: Kind,
    spans: &[Span<'_>],
    edits: &mut Vec<Edit>,
) -> Result<(), Memory>
    ensures { OnOk result (edits.new.items ≡ edits.old.items
        ++ copy_edits span.now.first span.now.bytes.now action spans.now) }
{
    if is_copied(span.bytes, action, spans) {
        let rest = from_braces(span.bytes);
        let count = rest.len().saturating_sub(past_copy(span.bytes).len());
        put(alloc, span, rest, count, b"c", edits)
    } else {
        Ok(())
    }
}

/// The colon line whose conditions or action comes after a span, if one does, where that was the one before it.
pub fn colon_after<'b>(span: &Span<'b>, text: &'b [u8]) -> &'b [u8]
    ensures { result.now ≡ Copies.colon_after span.now text.now }
{
    if is_colon(span.kind) {
        span.bytes
    } else if is_between(span.kind) {
        text
    } else {
        &[]
    }
}

fn stop_text(alloc: Global, name: &[u8]) -> Result<Blob, Memory>
    ensures { IfOk result (λ text. text ≡ Copies.stop_text name.now) }
{
    let mut text = Blob::from_slice(alloc, b"\n:0 a\n{\n  :0\n  * ! ")?;
    text.push_slice(name)?;
    text.push_slice(b" ?? .\n  /dev/null\n}")?;
    Ok(text)
}

fn put_stop_at(
    alloc: Global,
    text: &[u8],
    spans: &[Span<'_>],
    edits: &mut Vec<Edit>,
) -> Result<(), Memory>
    ensures { OnOk result (edits.new.items ≡ edits.old.items ++ stop_at text.now spans.now) }
{
    match spans.split_first() {
        None => Ok(()),
        Some((span, _)) => {
            let stop = stop_text(alloc, copy_name(text))?;
            put(alloc, span, span.bytes, 0, stop.as_slice(), edits)
        }
    }
}

fn put_stop_under(
    alloc: Global,
    text: &[u8],
    action: Kind,
    spans: &[Span<'_>],
    edits: &mut Vec<Edit>,
) -> Result<(), Memory>
    ensures { OnOk result (edits.new.items ≡ edits.old.items ++ stop_under text.now action spans.now) }
{
    if is_copied(text, action, spans) {
        put_stop_at(alloc, text, spans, edits)
    } else {
        Ok(())
    }
}

/// The end of a delivery that is no copy without the variable, behind its action, under the colon line whose action
/// comes there.
pub fn put_stop(
    alloc: Global,
    span: &Span<'_>,
    spans: &[Span<'_>],
    colon: &[u8],
    edits: &mut Vec<Edit>,
) -> Result<(), Memory>
    ensures { OnOk result (edits.new.items ≡ edits.old.items ++ stop_edits span.now spans.now colon.now) }
{
    put_stop_under(alloc, colon, span.kind, spans, edits)
}
