//! Weights by a variable that has one number.
ghost use Rattle.std.specs.Prelude.{◌≡◌, ◌++◌, OnOk};
ghost use Rattle.std.specs.List.{list_all};
ghost use Rattle.pm_bytes.specs.Letter.{is_digit_byte};
ghost use Rattle.check_moving.specs.Conditions.{begins_variable};
ghost use Rattle.check_fix.specs.Numbers;

use crate::edits::{Edit, put};
use crate::parts::{before, is, past, past_name, unquoted};
use pm_bytes::{DOLLAR, Memory, begins_name, is_digit};
use pm_recipe::{Kind, Span};
use std::alloc::Global;

/// Whether a variable's name or a brace begins here.
pub fn begins_variable(text: &[u8]) -> bool
    ensures { result ≡ begins_variable text.now }
{
    match text {
        [] => false,
        [byte, ..] => begins_name(*byte) || *byte == b'{',
    }
}

fn from_variable(text: &[u8]) -> &[u8]
    ensures { result.now ≡ Numbers.from_variable text.now }
{
    let mut rest = text;
    while let Some((byte, after)) = rest.split_first() {
        if *byte == DOLLAR && begins_variable(after) {
            return rest;
        }
        rest = after;
    }
    rest
}

fn is_braced(text: &[u8]) -> bool
    ensures { result ≡ Numbers.is_braced text.now }
{
    text.starts_with(b"${")
}

/// What is behind `$` or `${`.
pub fn name_on(text: &[u8]) -> &[u8]
    ensures { result.now ≡ Numbers.name_on text.now }
{
    if is_braced(text) {
        past(2, text)
    } else {
        past(1, text)
    }
}

/// What is behind the name of the variable at the front.
pub fn past_whole(text: &[u8]) -> &[u8]
    ensures { result.now ≡ Numbers.after_whole text.now }
{
    past_name(name_on(text))
}

/// The name of the variable at the front.
pub fn variable_name(text: &[u8]) -> &[u8]
    ensures { result.now ≡ Numbers.variable_name text.now }
{
    before(name_on(text), past_whole(text))
}

fn is_closed(text: &[u8]) -> bool
    ensures { result ≡ Numbers.is_closed text.now }
{
    !is_braced(text) || past_whole(text).starts_with(b"}")
}

fn past_braces(text: &[u8]) -> &[u8]
    ensures { result.now ≡ Numbers.after_braces text.now }
{
    if is_braced(text) {
        past(1, past_whole(text))
    } else {
        past_whole(text)
    }
}

fn is_assignment(kind: Kind) -> bool
    ensures { result ≡ Numbers.is_assignment kind }
{
    match kind {
        Kind::Assign => true,
        _ => false,
    }
}

/// Whether a block begins here.
pub fn is_opening(kind: Kind) -> bool
    ensures { result ≡ Numbers.is_opening kind }
{
    match kind {
        Kind::Open => true,
        _ => false,
    }
}

fn is_value_of(name: &[u8], kind: Kind, other: &[u8]) -> bool
    ensures { result ≡ Numbers.is_value_of name.now kind other.now }
{
    is_assignment(kind) && is(other, name)
}

fn is_past(place: usize, kind: Kind, first: usize) -> bool
    ensures { result ≡ Numbers.is_past place kind first }
{
    is_opening(kind) || place <= first
}

fn from_value<'a, 'b>(name: &[u8], place: usize, spans: &'a [Span<'b>]) -> &'a [Span<'b>]
    ensures { result.now ≡ Numbers.from_value name.now place spans.now }
{
    for i in 0..spans.len() {
        if is_past(place, spans[i].kind, spans[i].first) {
            return &[];
        }
        if is_value_of(name, spans[i].kind, spans[i].name) {
            return &spans[i..];
        }
    }
    &[]
}

fn first_text<'b>(spans: &[Span<'b>]) -> &'b [u8]
    ensures { result.now ≡ Numbers.first_text spans.now }
{
    match spans {
        [] => &[],
        [span, ..] => span.text,
    }
}

fn first_value<'b>(name: &[u8], place: usize, spans: &[Span<'b>]) -> &'b [u8]
    ensures { result.now ≡ Numbers.first_value name.now place spans.now }
{
    first_text(from_value(name, place, spans))
}

fn keeps_value(name: &[u8], value: &[u8], kind: Kind, other: &[u8], text: &[u8]) -> bool
    ensures { result ≡ Numbers.keeps_value name.now value.now kind other.now text.now }
{
    !is(other, name) || (is_assignment(kind) && is(text, value))
}

fn has_digits(value: &[u8]) -> bool
    ensures { result ≡ list_all is_digit_byte value.now }
{
    value.iter().all(|byte| is_digit(*byte))
}

fn is_number(value: &[u8]) -> bool
    ensures { result ≡ Numbers.is_number value.now }
{
    !is(value, b"") && has_digits(value)
}

/// Whether no span gives the variable another value.
pub fn keep_value(name: &[u8], value: &[u8], spans: &[Span<'_>]) -> bool
    ensures { result ≡ Numbers.keep_value name.now value.now spans.now }
{
    spans.iter().all(|span| keeps_value(name, value, span.kind, span.name, span.text))
}

fn is_only(name: &[u8], value: &[u8], spans: &[Span<'_>]) -> bool
    ensures { result ≡ Numbers.is_only name.now value.now spans.now }
{
    is_number(unquoted(value)) && keep_value(name, value, spans)
}

fn put_value(
    alloc: Global,
    span: &Span<'_>,
    rest: &[u8],
    value: &[u8],
    edits: &mut Vec<Edit>,
) -> Result<(), Memory>
    ensures { OnOk result (edits.new.items ≡ edits.old.items
        ++ Numbers.value_edits span.now.first span.now.bytes.now rest.now value.now) }
{
    if is_closed(rest) {
        let count = rest.len().saturating_sub(past_braces(rest).len());
        put(alloc, span, rest, count, unquoted(value), edits)
    } else {
        Ok(())
    }
}

fn put_only(
    alloc: Global,
    span: &Span<'_>,
    rest: &[u8],
    value: &[u8],
    all: &[Span<'_>],
    edits: &mut Vec<Edit>,
) -> Result<(), Memory>
    ensures { OnOk result (edits.new.items ≡ edits.old.items
        ++ Numbers.only_edits span.now.first span.now.bytes.now rest.now value.now all.now) }
{
    if is_only(variable_name(rest), value, all) {
        put_value(alloc, span, rest, value, edits)
    } else {
        Ok(())
    }
}

/// The number of a variable that gives a weight, in the place of the variable. `all` are the spans of the whole text.
pub fn put_number(
    alloc: Global,
    span: &Span<'_>,
    all: &[Span<'_>],
    edits: &mut Vec<Edit>,
) -> Result<(), Memory>
    ensures { OnOk result (edits.new.items ≡ edits.old.items
        ++ Numbers.number_edits span.now.first span.now.bytes.now all.now) }
{
    let rest = from_variable(span.bytes);
    let value = first_value(variable_name(rest), span.first, all);
    put_only(alloc, span, rest, value, all, edits)
}
