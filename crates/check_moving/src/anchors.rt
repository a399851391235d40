//! What can take a newline at the beginning of MATCH.
ghost use Rattle.std.specs.Prelude.{◌≡◌, ◌≤◌, ◌<◌, ◌+◌, ◌^◌, true};
ghost use Rattle.std.specs.List.{list_any};
ghost use Rattle.check_moving.specs.Anchors;
ghost use Rattle.check_moving.specs.Leads.{front_in};

use crate::leads::Lead;
use crate::spots::Spot;
use crate::text::{has_part, is, past, past_name};
use pm_bytes::{BACKSLASH, BAR, Blob, CLOSE_PARENTHESIS, NEWLINE, OPEN_PARENTHESIS};

fn is_word_edge(text: &[u8]) -> bool
    ensures { result ≡ Anchors.is_word_edge text.now }
{
    text.starts_with(b"\\<") || text.starts_with(b"\\>")
}

fn is_line_start(text: &[u8]) -> bool
    ensures { result ≡ Anchors.is_line_start text.now }
{
    text.starts_with(b"^") && !text.starts_with(b"^^")
}

fn ends_part(text: &[u8]) -> bool
    ensures { result ≡ Anchors.ends_part text.now }
{
    match text {
        [] => true,
        [byte, ..] => *byte == CLOSE_PARENTHESIS || *byte == BAR,
    }
}

fn is_line_end(expands: bool, text: &[u8]) -> bool
    ensures { result ≡ Anchors.is_line_end expands text.now }
{
    text.starts_with(b"$") && (!expands || ends_part(past(1, text)))
}

fn name_on(text: &[u8]) -> &[u8]
    ensures { result.now ≡ Anchors.name_on text.now }
{
    if text.starts_with(b"{") {
        past(1, text)
    } else {
        text
    }
}

fn name_at(text: &[u8]) -> &[u8]
    ensures { result.now ≡ Anchors.name_at text.now }
{
    let name = name_on(text);
    &name[..name.len().saturating_sub(past_name(name).len())]
}

fn has_name(names: &[Blob], name: &[u8]) -> bool
    ensures { result ≡ Anchors.has_name names.now name.now }
{
    names.iter().any(|other| is(other.as_slice(), name))
}

fn is_variable_of(names: &[Blob], text: &[u8]) -> bool
    ensures { result ≡ Anchors.is_variable_of names.now text.now }
{
    text.starts_with(b"$") && has_name(names, name_at(past(1, text)))
}

fn is_anchor(expands: bool, names: &[Blob], text: &[u8]) -> bool
    ensures { result ≡ Anchors.is_anchor expands names.now text.now }
{
    is_word_edge(text)
        || is_line_start(text)
        || is_line_end(expands, text)
        || (expands && is_variable_of(names, text))
}

// Whether nothing was matched yet after a byte, where so many open groups began after something was matched.
fn fresh_after(spot: Spot, fresh: bool, inner: usize, byte: u8) -> bool
    ensures { result ≡ Anchors.fresh_after spot fresh inner byte }
{
    match spot {
        Spot::Plain => if byte == BAR {
            inner == 0
        } else {
            fresh && (byte == OPEN_PARENTHESIS || byte == CLOSE_PARENTHESIS || byte == BACKSLASH)
        },
        Spot::Escaped => fresh && byte == NEWLINE,
        _ => false,
    }
}

fn inner_after(spot: Spot, fresh: bool, inner: usize, byte: u8) -> usize
    requires room { inner + 1 < 2 ^ 64 }
    ensures after { result ≡ Anchors.inner_after spot fresh inner byte }
    ensures within { result ≤ inner + 1 }
{
    match spot {
        Spot::Plain => if byte == OPEN_PARENTHESIS && !fresh {
            inner + 1
        } else if byte == CLOSE_PARENTHESIS {
            inner.saturating_sub(1)
        } else {
            inner
        },
        _ => inner,
    }
}

/// Whether the expression begins with an anchor, or with one of the variables of these names.
pub fn begins_anchored(expands: bool, names: &[Blob], text: &[u8]) -> bool
    ensures { result ≡ Anchors.begins_anchored expands names.now text.now }
{
    let mut spot = Spot::Plain;
    let mut fresh = true;
    let mut inner = 0;
    let mut rest = text;
    while let Some((byte, after)) = rest.split_first() {
        if spot.is_plain() && fresh && is_anchor(expands, names, rest) {
            return true;
        }
        let begins = fresh_after(spot, fresh, inner, *byte);
        inner = inner_after(spot, fresh, inner, *byte);
        spot = spot.after(*byte);
        fresh = begins;
        rest = after;
    }
    false
}

fn past_cut(text: &[u8]) -> &[u8]
    ensures { result.now ≡ Anchors.after_cut text.now }
{
    let mut rest = text;
    while let Some((_, after)) = rest.split_first() {
        if rest.starts_with(b"\\/") {
            return past(1, after);
        }
        rest = after;
    }
    rest
}

/// Whether MATCH can begin with a newline, where the variables of these names begin with an anchor.
pub fn is_match_begin(names: &[Blob], lead: &Lead<'_>) -> bool
    ensures { result ≡ Anchors.is_match_begin names.now (front_in lead.now) }
{
    !lead.inverted && begins_anchored(lead.expands, names, past_cut(lead.text))
}

fn is_single(value: &[u8]) -> bool
    ensures { result ≡ Anchors.is_single value.now }
{
    value.starts_with(b"'")
}

fn given_by(value: &[u8]) -> &[u8]
    ensures { result.now ≡ Anchors.given_by value.now }
{
    if is_single(value) || value.starts_with(b"\"") {
        past(1, value)
    } else if has_part(b"\\", value) {
        &[]
    } else {
        value
    }
}

/// Whether a value begins with an anchor, or with one of the variables of these names.
pub fn is_anchored(names: &[Blob], value: &[u8]) -> bool
    ensures { result ≡ Anchors.is_anchored names.now value.now }
{
    begins_anchored(!is_single(value), names, given_by(value))
}
