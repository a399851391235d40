//! The fields of a head, folded lines and all (formail(1)).
ghost use Rattle.std.specs.Prelude.{◌≡◌, ◌≤◌, ◌<◌, ◌∷◌, IfOk, length, take, drop, position, slice_index};
ghost use Rattle.pm_message.specs.Piece.{with_newline};
ghost use Rattle.pm_message.specs.Field.{texts_of, fields_in, ends_name, begins_with_blank, name_of, key_of, fields_of};

use crate::Message;
use memchr::memchr;
use pm_bytes::{Blob, Memory, is_blank};
use std::alloc::Global;

/// What a field begins with.
#[derive(Clone, Copy)]
pub enum FieldKind {
    /// `From `, in the first field.
    FromLine,
    /// A name and a colon.
    Named,
    /// Neither.
    Other,
}

/// What a field is named by: `From `, or a name and its colon, or nothing.
#[derive(Clone, Copy)]
pub struct Key {
    pub kind: FieldKind,
    pub length: usize,
}

/// A field's place in its head: from `start` to `end`, with the key up to `key_end`.
#[derive(Clone, Copy)]
pub struct Field {
    pub kind: FieldKind,
    pub start: usize,
    pub key_end: usize,
    pub end: usize,
}

/// The place of the first byte that is in no name.
fn name_end(text: &[u8]) -> Option<usize>
    ensures { result ≡ position ends_name text.now }
{
    text.iter()
        .position(|byte| !(b'!'..=b'~').contains(byte) || *byte == b':')
}

/// What may be a field's name, at the front of its text.
fn name(text: &[u8]) -> &[u8]
    ensures { result.now ≡ name_of text.now }
{
    &text[..name_end(text).unwrap_or(text.len())]
}

/// The key of a field's text. A line `From ` counts as one only in the first field.
pub fn read_key(text: &[u8], first: bool) -> Key
    ensures key { result ≡ key_of first text.now }
    ensures within { result.length ≤ length text.now }
{
    if first && text.starts_with(b"From ") {
        return Key {
            kind: FieldKind::FromLine,
            length: 5,
        };
    }
    let length = name(text).len();
    if length > 0 && text[length..].starts_with(b":") {
        Key {
            kind: FieldKind::Named,
            length: length + 1,
        }
    } else {
        Key {
            kind: FieldKind::Other,
            length: 0,
        }
    }
}

fn is_indented(text: &[u8]) -> bool
    ensures { result ≡ begins_with_blank text.now }
{
    match text {
        [] => false,
        [byte, ..] => is_blank(*byte),
    }
}

/// How many bytes the first field has, with its folded lines.
fn field_length(text: &[u8]) -> usize
    requires some { 0 < length text.now }
    requires full { slice_index text.now 0 ≡ 10 → ⊥ }
    ensures more { 0 < result }
    ensures within { result ≤ length text.now }
    ensures first { fields_in text.now ≡ take result text.now ∷ fields_in (drop result text.now) }
{
    let mut end = 0;
    while let Some(place) = memchr(b'\n', &text[end..]) {
        end += place + 1;
        if !is_indented(&text[end..]) {
            return end;
        }
    }
    text.len()
}

/// The fields of a mail's head in their order. `Memory` is the only error.
pub fn fields(alloc: Global, message: &Message) -> Result<Vec<Field>, Memory>
    ensures { IfOk result (λ fields. fields.items ≡ fields_of message.now.head) }
{
    let head = message.head.as_slice();
    let mut fields = Vec::new(alloc);
    let mut start = 0;
    while start < head.len() && head[start] != b'\n' {
        let end = start + field_length(&head[start..]);
        let key = read_key(&head[start..end], start == 0);
        fields.push(Field {
            kind: key.kind,
            start,
            key_end: start + key.length,
            end,
        })?;
        start = end;
    }
    Ok(fields)
}

/// The bytes with a newline at their end.
fn ended_line(alloc: Global, line: &[u8]) -> Result<Blob, Memory>
    ensures { IfOk result (λ text. text ≡ with_newline line.now) }
{
    let mut text = Blob::from_slice(alloc, line)?;
    if !line.ends_with(b"\n") {
        text.push_slice(b"\n")?;
    }
    Ok(text)
}

/// The text of each field of a mail's head, in their order. `Memory` is the only error.
pub fn field_texts(alloc: Global, message: &Message) -> Result<Vec<Blob>, Memory>
    ensures { IfOk result (λ texts. texts.items ≡ texts_of message.now.head) }
{
    let mut texts = Vec::new(alloc);
    let mut rest = message.head.as_slice();
    while !rest.is_empty() && rest[0] != b'\n' {
        let (field, others) = rest.split_at(field_length(rest));
        texts.push(ended_line(alloc, field)?)?;
        rest = others;
    }
    Ok(texts)
}
