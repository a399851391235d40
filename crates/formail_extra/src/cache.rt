//! The cache of the identifiers that were seen (formail(1), option -D).
ghost use Rattle.std.specs.Prelude.{◌≡◌, ◌≤◌, ◌++◌, ◌+◌, length, take, vec_capacity};
ghost use Rattle.std.specs.List.{list_any};
ghost use Rattle.bstr.specs.Text.{lines_of};
ghost use Rattle.formail_extra.specs.Cache.{is_line_of, is_seen, line_end_of, addition_to};

use crate::reading::MOST;
use crate::seen::unended;
use bstr::ByteSlice;
use std::marker::Model;

/// Of some mails in their order, whether each is kept.
#[derive(Drop)]
pub struct Kept {
    items: Vec<bool>,
}

impl Model for Kept {
    ghost use Rattle.std.specs.Prelude.{List, Bool};

    ghost Value = { List Bool };

    ghost view = { λ k. k.items.items };
}

impl Kept {
    /// The marks of a `Vec`. It allocates nothing.
    pub fn from_vec(items: Vec<bool>) -> Kept
        ensures { result ≡ items.items }
    {
        Kept { items }
    }

    pub fn as_slice(&self) -> &[bool]
        ensures { result.now ≡ self.now }
    {
        self.items.as_slice()
    }
}

// Whether the line is whole, and is this identifier.
fn is_entry(line: &[u8], id: &[u8]) -> bool
    ensures { result ≡ is_line_of id.now line.now }
{
    line.ends_with(b"\n") && unended(line) == id
}

fn has_line(bytes: &[u8], id: &[u8]) -> bool
    ensures { result ≡ list_any (is_line_of id.now) (lines_of bytes.now) }
{
    bytes.lines_with_terminator().any(|line| is_entry(line, id))
}

/// At most so many bytes of a text.
pub fn front(text: &[u8], most: usize) -> &[u8]
    ensures { result.now ≡ take most text.now }
{
    &text[..text.len().min(most)]
}

/// Whether an identifier is a whole line of what is looked through of a cache.
pub fn was_seen(bytes: &[u8], id: &[u8]) -> bool
    ensures { result ≡ is_seen bytes.now id.now }
{
    has_line(front(bytes, MOST), id)
}

// Adds bytes for which there is room.
fn put(bytes: &mut Vec<u8>, more: &[u8])
    requires { length bytes.old.items + length more.now ≤ vec_capacity bytes.old }
    ensures items { bytes.new.items ≡ bytes.old.items ++ more.now }
    ensures space { vec_capacity bytes.old ≤ vec_capacity bytes.new }
{
    let _ = bytes.extend_from_slice(more);
}

/// What ends the last line of a cache.
pub fn line_end(cache: &[u8]) -> &'static [u8]
    ensures is { result.now ≡ line_end_of cache.now }
    ensures few { length result.now ≤ 1 }
{
    if cache.is_empty() || cache.ends_with(b"\n") {
        return b"";
    }
    b"\n"
}

/// Adds the line of an identifier to the bytes of a cache, whose last line is ended before. There is room for it.
pub fn put_line(cache: &mut Vec<u8>, id: &[u8])
    requires { length cache.old.items + (length id.now + 2) ≤ vec_capacity cache.old }
    ensures items { cache.new.items ≡ cache.old.items ++ addition_to cache.old.items id.now }
    ensures few { length cache.new.items ≤ length cache.old.items + (length id.now + 2) }
    ensures space { vec_capacity cache.old ≤ vec_capacity cache.new }
{
    let end = line_end(cache.as_slice());
    put(cache, end);
    put(cache, id);
    put(cache, b"\n");
}
