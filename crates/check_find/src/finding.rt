//! A finding, and where it stands in its line.
ghost use Rattle.std.specs.Prelude.{◌≡◌, ◌<◌, IfSome, length};
ghost use Rattle.check_find.specs.Columns;
ghost use Rattle.check_find.specs.Columns.{column_of};

use crate::codes::Code;
use memchr::memrchr;
use std::cmp::min;

/// What is wrong at a place of an rcfile.
#[derive(Clone, Copy)]
pub struct Finding {
    pub code: Code,
    /// The line on which the statement or the condition begins, from 1.
    pub line: u64,
    /// Where `first` stands in its line, in bytes from 1.
    pub column: u64,
    /// The place in the text of the first byte that it is about, from 0.
    pub first: usize,
    /// The place after the last byte that it is about.
    pub last: usize,
}

/// The column of a place in a text.
pub fn column_at(text: &[u8], place: usize) -> u64
    ensures { result ≡ column_of text.now place }
{
    let front = &text[..min(place, text.len())];
    match last_newline(front) {
        None => front.len() as u64 + 1,
        Some(newline) => (front.len() - newline) as u64,
    }
}

fn last_newline(text: &[u8]) -> Option<usize>
    ensures value { result ≡ Columns.last_newline text.now }
    ensures within { IfSome result (λ place. place < length text.now) }
{
    memrchr(b'\n', text)
}
