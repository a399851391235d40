//! The messages of a log by kind, so that those which differ in a name or a number alone are counted together.
ghost use Rattle.std.specs.Prelude.{◌≡◌, IfOk, position};
ghost use Rattle.log_summary.specs.Messages.{kind, front, is_quote, numbers_as_one, begins_with_digit};

use bstr::ByteSlice;
use pm_bytes::{Memory, is_digit};
use std::alloc::Global;

/// The kind of a message: its text up to the first double quote, with `N` for each number.
pub fn kind_of(alloc: Global, text: &[u8]) -> Result<Vec<u8>, Memory>
    ensures { IfOk result (λ all. all.items ≡ kind text.now) }
{
    numbers_as_one(alloc, front(text).trim_end())
}

fn front(text: &[u8]) -> &[u8]
    ensures { result.now ≡ front text.now }
{
    let end = first_quote(text).unwrap_or(text.len());
    &text[..end]
}

fn first_quote(text: &[u8]) -> Option<usize>
    ensures { result ≡ position is_quote text.now }
{
    text.iter().position(|byte| *byte == b'"')
}

fn numbers_as_one(alloc: Global, text: &[u8]) -> Result<Vec<u8>, Memory>
    ensures { IfOk result (λ all. all.items ≡ numbers_as_one text.now) }
{
    let mut all = Vec::new(alloc);
    let mut rest = text;
    while let Some((byte, after)) = rest.split_first() {
        if !is_digit(*byte) {
            all.push(*byte)?;
        } else if !begins_with_digit(after) {
            all.push(b'N')?;
        }
        rest = after;
    }
    Ok(all)
}

fn begins_with_digit(text: &[u8]) -> bool
    ensures { result ≡ begins_with_digit text.now }
{
    match text.first() {
        Some(byte) => is_digit(*byte),
        None => false,
    }
}
