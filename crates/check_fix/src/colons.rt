//! Colon lines that are brought over.
ghost use Rattle.std.specs.Prelude.{◌≡◌, ◌++◌, ◌≤◌, OnOk, length};
ghost use Rattle.pm_recipe.specs.Colon.{lock_of};
ghost use Rattle.check_fix.specs.Colons;
ghost use Rattle.check_fix.specs.Colons.{from_colon};
ghost use Rattle.check_fix.specs.Colons.{automatic_edits, own_lock_edits};
ghost use Rattle.check_fix.specs.Colons.{cache_lock_edits, lock_wait_edits, wait_edits};

use crate::copies::{before_braces, has_front};
use crate::edits::{Edit, put};
use crate::parts::{before, from_part, has_part, is, past, past_blanks};
use pm_bytes::{COLON, HASH, Memory};
use pm_recipe::{Flags, Kind, Span, read_flags, read_lock};
use std::alloc::Global;

fn colon_in(text: &[u8]) -> &[u8]
    ensures { result.now ≡ from_colon text.now }
{
    let mut rest = text;
    while let Some((byte, after)) = rest.split_first() {
        if *byte == COLON {
            return rest;
        }
        if *byte == HASH {
            return &[];
        }
        rest = after;
    }
    rest
}

fn second_colon(text: &[u8]) -> &[u8]
    ensures { result.now ≡ Colons.second_colon text.now }
{
    colon_in(past(1, text))
}

fn lock_name(text: &[u8]) -> &[u8]
    ensures { result.now ≡ Colons.lock_name text.now }
{
    past_blanks(past(1, second_colon(text)))
}

/// An automatic lock file.
pub fn put_automatic(alloc: Global, span: &Span<'_>, edits: &mut Vec<Edit>) -> Result<(), Memory>
    ensures { OnOk result (edits.new.items ≡ edits.old.items ++ automatic_edits span.now.first span.now.bytes.now) }
{
    put(alloc, span, second_colon(span.bytes), 1, &[], edits)
}

/// The lock file that has the name of the mailbox.
pub fn put_own_lock(alloc: Global, span: &Span<'_>, edits: &mut Vec<Edit>) -> Result<(), Memory>
    ensures { OnOk result (edits.new.items ≡ edits.old.items
        ++ own_lock_edits span.now.first span.now.bytes.now (lock_of span.now.bytes.now)) }
{
    let lock = read_lock(alloc, span.bytes)?;
    match &lock {
        None => Ok(()),
        Some(lock) => put(alloc, span, lock_name(span.bytes), lock.len(), &[], edits),
    }
}

fn lock_length(text: &[u8], lock: &[u8]) -> usize
    ensures { result ≡ Colons.lock_length text.now lock.now }
{
    let lead = second_colon(text)
        .len()
        .saturating_sub(lock_name(text).len());
    lead + lock.len()
}

/// The lock file that formail takes itself.
pub fn put_cache_lock(alloc: Global, span: &Span<'_>, edits: &mut Vec<Edit>) -> Result<(), Memory>
    ensures { OnOk result (edits.new.items ≡ edits.old.items
        ++ cache_lock_edits span.now.first span.now.bytes.now (lock_of span.now.bytes.now)) }
{
    let lock = read_lock(alloc, span.bytes)?;
    match &lock {
        None => Ok(()),
        Some(lock) => {
            if is(lock.as_slice(), b"") {
                return Ok(());
            }
            let count = lock_length(span.bytes, lock.as_slice());
            put(alloc, span, second_colon(span.bytes), count, &[], edits)
        }
    }
}

fn lacks_wait(flags: Flags) -> bool
    ensures { result ≡ Colons.lacks_wait flags }
{
    flags.filter && !flags.wait && !flags.wait_quiet
}

fn is_pipe(kind: Kind) -> bool
    ensures { result ≡ Colons.is_pipe kind }
{
    match kind {
        Kind::Pipe => true,
        _ => false,
    }
}

/// A filter without w, before an action of this kind.
pub fn put_wait(
    alloc: Global,
    span: &Span<'_>,
    action: Kind,
    edits: &mut Vec<Edit>,
) -> Result<(), Memory>
    ensures { OnOk result (edits.new.items ≡ edits.old.items ++ wait_edits span.now.first span.now.bytes.now action) }
{
    if is_pipe(action)
        && lacks_wait(read_flags(span.bytes))
        && has_part(b"f", before_braces(span.bytes))
    {
        put(alloc, span, from_part(b"f", span.bytes), 1, b"fw", edits)
    } else {
        Ok(())
    }
}

fn wait_flag(front: &[u8]) -> &'static [u8]
    ensures { result.now ≡ Colons.wait_flag front.now }
{
    if is(front, b":0") { b" w" } else { b"w" }
}

/// A program with a lock file and without w.
pub fn put_lock_wait(alloc: Global, span: &Span<'_>, edits: &mut Vec<Edit>) -> Result<(), Memory>
    ensures { OnOk result (edits.new.items ≡ edits.old.items ++ lock_wait_edits span.now.first span.now.bytes.now) }
{
    let rest = second_colon(span.bytes);
    let front = before(span.bytes, rest);
    if has_front(front) {
        put(alloc, span, rest, 0, wait_flag(front), edits)
    } else {
        Ok(())
    }
}
