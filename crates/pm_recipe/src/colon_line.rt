//! The line on which a recipe begins: its flags and its lock.
ghost use Rattle.std.specs.Prelude.{◌≡◌, ◌≤◌, ◌<◌, ◌+◌, ◌-◌, length, IfOk, nat_lt, take, drop, [], ◌∷◌};
ghost use Rattle.pm_recipe.specs.Places.{far};
ghost use Rattle.pm_recipe.specs.Runs.{run_places};
ghost use Rattle.pm_recipe.specs.declared.runs.Run.TheVariants.{Letters};
ghost use Rattle.pm_recipe.specs.Colon.{word_length, ends_statement, begins_recipe, after_zero};
ghost use Rattle.pm_recipe.specs.Colon.{flags_part, after_flags, has_lock, lock_part, after_lock, behind_colon};
ghost use Rattle.pm_recipe.specs.Colon.{lock_of, has_junk, has_letter, flags_of};

use crate::bytes::starts_with;
use crate::line_words::{InFlags, InTail};
use crate::places::{past, past_first, reach, split};
use crate::runs::{Run, UpTo};
use crate::tree::Flags;
use crate::words::InWord;
use pm_bytes::{Blob, COLON, HASH, Memory, NEWLINE};
use std::alloc::Global;

/// A word, and what follows it. One that begins with `#` is a comment, and the word is empty.
pub fn split_word(text: &[u8]) -> (&[u8], &[u8])
    ensures word { result.0.now ≡ take (word_length text.now) text.now }
    ensures behind { result.1.now ≡ drop (word_length text.now) text.now }
    ensures shorter { length result.1.now ≤ length text.now }
{
    if starts_with(HASH, text) {
        (&[], text)
    } else {
        split(InWord::Plain, text)
    }
}

fn at_end(text: &[u8]) -> bool
    ensures { result ≡ ends_statement text.now }
{
    match text {
        [] => true,
        [byte, ..] => *byte == NEWLINE || *byte == HASH,
    }
}

pub fn is_recipe(text: &[u8]) -> bool
    ensures { result ≡ begins_recipe text.now }
{
    starts_with(COLON, text) && starts_with(b'0', past(Run::Joins, past_first(text)))
}

fn past_zero(text: &[u8]) -> &[u8]
    ensures text { result.now ≡ after_zero text.now }
    ensures shorter { length result.now ≤ length text.now - 1 }
{
    past_first(past(Run::Joins, past_first(text)))
}

fn flags_in(text: &[u8]) -> &[u8]
    ensures { result.now ≡ flags_part text.now }
{
    split(InFlags::Word, past_zero(text)).0
}

fn past_flags(text: &[u8]) -> &[u8]
    ensures text { result.now ≡ after_flags text.now }
    ensures shorter { length result.now ≤ length text.now - 1 }
{
    past(InFlags::Word, past_zero(text))
}

pub fn is_locked(text: &[u8]) -> bool
    ensures { result ≡ has_lock text.now }
{
    starts_with(COLON, past_flags(text))
}

pub fn from_lock(text: &[u8]) -> &[u8]
    ensures text { result.now ≡ lock_part text.now }
    ensures shorter { length result.now ≤ length text.now - 1 }
{
    past(Run::Blanks, past_first(past_flags(text)))
}

fn past_lock(text: &[u8]) -> &[u8]
    ensures text { result.now ≡ after_lock text.now }
    ensures shorter { length result.now ≤ length text.now - 1 }
{
    split_word(from_lock(text)).1
}

/// What follows the line.
pub fn past_colon_line(text: &[u8]) -> &[u8]
    ensures text { result.now ≡ behind_colon text.now }
    ensures shorter { length result.now ≤ length text.now - 1 }
{
    if is_locked(text) {
        past(InTail::Fresh, past_lock(text))
    } else {
        past(UpTo::Newline, past_flags(text))
    }
}

pub fn read_lock(alloc: Global, text: &[u8]) -> Result<Option<Blob>, Memory>
    ensures { IfOk result (λ lock. lock ≡ lock_of text.now) }
{
    if !is_locked(text) {
        return Ok(None);
    }
    Ok(Some(Blob::from_slice(alloc, split_word(from_lock(text)).0)?))
}

fn has_other_flags(text: &[u8]) -> bool
    ensures { result ≡ nat_lt (far run_places Letters (flags_part text.now)) (length (flags_part text.now)) }
{
    let flags = flags_in(text);
    reach(Run::Letters, flags).length < flags.len()
}

/// Whether something on the line isn't understood.
pub fn is_junked(text: &[u8]) -> bool
    ensures { result ≡ has_junk text.now }
{
    let tail = !at_end(past(Run::Blanks, past_lock(text)));
    has_other_flags(text) || (is_locked(text) && tail)
}

fn has(letter: u8, text: &[u8]) -> bool
    ensures { result ≡ has_letter (letter ∷ []) text.now }
{
    text.contains(&letter)
}

/// The flags of the line.
pub fn read_flags(text: &[u8]) -> Flags
    ensures { result ≡ flags_of (flags_part text.now) }
{
    let letters = flags_in(text);
    Flags {
        search_head: has(b'H', letters),
        search_body: has(b'B', letters),
        distinguish: has(b'D', letters),
        feed_head: has(b'h', letters),
        feed_body: has(b'b', letters),
        filter: has(b'f', letters),
        copy: has(b'c', letters),
        wait: has(b'w', letters),
        wait_quiet: has(b'W', letters),
        ignore: has(b'i', letters),
        raw: has(b'r', letters),
        and_chain: has(b'A', letters),
        and_ok: has(b'a', letters),
        or_else: has(b'E', letters),
        on_error: has(b'e', letters),
    }
}
