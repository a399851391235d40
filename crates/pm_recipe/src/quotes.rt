//! Which words leave a quote open: found once for all words of a text, from its end on, so that a text in which many
//! words do is read in time that grows with its length.
ghost use Rattle.std.specs.Prelude.{◌≡◌, ◌+◌, IfOk, length};
ghost use Rattle.pm_recipe.specs.Opens.{Knows, word_before, double_before, backquote_before, inner_before, is_open};
ghost use Rattle.pm_recipe.specs.Opens.{opens_before};
ghost use Rattle.pm_recipe.specs.Colon.{is_unclosed};
ghost use Rattle.pm_recipe.specs.declared.words.InWord.TheVariants.{Plain};

use crate::bytes::starts_with;
use crate::places::reach;
use crate::words::InWord;
use pm_bytes::{BACKQUOTE, BACKSLASH, DOUBLE_QUOTE, HASH, Memory, SINGLE_QUOTE, is_space};
use std::alloc::Global;

/// Whether a quote is open after a word, from each place where its reader can stand.
#[derive(Clone, Copy)]
pub struct Opens {
    pub word: bool,
    pub escaped: bool,
    pub single: bool,
    pub double: bool,
    pub double_escaped: bool,
    pub backquote: bool,
    pub backquote_escaped: bool,
    pub inner: bool,
    pub inner_escaped: bool,
}

fn word_opens(byte: u8, next: Opens) -> bool
    ensures { result ≡ word_before byte next }
{
    if is_space(byte) {
        return false;
    }
    if byte == BACKSLASH {
        return next.escaped;
    }
    if byte == SINGLE_QUOTE {
        return next.single;
    }
    if byte == DOUBLE_QUOTE {
        return next.double;
    }
    if byte == BACKQUOTE {
        next.backquote
    } else {
        next.word
    }
}

fn double_opens(byte: u8, next: Opens) -> bool
    ensures { result ≡ double_before byte next }
{
    if byte == BACKSLASH {
        return next.double_escaped;
    }
    if byte == DOUBLE_QUOTE {
        return next.word;
    }
    if byte == BACKQUOTE {
        next.inner
    } else {
        next.double
    }
}

fn backquote_opens(byte: u8, next: Opens) -> bool
    ensures { result ≡ backquote_before byte next }
{
    if byte == BACKSLASH {
        return next.backquote_escaped;
    }
    if byte == BACKQUOTE {
        next.word
    } else {
        next.backquote
    }
}

fn inner_opens(byte: u8, next: Opens) -> bool
    ensures { result ≡ inner_before byte next }
{
    if byte == BACKSLASH {
        return next.inner_escaped;
    }
    if byte == BACKQUOTE {
        next.double
    } else {
        next.inner
    }
}

fn opens_at(byte: u8, next: Opens) -> Opens
    ensures { result ≡ opens_before byte next }
{
    Opens {
        word: word_opens(byte, next),
        escaped: next.word,
        single: if byte == SINGLE_QUOTE {
            next.word
        } else {
            next.single
        },
        double: double_opens(byte, next),
        double_escaped: next.double,
        backquote: backquote_opens(byte, next),
        backquote_escaped: next.backquote,
        inner: inner_opens(byte, next),
        inner_escaped: next.inner,
    }
}

/// For each end of a text, by its length, whether a word that begins there leaves a quote open.
pub fn open_words(alloc: Global, text: &[u8]) -> Result<Vec<bool>, Memory>
    ensures all { IfOk result (λ known. length known.items ≡ length text.now + 1) }
    ensures knows { IfOk result (λ known. Knows known.items text.now) }
{
    let mut here = Opens {
        word: false,
        escaped: false,
        single: true,
        double: true,
        double_escaped: true,
        backquote: true,
        backquote_escaped: true,
        inner: true,
        inner_escaped: true,
    };
    let mut known = Vec::new(alloc);
    known.push(here.word)?;
    let mut at = text.len();
    while at > 0 {
        at -= 1;
        here = opens_at(text[at], here);
        known.push(here.word)?;
    }
    Ok(known)
}

fn opens_quote(known: &[bool], text: &[u8]) -> bool
    requires { Knows known.now text.now }
    ensures { result ≡ is_open Plain text.now }
{
    match known.get(text.len()) {
        Some(is_open) => *is_open,
        None => reach(InWord::Plain, text).place.in_quote(),
    }
}

/// Whether a quote of the word that begins here isn't closed.
pub fn leaves_quote(known: &[bool], text: &[u8]) -> bool
    requires { Knows known.now text.now }
    ensures { result ≡ is_unclosed text.now }
{
    !starts_with(HASH, text) && opens_quote(known, text)
}
