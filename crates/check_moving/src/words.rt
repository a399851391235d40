//! The words of a program's line, with their quotes, and the bytes that end a command.
ghost use Rattle.std.specs.Prelude.{◌≡◌, ◌++◌, [], ◌∷◌, IfOk, OnOk};
ghost use Rattle.check_moving.specs.Words;
ghost use Rattle.check_moving.specs.Words.{with_word, with_break};
ghost use Rattle.check_moving.specs.Words.{words_of};

use crate::quotes::Quote;
use pm_bytes::{BACKQUOTE, BAR, Blob, Memory, NEWLINE, is_blank};
use std::alloc::Global;

/// The words of a line. A byte that ends a command is a word of its own.
pub fn words(alloc: Global, text: &[u8]) -> Result<Vec<Blob>, Memory>
    ensures { IfOk result (λ words. words.items ≡ words_of text.now) }
{
    let mut words = Vec::new(alloc);
    let mut word = Blob::empty(alloc);
    let mut quote = Quote::Plain;
    let mut rest = text;
    while let Some((byte, after)) = rest.split_first() {
        if ends_word(quote, *byte) {
            put_word(alloc, word.as_slice(), &mut words)?;
            put_break(alloc, *byte, &mut words)?;
            word.truncate(0);
            quote = Quote::Plain;
        } else {
            word.push_slice(&[*byte])?;
            quote = quote.after(*byte);
        }
        rest = after;
    }
    put_word(alloc, word.as_slice(), &mut words)?;
    Ok(words)
}

fn put_word(alloc: Global, word: &[u8], words: &mut Vec<Blob>) -> Result<(), Memory>
    ensures { OnOk result (words.new.items ≡ words.old.items ++ with_word word.now []) }
{
    match word {
        [] => Ok(()),
        [_, ..] => {
            words.push(Blob::from_slice(alloc, word)?)?;
            Ok(())
        }
    }
}

fn put_break(alloc: Global, byte: u8, words: &mut Vec<Blob>) -> Result<(), Memory>
    ensures { OnOk result (words.new.items ≡ words.old.items ++ with_break byte []) }
{
    if is_break_byte(byte) {
        words.push(Blob::from_slice(alloc, &[byte])?)?;
    }
    Ok(())
}

fn is_break_byte(byte: u8) -> bool
    ensures { result ≡ Words.is_break_byte byte }
{
    byte == BAR
        || byte == b';'
        || byte == b'&'
        || byte == b'('
        || byte == b')'
        || byte == b'<'
        || byte == b'>'
        || byte == BACKQUOTE
        || byte == NEWLINE
}

fn ends_word(quote: Quote, byte: u8) -> bool
    ensures { result ≡ Words.ends_word quote byte }
{
    match quote {
        Quote::Plain => is_blank(byte) || is_break_byte(byte),
        Quote::Double => byte == BACKQUOTE,
        _ => false,
    }
}

/// Whether the word is a byte that ends a command.
pub fn is_break(word: &[u8]) -> bool
    ensures { result ≡ Words.is_break word.now }
{
    match word {
        [byte] => is_break_byte(*byte),
        _ => false,
    }
}
