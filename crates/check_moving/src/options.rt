//! The options of a call of formail, as formail 3.22 reads them.
ghost use Rattle.std.specs.Prelude.{◌≡◌, ◌++◌, [], ◌∷◌, IfOk, OnOk};
ghost use Rattle.check_moving.specs.Options;
ghost use Rattle.check_moving.specs.Options.{given, given_from, letters_of};
ghost use Rattle.check_moving.specs.Options.{wanted_of, group_of};

use crate::text::past;
use crate::words::is_break;
use pm_bytes::{Blob, MINUS, Memory, is_digit};
use std::alloc::Global;

/// An option.
#[derive(Drop)]
pub struct Given {
    /// Its letter: `C` for the cache of `D`, `N` for the new name of `R`, and `s` for each word of a program.
    pub letter: u8,
    /// Its argument with quotes: none if it has none, or if that is the next word.
    pub argument: Blob,
}

/// The options of the words up to the end of the command.
pub fn read_options(alloc: Global, words: &[Blob]) -> Result<Vec<Given>, Memory>
    ensures { IfOk result (λ options. options.items ≡ given_from 0 words.now) }
{
    let mut options = Vec::new(alloc);
    let mut wanted = 0;
    let mut rest = words;
    while let Some((word, after)) = rest.split_first() {
        let word = word.as_slice();
        if is_break(word) {
            return Ok(options);
        }
        if wanted == 0 {
            put_letters(alloc, group_of(word), &mut options)?;
            wanted = wanted_by(group_of(word));
        } else {
            put(alloc, wanted, word, &mut options)?;
            wanted = wanted_next(wanted);
        }
        rest = after;
    }
    Ok(options)
}

fn put(alloc: Global, letter: u8, argument: &[u8], options: &mut Vec<Given>) -> Result<(), Memory>
    ensures { OnOk result (options.new.items ≡ options.old.items ++ (given letter argument.now ∷ [])) }
{
    options.push(Given {
        letter,
        argument: Blob::from_slice(alloc, argument)?,
    })?;
    Ok(())
}

fn put_letters(alloc: Global, group: &[u8], options: &mut Vec<Given>) -> Result<(), Memory>
    ensures { OnOk result (options.new.items ≡ options.old.items ++ letters_of group.now) }
{
    let mut rest = group;
    while let Some((letter, after)) = rest.split_first() {
        if takes_word(*letter) {
            return put(alloc, *letter, after, options);
        }
        put(alloc, *letter, &[], options)?;
        rest = after;
    }
    Ok(())
}

fn takes_word(letter: u8) -> bool
    ensures { result ≡ Options.takes_word letter }
{
    matches!(
        letter,
        b'a' | b'A' | b'i' | b'I' | b'u' | b'U' | b'x' | b'X' | b'p' | b'l' | b'R' | b'D' | b's'
    )
}

fn wanted_next(letter: u8) -> u8
    ensures { result ≡ Options.wanted_next letter }
{
    match letter {
        b'D' => b'C',
        b'R' => b'N',
        b's' => b's',
        _ => 0,
    }
}

fn wanted_with(letter: u8, rest: &[u8]) -> u8
    ensures { result ≡ Options.wanted_with letter rest.now }
{
    match rest {
        [] => letter,
        [_, ..] => wanted_next(letter),
    }
}

fn wanted_by(group: &[u8]) -> u8
    ensures { result ≡ wanted_of group.now }
{
    let mut rest = group;
    while let Some((letter, after)) = rest.split_first() {
        if takes_word(*letter) {
            return wanted_with(*letter, after);
        }
        rest = after;
    }
    0
}

fn is_group(word: &[u8]) -> bool
    ensures { result ≡ Options.is_group word.now }
{
    match word {
        [sign, letter, ..] => *sign == MINUS && !is_digit(*letter),
        _ => false,
    }
}

fn group_of(word: &[u8]) -> &[u8]
    ensures { result.now ≡ group_of word.now }
{
    if is_group(word) { past(1, word) } else { &[] }
}

/// Whether a letter is among the options.
pub fn has(letter: u8, options: &[Given]) -> bool
    ensures { result ≡ Options.has letter options.now }
{
    options.iter().any(|one| one.letter == letter)
}

/// Whether the word names formail, or is a variable that does.
pub fn is_formail(word: &[u8]) -> bool
    ensures { result ≡ Options.is_formail word.now }
{
    word.ends_with(b"formail")
        || word.ends_with(b"FORMAIL")
        || word.ends_with(b"FORMAIL}")
        || word.ends_with(b"FORMAIL\"")
}
