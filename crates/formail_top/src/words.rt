//! The words of the command line, read one by one (formail(1)).
ghost use Rattle.std.specs.Prelude.{◌≡◌, IfOk, string_bytes, map, option_map};
ghost use Rattle.formail_top.specs.Words.{takes_text, takes_more, with_text};
ghost use Rattle.formail_top.specs.Words.{with_rest, with_split, letters, number_for, with_skip, with_total};
ghost use Rattle.formail_top.specs.Words.{after_minus, group, one_word, program_for, argument_for};
ghost use Rattle.formail_top.specs.Words.{waiting, with_setting, Adds, settings_of};
ghost use Rattle.formail_top.specs.declared.settings.Waits.TheVariants.{Ready, Argument};

use crate::options::{alone, name, with_both, with_one};
use crate::{Setting, Waits};
use pm_bytes::{Blob, Memory, is_digit, read_count};
use std::alloc::Global;

fn wants_text(letter: u8) -> bool
    ensures { result ≡ takes_text letter }
{
    match letter {
        b'p' | b'x' | b'X' | b'a' | b'A' | b'i' | b'I' | b'u' | b'U' | b'R' | b'D' => true,
        _ => false,
    }
}

fn wants_more(letter: u8) -> bool
    ensures { result ≡ takes_more letter }
{
    letter == b'R' || letter == b'D'
}

// Adds the setting, if there is one; without one the words aren't read.
fn add(settings: &mut Vec<Setting>, setting: Option<Setting>) -> Result<Waits, Memory>
    ensures { IfOk result
        (λ waits. Adds (with_setting setting (waiting Ready)) settings.old.items settings.new.items waits) }
{
    let Some(setting) = setting else {
        return Ok(Waits::Unread);
    };
    settings.push(setting)?;
    Ok(Waits::Ready)
}

// A letter has its text.
fn take_text(
    alloc: Global,
    settings: &mut Vec<Setting>,
    letter: u8,
    text: &[u8],
) -> Result<Waits, Memory>
    ensures { IfOk result
        (λ waits. Adds (with_text letter text.now) settings.old.items settings.new.items waits) }
{
    if wants_more(letter) {
        return Ok(Waits::ForMore(letter, Blob::from_slice(alloc, text)?));
    }
    let setting = with_one(alloc, letter, text)?;
    add(settings, setting)
}

// A letter takes the rest of its word, or where nothing is left the next one.
fn take_rest(
    alloc: Global,
    settings: &mut Vec<Setting>,
    letter: u8,
    rest: &[u8],
) -> Result<Waits, Memory>
    ensures { IfOk result
        (λ waits. Adds (with_rest letter rest.now) settings.old.items settings.new.items waits) }
{
    match rest {
        [] => Ok(Waits::ForText(letter)),
        text => take_text(alloc, settings, letter, text),
    }
}

// `s` ends its word.
fn take_split(settings: &mut Vec<Setting>, rest: &[u8]) -> Result<Waits, Memory>
    ensures { IfOk result
        (λ waits. Adds (with_split rest.now) settings.old.items settings.new.items waits) }
{
    match rest {
        [] => {
            settings.push(Setting::Split)?;
            Ok(Waits::Program)
        }
        _ => Ok(Waits::Unread),
    }
}

// A group of letters.
fn take_letters(alloc: Global, settings: &mut Vec<Setting>, group: &[u8]) -> Result<Waits, Memory>
    ensures { IfOk result
        (λ waits. Adds (letters group.now) settings.old.items settings.new.items waits) }
{
    let mut left = group;
    while let [letter, rest @ ..] = left {
        if wants_text(*letter) {
            return take_rest(alloc, settings, *letter, rest);
        }
        if *letter == b's' {
            return take_split(settings, rest);
        }
        let Some(setting) = alone(*letter) else {
            return Ok(Waits::Unread);
        };
        settings.push(setting)?;
        left = rest;
    }
    Ok(Waits::Ready)
}

// A number of 1 to 9 digits.
fn number(text: &[u8]) -> Option<u64>
    ensures { result ≡ number_for text.now }
{
    if text.len() > 9 {
        return None;
    }
    read_count(text)
}

fn take_skip(settings: &mut Vec<Setting>, text: &[u8]) -> Result<Waits, Memory>
    ensures { IfOk result
        (λ waits. Adds (with_skip text.now) settings.old.items settings.new.items waits) }
{
    let Some(count) = number(text) else {
        return Ok(Waits::Unread);
    };
    add(settings, Some(Setting::Skip(count)))
}

fn take_total(settings: &mut Vec<Setting>, text: &[u8]) -> Result<Waits, Memory>
    ensures { IfOk result
        (λ waits. Adds (with_total text.now) settings.old.items settings.new.items waits) }
{
    let Some(count) = number(text) else {
        return Ok(Waits::Unread);
    };
    add(settings, Some(Setting::Total(count)))
}

// What stands after a `-`: a number, or letters.
fn take_after_minus(
    alloc: Global,
    settings: &mut Vec<Setting>,
    rest: &[u8],
) -> Result<Waits, Memory>
    ensures { IfOk result
        (λ waits. Adds (after_minus rest.now) settings.old.items settings.new.items waits) }
{
    match rest {
        [] => Ok(Waits::Unread),
        [byte, ..] if is_digit(*byte) => take_total(settings, rest),
        _ => take_letters(alloc, settings, rest),
    }
}

fn take_group(alloc: Global, settings: &mut Vec<Setting>, word: &[u8]) -> Result<Waits, Memory>
    ensures { IfOk result
        (λ waits. Adds (group word.now) settings.old.items settings.new.items waits) }
{
    match word {
        [b'+', rest @ ..] => take_skip(settings, rest),
        [b'-', rest @ ..] => take_after_minus(alloc, settings, rest),
        _ => Ok(Waits::Unread),
    }
}

// The program after `-s`; an empty word names none.
fn program(alloc: Global, word: &[u8]) -> Result<Option<Setting>, Memory>
    ensures { IfOk result (λ setting. setting ≡ program_for word.now) }
{
    if word.len() == 0 {
        return Ok(None);
    }
    let Some(name) = name(alloc, word)? else {
        return Ok(None);
    };
    Ok(Some(Setting::Program(name)))
}

// A word for the program.
fn argument(alloc: Global, word: &[u8]) -> Result<Option<Setting>, Memory>
    ensures { IfOk result (λ setting. setting ≡ argument_for word.now) }
{
    let Some(name) = name(alloc, word)? else {
        return Ok(None);
    };
    Ok(Some(Setting::Argument(name)))
}

// Adds the setting, if there is one, after which words for a program stand.
fn add_after(settings: &mut Vec<Setting>, setting: Option<Setting>) -> Result<Waits, Memory>
    ensures { IfOk result
        (λ waits. Adds (with_setting setting (waiting Argument)) settings.old.items settings.new.items waits) }
{
    let Some(setting) = setting else {
        return Ok(Waits::Unread);
    };
    settings.push(setting)?;
    Ok(Waits::Argument)
}

fn take_word(
    alloc: Global,
    settings: &mut Vec<Setting>,
    waits: Waits,
    word: &[u8],
) -> Result<Waits, Memory>
    ensures { IfOk result
        (λ next. Adds (one_word waits word.now) settings.old.items settings.new.items next) }
{
    match waits {
        Waits::Ready => take_group(alloc, settings, word),
        Waits::ForText(letter) => take_text(alloc, settings, letter, word),
        Waits::ForMore(letter, text) => {
            let setting = with_both(alloc, letter, text, word)?;
            add(settings, setting)
        }
        Waits::Program => {
            let setting = program(alloc, word)?;
            add_after(settings, setting)
        }
        Waits::Argument => {
            let setting = argument(alloc, word)?;
            add_after(settings, setting)
        }
        Waits::Unread => Ok(Waits::Unread),
    }
}

/// What the words ask for, in their order. `None` comes exactly where they aren't read.
pub fn read_words(alloc: Global, words: &[String]) -> Result<Option<Vec<Setting>>, Memory>
    ensures { IfOk result
        (λ settings. option_map (λ s. s.items) settings ≡ settings_of (map string_bytes words.now)) }
{
    let mut settings = Vec::new(alloc);
    let mut waits = Waits::Ready;
    for word in words {
        waits = take_word(alloc, &mut settings, waits, word.as_bytes())?;
    }
    match waits {
        Waits::Ready => Ok(Some(settings)),
        Waits::Program => Ok(Some(settings)),
        Waits::Argument => Ok(Some(settings)),
        _ => Ok(None),
    }
}
