//! Rows of texts with their words and their commands.
use crate::told::{answered, text_and_number};
use crate::{Refused, Words, one_number, text_of};
use pm_bytes::{Blob, Memory};
use pm_subst::{ExpandRefused, Mode, commands, expand};
use pm_vars::Vars;
use std::alloc::Global;

/// The words of a text, whose commands have these outputs; `overflow` and a length where they are too long.
pub fn expanded(
    alloc: Global,
    vars: &Vars,
    mode: Mode,
    text: &[u8],
    outputs: &[Vec<u8>],
) -> Result<Words, Refused> {
    match words_of(alloc, vars, mode, text, outputs)? {
        Ok(words) => answered(bytes_of(alloc, &words)),
        Err(why) => Ok(why),
    }
}

/// How many bytes the words of a text have in all.
pub fn length(alloc: Global, vars: &Vars, mode: Mode, text: &[u8]) -> Result<Words, Refused> {
    match words_of(alloc, vars, mode, text, &[])? {
        Ok(words) => answered(one_number(alloc, length_of(&words))),
        Err(why) => Ok(why),
    }
}

fn length_of(words: &[Blob]) -> u64 {
    let mut sum = 0u64;
    for word in words {
        sum = sum.saturating_add(word.len() as u64);
    }
    sum
}

/// The commands of a text.
pub fn commanded(alloc: Global, mode: Mode, text: &[u8]) -> Result<Words, Refused> {
    let commands = commands(alloc, text, mode)?;
    answered(bytes_of(alloc, &commands))
}

/// The mode that a word names.
pub fn mode_of(word: &[u8]) -> Result<Mode, Refused> {
    match text_of(word) {
        "one" => Ok(Mode::One),
        "quoted" => Ok(Mode::Quoted),
        "many" => Ok(Mode::Many),
        _ => Err(Refused::Misread("a text is read as one, quoted or many")),
    }
}

// The words, or what is told in their place.
fn words_of(
    alloc: Global,
    vars: &Vars,
    mode: Mode,
    text: &[u8],
    outputs: &[Vec<u8>],
) -> Result<Result<Vec<Blob>, Words>, Refused> {
    let outputs = blobs_of(alloc, outputs)?;
    words_with(alloc, vars, mode, text, &outputs)
}

fn words_with(
    alloc: Global,
    vars: &Vars,
    mode: Mode,
    text: &[u8],
    outputs: &[Blob],
) -> Result<Result<Vec<Blob>, Words>, Refused> {
    let count = commands(alloc, text, mode)?.len();
    if count != outputs.len() {
        return Ok(Err(text_and_number(alloc, "commands", count as u64)?));
    }
    match expand(alloc, text, mode, vars, outputs) {
        Ok(words) => Ok(Ok(words)),
        Err(ExpandRefused::Overflow { length }) => {
            Ok(Err(text_and_number(alloc, "overflow", length)?))
        }
        Err(ExpandRefused::Memory) => Err(Refused::Memory),
    }
}

fn blobs_of(alloc: Global, words: &[Vec<u8>]) -> Result<Vec<Blob>, Memory> {
    let mut blobs = Vec::new(alloc);
    for word in words {
        blobs.push(Blob::from_slice(alloc, word)?)?;
    }
    Ok(blobs)
}

fn bytes_of(alloc: Global, blobs: &[Blob]) -> Result<Words, Memory> {
    let mut words = Vec::new(alloc);
    for blob in blobs {
        words.push(blob.as_slice().to_vec(alloc)?)?;
    }
    Ok(words)
}
