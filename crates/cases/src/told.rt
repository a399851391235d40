//! Lines of words: what is wanted of a case, and what came.
use crate::Refused;
use pm_bytes::{Memory, Pair};
use std::alloc::Global;

/// The words of a line.
pub type Words = Vec<Vec<u8>>;

/// Lines that are told one after the other.
#[derive(Drop)]
pub struct Told {
    alloc: Global,
    lines: Vec<Words>,
}

impl Told {
    pub fn new(alloc: Global) -> Told {
        Told {
            alloc,
            lines: Vec::new(alloc),
        }
    }

    pub fn lines(&self) -> &[Words] {
        self.lines.as_slice()
    }

    /// Begins a line with this word.
    pub fn begin(&mut self, key: &str) -> Result<(), Memory> {
        let mut line = Vec::new(self.alloc);
        line.push(key.as_bytes().to_vec(self.alloc)?)?;
        self.lines.push(line)?;
        Ok(())
    }

    /// Adds a word to the last line.
    pub fn add(&mut self, word: &[u8]) -> Result<(), Memory> {
        if let Some(line) = self.lines.last_mut() {
            line.push(word.to_vec(self.alloc)?)?;
        }
        Ok(())
    }

    /// Tells a line of these words.
    pub fn tell(&mut self, words: &[Vec<u8>]) -> Result<(), Memory> {
        let copy = copy_of(self.alloc, words)?;
        self.lines.push(copy)?;
        Ok(())
    }
}

/// An answer that only wanting memory can refuse.
pub(crate) fn answered(words: Result<Words, Memory>) -> Result<Words, Refused> {
    match words {
        Ok(words) => Ok(words),
        Err(memory) => Err(Refused::from(memory)),
    }
}

/// A copy of the words.
pub fn copy_of(alloc: Global, words: &[Vec<u8>]) -> Result<Words, Memory> {
    let mut copy = Vec::new(alloc);
    for word in words {
        copy.push(word.as_slice().to_vec(alloc)?)?;
    }
    Ok(copy)
}

/// A word of this text.
pub fn word_of(alloc: Global, text: &str) -> Result<Vec<u8>, Memory> {
    Ok(text.as_bytes().to_vec(alloc)?)
}

/// A line of this one word.
pub fn only_word(alloc: Global, word: Vec<u8>) -> Result<Words, Memory> {
    let mut words = Vec::new(alloc);
    words.push(word)?;
    Ok(words)
}

/// A line of the one word of this text.
pub fn one_word(alloc: Global, text: &str) -> Result<Words, Memory> {
    only_word(alloc, word_of(alloc, text)?)
}

/// A line of the one word of this number.
pub fn one_number(alloc: Global, number: u64) -> Result<Words, Memory> {
    only_word(alloc, number_word(alloc, number)?)
}

/// The answer to a question.
pub(crate) fn said(alloc: Global, yes: bool) -> Result<Words, Refused> {
    let answer = if yes { "yes" } else { "no" };
    answered(one_word(alloc, answer))
}

/// The answer where a text is no expression.
pub(crate) fn defect(alloc: Global) -> Result<Words, Refused> {
    answered(one_word(alloc, "defect"))
}

/// Adds a word of this number.
pub(crate) fn push_number(alloc: Global, words: &mut Words, number: u64) -> Result<(), Memory> {
    words.push(number_word(alloc, number)?)?;
    Ok(())
}

/// A line of the word of this text and that of this number.
pub(crate) fn text_and_number(alloc: Global, text: &str, number: u64) -> Result<Words, Memory> {
    let mut words = one_word(alloc, text)?;
    push_number(alloc, &mut words, number)?;
    Ok(words)
}

/// A word of this number.
pub fn number_word(alloc: Global, number: u64) -> Result<Vec<u8>, Memory> {
    let text = format!(in alloc; "{number}")?;
    word_of(alloc, text.as_str())
}

/// The variables, each as `NAME=VALUE`.
pub(crate) fn pair_words(alloc: Global, pairs: &[Pair]) -> Result<Words, Memory> {
    let mut words = Vec::new(alloc);
    for pair in pairs {
        words.push(pair_word(alloc, pair)?)?;
    }
    Ok(words)
}

fn pair_word(alloc: Global, pair: &Pair) -> Result<Vec<u8>, Memory> {
    let mut word = word_of(alloc, pair.name.as_str())?;
    push_value(&mut word, pair.value.as_str())?;
    Ok(word)
}

fn push_value(word: &mut Vec<u8>, value: &str) -> Result<(), Memory> {
    word.extend_from_slice(b"=")?;
    word.extend_from_slice(value.as_bytes())?;
    Ok(())
}

/// The first word as text.
pub fn key_of(words: &[Vec<u8>]) -> &str {
    match words.first() {
        Some(word) => text_of(word),
        None => "",
    }
}

/// The bytes as text; other bytes are no word that a case can have here.
pub fn text_of(bytes: &[u8]) -> &str {
    std::str::from_utf8(bytes).unwrap_or("\u{fffd}")
}
