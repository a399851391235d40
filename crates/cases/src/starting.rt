//! Rows of what a program is started with: its words, its environment and the machine's name.
ghost use Rattle.std.specs.Io.{WritesAtMost};

use crate::told::{answered, pair_words};
use crate::{Refused, Words, copy_of, one_word, word_of};
use pm_bytes::Memory;
use pm_start::{machine_name, read_environment, read_words};
use std::alloc::Global;
use std::env::{Env, FillError};

// The words of a program that is started, and the entries of its environment.
#[derive(Drop)]
struct Given {
    words: Words,
}

fn fill(from: &[Vec<u8>], index: usize, room: &mut [u8]) -> Result<usize, FillError>
    ensures { WritesAtMost result room.new }
{
    let Some(text) = from.get(index) else {
        return Err(FillError::NotPresent);
    };
    if room.len() < text.len() {
        return Err(FillError::TooLong);
    }
    room[..text.len()].copy_from_slice(text.as_slice());
    Ok(text.len())
}

impl Env for Given {
    fn arg(&self, i: usize, buf: &mut [u8]) -> Result<usize, FillError> {
        fill(self.words.as_slice(), i, buf)
    }

    fn var(&self, _name: &str, _buf: &mut [u8]) -> Result<usize, FillError> {
        Err(FillError::NotPresent)
    }

    fn var_at(&self, i: usize, buf: &mut [u8]) -> Result<usize, FillError> {
        fill(self.words.as_slice(), i, buf)
    }
}

/// The variables of an environment with these entries, each as `NAME=VALUE`.
pub fn environment(alloc: Global, entries: &[Vec<u8>]) -> Result<Words, Memory> {
    let env = Given {
        words: copy_of(alloc, entries)?,
    };
    let pairs = read_environment(alloc, &env)?;
    pair_words(alloc, pairs.as_slice())
}

/// The words after the first of a program that is started with these.
pub fn started(alloc: Global, given: &[Vec<u8>]) -> Result<Words, Refused> {
    let env = Given {
        words: copy_of(alloc, given)?,
    };
    match read_words(alloc, &env) {
        pm_start::Words::Read(strings) => answered(words_of(alloc, &strings)),
        pm_start::Words::NoText => answered(one_word(alloc, "no-text")),
        pm_start::Words::Memory => Err(Refused::Memory),
    }
}

fn words_of(alloc: Global, strings: &[String]) -> Result<Words, Memory> {
    let mut words = Vec::new(alloc);
    for string in strings {
        words.push(word_of(alloc, string.as_str())?)?;
    }
    Ok(words)
}

/// The machine's name, by the text of `/etc/hostname`.
pub fn machine(alloc: Global, text: &[u8]) -> Result<Words, Memory> {
    let name = machine_name(alloc, text)?;
    one_word(alloc, name.as_str())
}
