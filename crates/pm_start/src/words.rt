//! The words that the program is started with.
ghost use Rattle.std.specs.Prelude.{◌≡◌, drop, map, string_bytes, IfOk, MatchResult};
ghost use Rattle.std.specs.Vec.Iter.{into_iter_items};
ghost use Rattle.pm_start.specs.Words.{AreRead, AreRefused};

use std::alloc::{AllocError, Global};
use std::env::{Args, Env};
use std::io::ErrorKind;
use std::{env, io};

/// The words after the program's name. `NoText` is a word that isn't UTF-8.
#[derive(Drop)]
pub enum Words {
    Read(Vec<String>),
    NoText,
    Memory,
}

/// Reads the words.
pub fn read_words<R: Env>(alloc: Global, env: &R) -> Words {
    words_of(alloc, env::args(&(env, alloc)))
}

// The words of the arguments, in order, or why there are none.
fn words_of(alloc: Global, arguments: io::Result<Args>) -> Words
    ensures { MatchResult arguments (λ given. AreRead (drop 1 (map string_bytes (into_iter_items given))) result)
        (λ error. AreRefused error result) }
{
    match arguments {
        Ok(given) => match words_left(alloc, given) {
            Ok(words) => Words::Read(without_first(words)),
            Err(_) => Words::Memory,
        },
        Err(error) if error.kind() == ErrorKind::OutOfMemory => Words::Memory,
        Err(_) => Words::NoText,
    }
}

// All that are left.
fn words_left(alloc: Global, mut given: Args) -> Result<Vec<String>, AllocError>
    ensures { IfOk result (λ words. words.items ≡ into_iter_items given) }
{
    let mut words = Vec::new(alloc);
    while let Some(word) = given.next() {
        words.push(word)?;
    }
    Ok(words)
}

/// The words after the first, which is the program's name. It takes no memory.
pub fn without_first(mut words: Vec<String>) -> Vec<String>
    ensures { result.items ≡ drop 1 words.items }
{
    if !words.is_empty() {
        let _program = words.remove(0);
    }
    words
}
