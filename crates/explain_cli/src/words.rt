//! procmail's words.
use crate::output::complain;
use crate::status::{Status, Stopped};
use explain_mails::{words_of, words_with};
use pm_bytes::{Blob, Memory};
use pm_meaning::CommandLine;
use pm_top::read_words;
use std::alloc::Global;
use std::env::current_dir;

/// The words as they are given.
pub fn owned(alloc: Global, words: &[&str]) -> Result<Vec<String>, Memory> {
    let mut owned = Vec::new(alloc);
    for word in words {
        owned.push(String::from_str(alloc, word)?)?;
    }
    Ok(owned)
}

/// What the words ask for.
pub fn line_of(rt: &HostRuntime, words: &[String]) -> Result<CommandLine, Stopped> {
    match read_words(rt.alloc(), words)? {
        Some(line) => Ok(line),
        None => {
            complain(rt, "procmail would end with status 64 before it begins", "")?;
            Err(Stopped(Status::Usage))
        }
    }
}

/// The words by which the journal tells each delivery.
pub fn telling(alloc: Global, line: &CommandLine) -> Result<Vec<String>, Stopped> {
    let words = words_of(alloc, line)?;
    texts(alloc, words.as_slice())
}

/// These with another rcfile, whose name is as seen from the current folder.
pub fn telling_with(
    rt: &HostRuntime,
    line: &CommandLine,
    rcfile: &str,
) -> Result<Vec<String>, Stopped> {
    let folder = current_dir(rt)?;
    let words = words_with(
        rt.alloc(),
        line,
        folder.to_string_lossy().as_bytes(),
        rcfile.as_bytes(),
    )?;
    texts(rt.alloc(), words.as_slice())
}

fn texts(alloc: Global, words: &[Blob]) -> Result<Vec<String>, Stopped> {
    let mut texts = Vec::new(alloc);
    for word in words {
        let Ok(text) = std::str::from_utf8(word.as_slice()) else {
            return Err(Stopped(Status::SystemError));
        };
        texts.push(String::from_str(alloc, text)?)?;
    }
    Ok(texts)
}
