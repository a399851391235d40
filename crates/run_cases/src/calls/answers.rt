//! The answers of the real host in words.
use cases::{Words, number_word, one_word, word_of};
use pm_bytes::Memory;
use pm_host::{Aged, Cut, Got, Listed, Looked, Made, Moved, Removed, Synced, Took};
use std::alloc::Global;

// Output of so many bytes of one kind is told by the byte and their number.
const LONG: usize = 1_024;

fn with_number(alloc: Global, key: &str, number: u64) -> Result<Words, Memory> {
    let mut words = one_word(alloc, key)?;
    words.push(number_word(alloc, number)?)?;
    Ok(words)
}

pub fn looked(alloc: Global, answer: Looked) -> Result<Words, Memory> {
    match answer {
        Looked::File(length) => with_number(alloc, "file", length),
        Looked::Folder => one_word(alloc, "folder"),
        Looked::Nothing => one_word(alloc, "nothing"),
        Looked::Failed => one_word(alloc, "failed"),
    }
}

pub fn made(answer: Made) -> &'static str {
    match answer {
        Made::Made => "made",
        Made::Exists => "exists",
        Made::Failed => "failed",
    }
}

pub fn synced(answer: Synced) -> &'static str {
    match answer {
        Synced::Synced => "synced",
        Synced::Failed => "failed",
    }
}

pub fn cut(answer: Cut) -> &'static str {
    match answer {
        Cut::Cut => "cut",
        Cut::Failed => "failed",
    }
}

pub fn removed(answer: Removed) -> &'static str {
    match answer {
        Removed::Removed => "removed",
        Removed::Absent => "absent",
        Removed::Failed => "failed",
    }
}

pub fn moved(answer: Moved) -> &'static str {
    match answer {
        Moved::Moved => "moved",
        Moved::Taken => "taken",
        Moved::Failed => "failed",
    }
}

pub fn took(alloc: Global, answer: Took) -> Result<Words, Memory> {
    match answer {
        Took::Took(count) => with_number(alloc, "took", count as u64),
        Took::Failed => one_word(alloc, "failed"),
    }
}

/// The bytes that came into the room.
pub fn got(alloc: Global, answer: Got, room: &[u8]) -> Result<Words, Memory> {
    let Got::Got(count) = answer else {
        return one_word(alloc, "failed");
    };
    let came = room.get(..count).unwrap_or(room);
    let mut words = one_word(alloc, "got")?;
    words.push(shortened(alloc, came)?)?;
    Ok(words)
}

/// The bytes themselves, or a byte that came many times and how often.
pub fn shortened(alloc: Global, bytes: &[u8]) -> Result<Vec<u8>, Memory> {
    let Some(first) = bytes.first() else {
        return Ok(Vec::new(alloc));
    };
    if bytes.len() < LONG || bytes.iter().any(|byte| byte != first) {
        return Ok(bytes.to_vec(alloc)?);
    }
    let mut word = number_word(alloc, bytes.len() as u64)?;
    word.push(*first)?;
    Ok(word)
}

pub fn listed(alloc: Global, answer: Listed) -> Result<Words, Memory> {
    match answer {
        Listed::Names(names) => {
            let mut words = one_word(alloc, "names")?;
            for name in names.as_slice() {
                words.push(word_of(alloc, name.as_str())?)?;
            }
            Ok(words)
        }
        Listed::Failed => one_word(alloc, "failed"),
        Listed::Memory => one_word(alloc, "memory"),
    }
}

/// Whether the age in seconds is from `least` to `most`.
pub fn aged(alloc: Global, answer: Aged, least: u64, most: u64) -> Result<Words, Memory> {
    match answer {
        Aged::Age(seconds) if least <= seconds && seconds <= most => one_word(alloc, "within"),
        Aged::Age(seconds) => with_number(alloc, "age", seconds),
        Aged::Absent => one_word(alloc, "absent"),
        Aged::Failed => one_word(alloc, "failed"),
    }
}
