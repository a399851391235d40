//! Rows of bytes: letters, numbers, names, and blobs.
use crate::{Refused, Words, one_number, one_word, only_word};
use pm_bytes::{Blob, Memory, Name, NameRefused, fold, full, is_blank, read_count, read_number};
use std::alloc::Global;

/// A blob that grows by some bytes, and is copied.
pub fn grown(alloc: Global, text: &[u8], more: &[u8]) -> Result<Words, Memory> {
    let mut blob = Blob::from_slice(alloc, text)?;
    blob.push_slice(more)?;
    only_word(alloc, blob.copy(alloc)?.into_vec(alloc)?)
}

/// A copy of the name that the bytes are.
pub fn name(alloc: Global, text: &[u8]) -> Result<Words, Refused> {
    match Name::read(alloc, text) {
        Ok(name) => Ok(one_word(alloc, name.copy(alloc)?.as_str())?),
        Err(NameRefused::Unusable) => Ok(one_word(alloc, "none")?),
        Err(NameRefused::Memory) => Err(Refused::Memory),
    }
}

/// A name as it is seen from a folder.
pub fn seen(alloc: Global, base: &[u8], name: &[u8]) -> Result<Words, Refused> {
    let base = Name::read(alloc, base)?;
    let name = Name::read(alloc, name)?;
    let full = full(alloc, &base, &name)?;
    Ok(one_word(alloc, full.as_str())?)
}

/// The number that a text writes.
pub fn number(alloc: Global, text: &[u8]) -> Result<Words, Memory> {
    let Some(number) = read_number(text) else {
        return one_word(alloc, "none");
    };
    let text = format!(in alloc; "{number}")?;
    one_word(alloc, text.as_str())
}

/// The number that digits write.
pub fn count(alloc: Global, text: &[u8]) -> Result<Words, Memory> {
    match read_count(text) {
        Some(count) => one_number(alloc, count),
        None => one_word(alloc, "none"),
    }
}

/// Whether a text begins with a blank.
pub fn blank(alloc: Global, text: &[u8]) -> Result<Words, Memory> {
    match text.first() {
        Some(byte) if is_blank(*byte) => one_word(alloc, "yes"),
        _ => one_word(alloc, "no"),
    }
}

/// A text with small letters.
pub fn folded(alloc: Global, text: &[u8]) -> Result<Words, Memory> {
    let mut word = Vec::new(alloc);
    for byte in text {
        word.push(fold(*byte))?;
    }
    only_word(alloc, word)
}
