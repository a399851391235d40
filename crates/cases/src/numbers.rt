//! Numbers in cases.
use crate::Refused;
use crate::told::text_of;

const NO_NUMBER: Refused = Refused::Misread("a number is wanted");

/// The number that a word writes.
pub fn read_u64(word: &[u8]) -> Result<u64, Refused> {
    match text_of(word).parse::<u64>() {
        Ok(number) => Ok(number),
        Err(_) => Err(NO_NUMBER),
    }
}

/// The number that a word writes.
pub fn read_i64(word: &[u8]) -> Result<i64, Refused> {
    match text_of(word).parse::<i64>() {
        Ok(number) => Ok(number),
        Err(_) => Err(NO_NUMBER),
    }
}

/// The number that a word writes.
pub fn read_usize(word: &[u8]) -> Result<usize, Refused> {
    match text_of(word).parse::<usize>() {
        Ok(number) => Ok(number),
        Err(_) => Err(NO_NUMBER),
    }
}
