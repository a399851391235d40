//! Words of action lines, as far as a check needs them.
use pm_bytes::{BACKSLASH, DOLLAR, DOUBLE_QUOTE, HASH, SINGLE_QUOTE, is_blank, is_space};

/// The text without the blanks at its front.
pub fn past_blanks(text: &[u8]) -> &[u8] {
    for i in 0..text.len() {
        if !is_blank(text[i]) {
            return &text[i..];
        }
    }
    &[]
}

/// The bytes up to a blank or a newline.
pub fn first_word(text: &[u8]) -> &[u8] {
    for i in 0..text.len() {
        if is_space(text[i]) {
            return &text[..i];
        }
    }
    text
}

/// What follows the first word and blanks.
pub fn past_word(text: &[u8]) -> &[u8] {
    for i in 0..text.len() {
        if is_space(text[i]) {
            return past_blanks(&text[i..]);
        }
    }
    &[]
}

/// Whether the words are plain: no quote, no backslash and no variable.
pub fn are_plain(text: &[u8]) -> bool {
    !text.iter().any(|byte| is_special(*byte))
}

fn is_special(byte: u8) -> bool {
    byte == SINGLE_QUOTE
        || byte == DOUBLE_QUOTE
        || byte == b'`'
        || byte == BACKSLASH
        || byte == DOLLAR
        || byte == HASH
}

/// The text from the first occurrence of `part` on.
pub fn from_part<'a>(text: &'a [u8], part: &[u8]) -> Option<&'a [u8]> {
    for i in 0..text.len() {
        if text[i..].starts_with(part) {
            return Some(&text[i..]);
        }
    }
    None
}

/// Whether `part`, in small letters, stands in the text, whatever the case of its letters.
pub fn has_part(text: &[u8], part: &[u8]) -> bool {
    for i in 0..text.len() {
        if begins_with(&text[i..], part) {
            return true;
        }
    }
    false
}

/// Whether `part`, in small letters, stands at the front, whatever the case of its letters there.
pub fn begins_with(text: &[u8], part: &[u8]) -> bool {
    if text.len() < part.len() {
        return false;
    }
    text.iter()
        .zip(part)
        .all(|(byte, wanted)| byte.to_ascii_lowercase() == *wanted)
}
