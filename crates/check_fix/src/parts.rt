//! Parts of texts, by the text from a place on.
ghost use Rattle.std.specs.Prelude.{◌≡◌, ◌≤◌, ◌<◌, IfSome, length, drop, not, position};
ghost use Rattle.std.specs.Str.{bytes_eq};
ghost use Rattle.pm_bytes.specs.Letter.{is_blank_byte, is_digit_byte, is_name_byte};
ghost use Rattle.check_moving.specs.Text.{after_blanks, behind_name, has_part, without_quotes};
ghost use Rattle.check_moving.specs.Words.{is_break_byte};
ghost use Rattle.check_fix.specs.Parts.{from_part, after_digits, from_blank, before, exceeds};
ghost use Rattle.check_fix.specs.Parts;

use pm_bytes::{BACKQUOTE, BAR, NEWLINE, continues_name, is_blank, is_digit, read_count};

/// Whether both are the same bytes.
pub fn is(text: &[u8], other: &[u8]) -> bool
    ensures { result ≡ bytes_eq text.now other.now }
{
    text == other
}

/// The text from the first place of a part on.
pub fn from_part<'a>(part: &[u8], text: &'a [u8]) -> &'a [u8]
    ensures { result.now ≡ from_part part.now text.now }
{
    let mut rest = text;
    while let Some((_, after)) = rest.split_first() {
        if rest.starts_with(part) {
            return rest;
        }
        rest = after;
    }
    rest
}

/// Whether the part stands somewhere in the text.
pub fn has_part(part: &[u8], text: &[u8]) -> bool
    ensures { result ≡ has_part part.now text.now }
{
    let mut rest = text;
    while let Some((_, after)) = rest.split_first() {
        if rest.starts_with(part) {
            return true;
        }
        rest = after;
    }
    false
}

/// The text after so many bytes, or none of it.
pub fn past(count: usize, text: &[u8]) -> &[u8]
    ensures { result.now ≡ drop count text.now }
{
    if count <= text.len() {
        &text[count..]
    } else {
        &[]
    }
}

/// The text without the blanks at its front.
pub fn past_blanks(text: &[u8]) -> &[u8]
    ensures { result.now ≡ after_blanks text.now }
{
    match blanks_end(text) {
        None => &[],
        Some(end) => &text[end..],
    }
}

fn blanks_end(text: &[u8]) -> Option<usize>
    ensures place { result ≡ position (λ byte. not (is_blank_byte byte)) text.now }
    ensures within { IfSome result (λ end. end < length text.now) }
{
    text.iter().position(|byte| !is_blank(*byte))
}

/// The text without the digits at its front.
pub fn past_digits(text: &[u8]) -> &[u8]
    ensures { result.now ≡ after_digits text.now }
{
    match digits_end(text) {
        None => &[],
        Some(end) => &text[end..],
    }
}

fn digits_end(text: &[u8]) -> Option<usize>
    ensures place { result ≡ position (λ byte. not (is_digit_byte byte)) text.now }
    ensures within { IfSome result (λ end. end < length text.now) }
{
    text.iter().position(|byte| !is_digit(*byte))
}

/// The text without the bytes of a name at its front.
pub fn past_name(text: &[u8]) -> &[u8]
    ensures { result.now ≡ behind_name text.now }
{
    match name_end(text) {
        None => &[],
        Some(end) => &text[end..],
    }
}

fn name_end(text: &[u8]) -> Option<usize>
    ensures place { result ≡ position (λ byte. not (is_name_byte byte)) text.now }
    ensures within { IfSome result (λ end. end < length text.now) }
{
    text.iter().position(|byte| !continues_name(*byte))
}

/// The text from its first blank on.
pub fn from_blank(text: &[u8]) -> &[u8]
    ensures { result.now ≡ from_blank text.now }
{
    match word_end(text) {
        None => &[],
        Some(end) => &text[end..],
    }
}

fn word_end(text: &[u8]) -> Option<usize>
    ensures place { result ≡ position (λ byte. is_blank_byte byte) text.now }
    ensures within { IfSome result (λ end. end < length text.now) }
{
    text.iter().position(|byte| is_blank(*byte))
}

/// What is before a rest of the text.
pub fn before<'a>(text: &'a [u8], rest: &[u8]) -> &'a [u8]
    ensures { result.now ≡ before text.now rest.now }
{
    &text[..text.len().saturating_sub(rest.len())]
}

fn is_over(most: u64, digits: &[u8], number: Option<u64>) -> bool
    ensures { result ≡ exceeds most digits.now number }
{
    match number {
        None => !is(digits, b""),
        Some(number) => number > most,
    }
}

/// Whether the digits at the front write a number above this one.
pub fn is_above(most: u64, text: &[u8]) -> bool
    ensures { result ≡ Parts.is_above most text.now }
{
    let digits = before(text, past_digits(text));
    is_over(most, digits, read_count(digits))
}

/// Whether a command ends here.
pub fn ends_command(text: &[u8]) -> bool
    ensures { result ≡ Parts.ends_command text.now }
{
    match text {
        [] => true,
        [byte, ..] => is_break_byte(*byte),
    }
}

/// Whether a command ends at this byte.
pub fn is_break_byte(byte: u8) -> bool
    ensures { result ≡ is_break_byte byte }
{
    byte == BAR
        || byte == b';'
        || byte == b'&'
        || byte == b'('
        || byte == b')'
        || byte == b'<'
        || byte == b'>'
        || byte == BACKQUOTE
        || byte == NEWLINE
}

/// The text without double quotes around it.
pub fn unquoted(text: &[u8]) -> &[u8]
    ensures { result.now ≡ without_quotes text.now }
{
    if text.len() >= 2 && text.starts_with(b"\"") && text.ends_with(b"\"") {
        &text[1..text.len() - 1]
    } else {
        text
    }
}
