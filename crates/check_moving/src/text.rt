//! Parts of texts.
ghost use Rattle.std.specs.Prelude.{◌≡◌, ◌<◌, IfSome, length, drop, not, position};
ghost use Rattle.std.specs.Str.{bytes_eq};
ghost use Rattle.pm_bytes.specs.Letter.{is_blank_byte, is_name_byte};
ghost use Rattle.check_moving.specs.Text.{has_part, after_blanks, behind_name, without_quotes};

use pm_bytes::{continues_name, is_blank};

/// Whether both are the same bytes.
pub fn is(text: &[u8], other: &[u8]) -> bool
    ensures { result ≡ bytes_eq text.now other.now }
{
    text == other
}

/// Whether the part stands somewhere in the text.
pub fn has_part(part: &[u8], text: &[u8]) -> bool
    ensures { result ≡ has_part part.now text.now }
{
    let mut rest = text;
    while let Some((_, after)) = rest.split_first() {
        if rest.starts_with(part) {
            return true;
        }
        rest = after;
    }
    false
}

/// The text without the blanks at its front.
pub fn past_blanks(text: &[u8]) -> &[u8]
    ensures { result.now ≡ after_blanks text.now }
{
    match blanks_end(text) {
        None => &[],
        Some(end) => &text[end..],
    }
}

fn blanks_end(text: &[u8]) -> Option<usize>
    ensures place { result ≡ position (λ byte. not (is_blank_byte byte)) text.now }
    ensures within { IfSome result (λ end. end < length text.now) }
{
    text.iter().position(|byte| !is_blank(*byte))
}

/// The text without the bytes of a name at its front.
pub fn past_name(text: &[u8]) -> &[u8]
    ensures { result.now ≡ behind_name text.now }
{
    match name_end(text) {
        None => &[],
        Some(end) => &text[end..],
    }
}

fn name_end(text: &[u8]) -> Option<usize>
    ensures place { result ≡ position (λ byte. not (is_name_byte byte)) text.now }
    ensures within { IfSome result (λ end. end < length text.now) }
{
    text.iter().position(|byte| !continues_name(*byte))
}

/// The text without double quotes around it.
pub fn unquoted(text: &[u8]) -> &[u8]
    ensures { result.now ≡ without_quotes text.now }
{
    if text.len() >= 2 && text.starts_with(b"\"") && text.ends_with(b"\"") {
        &text[1..text.len() - 1]
    } else {
        text
    }
}

/// The text after so many bytes, or none of it.
pub fn past(count: usize, text: &[u8]) -> &[u8]
    ensures { result.now ≡ drop count text.now }
{
    if count <= text.len() {
        &text[count..]
    } else {
        &[]
    }
}
