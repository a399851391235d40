//! Sets whose ranges mean something else.
ghost use Rattle.std.specs.Prelude.{◌≡◌, ◌<◌, IfSome, false, length, position, nat_eq};
ghost use Rattle.check_moving.specs.Ranges;

use crate::text::has_part;
use pm_bytes::BACKSLASH;

/// Whether such a set stands in an expression.
pub fn has_set(text: &[u8]) -> bool
    ensures { result ≡ Ranges.has_set false text.now }
{
    let mut escaped = false;
    let mut rest = text;
    while let Some((byte, after)) = rest.split_first() {
        if !escaped && *byte == b'[' && begins_differing(after) {
            return true;
        }
        escaped = !escaped && *byte == BACKSLASH;
        rest = after;
    }
    false
}

fn begins_differing(text: &[u8]) -> bool
    ensures { result ≡ Ranges.begins_differing text.now }
{
    is_differing(members(past_caret(text)))
}

fn is_differing(members: &[u8]) -> bool
    ensures { result ≡ Ranges.is_differing members.now }
{
    has_range(members) && !has_part(b"$", members)
}

fn past_caret(text: &[u8]) -> &[u8]
    ensures { result.now ≡ Ranges.after_caret text.now }
{
    if text.starts_with(b"^") {
        &text[1..]
    } else {
        text
    }
}

fn members(text: &[u8]) -> &[u8]
    ensures { result.now ≡ Ranges.members_of text.now }
{
    match text {
        [] => &[],
        [_, later @ ..] => match close(later) {
            None => &[],
            Some(end) => &text[..end + 1],
        },
    }
}

fn close(text: &[u8]) -> Option<usize>
    ensures place { result ≡ position (λ byte. nat_eq byte 93) text.now }
    ensures within { IfSome result (λ end. end < length text.now) }
{
    text.iter().position(|byte| *byte == b']')
}

fn has_range(members: &[u8]) -> bool
    ensures { result ≡ Ranges.has_range members.now }
{
    let mut rest = members;
    while let Some((first, after)) = rest.split_first() {
        match after {
            [b'-', last, later @ ..] => {
                if *last < *first || goes_on(later) {
                    return true;
                }
                rest = later;
            }
            _ => rest = after,
        }
    }
    false
}

fn goes_on(rest: &[u8]) -> bool
    ensures { result ≡ Ranges.goes_on rest.now }
{
    match rest {
        [dash, _, ..] => *dash == b'-',
        _ => false,
    }
}
