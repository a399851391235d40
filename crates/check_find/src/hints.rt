//! Why a line is skipped, as far as its bytes show it.
use crate::codes::Hint;
use pm_bytes::{
    BACKQUOTE, BANG, BAR, CLOSE_BRACE, COLON, DOUBLE_QUOTE, EQUALS, OPEN_BRACE, SINGLE_QUOTE, STAR,
    is_digit,
};
use pm_recipe::{Kind, Span, is_junked};

/// Why the first of these spans is a defect. `again` says that its line was told of already.
pub fn hint_of(spans: &[Span<'_>], again: bool) -> Hint {
    match spans {
        [] => Hint::Other,
        [span, rest @ ..] => match span.kind {
            Kind::TooDeep => Hint::TooDeep,
            Kind::Colon => colon_hint(span.text, rest, again),
            _ => line_hint(span.text),
        },
    }
}

fn colon_hint(text: &[u8], rest: &[Span<'_>], again: bool) -> Hint {
    if text.ends_with(b"\r") {
        return Hint::CarriageReturn;
    }
    if !again && is_junked(text) {
        return Hint::Junk;
    }
    if has_action(rest) {
        Hint::MissingBrace
    } else {
        Hint::NoAction
    }
}

// Whether the recipe that these spans go on with has an action.
fn has_action(spans: &[Span<'_>]) -> bool {
    for span in spans {
        match span.kind {
            Kind::Gap | Kind::Condition => {}
            Kind::Colon | Kind::Close | Kind::Assign | Kind::Unset | Kind::Skipped => return false,
            _ => return true,
        }
    }
    false
}

fn line_hint(text: &[u8]) -> Hint {
    if text.starts_with(b"\xef\xbb\xbf") {
        return Hint::ByteOrderMark;
    }
    if text.ends_with(b"\r") {
        return Hint::CarriageReturn;
    }
    match text {
        [STAR | BAR | BANG | OPEN_BRACE | CLOSE_BRACE, ..] => Hint::NoRecipe,
        [COLON, second, ..] => if is_digit(*second) {
            Hint::OldCount
        } else {
            quote_hint(text)
        },
        [b'0', ..] => Hint::NoColon,
        _ => quote_hint(text),
    }
}

fn quote_hint(text: &[u8]) -> Hint {
    if text.contains(&EQUALS) && text.iter().any(|byte| is_quote(*byte)) {
        Hint::OpenQuote
    } else {
        Hint::Other
    }
}

fn is_quote(byte: u8) -> bool {
    byte == SINGLE_QUOTE || byte == DOUBLE_QUOTE || byte == BACKQUOTE
}
