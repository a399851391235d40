//! Forms in an expression that most often mean something else than what they look like.
use pm_bytes::{
    BACKSLASH, CLOSE_BRACE, CLOSE_BRACKET, DOLLAR, DOT, HASH, MINUS, OPEN_BRACE, OPEN_BRACKET,
    PLUS, QUESTION, STAR, UNDERSCORE, is_blank, is_digit,
};

/// A form that is looked for.
#[derive(Clone, Copy)]
pub enum Form {
    /// A dot in a domain, as `@example.org`: it matches any byte.
    Dot,
    /// A plus in an address, as `joe+work@`: it repeats the byte before it.
    Plus,
    /// A word in brackets, as `[users]`: it matches one of its letters.
    Tag,
    /// `\b`, `\d`, `\w` or `\s`, which are these letters here, or a count as `{2,3}`, which is bytes.
    Pcre,
    /// A `#` between blanks, which belongs to the expression.
    Comment,
}

/// Whether the form stands in the text, in which a backslash takes the next byte along.
pub fn has_form(form: Form, text: &[u8]) -> bool {
    let mut escaped = false;
    let mut before = 0;
    for i in 0..text.len() {
        if !escaped && stands(form, before, &text[i..]) {
            return true;
        }
        escaped = !escaped && text[i] == BACKSLASH;
        before = text[i];
    }
    false
}

fn stands(form: Form, before: u8, rest: &[u8]) -> bool {
    match form {
        Form::Dot => is_domain(rest),
        Form::Plus => is_letter(before) && is_plus_address(rest),
        Form::Tag => is_tag(rest),
        Form::Pcre => before != DOLLAR && (is_class(rest) || is_repeat(rest)),
        Form::Comment => is_blank(before) && is_comment(rest),
    }
}

fn is_domain(rest: &[u8]) -> bool {
    match rest {
        [b'@', name @ ..] => match past_word(name) {
            [DOT, next, ..] => is_letter(*next) && begins_with_letter(name),
            _ => false,
        },
        _ => false,
    }
}

fn is_plus_address(rest: &[u8]) -> bool {
    match rest {
        [PLUS, name @ ..] => match past_word(name) {
            [b'@', ..] => begins_with_letter(name),
            _ => false,
        },
        _ => false,
    }
}

fn is_tag(rest: &[u8]) -> bool {
    match rest {
        [OPEN_BRACKET, name @ ..] => match past_word(name) {
            [CLOSE_BRACKET, after @ ..] => {
                name.len() > after.len() + 4 && !has_range(name) && !is_repeated(after)
            }
            _ => false,
        },
        _ => false,
    }
}

// Whether a range such as `a-z` stands in front of the closing bracket.
fn has_range(name: &[u8]) -> bool {
    match name {
        [_, MINUS, _, MINUS | CLOSE_BRACKET, ..] => true,
        [_, MINUS, _, _, MINUS, _, ..] => true,
        [_, _, MINUS, ..] => false,
        [b'a' | b'A' | b'0', MINUS, ..] => true,
        _ => false,
    }
}

fn is_repeated(after: &[u8]) -> bool {
    match after {
        [STAR | PLUS | QUESTION, ..] => true,
        _ => false,
    }
}

fn is_class(rest: &[u8]) -> bool {
    match rest {
        [
            BACKSLASH,
            b'b' | b'B' | b'd' | b'D' | b'w' | b'W' | b's' | b'S',
            ..
        ] => true,
        _ => false,
    }
}

fn is_repeat(rest: &[u8]) -> bool {
    match rest {
        [OPEN_BRACE, first, more @ ..] => is_digit(*first) && ends_repeat(more),
        _ => false,
    }
}

fn ends_repeat(text: &[u8]) -> bool {
    for byte in text {
        if *byte == CLOSE_BRACE {
            return true;
        }
        if !is_digit(*byte) && *byte != b',' {
            return false;
        }
    }
    false
}

fn is_comment(rest: &[u8]) -> bool {
    match rest {
        [HASH, blank, ..] => is_blank(*blank),
        _ => false,
    }
}

fn is_letter(byte: u8) -> bool {
    byte.is_ascii_alphanumeric()
}

fn begins_with_letter(text: &[u8]) -> bool {
    match text {
        [byte, ..] => is_letter(*byte),
        [] => false,
    }
}

// What follows letters, digits, `-` and `_`.
fn past_word(text: &[u8]) -> &[u8] {
    for i in 0..text.len() {
        if !is_letter(text[i]) && text[i] != MINUS && text[i] != UNDERSCORE {
            return &text[i..];
        }
    }
    &[]
}
