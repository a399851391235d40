//! How far plain bytes, names, quotes and commands reach, and the operators of expressions.
ghost use Rattle.std.specs.Prelude.{◌≡◌, ◌≤◌, ◌+◌, length, count_by, false};
ghost use Rattle.pm_subst.specs.Bytes.{is_operator, can_mean, plain_length, name_length, quote_length, command_length};

use pm_bytes::{
    BACKQUOTE, BACKSLASH, BAR, CARET, CLOSE_BRACE, CLOSE_BRACKET, CLOSE_PARENTHESIS, DOLLAR, DOT,
    DOUBLE_QUOTE, HASH, OPEN_BRACKET, OPEN_PARENTHESIS, PLUS, QUESTION, SINGLE_QUOTE, STAR,
    continues_name, is_space,
};

/// A byte that means more than itself in an expression.
pub fn is_operator_byte(byte: u8) -> bool
    ensures { result ≡ is_operator byte }
{
    match byte {
        CARET | DOLLAR | DOT | STAR | PLUS | QUESTION | BAR | BACKSLASH => true,
        OPEN_PARENTHESIS | CLOSE_PARENTHESIS | OPEN_BRACKET | CLOSE_BRACKET => true,
        _ => false,
    }
}

/// How many bytes mean more than themselves in an expression.
pub fn operators(text: &[u8]) -> usize
    ensures { result ≡ count_by is_operator text.now }
{
    text.iter().filter(|byte| is_operator_byte(**byte)).count()
}

/// How many bytes at the front can't mean more than themselves, inside double quotes or not.
pub fn plain_front(quoted: bool, text: &[u8]) -> usize
    ensures length { result ≡ plain_length quoted text.now }
    ensures within { result ≤ length text.now }
{
    for (i, byte) in text.iter().enumerate() {
        if may_mean(quoted, *byte) {
            return i;
        }
    }
    text.len()
}

fn may_mean(quoted: bool, byte: u8) -> bool
    ensures { result ≡ can_mean quoted byte }
{
    match byte {
        BACKSLASH | DOLLAR | DOUBLE_QUOTE | BACKQUOTE | CLOSE_BRACE => true,
        SINGLE_QUOTE | HASH => !quoted,
        _ => !quoted && is_space(byte),
    }
}

/// How many bytes at the front belong to a name that has begun.
pub fn rest_of_name(text: &[u8]) -> usize
    ensures length { result ≡ name_length text.now }
    ensures within { result ≤ length text.now }
{
    for (i, byte) in text.iter().enumerate() {
        if !continues_name(*byte) {
            return i;
        }
    }
    text.len()
}

/// How many bytes stand before the closing single quote.
pub fn until_single(text: &[u8]) -> usize
    ensures length { result ≡ quote_length text.now }
    ensures within { result ≤ length text.now }
{
    for (i, byte) in text.iter().enumerate() {
        if *byte == SINGLE_QUOTE {
            return i;
        }
    }
    text.len()
}

/// How many bytes stand before the closing backquote.
pub fn until_backquote(text: &[u8]) -> usize
    ensures length { result ≡ command_length false text.now }
    ensures within { result ≤ length text.now }
{
    let mut escaped = false;
    for (i, byte) in text.iter().enumerate() {
        if escaped {
            escaped = false;
            continue;
        }
        if *byte == BACKQUOTE {
            return i;
        }
        escaped = *byte == BACKSLASH;
    }
    text.len()
}
