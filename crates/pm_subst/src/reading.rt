//! What stands at the front of a text.
ghost use Rattle.std.specs.Prelude.{◌≡◌, ◌<◌, ◌+◌, ◌^◌, length};
ghost use Rattle.pm_subst.specs.Front.{front_of, unquoted_front, itself, quotes_of, escaped, is_escaped_in_quotes};
ghost use Rattle.pm_subst.specs.Front.{turn_of, Within};

use crate::bytes::{plain_front, until_backquote, until_single};
use crate::forms::after_dollar;
use crate::kinds::{Front, Kind, Rule};
use pm_bytes::{
    BACKQUOTE, BACKSLASH, CLOSE_BRACE, DOLLAR, DOUBLE_QUOTE, HASH, NEWLINE, SINGLE_QUOTE, is_space,
};

/// A byte that stands for itself.
pub fn plain_byte() -> Front
    ensures { result ≡ itself }
{
    Front {
        kind: Kind::Text,
        from: 0,
        to: 1,
        taken: 1,
    }
}

/// All plain bytes at the front, or what stands there.
pub fn turn_at(rule: Rule, text: &[u8]) -> Front
    requires some { 0 < length text.now }
    requires room { length text.now < 2 ^ 63 }
    ensures turn { result ≡ turn_of rule text.now }
    ensures within { Within result (length text.now) }
{
    let plain = plain_front(rule.quoted, text);
    if plain == 0 {
        return front_at(rule, text);
    }
    Front {
        kind: Kind::Text,
        from: 0,
        to: plain,
        taken: plain,
    }
}

fn front_at(rule: Rule, text: &[u8]) -> Front
    requires some { 0 < length text.now }
    requires room { length text.now < 2 ^ 63 }
    ensures front { result ≡ front_of rule text.now }
    ensures within { Within result (length text.now) }
{
    let byte = text[0];
    if byte == BACKSLASH {
        return after_backslash(rule, &text[1..]);
    }
    if byte == DOLLAR {
        return after_dollar(rule, &text[1..]);
    }
    if byte == DOUBLE_QUOTE {
        return double_quote(rule);
    }
    if byte == BACKQUOTE {
        let end = until_backquote(&text[1..]);
        return Front {
            kind: Kind::Command,
            from: 1,
            to: end + 1,
            taken: (end + 2).min(text.len()),
        };
    }
    if byte == CLOSE_BRACE && rule.ends_form {
        return Front {
            kind: Kind::FormClose,
            from: 0,
            to: 0,
            taken: 1,
        };
    }
    if rule.quoted {
        return plain_byte();
    }
    unquoted(rule, text)
}

// What stands outside quotes alone.
fn unquoted(rule: Rule, text: &[u8]) -> Front
    requires some { 0 < length text.now }
    requires room { length text.now < 2 ^ 63 }
    ensures front { result ≡ unquoted_front rule text.now }
    ensures within { Within result (length text.now) }
{
    let byte = text[0];
    if byte == SINGLE_QUOTE {
        let end = until_single(&text[1..]);
        return Front {
            kind: Kind::Single,
            from: 1,
            to: end + 1,
            taken: (end + 2).min(text.len()),
        };
    }
    if byte == HASH && rule.may_end {
        return Front {
            kind: Kind::Comment,
            from: 0,
            to: 0,
            taken: text.len(),
        };
    }
    if is_space(byte) {
        return Front {
            kind: Kind::Space,
            from: 0,
            to: 1,
            taken: 1,
        };
    }
    plain_byte()
}

fn double_quote(rule: Rule) -> Front
    ensures front { result ≡ quotes_of rule }
    ensures within { Within result 1 }
{
    if !rule.quoted {
        Front {
            kind: Kind::QuotesOpen,
            from: 0,
            to: 0,
            taken: 1,
        }
    } else if rule.ends_quotes {
        Front {
            kind: Kind::QuotesClose,
            from: 0,
            to: 0,
            taken: 1,
        }
    } else {
        plain_byte()
    }
}

fn after_backslash(rule: Rule, text: &[u8]) -> Front
    ensures front { result ≡ escaped rule text.now }
    ensures within { Within result (length text.now + 1) }
{
    match text {
        [] => plain_byte(),
        [NEWLINE, ..] => Front {
            kind: Kind::Join,
            from: 0,
            to: 0,
            taken: 2,
        },
        [byte, ..] if !rule.quoted || drops_backslash(*byte) => Front {
            kind: Kind::Text,
            from: 1,
            to: 2,
            taken: 2,
        },
        // it doesn't end the form, and is no escape either
        [CLOSE_BRACE, ..] if rule.ends_form => Front {
            kind: Kind::Text,
            from: 0,
            to: 2,
            taken: 2,
        },
        _ => plain_byte(),
    }
}

fn drops_backslash(byte: u8) -> bool
    ensures { result ≡ is_escaped_in_quotes byte }
{
    byte == DOLLAR || byte == BACKQUOTE || byte == DOUBLE_QUOTE || byte == BACKSLASH
}
