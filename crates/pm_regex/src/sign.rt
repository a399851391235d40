//! The signs of a text: all of its parts but bracket expressions.
ghost use Rattle.std.specs.Prelude.{◌≡◌, ◌<◌, true, false, IsTrue, IfSome, length};
ghost use Rattle.pm_regex.specs.Tokens.{sign_of, escaped_sign, begins_with};
ghost use Rattle.pm_regex.specs.Signs.{IsSpelled, HasNoToken};

use crate::op::{Atom, Times};

/// A part of an expression's text, other than a bracket expression.
#[derive(Clone, Copy, Drop)]
pub enum Sign {
    Open,
    Close,
    Bar,
    /// `\/`
    Cut,
    /// `^^`
    Edge,
    Repeat(Times),
    One(Atom),
}

/// A sign at the front of a text, and how many bytes it has there.
#[derive(Clone, Copy, Drop)]
pub struct Spelling {
    pub sign: Sign,
    pub length: usize,
}

/// Whether a text begins with a byte.
pub fn begins_with(byte: u8, text: &[u8]) -> bool
    ensures value { result ≡ begins_with byte text.now }
    ensures within { IsTrue result → 0 < length text.now }
{
    if text.is_empty() {
        return false;
    }
    text[0] == byte
}

/// What a byte spells by itself. `[`, `\` and `^` depend on what follows.
pub fn sign_of(byte: u8) -> Option<Sign>
    ensures { result ≡ sign_of byte }
{
    match byte {
        b'(' => Some(Sign::Open),
        b')' => Some(Sign::Close),
        b'|' => Some(Sign::Bar),
        b'*' => Some(Sign::Repeat(Times::Star)),
        b'+' => Some(Sign::Repeat(Times::Plus)),
        b'?' => Some(Sign::Repeat(Times::Maybe)),
        b'.' => Some(Sign::One(Atom::Any)),
        b'$' => Some(Sign::One(Atom::LineEnd)),
        b'[' | b'\\' | b'^' => None,
        _ => Some(Sign::One(Atom::Byte(byte))),
    }
}

/// What a `\` and the byte after it spell.
pub fn escaped_sign(byte: u8) -> Sign
    ensures { result ≡ escaped_sign byte }
{
    match byte {
        b'/' => Sign::Cut,
        b'<' => Sign::One(Atom::WordStart),
        b'>' => Sign::One(Atom::WordEnd),
        _ => Sign::One(Atom::Byte(byte)),
    }
}

fn escaped_at(text: &[u8]) -> Option<Spelling>
    requires { begins_with 92 text.now ≡ true }
    ensures some { IfSome result (IsSpelled text.now) }
    ensures none { result ≡ None → HasNoToken text.now }
{
    if text.len() < 2 {
        return None;
    }
    Some(Spelling {
        sign: escaped_sign(text[1]),
        length: 2,
    })
}

fn caret_at(text: &[u8]) -> Spelling
    requires { begins_with 94 text.now ≡ true }
    ensures { IsSpelled text.now result }
{
    if begins_with(b'^', &text[1..]) {
        return Spelling {
            sign: Sign::Edge,
            length: 2,
        };
    }
    Spelling {
        sign: Sign::One(Atom::LineStart),
        length: 1,
    }
}

/// The sign at the front of a text; none where a bracket expression, a `\` alone or nothing stands there.
pub fn sign_at(text: &[u8]) -> Option<Spelling>
    ensures some { IfSome result (IsSpelled text.now) }
    ensures none { result ≡ None → begins_with 91 text.now ≡ false → HasNoToken text.now }
{
    if text.is_empty() {
        return None;
    }
    if text[0] == b'\\' {
        return escaped_at(text);
    }
    if text[0] == b'^' {
        return Some(caret_at(text));
    }
    let sign = sign_of(text[0])?;
    Some(Spelling { sign, length: 1 })
}
