//! What stands at the front of an rcfile's text: the next span, by its first bytes and the situation.
ghost use Rattle.std.specs.Prelude.{◌≡◌, ◌≤◌, ◌<◌, ◌^◌, ◌+◌, length, true};
ghost use Rattle.pm_recipe.specs.Front.{front_in, front_of, gap, before, whole_front, byte_front};
ghost use Rattle.pm_recipe.specs.Spans.{situation_after, in_statements};
ghost use Rattle.pm_recipe.specs.Opens.{Knows};

use crate::bytes::starts_with;
use crate::lines::recipe_line_at;
use crate::names::statement_at;
use crate::newlines::past_line;
use crate::places::past_first;
use pm_bytes::{BACKSLASH, CLOSE_BRACE, COLON, HASH, NEWLINE, is_space};

/// What a span is.
#[derive(Clone, Copy)]
pub enum Kind {
    Gap,
    Colon,
    Condition,
    Mailbox,
    Pipe,
    WriteOut,
    Capture,
    Forward,
    Open,
    TooDeep,
    Close,
    Assign,
    Unset,
    Skipped,
}

/// The front of a text: a span's name and its text, and what is after the span.
#[derive(Clone, Copy)]
pub struct Front<'a> {
    pub kind: Kind,
    pub name: &'a [u8],
    pub text: &'a [u8],
    pub behind: &'a [u8],
}

/// How many blocks are open, and whether a recipe has begun.
#[derive(Clone, Copy)]
pub struct Situation {
    pub depth: usize,
    pub in_recipe: bool,
}

// As many blocks may be nested.
const MOST_BLOCKS: usize = 1000;

fn gap_of(behind: &[u8]) -> Front<'_>
    ensures front { front_in result ≡ gap behind.now }
    ensures kind { result.kind ≡ Kind.Gap }
{
    Front {
        kind: Kind::Gap,
        name: &[],
        text: &[],
        behind,
    }
}

/// What stands in a text before what is left of it.
pub fn text_before<'a>(text: &'a [u8], left: &[u8]) -> &'a [u8]
    requires { length left.now ≤ length text.now }
    ensures { result.now ≡ before text.now left.now }
{
    &text[..text.len() - left.len()]
}

/// A span whose text is all that stands before these bytes.
pub fn whole_span<'a>(kind: Kind, text: &'a [u8], behind: &'a [u8]) -> Front<'a>
    requires { length behind.now ≤ length text.now }
    ensures front { front_in result ≡ whole_front kind text.now behind.now }
    ensures kind { result.kind ≡ kind }
{
    Front {
        kind,
        name: &[],
        text: text_before(text, behind),
        behind,
    }
}

/// A span of one byte.
pub fn byte_span(kind: Kind, text: &[u8]) -> Front<'_>
    requires { 0 < length text.now }
    ensures front { front_in result ≡ byte_front kind text.now }
    ensures kind { result.kind ≡ kind }
{
    Front {
        kind,
        name: &[],
        text: &text[..1],
        behind: &text[1..],
    }
}

/// What stands at the front, where `known` tells of some of the text's words whether they leave a quote open.
pub fn front_at<'a>(known: &[bool], situation: &Situation, text: &'a [u8]) -> Front<'a>
    requires some { 0 < length text.now }
    requires knows { Knows known.now text.now }
    ensures front { front_in result ≡ front_of situation.now text.now }
    ensures open { result.kind ≡ Kind.Open → situation.now.in_recipe ≡ true }
    ensures close { result.kind ≡ Kind.Close → 0 < situation.now.depth }
{
    let byte = text[0];
    let rest = past_first(text);
    if is_space(byte) {
        return gap_of(rest);
    }
    if byte == BACKSLASH && starts_with(NEWLINE, rest) {
        return gap_of(past_first(rest));
    }
    if byte == HASH {
        return gap_of(past_line(rest));
    }
    if situation.in_recipe && byte != CLOSE_BRACE && byte != COLON {
        recipe_line_at(situation.depth >= MOST_BLOCKS, text)
    } else {
        statement_at(known, situation.depth > 0, text)
    }
}

/// Where a statement can follow, in so many blocks.
pub fn statements_in(depth: usize) -> Situation
    ensures { result ≡ in_statements depth }
{
    Situation {
        depth,
        in_recipe: false,
    }
}

/// The situation after a span of this kind.
pub fn situation_behind(kind: Kind, situation: Situation) -> Situation
    requires { situation.depth < 2 ^ 63 }
    ensures after { result ≡ situation_after kind situation }
    ensures bound { result.depth ≤ situation.depth + 1 }
{
    let depth = situation.depth;
    match kind {
        Kind::Gap | Kind::Condition => situation,
        Kind::Colon => Situation {
            depth,
            in_recipe: true,
        },
        Kind::Open => statements_in(depth + 1),
        Kind::Close => statements_in(depth.saturating_sub(1)),
        _ => statements_in(depth),
    }
}
