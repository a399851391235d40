//! Lines of a recipe at their first byte: conditions and actions.
ghost use Rattle.std.specs.Prelude.{◌≡◌, ◌<◌, length};
ghost use Rattle.pm_recipe.specs.Front.{front_in, opens, ends_line, after_equals, captures, capture, other_action};
ghost use Rattle.pm_recipe.specs.Front.{line_front, brace, recipe_line};

use crate::bytes::starts_with;
use crate::fronts::{Front, Kind, byte_span, whole_span};
use crate::names::{is_name_end, past_name};
use crate::places::{past, past_first, split};
use crate::runs::Run;
use pm_bytes::{BANG, BAR, EQUALS, NEWLINE, OPEN_BRACE, STAR, begins_name};

fn opens_block(text: &[u8]) -> bool
    ensures { result ≡ opens text.now }
{
    is_name_end(past(Run::Joins, text))
}

fn at_line_end(text: &[u8]) -> bool
    ensures { result ≡ ends_line text.now }
{
    match text {
        [] => true,
        [byte, ..] => *byte == NEWLINE,
    }
}

fn past_equals(text: &[u8]) -> &[u8]
    ensures text { result.now ≡ after_equals text.now }
{
    past(Run::Blanks, past_first(past_name(text)))
}

fn is_capture(text: &[u8]) -> bool
    ensures { result ≡ captures text.now }
{
    starts_with(EQUALS, past_name(text)) && starts_with(BAR, past_equals(text))
}

fn line_span(kind: Kind, text: &[u8]) -> Front<'_>
    ensures front { front_in result ≡ line_front kind text.now }
    ensures kind { result.kind ≡ kind }
{
    let (text, behind) = split(Run::Line, text);
    Front {
        kind,
        name: &[],
        text,
        behind,
    }
}

fn capture_at(text: &[u8]) -> Front<'_>
    ensures front { front_in result ≡ capture text.now }
    ensures kind { result.kind ≡ Kind.Capture }
{
    let (name, _) = split(Run::Name, text);
    let (line, behind) = split(Run::Line, past_first(past_equals(text)));
    Front {
        kind: Kind::Capture,
        name,
        text: line,
        behind,
    }
}

fn other_action_at(text: &[u8]) -> Front<'_>
    requires some { 0 < length text.now }
    ensures front { front_in result ≡ other_action text.now }
    ensures no_close { result.kind ≡ Kind.Close → ⊥ }
{
    if begins_name(text[0]) && is_capture(text) {
        capture_at(text)
    } else {
        whole_span(Kind::Mailbox, text, past(Run::Line, past_first(text)))
    }
}

fn brace_at(deep: bool, text: &[u8]) -> Front<'_>
    requires some { 0 < length text.now }
    ensures front { front_in result ≡ brace deep text.now }
    ensures no_close { result.kind ≡ Kind.Close → ⊥ }
{
    if deep {
        Front {
            kind: Kind::TooDeep,
            name: &[],
            text: &text[..1],
            behind: &[],
        }
    } else {
        byte_span(Kind::Open, text)
    }
}

/// A line of a recipe at its first byte.
pub fn recipe_line_at(deep: bool, text: &[u8]) -> Front<'_>
    requires some { 0 < length text.now }
    ensures front { front_in result ≡ recipe_line deep text.now }
    ensures no_close { result.kind ≡ Kind.Close → ⊥ }
{
    let byte = text[0];
    let rest = past_first(text);
    if byte == STAR {
        return line_span(Kind::Condition, rest);
    }
    if byte == OPEN_BRACE && opens_block(rest) {
        return brace_at(deep, text);
    }
    if byte == BANG {
        return line_span(Kind::Forward, rest);
    }
    if byte != BAR {
        return other_action_at(text);
    }
    if at_line_end(past(Run::Blanks, rest)) {
        line_span(Kind::WriteOut, rest)
    } else {
        line_span(Kind::Pipe, rest)
    }
}
