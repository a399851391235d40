//! Statements at their first byte: assignments, unsettings, colon lines, the end of a block, and what isn't understood.
ghost use Rattle.std.specs.Prelude.{◌≡◌, ◌<◌, length, true};
ghost use Rattle.pm_recipe.specs.Front.{front_in, skipped, unclosed, assignment, ends_name, behind_name, named};
ghost use Rattle.pm_recipe.specs.Front.{colon_front, statement_of};
ghost use Rattle.pm_recipe.specs.Opens.{Knows};

use crate::bytes::starts_with;
use crate::colon_line::{from_lock, is_locked, is_recipe, past_colon_line, split_word};
use crate::fronts::{Front, Kind, byte_span, whole_span};
use crate::line_words::InTail;
use crate::newlines::past_line;
use crate::places::{past, past_first, split};
use crate::quotes::leaves_quote;
use crate::runs::Run;
use pm_bytes::{CLOSE_BRACE, EQUALS, begins_name, is_space};

fn skip(text: &[u8]) -> Front<'_>
    ensures front { front_in result ≡ skipped text.now }
    ensures kind { result.kind ≡ Kind.Skipped }
{
    whole_span(Kind::Skipped, text, past(InTail::Word, past_first(text)))
}

fn skip_line(text: &[u8]) -> Front<'_>
    ensures front { front_in result ≡ unclosed text.now }
    ensures kind { result.kind ≡ Kind.Skipped }
{
    whole_span(Kind::Skipped, text, past_line(past_first(text)))
}

fn assignment_at<'a>(known: &[bool], text: &'a [u8], name: &'a [u8], value: &'a [u8]) -> Front<'a>
    requires knows { Knows known.now value.now }
    ensures front { front_in result ≡ assignment text.now name.now value.now }
    ensures no_open { result.kind ≡ Kind.Open → ⊥ }
    ensures no_close { result.kind ≡ Kind.Close → ⊥ }
{
    if leaves_quote(known, value) {
        return skip_line(text);
    }
    let (word, behind) = split_word(value);
    Front {
        kind: Kind::Assign,
        name,
        text: word,
        behind,
    }
}

/// Whether a name can end before this.
pub fn is_name_end(text: &[u8]) -> bool
    ensures { result ≡ ends_name text.now }
{
    match text {
        [] => true,
        [byte, ..] => is_space(*byte),
    }
}

/// What follows a name and its blanks.
pub fn past_name(text: &[u8]) -> &[u8]
    ensures { result.now ≡ behind_name text.now }
{
    past(Run::Blanks, past(Run::Name, text))
}

fn named_at<'a>(known: &[bool], text: &'a [u8]) -> Front<'a>
    requires knows { Knows known.now text.now }
    ensures front { front_in result ≡ named text.now }
    ensures no_open { result.kind ≡ Kind.Open → ⊥ }
    ensures no_close { result.kind ≡ Kind.Close → ⊥ }
{
    let (name, behind) = split(Run::Name, text);
    let rest = past(Run::Blanks, behind);
    if starts_with(EQUALS, rest) {
        return assignment_at(known, text, name, past(Run::Blanks, past_first(rest)));
    }
    if is_name_end(behind) {
        Front {
            kind: Kind::Unset,
            name,
            text: &[],
            behind,
        }
    } else {
        skip(text)
    }
}

fn colon_line_at<'a>(known: &[bool], text: &'a [u8]) -> Front<'a>
    requires knows { Knows known.now text.now }
    ensures front { front_in result ≡ colon_front text.now }
    ensures no_open { result.kind ≡ Kind.Open → ⊥ }
    ensures no_close { result.kind ≡ Kind.Close → ⊥ }
{
    if is_locked(text) && leaves_quote(known, from_lock(text)) {
        return skip_line(text);
    }
    whole_span(Kind::Colon, text, past_colon_line(text))
}

/// A statement at its first byte.
pub fn statement_at<'a>(known: &[bool], in_block: bool, text: &'a [u8]) -> Front<'a>
    requires knows { Knows known.now text.now }
    requires some { 0 < length text.now }
    ensures front { front_in result ≡ statement_of in_block text.now }
    ensures no_open { result.kind ≡ Kind.Open → ⊥ }
    ensures close { result.kind ≡ Kind.Close → in_block ≡ true }
{
    let byte = text[0];
    if byte == CLOSE_BRACE && in_block {
        return byte_span(Kind::Close, text);
    }
    if is_recipe(text) {
        return colon_line_at(known, text);
    }
    if begins_name(byte) {
        named_at(known, text)
    } else {
        skip(text)
    }
}
