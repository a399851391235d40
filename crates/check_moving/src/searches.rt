//! Forms of expressions.
ghost use Rattle.std.specs.Prelude.{◌≡◌, IfOk};
ghost use Rattle.check_moving.specs.Kept;
ghost use Rattle.check_moving.specs.Leads.{front_in};
ghost use Rattle.check_moving.specs.Searches;
ghost use Rattle.check_moving.specs.Searches.{matched, searched, searched_by};

use crate::anchors::is_match_begin;
use crate::conditions::{is_above, is_size};
use crate::form::{Form, SearchForm};
use crate::kept::kept;
use crate::leads::Lead;
use crate::ranges::has_set;
use crate::text::{has_part, is};
use pm_bytes::{BACKSLASH, Blob, Memory, QUESTION, STAR};
use pm_recipe::Weight;
use std::alloc::Global;

/// The forms of the expression of a condition with this weight and lead, where the variables of these names begin with
/// an anchor.
pub fn search_forms(
    alloc: Global,
    names: &[Blob],
    weight: Weight,
    lead: &Lead<'_>,
) -> Result<Vec<Form>, Memory>
    ensures { IfOk result (λ forms. forms.items ≡ searched_by names.now weight (front_in lead.now)) }
{
    if !is_search(lead.text) {
        return Ok(Vec::new(alloc));
    }
    let mut forms = forms_of(alloc, weight, lead)?;
    let matched = match_forms(alloc, names, weight, lead)?;
    forms.extend_from_slice(matched.as_slice())?;
    Ok(forms)
}

fn forms_of(alloc: Global, weight: Weight, lead: &Lead<'_>) -> Result<Vec<Form>, Memory>
    ensures { IfOk result (λ forms. forms.items ≡ Kept.kept (searched weight (front_in lead.now))) }
{
    let text = lead.text;
    let reasons = [
        (text.starts_with(b"\\"), Form::Search(SearchForm::Backslash)),
        (is_quoted(lead), Form::Search(SearchForm::Quote)),
        (is_two_anchors(text), Form::Search(SearchForm::TwoAnchors)),
        (is_two_blanks(lead), Form::Search(SearchForm::TwoBlanks)),
        (
            is_empty_match(weight, text),
            Form::Search(SearchForm::EmptyMatch),
        ),
        (
            is_line_count(weight, text),
            Form::Search(SearchForm::LineCount),
        ),
        (has_set(text), Form::Search(SearchForm::Range)),
    ];
    kept(alloc, &reasons)
}

fn match_forms(
    alloc: Global,
    names: &[Blob],
    weight: Weight,
    lead: &Lead<'_>,
) -> Result<Vec<Form>, Memory>
    ensures { IfOk result (λ forms. forms.items ≡ Kept.kept (matched names.now weight (front_in lead.now))) }
{
    let reasons = [
        (
            is_inverted_match(lead),
            Form::Search(SearchForm::InvertedMatch),
        ),
        (is_match_end(lead.text), Form::Search(SearchForm::MatchEnd)),
        (
            is_match_begin(names, lead),
            Form::Search(SearchForm::MatchBegin),
        ),
        (
            is_weighted_match(weight, lead.text),
            Form::Search(SearchForm::WeightedMatch),
        ),
    ];
    kept(alloc, &reasons)
}

fn is_counted(weight: Weight) -> bool
    ensures { result ≡ Searches.is_counted weight }
{
    is_above(0, weight)
}

fn is_search(text: &[u8]) -> bool
    ensures { result ≡ Searches.is_search text.now }
{
    !is_size(text) && !text.starts_with(b"?")
}

fn is_quoted(lead: &Lead<'_>) -> bool
    ensures { result ≡ Searches.is_quoted (front_in lead.now) }
{
    lead.expands && has_part(b"\"", lead.text) && !has_part(b"\\\"", lead.text)
}

fn matches(text: &[u8]) -> bool
    ensures { result ≡ Searches.matches text.now }
{
    has_part(b"\\/", text)
}

fn is_inverted_match(lead: &Lead<'_>) -> bool
    ensures { result ≡ Searches.is_inverted_match (front_in lead.now) }
{
    lead.inverted && matches(lead.text)
}

fn ends_anchored(text: &[u8]) -> bool
    ensures { result ≡ Searches.ends_anchored text.now }
{
    (text.ends_with(b"$") && !text.ends_with(b"\\$"))
        || text.ends_with(b"\\<")
        || text.ends_with(b"\\>")
}

fn without_end<'a>(close: &[u8], text: &'a [u8]) -> &'a [u8]
    ensures { result.now ≡ Searches.without_end close.now text.now }
{
    if text.ends_with(close) {
        &text[..text.len().saturating_sub(close.len())]
    } else {
        text
    }
}

fn is_match_end(text: &[u8]) -> bool
    ensures { result ≡ Searches.is_match_end text.now }
{
    matches(text)
        && (ends_anchored(text)
            || ends_anchored(without_end(b")", text))
            || ends_anchored(without_end(b")*", text))
            || ends_anchored(without_end(b")+", text)))
}

fn is_weighted_match(weight: Weight, text: &[u8]) -> bool
    ensures { result ≡ Searches.is_weighted_match weight text.now }
{
    is_counted(weight) && matches(text)
}

fn is_two_anchors(text: &[u8]) -> bool
    ensures { result ≡ Searches.is_two_anchors text.now }
{
    has_part(b"$^", text) && !has_part(b"\\$^", text) && !text.ends_with(b"$^^")
}

fn has_blanks(text: &[u8]) -> bool
    ensures { result ≡ Searches.has_blanks text.now }
{
    has_part(b"  ", text) || has_part(b"\t", text)
}

fn is_plain(text: &[u8]) -> bool
    ensures { result ≡ Searches.is_plain text.now }
{
    !has_part(b"[", text) && !has_part(b"??", text) && !has_part(b"^0", text)
}

fn is_two_blanks(lead: &Lead<'_>) -> bool
    ensures { result ≡ Searches.is_two_blanks (front_in lead.now) }
{
    !lead.named && has_blanks(lead.text) && is_plain(lead.text)
}

fn is_repeated(text: &[u8]) -> bool
    ensures { result ≡ Searches.is_repeated text.now }
{
    match text {
        [byte, sign] => *byte != BACKSLASH && (*sign == STAR || *sign == QUESTION),
        _ => false,
    }
}

fn is_empty(text: &[u8]) -> bool
    ensures { result ≡ Searches.is_empty text.now }
{
    is(text, b"") || is(text, b"()") || is_repeated(text)
}

fn is_empty_match(weight: Weight, text: &[u8]) -> bool
    ensures { result ≡ Searches.is_empty_match weight text.now }
{
    is_counted(weight) && is_empty(text)
}

fn is_line_count(weight: Weight, text: &[u8]) -> bool
    ensures { result ≡ Searches.is_line_count weight text.now }
{
    is_counted(weight) && text.ends_with(b"^.*$")
}
