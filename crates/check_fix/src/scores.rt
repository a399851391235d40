//! Weights by the score of the last recipe.
ghost use Rattle.std.specs.Prelude.{◌≡◌, ◌<◌, ◌++◌, ◌||◌, IfSome, OnOk, false, length, not, position};
ghost use Rattle.pm_bytes.specs.Letter.{is_blank_byte};
ghost use Rattle.check_fix.specs.Conditions.{is_lead_byte};
ghost use Rattle.check_fix.specs.Scores;
ghost use Rattle.check_fix.specs.Scores.{greatest_of, name_edits, score_edits};

use crate::braces::ends_word;
use crate::conditions::{begins_weight, is_lead_byte, late_weight, past_sign, past_star};
use crate::copies::{is_between, is_closing, is_colon};
use crate::edits::{Edit, put};
use crate::numbers::{is_opening, keep_value, past_whole};
use crate::parts::{before, has_part, is, is_above, past, past_blanks, past_digits};
use crate::values::is_gap;
use pm_bytes::{Memory, is_blank};
use pm_recipe::{Flags, Kind, Span, read_flags};
use std::alloc::Global;

/// Whether the score of the recipe before is 0 or 2147483647, whether that of this one is, and whether a block has just
/// begun.
#[derive(Clone, Copy)]
pub struct Score {
    pub last: bool,
    pub this: bool,
    pub begun: bool,
}

fn past_dollar(text: &[u8]) -> &[u8]
    ensures { result.now ≡ Scores.after_dollar text.now }
{
    if past_star(text).starts_with(b"$") {
        past_blanks(past(1, past_star(text)))
    } else {
        &[]
    }
}

fn is_score(text: &[u8]) -> bool
    ensures { result ≡ Scores.is_score text.now }
{
    is(past_dollar(text), b"$=^0")
}

fn is_greatest(text: &[u8]) -> bool
    ensures { result ≡ Scores.is_greatest text.now }
{
    is_above(2_147_483_646, text)
        && past_digits(text).starts_with(b"^0")
        && ends_word(past(2, past_digits(text)))
}

fn lead_end(text: &[u8]) -> Option<usize>
    ensures place { result ≡ position (λ byte. not (is_lead_byte byte || is_blank_byte byte)) text.now }
    ensures within { IfSome result (λ end. end < length text.now) }
{
    text.iter()
        .position(|byte| !(is_lead_byte(*byte) || is_blank(*byte)))
}

fn past_lead(text: &[u8]) -> &[u8]
    ensures { result.now ≡ Scores.after_lead text.now }
{
    match lead_end(text) {
        None => &[],
        Some(end) => &text[end..],
    }
}

fn begins_number(text: &[u8]) -> bool
    ensures { result ≡ Scores.begins_number text.now }
{
    match text {
        [] => false,
        [byte, ..] => begins_weight(*byte),
    }
}

fn is_bare(text: &[u8]) -> bool
    ensures { result ≡ Scores.is_bare text.now }
{
    !begins_number(text)
        && !has_part(b"$", before(text, past_lead(text)))
        && !past_lead(text).starts_with(b".")
}

fn is_plain(text: &[u8]) -> bool
    ensures { result ≡ Scores.is_plain text.now }
{
    is_bare(past_star(text)) && is(late_weight(text), &[])
}

fn keeps_end(last: bool, text: &[u8]) -> bool
    ensures { result ≡ Scores.keeps_end last text.now }
{
    if is_score(text) {
        last
    } else {
        is_greatest(past_star(text)) || is_plain(text)
    }
}

fn is_first(flags: Flags) -> bool
    ensures { result ≡ Scores.is_first flags }
{
    !(flags.and_chain || flags.and_ok) && !(flags.or_else || flags.on_error)
}

fn last_after(kind: Kind, last: bool, this: bool) -> bool
    ensures { result ≡ Scores.last_after kind last this }
{
    if is_colon(kind) { this } else { last }
}

fn this_within(span: &Span<'_>, last: bool, this: bool, begun: bool) -> bool
    ensures { result ≡ Scores.this_within span.now last this begun }
{
    if is_between(span.kind) {
        this && keeps_end(last, span.bytes)
    } else {
        this && (is_opening(span.kind) || (is_closing(span.kind) && begun))
    }
}

fn this_after(span: &Span<'_>, last: bool, this: bool, begun: bool) -> bool
    ensures { result ≡ Scores.this_after span.now last this begun }
{
    if is_gap(span.kind) {
        this
    } else if is_colon(span.kind) {
        is_first(read_flags(span.bytes))
    } else {
        this_within(span, last, this, begun)
    }
}

fn open_after(kind: Kind, begun: bool) -> bool
    ensures { result ≡ Scores.open_after kind begun }
{
    is_opening(kind) || (is_gap(kind) && begun)
}

/// Before all spans.
pub fn no_score() -> Score
    ensures { result ≡ Scores.no_score }
{
    Score {
        last: false,
        this: false,
        begun: false,
    }
}

/// Behind a span.
pub fn score_after(span: &Span<'_>, score: Score) -> Score
    ensures { result ≡ Scores.score_after span.now score }
{
    Score {
        last: last_after(span.kind, score.last, score.this),
        this: this_after(span, score.last, score.this, score.begun),
        begun: open_after(span.kind, score.begun),
    }
}

/// Whether no other value is given to the variable that gets the score.
pub fn is_free(spans: &[Span<'_>]) -> bool
    ensures { result ≡ Scores.is_free spans.now }
{
    keep_value(b"LASTSCORE", b"$=", spans)
}

fn begins_weighted(text: &[u8]) -> bool
    ensures { result ≡ Scores.begins_weighted text.now }
{
    begins_number(text) && past_digits(past_sign(text)).starts_with(b"^")
}

fn is_optional(text: &[u8]) -> bool
    ensures { result ≡ Scores.is_optional text.now }
{
    text.starts_with(b"${")
        && past_whole(text).starts_with(b":+")
        && begins_weighted(past(2, past_whole(text)))
}

fn is_weighted(text: &[u8]) -> bool
    ensures { result ≡ Scores.is_weighted text.now }
{
    begins_weighted(past_star(text)) || is_optional(past_dollar(text))
}

fn are_weighted(spans: &[Span<'_>]) -> bool
    ensures { result ≡ Scores.are_weighted spans.now }
{
    for span in spans {
        if !is_between(span.kind) {
            return true;
        }
        if !is_gap(span.kind) && !is_weighted(span.bytes) {
            return false;
        }
    }
    false
}

fn closes_next(spans: &[Span<'_>]) -> bool
    ensures { result ≡ Scores.closes_next spans.now }
{
    for span in spans {
        if !is_gap(span.kind) {
            return is_closing(span.kind);
        }
    }
    false
}

fn is_empty_block(spans: &[Span<'_>]) -> bool
    ensures { result ≡ Scores.is_empty_block spans.now }
{
    match spans.split_first() {
        None => false,
        Some((span, later)) => is_opening(span.kind) && closes_next(later),
    }
}

fn past_gaps<'a, 'b>(spans: &'a [Span<'b>]) -> &'a [Span<'b>]
    ensures { result.now ≡ Scores.after_gaps spans.now }
{
    for i in 0..spans.len() {
        if !is_gap(spans[i].kind) {
            return &spans[i..];
        }
    }
    &[]
}

fn scores_first(spans: &[Span<'_>], action: &[Span<'_>]) -> bool
    ensures { result ≡ Scores.scores_first spans.now action.now }
{
    match spans.split_first() {
        None => false,
        Some((span, later)) => {
            is_between(span.kind)
                && is_score(span.bytes)
                && (are_weighted(later) || is_empty_block(action))
        }
    }
}

fn is_scored(ended: bool, spans: &[Span<'_>], action: &[Span<'_>]) -> bool
    ensures { result ≡ Scores.is_scored ended spans.now action.now }
{
    ended && scores_first(past_gaps(spans), action)
}

/// The score of the last recipe as a variable, before a colon line. `ended` says that it is 0 or 2147483647.
pub fn put_name(
    alloc: Global,
    span: &Span<'_>,
    spans: &[Span<'_>],
    action: &[Span<'_>],
    ended: bool,
    edits: &mut Vec<Edit>,
) -> Result<(), Memory>
    ensures { OnOk result (edits.new.items ≡ edits.old.items ++ name_edits span.now spans.now action.now ended) }
{
    if is_scored(ended, spans, action) {
        put(alloc, span, span.bytes, 0, b"LASTSCORE=$=\n", edits)
    } else {
        Ok(())
    }
}

fn put_greatest_of(alloc: Global, spans: &[Span<'_>], edits: &mut Vec<Edit>) -> Result<(), Memory>
    ensures { OnOk result (edits.new.items ≡ edits.old.items ++ greatest_of spans.now) }
{
    match spans.split_first() {
        None => Ok(()),
        Some((span, _)) => {
            let rest = past_star(span.bytes);
            put(
                alloc,
                span,
                rest,
                rest.len(),
                b"2147483647^0 LASTSCORE ?? ^^2147483647^^",
                edits,
            )
        }
    }
}

/// The condition by that score, behind a colon line.
pub fn put_score(
    alloc: Global,
    spans: &[Span<'_>],
    action: &[Span<'_>],
    ended: bool,
    edits: &mut Vec<Edit>,
) -> Result<(), Memory>
    ensures { OnOk result (edits.new.items ≡ edits.old.items ++ score_edits spans.now action.now ended) }
{
    if is_scored(ended, spans, action) {
        put_greatest_of(alloc, past_gaps(spans), edits)
    } else {
        Ok(())
    }
}
