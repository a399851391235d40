//! Weights and sizes that are brought over.
ghost use Rattle.std.specs.Prelude.{◌≡◌, ◌++◌, IfOk, OnOk, codes, drop, false, length};
ghost use Rattle.std.specs.List.{list_all};
ghost use Rattle.pm_recipe.specs.Weights.{condition_of};
ghost use Rattle.check_moving.specs.Conditions.{after_sign, is_size};
ghost use Rattle.check_fix.specs.Conditions;
ghost use Rattle.check_fix.specs.Conditions.{after_star};
ghost use Rattle.check_fix.specs.Conditions.{great_edits, after_bang, size_edits};
ghost use Rattle.check_fix.specs.Conditions.{weight_from};
ghost use Rattle.check_fix.specs.Conditions.{word_of};
ghost use Rattle.check_fix.specs.Edits.{edit_at};
ghost use Rattle.check_fix.specs.Parts;
ghost use Rattle.check_fix.specs.Parts.{after_digits};
ghost use Rattle.check_fix.specs.Conditions.{late_edits, greatest_at, supreme_edits};

use crate::edits::{Edit, put};
use crate::parts::{
    before, from_blank, from_part, has_part, is_above, past, past_blanks, past_digits,
};
use pm_bytes::{
    BANG, Blob, CARET, DOLLAR, MINUS, Memory, PLUS, QUESTION, continues_name, is_blank, is_digit,
};
use pm_recipe::{Span, Weight, read_condition};
use std::alloc::Global;

/// What follows the star and blanks.
pub fn past_star(text: &[u8]) -> &[u8]
    ensures { result.now ≡ after_star text.now }
{
    past_blanks(past(1, text))
}

fn is_bad(weight: Weight) -> bool
    ensures { result ≡ Conditions.is_bad weight }
{
    match weight {
        Weight::Bad => true,
        _ => false,
    }
}

/// The text without a sign at its front.
pub fn past_sign(text: &[u8]) -> &[u8]
    ensures { result.now ≡ after_sign text.now }
{
    if text.starts_with(b"-") || text.starts_with(b"+") {
        past(1, text)
    } else {
        text
    }
}

fn is_great(text: &[u8]) -> bool
    ensures { result ≡ Conditions.is_great text.now }
{
    is_above(2_147_483_647, text) && past_digits(text).starts_with(b"^")
}

fn great_number(text: &[u8]) -> &[u8]
    ensures { result.now ≡ Conditions.great_number text.now }
{
    let number = past_sign(past_star(text));
    if is_great(number) { number } else { &[] }
}

fn has_bad_weight(alloc: Global, text: &[u8]) -> Result<bool, Memory>
    ensures { IfOk result (λ is. is ≡ Conditions.is_bad (condition_of (drop 1 text.now)).weight) }
{
    let condition = read_condition(alloc, past(1, text))?;
    Ok(is_bad(condition.weight))
}

// The greatest weight in the place of the digits that begin here.
fn put_number(
    alloc: Global,
    span: &Span<'_>,
    number: &[u8],
    edits: &mut Vec<Edit>,
) -> Result<(), Memory>
    ensures { OnOk result (edits.new.items ≡ edits.old.items ++ edit_at span.now.first span.now.bytes.now number.now
        (length (Parts.before number.now (after_digits number.now))) (codes "2147483647")) }
{
    let count = before(number, past_digits(number)).len();
    put(alloc, span, number, count, b"2147483647", edits)
}

/// A weight above the greatest.
pub fn put_great(alloc: Global, span: &Span<'_>, edits: &mut Vec<Edit>) -> Result<(), Memory>
    ensures { OnOk result (edits.new.items ≡ edits.old.items ++ great_edits span.now.first span.now.bytes.now) }
{
    if has_bad_weight(alloc, span.bytes)? {
        put_number(alloc, span, great_number(span.bytes), edits)
    } else {
        Ok(())
    }
}

fn past_bang(text: &[u8]) -> &[u8]
    ensures { result.now ≡ after_bang text.now }
{
    if text.starts_with(b"!") {
        past_blanks(past(1, text))
    } else {
        text
    }
}

fn is_size(text: &[u8]) -> bool
    ensures { result ≡ is_size text.now }
{
    text.starts_with(b"<") || text.starts_with(b">")
}

fn is_variable_size(text: &[u8]) -> bool
    ensures { result ≡ Conditions.is_variable_size text.now }
{
    is_size(text) && past_blanks(past(1, text)).starts_with(b"$")
}

/// A size that a variable gives.
pub fn put_size(alloc: Global, span: &Span<'_>, edits: &mut Vec<Edit>) -> Result<(), Memory>
    ensures { OnOk result (edits.new.items ≡ edits.old.items ++ size_edits span.now.first span.now.bytes.now) }
{
    if is_variable_size(past_bang(past_star(span.bytes))) {
        put(alloc, span, past_star(span.bytes), 0, b"$ ", edits)
    } else {
        Ok(())
    }
}

/// Whether it is a digit or a sign.
pub fn begins_weight(byte: u8) -> bool
    ensures { result ≡ Conditions.begins_weight byte }
{
    is_digit(byte) || byte == PLUS || byte == MINUS
}

fn ends_lead(byte: u8) -> bool
    ensures { result ≡ Conditions.ends_lead byte }
{
    byte == DOLLAR || byte == BANG || byte == QUESTION
}

/// Whether it is a byte of what stands before an expression.
pub fn is_lead_byte(byte: u8) -> bool
    ensures { result ≡ Conditions.is_lead_byte byte }
{
    continues_name(byte) || ends_lead(byte)
}

fn weight_in(text: &[u8]) -> &[u8]
    ensures { result.now ≡ weight_from 0 false text.now }
{
    let mut last = 0;
    let mut gap = false;
    let mut rest = text;
    while let Some((byte, after)) = rest.split_first() {
        if is_blank(*byte) {
            gap = true;
        } else if gap && ends_lead(last) && begins_weight(*byte) {
            return rest;
        } else if is_lead_byte(*byte) {
            last = *byte;
            gap = false;
        } else {
            return &[];
        }
        rest = after;
    }
    rest
}

/// The text from a weight on after `$`, `!` or `??`.
pub fn late_weight(text: &[u8]) -> &[u8]
    ensures { result.now ≡ Conditions.late_weight text.now }
{
    weight_in(past_star(text))
}

fn first_word(text: &[u8]) -> &[u8]
    ensures { result.now ≡ word_of text.now }
{
    before(text, from_blank(text))
}

/// Whether it is a byte of a weight of whole numbers.
pub fn is_weight_byte(byte: u8) -> bool
    ensures { result ≡ Conditions.is_weight_byte byte }
{
    begins_weight(byte) || byte == CARET
}

fn has_weight_bytes(word: &[u8]) -> bool
    ensures { result ≡ list_all Conditions.is_weight_byte word.now }
{
    word.iter().all(|byte| is_weight_byte(*byte))
}

fn is_whole(word: &[u8]) -> bool
    ensures { result ≡ Conditions.is_whole word.now }
{
    has_part(b"^", word) && has_weight_bytes(word)
}

fn blank_before(text: &[u8]) -> &[u8]
    ensures { result.now ≡ Conditions.blank_before text.now }
{
    if past(1, text).starts_with(b" ") {
        &[]
    } else {
        b" "
    }
}

fn weight_first(alloc: Global, text: &[u8]) -> Result<Blob, Memory>
    ensures { IfOk result (λ first. first ≡ Conditions.weight_first text.now) }
{
    let weight = late_weight(text);
    let mut first = Blob::from_slice(alloc, blank_before(text))?;
    first.push_slice(first_word(weight))?;
    first.push_slice(b" ")?;
    first.push_slice(before(past_star(text), weight))?;
    Ok(first)
}

fn late_length(text: &[u8]) -> usize
    ensures { result ≡ Conditions.late_length text.now }
{
    let after = past_blanks(from_blank(late_weight(text)));
    past_star(text).len().saturating_sub(after.len())
}

/// A weight after `$` or `??`.
pub fn put_late(alloc: Global, span: &Span<'_>, edits: &mut Vec<Edit>) -> Result<(), Memory>
    ensures { OnOk result (edits.new.items ≡ edits.old.items ++ late_edits span.now.first span.now.bytes.now) }
{
    if is_whole(first_word(late_weight(span.bytes))) {
        let first = weight_first(alloc, span.bytes)?;
        let count = late_length(span.bytes);
        put(
            alloc,
            span,
            past_star(span.bytes),
            count,
            first.as_slice(),
            edits,
        )
    } else {
        Ok(())
    }
}

fn put_greatest(
    alloc: Global,
    span: &Span<'_>,
    part: &[u8],
    count: usize,
    edits: &mut Vec<Edit>,
) -> Result<(), Memory>
    ensures { OnOk result (edits.new.items ≡ edits.old.items
        ++ greatest_at span.now.first span.now.bytes.now part.now count) }
{
    put(
        alloc,
        span,
        from_part(part, span.bytes),
        count,
        b"2147483647",
        edits,
    )
}

/// The weight `$SUPREME`.
pub fn put_supreme(alloc: Global, span: &Span<'_>, edits: &mut Vec<Edit>) -> Result<(), Memory>
    ensures { OnOk result (edits.new.items ≡ edits.old.items ++ supreme_edits span.now.first span.now.bytes.now) }
{
    put_greatest(alloc, span, b"$SUPREME^0", 8, edits)?;
    put_greatest(alloc, span, b"$SUPREME^1", 8, edits)?;
    put_greatest(alloc, span, b"${SUPREME}^0", 10, edits)?;
    put_greatest(alloc, span, b"${SUPREME}^1", 10, edits)
}
