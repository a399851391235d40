//! A condition's weight and text.
ghost use Rattle.std.specs.Prelude.{◌≡◌, ◌≤◌, ◌<◌, ◌^◌, IfOk, IfSome, None, Some, if◌then◌else◌, nat_lt, neg_ℤ, pos};
ghost use Rattle.pm_recipe.specs.Weights.{most_weight, digits_value, number_within, digits_of, weight_of, numeral};
ghost use Rattle.pm_recipe.specs.Weights.{has_digit, exponent, ends_word, has_weight, exponent_value, weight_at};
ghost use Rattle.pm_recipe.specs.Weights.{after_weight, is_expanded, condition_line, condition_of, is_at_dollar};
ghost use Rattle.pm_recipe.specs.Weights.{dollar_line};

use crate::bytes::starts_with;
use crate::joins::{trim, without_indents, without_joins};
use crate::leads::{InLead, InNumeral};
use crate::places::{past, past_first, reach, split};
use crate::runs::{Run, UpTo};
use crate::tree::{Condition, Weight};
use pm_bytes::{Blob, CARET, DOLLAR, DOT, MINUS, Memory, PLUS, is_blank, is_digit};
use std::alloc::Global;

// The greatest absolute value of a weight.
const MOST_WEIGHT: u64 = 2_147_483_647;

// The greatest exponent of a weight.
const MOST_EXPONENT: u64 = 2_147_483_647;

fn sum_of_digits(most: u64, text: &[u8]) -> Option<u64>
    requires { most < 2 ^ 32 }
    ensures value { result ≡ (if nat_lt most (digits_value 0 text.now) then None else Some (digits_value 0 text.now)) }
{
    let mut value: u64 = 0;
    for byte in text {
        value = 10 * value + byte.saturating_sub(b'0') as u64;
        if value > most {
            return None;
        }
    }
    Some(value)
}

fn number_in(most: u64, text: &[u8]) -> Option<u64>
    requires { most < 2 ^ 32 }
    ensures value { result ≡ number_within most text.now }
    ensures bound { IfSome result (λ number. number ≤ most) }
{
    if text.contains(&DOT) {
        return None;
    }
    sum_of_digits(most, text)
}

fn digits_in(text: &[u8]) -> &[u8]
    ensures { result.now ≡ digits_of text.now }
{
    if starts_with(PLUS, text) || starts_with(MINUS, text) {
        past_first(text)
    } else {
        text
    }
}

fn numeral_in(text: &[u8]) -> &[u8]
    ensures { result.now ≡ numeral text.now }
{
    split(InNumeral::Sign, text).0
}

fn exponent_in(text: &[u8]) -> &[u8]
    ensures { result.now ≡ exponent text.now }
{
    past_first(past(InNumeral::Sign, text))
}

fn has_digits(text: &[u8]) -> bool
    ensures { result ≡ has_digit text.now }
{
    for byte in text {
        if is_digit(*byte) {
            return true;
        }
    }
    false
}

fn ends_here(text: &[u8]) -> bool
    ensures { result ≡ ends_word text.now }
{
    match text {
        [] => true,
        [byte, ..] => is_blank(*byte),
    }
}

fn is_weighted(text: &[u8]) -> bool
    ensures { result ≡ has_weight text.now }
{
    let exponent = exponent_in(text);
    let first = has_digits(numeral_in(text));
    let caret = starts_with(CARET, past(InNumeral::Sign, text));
    let second = has_digits(numeral_in(exponent));
    let end = ends_here(past(InNumeral::Sign, exponent));
    first && caret && second && end
}

fn exponent_number(text: &[u8]) -> Option<u64>
    ensures value { result ≡ exponent_value text.now }
    ensures bound { IfSome result (λ x. x ≤ 2147483647) }
{
    if starts_with(MINUS, text) {
        number_in(0, digits_in(text))
    } else {
        number_in(MOST_EXPONENT, digits_in(text))
    }
}

fn signed(negative: bool, number: u64) -> i32
    requires { number ≤ most_weight }
    ensures { result ≡ (if negative then neg_ℤ (pos number) else pos number) }
{
    if negative {
        -(number as i32)
    } else {
        number as i32
    }
}

fn weight_by(negative: bool, w: Option<u64>, x: Option<u64>) -> Weight
    requires w { IfSome w (λ number. number ≤ most_weight) }
    requires x { IfSome x (λ number. number ≤ 2147483647) }
    ensures { result ≡ weight_of negative w x }
{
    match w {
        None => Weight::Bad,
        Some(w) => match x {
            None => Weight::Bad,
            Some(x) => Weight::Some {
                w: signed(negative, w),
                x: x as i32,
            },
        },
    }
}

fn read_weight(text: &[u8]) -> Weight
    ensures { result ≡ weight_at text.now }
{
    if !is_weighted(text) {
        return Weight::None;
    }
    let w = number_in(MOST_WEIGHT, digits_in(numeral_in(text)));
    let x = exponent_number(numeral_in(exponent_in(text)));
    weight_by(starts_with(MINUS, text), w, x)
}

fn past_weight(text: &[u8]) -> &[u8]
    ensures { result.now ≡ after_weight text.now }
{
    if is_weighted(text) {
        past(Run::Blanks, past(InNumeral::Sign, exponent_in(text)))
    } else {
        text
    }
}

fn may_expand(place: InLead) -> bool
    ensures { result ≡ is_at_dollar place }
{
    match place {
        InLead::Before => true,
        _ => false,
    }
}

// Whether a `$` stands before the expression, so that the line is expanded before it is matched.
fn has_dollar(text: &[u8]) -> bool
    ensures { result ≡ is_expanded text.now }
{
    may_expand(reach(InLead::Before, text).place) && starts_with(DOLLAR, past(InLead::Before, text))
}

fn read_dollar_line(alloc: Global, text: &[u8]) -> Result<Blob, Memory>
    ensures { IfOk result (λ line. line ≡ dollar_line text.now) }
{
    let (front, rest) = split(UpTo::Dollar, text);
    let mut line = without_indents(alloc, front)?;
    let rest = without_joins(alloc, rest)?;
    line.push_slice(rest.as_slice())?;
    Ok(line)
}

fn read_line(alloc: Global, text: &[u8]) -> Result<Blob, Memory>
    ensures { IfOk result (λ line. line ≡ condition_line text.now) }
{
    let line = without_indents(alloc, text)?;
    if has_dollar(past_weight(trim(line.as_slice()))) {
        let whole = read_dollar_line(alloc, text)?;
        return Blob::from_slice(alloc, trim(whole.as_slice()));
    }
    Blob::from_slice(alloc, trim(line.as_slice()))
}

/// The condition of what follows its star.
pub fn read_condition(alloc: Global, text: &[u8]) -> Result<Condition, Memory>
    ensures { IfOk result (λ condition. condition ≡ condition_of text.now) }
{
    let line = read_line(alloc, text)?;
    let weight = read_weight(line.as_slice());
    let text = Blob::from_slice(alloc, past_weight(line.as_slice()))?;
    Ok(Condition { weight, text })
}
