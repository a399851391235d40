//! Forms of conditions: weights, and what stands before an expression.
ghost use Rattle.std.specs.Prelude.{◌≡◌, IfOk, pos};
ghost use Rattle.check_moving.specs.Kept;
ghost use Rattle.check_moving.specs.Leads.{front_in};
ghost use Rattle.check_moving.specs.Conditions;
ghost use Rattle.check_moving.specs.Conditions.{conditioned};
ghost use Rattle.check_moving.specs.Conditions.{after_sign, after_variable};

use crate::form::{ConditionForm, Form};
use crate::kept::kept;
use crate::leads::{Lead, begins_with_name};
use crate::text::{has_part, is, past, past_blanks, past_name};
use pm_bytes::{Memory, is_digit};
use pm_recipe::{Weight, read_condition};
use std::alloc::Global;

/// The forms of a condition with this text, weight and lead. `greatest` says that one before it has the greatest one.
pub fn condition_forms(
    alloc: Global,
    greatest: bool,
    text: &[u8],
    weight: Weight,
    lead: &Lead<'_>,
) -> Result<Vec<Form>, Memory>
    ensures { IfOk result (λ forms. forms.items
        ≡ Kept.kept (conditioned greatest text.now weight (front_in lead.now))) }
{
    let late = is_late(alloc, lead)?;
    let reasons = [
        (late, Form::Condition(ConditionForm::LateWeight)),
        (
            is_variable_weight(lead),
            Form::Condition(ConditionForm::VariableWeight),
        ),
        (
            is_variable_condition(lead),
            Form::Condition(ConditionForm::VariableCondition),
        ),
        (
            is_after(greatest, weight),
            Form::Condition(ConditionForm::AfterGreatest),
        ),
        (
            is_size_weight(weight, lead.text),
            Form::Condition(ConditionForm::SizeWeight),
        ),
        (
            is_continued(lead, text),
            Form::Condition(ConditionForm::Continued),
        ),
        (
            is_signal_code(lead),
            Form::Condition(ConditionForm::SignalCode),
        ),
    ];
    kept(alloc, &reasons)
}

/// Whether there is a weight, maybe one that can't be read.
pub fn is_weight(weight: Weight) -> bool
    ensures { result ≡ Conditions.is_weight weight }
{
    match weight {
        Weight::None => false,
        _ => true,
    }
}

/// Whether it is the greatest weight.
pub fn is_greatest(weight: Weight) -> bool
    ensures { result ≡ Conditions.is_greatest weight }
{
    match weight {
        Weight::Some { w, .. } => w >= 2_147_483_647,
        _ => false,
    }
}

/// Whether the exponent is above this one.
pub fn is_above(power: i32, weight: Weight) -> bool
    ensures { result ≡ Conditions.is_above power weight }
{
    match weight {
        Weight::Some { x, .. } => x > power,
        _ => false,
    }
}

fn is_late(alloc: Global, lead: &Lead<'_>) -> Result<bool, Memory>
    ensures { IfOk result (λ is. is ≡ Conditions.is_late (front_in lead.now)) }
{
    if !(lead.expands || lead.named) {
        return Ok(false);
    }
    let condition = read_condition(alloc, lead.text)?;
    Ok(is_weight(condition.weight))
}

fn begins_number(text: &[u8]) -> bool
    ensures { result ≡ Conditions.begins_number text.now }
{
    match text {
        [] => false,
        [byte, ..] => {
            is_digit(*byte) || *byte == b'.' || *byte == b'+' || *byte == b'-' || *byte == b'$'
        }
    }
}

fn past_sign(text: &[u8]) -> &[u8]
    ensures { result.now ≡ after_sign text.now }
{
    if text.starts_with(b"-") || text.starts_with(b"+") {
        past(1, text)
    } else {
        text
    }
}

fn past_variable(text: &[u8]) -> &[u8]
    ensures { result.now ≡ after_variable text.now }
{
    if text.starts_with(b"{") {
        past(1, past_name(past(1, text)))
    } else if text.starts_with(b"=") {
        past(1, text)
    } else {
        past_name(text)
    }
}

fn is_power(text: &[u8]) -> bool
    ensures { result ≡ Conditions.is_power text.now }
{
    text.starts_with(b"^") && begins_number(past_blanks(past(1, text)))
}

fn gives_weight(text: &[u8]) -> bool
    ensures { result ≡ Conditions.gives_weight text.now }
{
    text.starts_with(b"$") && is_power(past_blanks(past_variable(past(1, text))))
}

fn is_variable_weight(lead: &Lead<'_>) -> bool
    ensures { result ≡ Conditions.is_variable_weight (front_in lead.now) }
{
    lead.expands && gives_weight(past_sign(lead.text))
}

fn begins_variable(text: &[u8]) -> bool
    ensures { result ≡ Conditions.begins_variable text.now }
{
    begins_with_name(text) || text.starts_with(b"{")
}

fn is_variable(text: &[u8]) -> bool
    ensures { result ≡ Conditions.is_variable text.now }
{
    text.starts_with(b"$")
        && begins_variable(past(1, text))
        && is(past_variable(past(1, text)), b"")
}

fn is_variable_condition(lead: &Lead<'_>) -> bool
    ensures { result ≡ Conditions.is_variable_condition (front_in lead.now) }
{
    lead.expands && !lead.named && is_variable(lead.text)
}

fn is_after(greatest: bool, weight: Weight) -> bool
    ensures { result ≡ Conditions.is_after greatest weight }
{
    greatest && !is_weight(weight)
}

/// Whether it asks for a size.
pub fn is_size(text: &[u8]) -> bool
    ensures { result ≡ Conditions.is_size text.now }
{
    text.starts_with(b"<") || text.starts_with(b">")
}

fn is_size_weight(weight: Weight, text: &[u8]) -> bool
    ensures { result ≡ Conditions.is_size_weight weight text.now }
{
    is_above(3, weight) && is_size(text)
}

fn is_joined(text: &[u8]) -> bool
    ensures { result ≡ Conditions.is_joined text.now }
{
    has_part(b"\\\n ", text) || has_part(b"\\\n\t", text)
}

fn is_continued(lead: &Lead<'_>, text: &[u8]) -> bool
    ensures { result ≡ Conditions.is_continued (front_in lead.now) text.now }
{
    lead.expands && is_joined(text)
}

fn begins_digit(text: &[u8]) -> bool
    ensures { result ≡ Conditions.begins_digit text.now }
{
    match text {
        [] => false,
        [byte, ..] => is_digit(*byte),
    }
}

fn is_below_zero(text: &[u8]) -> bool
    ensures { result ≡ Conditions.is_below_zero text.now }
{
    (text.starts_with(b"-") && begins_digit(past(1, text)))
        || (text.starts_with(b"^^-") && begins_digit(past(3, text)))
}

fn is_signal_code(lead: &Lead<'_>) -> bool
    ensures { result ≡ Conditions.is_signal_code (front_in lead.now) }
{
    lead.named && is_below_zero(lead.text) && !has_part(b" ", lead.text)
}
