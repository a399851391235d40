//! Conditions on sizes: `<` and `>` (procmailrc(5), "Conditions").
ghost use Rattle.std.specs.Prelude.{◌≡◌, length, position};
ghost use Rattle.std.specs.List.{list_all};
ghost use Rattle.pm_bytes.specs.Letter.{is_blank_byte};
ghost use Rattle.pm_meaning.specs.Evaluating.{word_length};
ghost use Rattle.pm_meaning.specs.Evaluating;
ghost use Rattle.pm_meaning.specs.Evaluating.{number_between, inverted_if};
ghost use Rattle.pm_meaning.specs.Weighing;
ghost use Rattle.pm_meaning.specs.Searching.{holds_if};

use pm_bytes::{is_blank, read_count};
use pm_meaning::past_blanks;
use pm_meaning::question::{Factors, Outcome, Question};

/// The place of the first blank.
fn word_end(text: &[u8]) -> Option<usize>
    ensures { result ≡ position is_blank_byte text.now }
{
    text.iter().position(|byte| is_blank(*byte))
}

/// Whether there is nothing but blanks.
fn is_all_blank(text: &[u8]) -> bool
    ensures { result ≡ list_all is_blank_byte text.now }
{
    text.iter().all(|byte| is_blank(*byte))
}

/// The number that a word writes, where nothing but blanks stands after it.
fn word_number(text: &[u8]) -> Option<u64>
    ensures { result ≡ Evaluating.word_number text.now }
{
    let end = word_end(text).unwrap_or(text.len());
    if is_all_blank(&text[end..]) {
        read_count(&text[..end])
    } else {
        None
    }
}

/// The number between blanks.
pub fn number_in(text: &[u8]) -> Option<u64>
    ensures { result ≡ number_between text.now }
{
    word_number(past_blanks(text))
}

/// A condition that holds, or doesn't.
pub fn outcome_if(holds: bool) -> Outcome
    ensures { result ≡ holds_if holds }
{
    if holds {
        Outcome::Holds
    } else {
        Outcome::Fails
    }
}

/// A condition on a size: that it is above the number, or below it.
fn size_outcome(inverted: bool, above: bool, size: u64, number: Option<u64>) -> Outcome
    ensures { result ≡ Evaluating.size_outcome inverted above size number }
{
    match number {
        None => Outcome::Defective,
        Some(number) => {
            let test = if above { number < size } else { size < number };
            outcome_if(test != inverted)
        }
    }
}

/// A condition on a size with a weight. Inverted it is a defect.
fn weighed_size(
    weight: Factors,
    inverted: bool,
    above: bool,
    length: u64,
    number: Option<u64>,
) -> Outcome
    ensures { result ≡ Weighing.weighed_size weight inverted above length number }
{
    match number {
        Some(number) if !inverted => Outcome::Compared {
            weight,
            above,
            length,
            number,
        },
        _ => Outcome::Defective,
    }
}

/// A condition on a size, with a weight or without one.
pub fn measured_outcome(
    question: &Question,
    above: bool,
    length: u64,
    number: Option<u64>,
) -> Outcome
    ensures { result ≡ Evaluating.measured_outcome question.now.weight question.now.inverted above length number }
{
    match question.weight {
        None => size_outcome(question.inverted, above, length, number),
        Some(weight) => weighed_size(weight, question.inverted, above, length, number),
    }
}
