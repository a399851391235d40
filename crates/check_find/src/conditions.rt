//! Conditions that can't be read, whatever the mail is.
ghost use Rattle.std.specs.Prelude.{◌≡◌, IfOk, length, position};
ghost use Rattle.std.specs.List.{list_all};
ghost use Rattle.pm_bytes.specs.Letter.{is_blank_byte};
ghost use Rattle.pm_meaning.specs.Leads.{asking_of};
ghost use Rattle.pm_meaning.specs.Evaluating;
ghost use Rattle.pm_meaning.specs.Evaluating.{number_between};
ghost use Rattle.check_find.specs.Faults;
ghost use Rattle.check_find.specs.Reports.{fault_at};

use crate::codes::Fault;
use pm_bytes::{Memory, is_blank, read_count};
use pm_conds::{question_of, read_lead};
use pm_meaning::past_blanks;
use pm_meaning::question::Question;
use pm_recipe::{Condition, Kind, read_condition};
use pm_regex::{ReadRefused, read};
use std::alloc::Global;

/// What is wrong with a span of this kind and text.
pub fn fault_in_span(alloc: Global, kind: Kind, text: &[u8]) -> Result<Option<Fault>, Memory>
    ensures { IfOk result (λ fault. fault ≡ fault_at kind text.now) }
{
    match kind {
        Kind::Condition => {
            let condition = read_condition(alloc, text)?;
            fault_of(alloc, &condition)
        }
        _ => Ok(None),
    }
}

/// What is wrong with a condition. One that is expanded first isn't judged.
pub fn fault_of(alloc: Global, condition: &Condition) -> Result<Option<Fault>, Memory>
    ensures { IfOk result (λ fault. fault ≡ Faults.fault_of condition.now) }
{
    fault_by(
        alloc,
        question_of(condition.weight),
        condition.text.as_slice(),
    )
}

fn fault_by(alloc: Global, question: Option<Question>, text: &[u8]) -> Result<Option<Fault>, Memory>
    ensures { IfOk result (λ fault. fault ≡ Faults.fault_by question text.now) }
{
    match question {
        None => Ok(Some(Fault::Weight)),
        Some(question) => {
            let mut question = question;
            let test = read_lead(alloc, text, &mut question)?;
            test_fault(alloc, test, &question)
        }
    }
}

fn test_fault(alloc: Global, test: &[u8], question: &Question) -> Result<Option<Fault>, Memory>
    ensures { IfOk result (λ fault. fault ≡ Faults.test_fault (asking_of test.now question.now)) }
{
    if test.starts_with(b"$") || test.starts_with(b"?") {
        return Ok(None);
    }
    if test.starts_with(b"<") || test.starts_with(b">") {
        return Ok(size_fault(question, number_in(&test[1..])));
    }
    expression_fault(alloc, test)
}

fn size_fault(question: &Question, number: Option<u64>) -> Option<Fault>
    ensures { result ≡ Faults.size_fault question.now number }
{
    match number {
        None => Some(Fault::Size),
        Some(_) => {
            if question.inverted && question.weight.is_some() {
                Some(Fault::Size)
            } else {
                None
            }
        }
    }
}

fn expression_fault(alloc: Global, text: &[u8]) -> Result<Option<Fault>, Memory>
    ensures { IfOk result (λ fault. fault ≡ Faults.expression_fault text.now) }
{
    match read(alloc, text) {
        Ok(expr) => {
            drop(expr);
            Ok(None)
        }
        Err(ReadRefused::Defect) => Ok(Some(Fault::Expression)),
        Err(ReadRefused::Memory) => Err(Memory),
    }
}

// The number between blanks.
fn number_in(text: &[u8]) -> Option<u64>
    ensures { result ≡ number_between text.now }
{
    word_number(past_blanks(text))
}

// The number that a word writes, where nothing but blanks stands after it.
fn word_number(text: &[u8]) -> Option<u64>
    ensures { result ≡ Evaluating.word_number text.now }
{
    let end = word_end(text).unwrap_or(text.len());
    if is_all_blank(&text[end..]) {
        read_count(&text[..end])
    } else {
        None
    }
}

fn word_end(text: &[u8]) -> Option<usize>
    ensures { result ≡ position is_blank_byte text.now }
{
    text.iter().position(|byte| is_blank(*byte))
}

fn is_all_blank(text: &[u8]) -> bool
    ensures { result ≡ list_all is_blank_byte text.now }
{
    text.iter().all(|byte| is_blank(*byte))
}
