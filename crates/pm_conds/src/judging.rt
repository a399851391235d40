//! What a recipe's conditions ask for, and what comes of each in order (procmailrc(5), "Conditions").
ghost use Rattle.std.specs.Prelude.{◌≡◌, IfOk, pos, neg_ℤ, ◌≤ℤ◌};
ghost use Rattle.std.specs.List.{list_any};
ghost use Rattle.pm_meaning.specs.Leads.{asking_of};
ghost use Rattle.pm_meaning.specs.Searching.{sight_of};
ghost use Rattle.pm_meaning.specs.Evaluating.{test_outcome, question_by};
ghost use Rattle.pm_meaning.specs.Evaluating;
ghost use Rattle.pm_meaning.specs.Evaluating.{judged_one, course_of, is_weighted};

use crate::scoring::{end_at, set_match};
use crate::searching::{length_of, search};
use crate::sizes::{measured_outcome, number_in, outcome_if};
use pm_bytes::{Blob, Memory};
use pm_meaning::question::{Factors, Judgement, Outcome, Question, Scope};
use pm_meaning::{add_code, add_matches, add_share};
use pm_message::Mail;
use pm_recipe::{Condition, Flags, Weight};
use pm_vars::Vars;
use std::alloc::Global;

/// What a condition is asked by its weight. A weight with a number out of its range has no question.
pub fn question_of(weight: Weight) -> Option<Question>
    ensures { result ≡ question_by weight }
{
    let weight = match weight {
        Weight::None => None,
        Weight::Bad => return None,
        Weight::Some { w, x } => {
            if x < 0 {
                return None;
            }
            Some(Factors { w, x: x as u32 })
        }
    };
    Some(Question {
        weight,
        inverted: false,
        scope: Scope::Flags,
    })
}

/// What comes of a test that needs no program: of a size or of an expression.
pub fn test(
    alloc: Global,
    text: &[u8],
    question: &Question,
    flags: Flags,
    mail: &mut Mail,
    vars: &Vars,
) -> Result<Outcome, Memory>
    ensures outcome { IfOk result (λ come. come
        ≡ test_outcome (asking_of text.now question.now) (sight_of flags mail.old vars.now)) }
    ensures same { mail.new ≡ mail.old }
{
    let above = text.starts_with(b">");
    if !above && !text.starts_with(b"<") {
        return search(alloc, text, question, flags, mail, vars);
    }
    let size = length_of(alloc, &question.scope, flags, mail, vars)?;
    Ok(measured_outcome(question, above, size, number_in(&text[1..])))
}

/// What comes of a program that ended with this code.
pub fn exited(question: &Question, code: u8) -> Outcome
    ensures { result ≡ Evaluating.exited question.now code }
{
    match question.weight {
        None => outcome_if((code == 0) != question.inverted),
        Some(weight) => Outcome::Exited {
            weight,
            inverted: question.inverted,
            code,
        },
    }
}

/// Judges one condition of this text by what came of it: how the judging ends, if it does.
pub fn judge_one(
    alloc: Global,
    text: &Blob,
    outcome: &Outcome,
    total: &mut i32,
    vars: &mut Vars,
) -> Result<Option<Judgement>, Memory>
    requires low { neg_ℤ (pos 2147483647) ≤ℤ total.old }
    requires high { total.old ≤ℤ pos 2147483647 }
    ensures course { IfOk result (λ end.
        judged_one text.now outcome.now total.old vars.old ≡ course_of end total.new vars.new) }
    ensures low { neg_ℤ (pos 2147483647) ≤ℤ total.new }
    ensures high { total.new ≤ℤ pos 2147483647 }
{
    match outcome {
        Outcome::Holds => Ok(None),
        Outcome::Matched(bytes) => {
            vars.set(b"MATCH", bytes.copy(alloc)?)?;
            Ok(None)
        }
        Outcome::Fails => Ok(Some(Judgement::Unmatched)),
        Outcome::Counted {
            weight,
            matches,
            bytes,
        } => {
            set_match(alloc, bytes, vars)?;
            *total = add_matches(*total, weight.w, weight.x, *matches);
            Ok(end_at(*total))
        }
        Outcome::Compared {
            weight,
            above,
            length,
            number,
        } => match add_share(*total, weight.w, weight.x, *length, *number, *above) {
            None => Ok(Some(Judgement::Defective(text.copy(alloc)?))),
            Some(score) => {
                *total = score;
                Ok(end_at(score))
            }
        },
        Outcome::Exited {
            weight,
            inverted,
            code,
        } => {
            *total = add_code(*total, weight.w, weight.x, *inverted, *code);
            Ok(end_at(*total))
        }
        Outcome::Defective => Ok(Some(Judgement::Defective(text.copy(alloc)?))),
        Outcome::TooLong(length) => Ok(Some(Judgement::TooLong(*length))),
    }
}

/// Whether some condition has a weight.
pub fn has_weight(conditions: &[Condition]) -> bool
    ensures { result ≡ list_any is_weighted conditions.now }
{
    conditions
        .iter()
        .any(|condition| !matches!(condition.weight, Weight::None))
}
