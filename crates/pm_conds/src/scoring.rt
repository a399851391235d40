//! The score of a recipe while its conditions are judged (procmailsc(5)).
ghost use Rattle.std.specs.Prelude.{◌≡◌, IfOk};
ghost use Rattle.pm_meaning.specs.Evaluating.{with_score, with_matched};
ghost use Rattle.pm_meaning.specs.Weighing;

use pm_bytes::{Blob, Memory};
use pm_meaning::question::Judgement;
use pm_vars::Vars;
use std::alloc::Global;

/// How a score ends the judging, if it does.
pub fn end_at(total: i32) -> Option<Judgement>
    ensures { result ≡ Weighing.end_at total }
{
    if total >= 2_147_483_647 {
        Some(Judgement::Matched)
    } else if total <= -2_147_483_647 {
        Some(Judgement::Unmatched)
    } else {
        None
    }
}

/// What comes where all conditions were judged.
pub fn end_of_all(weighted: bool, total: i32) -> Judgement
    ensures { result ≡ Weighing.end_of_all weighted total }
{
    if weighted && total <= 0 {
        Judgement::Unmatched
    } else {
        Judgement::Matched
    }
}

/// `$=` gets the score of a recipe that has a weight.
pub fn note_score(weighted: bool, total: i32, vars: &mut Vars)
    ensures { vars.new ≡ with_score weighted total vars.old }
{
    if weighted {
        vars.set_score(total);
    }
}

/// MATCH gets these bytes, if there are any.
pub fn set_match(alloc: Global, bytes: &Option<Blob>, vars: &mut Vars) -> Result<(), Memory>
    ensures { IfOk result (λ _. vars.new ≡ with_matched bytes.now vars.old) }
{
    match bytes {
        None => Ok(()),
        Some(bytes) => vars.set(b"MATCH", bytes.copy(alloc)?),
    }
}
