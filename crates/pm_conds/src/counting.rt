//! Conditions with a weight that count the matches of an expression (procmailsc(5)).
ghost use Rattle.std.specs.Prelude.{◌≡◌, IfOk, Some, not, max, if◌then◌else◌};
ghost use Rattle.pm_regex.specs.declared.found.Found.{Found};
ghost use Rattle.pm_regex.proofs.FoundOrNot.{found_of};
ghost use Rattle.pm_regex.proofs.CountOf.{count_of};
ghost use Rattle.pm_meaning.specs.Searching.{match_in};
ghost use Rattle.pm_meaning.specs.Weighing.{count_in, match_bytes};
ghost use Rattle.pm_meaning.specs.Weighing;

use crate::searching::{find, is_found, matched};
use pm_bytes::{Blob, Memory};
use pm_match::Engine;
use pm_meaning::question::{Factors, Outcome};
use pm_regex::Expr;
use std::alloc::Global;

/// The bytes that MATCH gets of an expression that matches, where it has a `\/`.
fn match_of(
    alloc: Global,
    expr: &Expr,
    engine: &mut Engine,
    area: &[u8],
) -> Result<Option<Blob>, Memory>
    requires { engine.old.expr ≡ expr.now }
    ensures same { engine.new ≡ engine.old }
    ensures bytes { IfOk result (λ bytes. (f : Found)
        → (found_of engine.old.fold expr.now area.now).0 ≡ Some f → bytes ≡ match_bytes area.now f.cut f.end) }
{
    if !expr.has_cut() {
        return Ok(None);
    }
    match find(engine, area) {
        None => Ok(None),
        Some(found) => match found.cut {
            None => Ok(None),
            Some(cut) => Ok(Some(matched(alloc, area, cut, found.end)?)),
        },
    }
}

/// How many matches a condition counts where nothing is found: an inverted one has one.
fn matches_of_none(inverted: bool) -> u64
    ensures { result ≡ (if inverted then 1 else 0) }
{
    inverted as u64
}

/// Counts the matches of an engine's expression in an area.
fn counted(
    alloc: Global,
    weight: Factors,
    inverted: bool,
    expr: &Expr,
    engine: &mut Engine,
    area: &[u8],
) -> Result<Outcome, Memory>
    requires { engine.old.expr ≡ expr.now }
    ensures { IfOk result (λ come. come ≡ Weighing.counted_outcome weight inverted area.now
        (found_of engine.old.fold expr.now area.now).0 (count_of engine.old.fold expr.now area.now).0) }
{
    if !is_found(engine, area) {
        return Ok(Outcome::Counted {
            weight,
            matches: matches_of_none(inverted),
            bytes: None,
        });
    }
    if inverted {
        return Ok(Outcome::Counted {
            weight,
            matches: 0,
            bytes: None,
        });
    }
    let bytes = match_of(alloc, expr, engine, area)?;
    engine.reserve(area.len())?;
    Ok(Outcome::Counted {
        weight,
        matches: engine.count(area).max(1),
        bytes,
    })
}

/// Counts the matches of an expression in an area.
pub fn count_area(
    alloc: Global,
    weight: Factors,
    inverted: bool,
    distinguish: bool,
    expr: Expr,
    area: &[u8],
) -> Result<Outcome, Memory>
    ensures { IfOk result (λ come. come ≡ Weighing.counted_outcome weight inverted area.now
        (match_in distinguish expr area.now) (count_in distinguish expr area.now)) }
{
    let mut engine = Engine::build(alloc, &expr, !distinguish)?;
    counted(alloc, weight, inverted, &expr, &mut engine, area)
}
