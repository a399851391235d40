//! Conditions that search for an expression.
ghost use Rattle.std.specs.Prelude.{◌≡◌, ◌≤◌, false, is_some, not, IfOk, IfSome, length};
ghost use Rattle.pm_message.specs.Area.{area_of};
ghost use Rattle.pm_regex.proofs.FoundOrNot.{found_of};
ghost use Rattle.pm_meaning.specs.Searching.{Sight, sight_of, part_of, area_in, match_text};
ghost use Rattle.pm_meaning.specs.Searching;
ghost use Rattle.pm_meaning.specs.Searching.{match_in, after_newline, before_newline, bytes_in, input_in};
ghost use Rattle.pm_meaning.specs.Searching.{value_or_empty, expression_of, IsWithin};
ghost use Rattle.pm_meaning.specs.Evaluating.{compared_length};
ghost use Rattle.pm_meaning.specs.Weighing.{sought_outcome};
ghost use Rattle.pm_vars.specs.Variables.{value_of};

use crate::counting::count_area;
use crate::sizes::outcome_if;
use pm_bytes::{Blob, Memory};
use pm_match::Engine;
use pm_meaning::question::{Outcome, Question, Scope};
use pm_message::{Mail, Place};
use pm_recipe::Flags;
use pm_regex::{Expr, Found, ReadRefused, read};
use pm_vars::Vars;
use std::alloc::Global;

/// The part that the flags H and B ask for.
fn searched_part(flags: Flags) -> Place
    ensures { result ≡ part_of flags }
{
    if !flags.search_body {
        Place::H
    } else if flags.search_head {
        Place::Hb
    } else {
        Place::B
    }
}

/// The value of a variable, empty where it isn't set.
fn value_in<'a>(vars: &'a Vars, name: &[u8]) -> &'a [u8]
    ensures { result.now ≡ value_or_empty (value_of name.now vars.now.variables) }
{
    match vars.get(name) {
        None => b"",
        Some(value) => value.as_slice(),
    }
}

/// The text without a newline at its front.
fn past_newline(text: &[u8]) -> &[u8]
    ensures { result.now ≡ after_newline text.now }
{
    if text.starts_with(b"\n") {
        &text[1..]
    } else {
        text
    }
}

/// The text without a newline at its end.
fn to_newline(text: &[u8]) -> &[u8]
    ensures { result.now ≡ before_newline text.now }
{
    if text.ends_with(b"\n") {
        &text[..text.len() - 1]
    } else {
        text
    }
}

/// What MATCH gets of these places.
pub fn matched(alloc: Global, area: &[u8], start: usize, end: usize) -> Result<Blob, Memory>
    requires start { start ≤ end }
    requires end { end ≤ length area.now }
    ensures { IfOk result (λ text. text ≡ match_text area.now start end) }
{
    Blob::from_slice(alloc, to_newline(past_newline(&area[start..end])))
}

/// Whether the expression matches anywhere in the area.
pub fn is_found(engine: &mut Engine, area: &[u8]) -> bool
    ensures same { engine.new ≡ engine.old }
    ensures found { result ≡ is_some (found_of engine.old.fold engine.old.expr area.now).0 }
{
    engine.is_match(area)
}

/// The first match of the engine's expression in the area.
pub fn find(engine: &mut Engine, area: &[u8]) -> Option<Found>
    ensures same { engine.new ≡ engine.old }
    ensures found { result ≡ (found_of engine.old.fold engine.old.expr area.now).0 }
    ensures within { IfSome result (IsWithin area.now) }
{
    engine.find(area)
}

/// What comes of what was found.
fn found_outcome(alloc: Global, area: &[u8], found: Option<Found>) -> Result<Outcome, Memory>
    requires { IfSome found (IsWithin area.now) }
    ensures { IfOk result (λ come. come ≡ Searching.found_outcome false area.now found) }
{
    match found {
        None => Ok(Outcome::Fails),
        Some(found) => match found.cut {
            None => Ok(Outcome::Holds),
            Some(cut) => Ok(Outcome::Matched(matched(alloc, area, cut, found.end)?)),
        },
    }
}

/// What comes of the engine's expression in an area. Where its match begins and ends is asked only if MATCH gets it.
fn sought(
    alloc: Global,
    inverted: bool,
    expr: &Expr,
    engine: &mut Engine,
    area: &[u8],
) -> Result<Outcome, Memory>
    requires { engine.old.expr ≡ expr.now }
    ensures { IfOk result (λ come. come
        ≡ Searching.found_outcome inverted area.now (found_of engine.old.fold expr.now area.now).0) }
{
    if inverted {
        return Ok(outcome_if(!is_found(engine, area)));
    }
    if expr.has_cut() {
        let found = find(engine, area);
        return found_outcome(alloc, area, found);
    }
    Ok(outcome_if(is_found(engine, area)))
}

/// Searches the area for an expression.
fn find_area(
    alloc: Global,
    inverted: bool,
    distinguish: bool,
    expr: Expr,
    area: &[u8],
) -> Result<Outcome, Memory>
    ensures { IfOk result (λ come. come
        ≡ Searching.found_outcome inverted area.now (match_in distinguish expr area.now)) }
{
    let mut engine = Engine::build(alloc, &expr, !distinguish)?;
    sought(alloc, inverted, &expr, &mut engine, area)
}

/// Searches the area for the expression that the text is, and counts its matches where there is a weight.
fn search_area(
    alloc: Global,
    question: &Question,
    distinguish: bool,
    text: &[u8],
    area: &[u8],
) -> Result<Outcome, Memory>
    ensures { let asked = question.now in IfOk result (λ come.
        come ≡ sought_outcome asked.weight asked.inverted distinguish area.now (expression_of text.now)) }
{
    match read(alloc, text) {
        Err(ReadRefused::Defect) => Ok(Outcome::Defective),
        Err(ReadRefused::Memory) => Err(Memory),
        Ok(expr) => match question.weight {
            None => find_area(alloc, question.inverted, distinguish, expr, area),
            Some(weight) => count_area(alloc, weight, question.inverted, distinguish, expr, area),
        },
    }
}

/// Searches a part of the mail.
fn search_part(
    alloc: Global,
    question: &Question,
    distinguish: bool,
    text: &[u8],
    mail: &mut Mail,
    place: Place,
) -> Result<Outcome, Memory>
    ensures outcome { let asked = question.now in let expression = expression_of text.now in IfOk result (λ come.
        come ≡ sought_outcome asked.weight asked.inverted distinguish (area_of mail.old place) expression) }
    ensures same { mail.new ≡ mail.old }
{
    let area = mail.area(alloc, place)?;
    search_area(alloc, question, distinguish, text, area.as_slice())
}

/// Searches what the question says for the expression that the text is.
pub fn search(
    alloc: Global,
    text: &[u8],
    question: &Question,
    flags: Flags,
    mail: &mut Mail,
    vars: &Vars,
) -> Result<Outcome, Memory>
    ensures outcome { IfOk result (λ come.
        come ≡ sought_outcome question.now.weight question.now.inverted flags.distinguish
        (area_in question.now.scope (sight_of flags mail.old vars.now)) (expression_of text.now)) }
    ensures same { mail.new ≡ mail.old }
{
    let distinguish = flags.distinguish;
    match &question.scope {
        Scope::Flags => search_part(
            alloc,
            question,
            distinguish,
            text,
            mail,
            searched_part(flags),
        ),
        Scope::Mail(place) => search_part(alloc, question, distinguish, text, mail, *place),
        Scope::Variable(name) => search_area(
            alloc,
            question,
            distinguish,
            text,
            value_in(vars, name.as_slice()),
        ),
    }
}

/// A part of the mail as it stands.
fn part_bytes(alloc: Global, mail: &Mail, place: Place) -> Result<Blob, Memory>
    ensures { IfOk result (λ bytes. bytes ≡ bytes_in mail.now place) }
{
    match place {
        Place::H => mail.parts().head.copy(alloc),
        Place::B => mail.parts().body.copy(alloc),
        Place::Hb => mail.whole(alloc),
    }
}

/// What the program of a condition gets as its input.
pub fn program_input(
    alloc: Global,
    scope: &Scope,
    flags: Flags,
    mail: &Mail,
    vars: &Vars,
) -> Result<Blob, Memory>
    ensures { IfOk result (λ input. input ≡ input_in scope.now (sight_of flags mail.now vars.now)) }
{
    match scope {
        Scope::Flags => part_bytes(alloc, mail, searched_part(flags)),
        Scope::Mail(place) => part_bytes(alloc, mail, *place),
        Scope::Variable(name) => Blob::from_slice(alloc, value_in(vars, name.as_slice())),
    }
}

/// How many bytes a part of the mail has, as it is searched.
fn part_length(alloc: Global, mail: &mut Mail, place: Place) -> Result<u64, Memory>
    ensures size { IfOk result (λ size. size ≡ length (area_of mail.old place)) }
    ensures same { mail.new ≡ mail.old }
{
    let area = mail.area(alloc, place)?;
    Ok(area.len() as u64)
}

/// The length that `<` and `>` compare.
pub fn length_of(
    alloc: Global,
    scope: &Scope,
    flags: Flags,
    mail: &mut Mail,
    vars: &Vars,
) -> Result<u64, Memory>
    ensures size { IfOk result (λ size. size ≡ compared_length scope.now (sight_of flags mail.old vars.now)) }
    ensures same { mail.new ≡ mail.old }
{
    match scope {
        Scope::Flags => {
            let _ = flags;
            let parts = mail.parts();
            Ok(parts.head.as_slice().len() as u64 + parts.body.as_slice().len() as u64)
        }
        Scope::Mail(place) => part_length(alloc, mail, *place),
        Scope::Variable(name) => Ok(value_in(vars, name.as_slice()).len() as u64),
    }
}
