//! Rows of expressions and the areas in which they are searched for.
use crate::told::{answered, defect, push_number, said};
use crate::{Refused, Words, one_number, one_word};
use pm_bytes::Memory;
use pm_match::Engine;
use pm_regex::{Expr, Found, ReadRefused, read};
use std::alloc::Global;

/// Where the expression matches: its start and end, with its cut between them, or `none`.
pub fn find(alloc: Global, text: &[u8], area: &[u8], fold: bool) -> Result<Words, Refused> {
    match engine_of(alloc, text, fold)? {
        None => defect(alloc),
        Some(mut engine) => place_of(alloc, engine.find(area)),
    }
}

// The engine of an expression; none where the text is a defect.
fn engine_of(alloc: Global, text: &[u8], fold: bool) -> Result<Option<Engine>, Refused> {
    match read_expr(alloc, text)? {
        None => Ok(None),
        Some(expr) => Ok(Some(Engine::build(alloc, &expr, fold)?)),
    }
}

fn place_of(alloc: Global, found: Option<Found>) -> Result<Words, Refused> {
    match found {
        None => answered(one_word(alloc, "none")),
        Some(found) => answered(place_words(alloc, found)),
    }
}

fn place_words(alloc: Global, found: Found) -> Result<Words, Memory> {
    let mut words = one_number(alloc, found.start as u64)?;
    if let Some(cut) = found.cut {
        push_number(alloc, &mut words, cut as u64)?;
    }
    push_number(alloc, &mut words, found.end as u64)?;
    Ok(words)
}

/// Whether the expression matches.
pub fn found(alloc: Global, text: &[u8], area: &[u8]) -> Result<Words, Refused> {
    match engine_of(alloc, text, true)? {
        None => defect(alloc),
        Some(mut engine) => said(alloc, engine.find(area).is_some()),
    }
}

/// How many matches stand one after the other.
pub fn count(alloc: Global, text: &[u8], area: &[u8], fold: bool) -> Result<Words, Refused> {
    match engine_of(alloc, text, fold)? {
        None => defect(alloc),
        Some(mut engine) => answered(one_number(alloc, engine.count(area))),
    }
}

/// The expression that a text writes; none where it is a defect.
pub fn read_expr(alloc: Global, text: &[u8]) -> Result<Option<Expr>, Refused> {
    match read(alloc, text) {
        Ok(expr) => Ok(Some(expr)),
        Err(ReadRefused::Defect) => Ok(None),
        Err(ReadRefused::Memory) => Err(Refused::Memory),
    }
}
