//! The recipes of an rcfile.
ghost use Rattle.std.specs.Prelude.{◌≡◌, ◌++◌, [], ◌∷◌, map, IfOk, OnOk, option_copied};
ghost use Rattle.pm_recipe.specs.Cuts.{piece_of};
ghost use Rattle.explain_notes.specs.Steps.{line_of, conditions_in, steps_made, steps_of, lines_of, recipe_at};

use crate::recipe::{Line, RecipeLines};
use pm_bytes::{Blob, Memory};
use pm_recipe::{Kind, RcRefused, Span, cut_rc, is_junked};
use std::alloc::Global;
use std::marker::Model;

/// The steps of an rcfile's code, of which those that are recipes have their lines.
#[derive(Drop)]
pub struct RcLines {
    steps: Vec<Option<RecipeLines>>,
}

impl Model for RcLines {
    ghost use Rattle.std.specs.Prelude.{List, Option};
    ghost use Rattle.explain_notes.specs.RcLines.{Lines};

    ghost Value = { List (Option Lines) };

    ghost view = { λ r. r.steps.items };
}

impl RcLines {
    /// No steps. It takes no memory.
    pub fn none(alloc: Global) -> RcLines
        ensures { result ≡ [] }
    {
        RcLines {
            steps: Vec::new(alloc),
        }
    }

    /// The steps of the code of this text. One that is too long for an rcfile has none.
    pub fn read(alloc: Global, text: &[u8]) -> Result<RcLines, Memory>
        ensures { IfOk result (λ lines. lines ≡ lines_of text.now) }
    {
        match cut_rc(alloc, text) {
            Ok(spans) => {
                let steps = steps_of(alloc, spans.as_slice())?;
                Ok(RcLines { steps })
            }
            Err(RcRefused::TooLong { .. }) => Ok(RcLines::none(alloc)),
            Err(RcRefused::Memory) => Err(Memory),
        }
    }

    /// The lines of the recipe whose step stands at this place, from 0.
    pub fn recipe(&self, place: usize) -> Option<&RecipeLines>
        ensures { option_copied result ≡ recipe_at place self.now }
    {
        match self.steps.as_slice().get(place) {
            Some(Some(recipe)) => Some(recipe),
            _ => None,
        }
    }
}

fn steps_of(alloc: Global, spans: &[Span<'_>]) -> Result<Vec<Option<RecipeLines>>, Memory>
    ensures { IfOk result (λ steps. steps.items ≡ steps_of (map piece_of spans.now)) }
{
    let mut steps = Vec::new(alloc);
    for (index, span) in spans.iter().enumerate() {
        put_steps(alloc, span, &spans[index + 1..], &mut steps)?;
    }
    Ok(steps)
}

// A recipe is one step, and so is what is logged of a colon line that isn't understood whole.
fn put_steps(
    alloc: Global,
    span: &Span<'_>,
    behind: &[Span<'_>],
    steps: &mut Vec<Option<RecipeLines>>,
) -> Result<(), Memory>
    ensures { OnOk result (steps.new.items ≡ steps.old.items
        ++ steps_made (piece_of span.now).span.kind (piece_of span.now) (map piece_of behind.now)) }
{
    match span.kind {
        Kind::Colon => {
            if is_junked(span.text) {
                steps.push(None)?;
            }
            steps.push(Some(recipe_of(alloc, span, behind)?))?;
        }
        Kind::Close | Kind::Assign | Kind::Unset | Kind::Skipped => steps.push(None)?,
        _ => {}
    }
    Ok(())
}

fn recipe_of(alloc: Global, colon: &Span<'_>, behind: &[Span<'_>]) -> Result<RecipeLines, Memory>
    ensures { IfOk result (λ recipe. recipe ≡ record {
      colon = line_of (piece_of colon.now);
      conditions = conditions_in (map piece_of behind.now);
    }) }
{
    let colon = line_of(alloc, colon)?;
    let conditions = conditions_in(alloc, behind)?;
    Ok(RecipeLines::new(colon, conditions))
}

fn line_of(alloc: Global, span: &Span<'_>) -> Result<Line, Memory>
    ensures { IfOk result (λ line. line ≡ line_of (piece_of span.now)) }
{
    Ok(Line {
        number: span.line,
        text: Blob::from_slice(alloc, span.bytes)?,
    })
}

fn conditions_in(alloc: Global, spans: &[Span<'_>]) -> Result<Vec<Line>, Memory>
    ensures { IfOk result (λ lines. lines.items ≡ conditions_in (map piece_of spans.now)) }
{
    let mut lines = Vec::new(alloc);
    for span in spans {
        match span.kind {
            Kind::Condition => lines.push(line_of(alloc, span)?)?,
            Kind::Gap => {}
            _ => return Ok(lines),
        }
    }
    Ok(lines)
}
