//! What is told of each note.
ghost use Rattle.std.specs.Prelude.{◌≡◌, IfOk, option_copied, drop};
ghost use Rattle.explain_notes.specs.Told.{recipe_for, told_of, rcfile_after, lines_after};
ghost use Rattle.explain_notes.specs.Told.{colon_of, conditions_of, first};

use crate::outcomes::copy_outcome;
use crate::reads::{Read, recipe_in};
use crate::recipe::{Line, RecipeLines};
use pm_bytes::{Blob, Memory, Name};
use pm_conds::Note;
use pm_meaning::question::Outcome;
use std::alloc::Global;

/// A recipe or a condition: how many entries of the journal come before it, the rcfile, and its line there where that
/// is known.
#[derive(Drop)]
pub struct Told {
    pub entries: usize,
    pub rcfile: Blob,
    pub line: Option<Line>,
    pub what: What,
}

/// A recipe, by the place of its step, from 0: it was tried, or its flags kept it from that. Or what came of a
/// condition, with the score after it.
#[derive(Drop)]
pub enum What {
    Recipe { place: usize, tried: bool },
    Condition { outcome: Outcome, score: i32 },
}

/// The rcfile of the recipe that was come to last, and the lines of its conditions that are still to be judged.
#[derive(Clone, Copy)]
pub struct Standing<'a> {
    pub rcfile: &'a [u8],
    pub lines: &'a [Line],
}

/// The recipe that a note tells of, where its lines are known.
pub fn recipe_for<'a>(reads: &'a [Read], note: &Note) -> Option<&'a RecipeLines>
    ensures { option_copied result ≡ recipe_for reads.now note.now }
{
    match note {
        Note::CameTo {
            rcfile,
            place,
            entries,
            ..
        } => recipe_in(reads, rcfile.as_str().as_bytes(), *entries, *place),
        Note::Judged { .. } => None,
    }
}

pub fn tell(
    alloc: Global,
    note: &Note,
    standing: &Standing<'_>,
    recipe: Option<&RecipeLines>,
) -> Result<Told, Memory>
    ensures { IfOk result (λ told. told ≡ told_of note.now standing.now.rcfile.now standing.now.lines.now
        (option_copied recipe.entry)) }
{
    match note {
        Note::CameTo {
            rcfile,
            place,
            admitted,
            entries,
        } => Ok(Told {
            entries: *entries,
            rcfile: Blob::from_slice(alloc, rcfile.as_str().as_bytes())?,
            line: colon_of(alloc, recipe)?,
            what: What::Recipe {
                place: *place,
                tried: *admitted,
            },
        }),
        Note::Judged {
            outcome,
            score,
            entries,
        } => Ok(Told {
            entries: *entries,
            rcfile: Blob::from_slice(alloc, standing.rcfile)?,
            line: first(alloc, standing.lines)?,
            what: What::Condition {
                outcome: copy_outcome(alloc, outcome)?,
                score: *score,
            },
        }),
    }
}

fn colon_of(alloc: Global, recipe: Option<&RecipeLines>) -> Result<Option<Line>, Memory>
    ensures { IfOk result (λ line. line ≡ colon_of (option_copied recipe.entry)) }
{
    match recipe {
        None => Ok(None),
        Some(recipe) => Ok(Some(copy_line(alloc, recipe.colon())?)),
    }
}

fn first(alloc: Global, lines: &[Line]) -> Result<Option<Line>, Memory>
    ensures { IfOk result (λ line. line ≡ first lines.now) }
{
    match lines {
        [] => Ok(None),
        [line, ..] => Ok(Some(copy_line(alloc, line)?)),
    }
}

fn copy_line(alloc: Global, line: &Line) -> Result<Line, Memory>
    ensures { IfOk result (λ copy. copy ≡ line.now) }
{
    Ok(Line {
        number: line.number,
        text: line.text.copy(alloc)?,
    })
}

/// Where a run stands after a note.
pub fn standing_after<'a>(
    note: &'a Note,
    standing: &Standing<'a>,
    recipe: Option<&'a RecipeLines>,
) -> Standing<'a>
    ensures rcfile { result.rcfile.now ≡ rcfile_after note.now standing.now.rcfile.now }
    ensures lines { result.lines.now ≡ lines_after note.now standing.now.lines.now (option_copied recipe.entry) }
{
    match note {
        Note::CameTo { rcfile, .. } => Standing {
            rcfile: name_bytes(rcfile),
            lines: conditions_of(recipe),
        },
        Note::Judged { .. } => Standing {
            rcfile: standing.rcfile,
            lines: past_first(standing.lines),
        },
    }
}

fn name_bytes(name: &Name) -> &[u8]
    ensures { result.now ≡ name.now }
{
    name.as_str().as_bytes()
}

fn conditions_of(recipe: Option<&RecipeLines>) -> &[Line]
    ensures { result.now ≡ conditions_of (option_copied recipe.entry) }
{
    match recipe {
        None => &[],
        Some(recipe) => recipe.conditions(),
    }
}

fn past_first(lines: &[Line]) -> &[Line]
    ensures { result.now ≡ drop 1 lines.now }
{
    match lines {
        [] => lines,
        [_, rest @ ..] => rest,
    }
}
