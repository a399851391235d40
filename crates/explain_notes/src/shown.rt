//! The steps of a run, and what is told between them.
ghost use Rattle.std.specs.Prelude.{◌≡◌, ◌++◌, [], IfOk, OnOk, take, drop};
ghost use Rattle.explain_notes.specs.Shown.{alone, did, shown_of, woven};
ghost use Rattle.explain_notes.specs.Told.{all_told};

use crate::reads::{Read, reads_of};
use crate::told::{Standing, Told, recipe_for, standing_after, tell};
use explain_text::{Step, steps_of};
use pm_bytes::Memory;
use pm_conds::Note;
use pm_journal::Entry;
use std::alloc::Global;

/// A step of the run, or what is told of a recipe or a condition.
#[derive(Drop)]
pub enum Shown {
    Step(Step),
    Told(Told),
}

/// The steps, and each note after those of the entries that come before it.
pub fn shown_of(alloc: Global, entries: &[Entry], notes: &[Note]) -> Result<Vec<Shown>, Memory>
    ensures { IfOk result (λ shown. shown.items ≡ shown_of entries.now notes.now) }
{
    let reads = reads_of(alloc, entries)?;
    weave(alloc, reads.as_slice(), entries, notes)
}

fn weave(
    alloc: Global,
    reads: &[Read],
    entries: &[Entry],
    notes: &[Note],
) -> Result<Vec<Shown>, Memory>
    ensures { IfOk result (λ shown. shown.items ≡ woven 0 entries.now (all_told reads.now [] [] notes.now)) }
{
    let mut shown = Vec::new(alloc);
    let mut before = 0;
    let mut left = entries;
    let mut standing = Standing {
        rcfile: &[],
        lines: &[],
    };
    for note in notes {
        let recipe = recipe_for(reads, note);
        let told = tell(alloc, note, &standing, recipe)?;
        let (now, later) = split(left, told.entries.saturating_sub(before));
        put_steps(alloc, now, &mut shown)?;
        before = before.max(told.entries);
        left = later;
        standing = standing_after(note, &standing, recipe);
        shown.push(Shown::Told(told))?;
    }
    put_steps(alloc, left, &mut shown)?;
    Ok(shown)
}

// The first so many entries, and the others.
fn split(entries: &[Entry], count: usize) -> (&[Entry], &[Entry])
    ensures front { result.0.now ≡ take count entries.now }
    ensures behind { result.1.now ≡ drop count entries.now }
{
    if count < entries.len() {
        entries.split_at(count)
    } else {
        (entries, &[])
    }
}

fn put_steps(alloc: Global, entries: &[Entry], shown: &mut Vec<Shown>) -> Result<(), Memory>
    ensures { OnOk result (shown.new.items ≡ shown.old.items ++ did entries.now) }
{
    add_steps(steps_of(alloc, entries)?, shown)
}

fn add_steps(steps: Vec<Step>, shown: &mut Vec<Shown>) -> Result<(), Memory>
    ensures { OnOk result (shown.new.items ≡ shown.old.items ++ alone steps.items) }
{
    for step in steps {
        shown.push(Shown::Step(step))?;
    }
    Ok(())
}
