//! What the notes of a run tell of an entry of its journal, by its index, from 0.
ghost use Rattle.std.specs.Prelude.{◌≡◌, option_copied};
ghost use Rattle.explain_run.specs.Heard.{entries_at, comes_after, is_judged, is_of_condition, last_note};
ghost use Rattle.explain_run.specs.Heard.{last_recipe, lets_act, may_act};

use pm_conds::Note;
use pm_meaning::question::Outcome;

/// How many entries the journal had when the note was heard.
pub(crate) fn entries_at(note: &Note) -> usize
    ensures { result ≡ entries_at note.now }
{
    match note {
        Note::CameTo { entries, .. } | Note::Judged { entries, .. } => *entries,
    }
}

fn comes_after(note: &Note, index: usize) -> bool
    ensures { result ≡ comes_after note.now index }
{
    index < entries_at(note)
}

fn is_judged(note: &Note) -> bool
    ensures { result ≡ is_judged note.now }
{
    matches!(note, Note::Judged { .. })
}

/// Whether the entry was made while a condition was judged.
pub(crate) fn is_of_condition(notes: &[Note], index: usize) -> bool
    ensures { result ≡ is_of_condition notes.now index }
{
    for note in notes {
        if comes_after(note, index) {
            return is_judged(note);
        }
    }
    false
}

/// The last note before the entry.
pub(crate) fn last_note(notes: &[Note], index: usize) -> Option<&Note>
    ensures { option_copied result ≡ last_note notes.now index }
{
    let mut found = None;
    for note in notes {
        if !comes_after(note, index) {
            found = Some(note);
        }
    }
    found
}

/// The note of the recipe that the run came to last before the entry.
pub(crate) fn last_recipe(notes: &[Note], index: usize) -> Option<&Note>
    ensures { option_copied result ≡ last_recipe notes.now index }
{
    let mut found = None;
    for note in notes {
        if !comes_after(note, index) && !is_judged(note) {
            found = Some(note);
        }
    }
    found
}

/// Whether the action of a recipe can come after the note.
pub(crate) fn may_act(note: &Note) -> bool
    ensures { result ≡ may_act note.now }
{
    match note {
        Note::CameTo { admitted, .. } => *admitted,
        Note::Judged { outcome, score, .. } => lets_act(outcome, *score),
    }
}

fn lets_act(outcome: &Outcome, score: i32) -> bool
    ensures { result ≡ lets_act outcome.now score }
{
    match outcome {
        Outcome::Holds | Outcome::Matched(_) => true,
        Outcome::Counted { .. } | Outcome::Compared { .. } | Outcome::Exited { .. } => score > 0,
        Outcome::Fails | Outcome::Defective | Outcome::TooLong(_) => false,
    }
}
