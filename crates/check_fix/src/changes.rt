//! Changes of a text, and the text that they make.
ghost use Rattle.std.specs.Prelude.{◌≡◌, ◌≤◌, ◌+◌, ◌-◌, ◌++◌, IfOk, IfErr, IfSome, OnOk, Some, None, if◌then◌else◌};
ghost use Rattle.std.specs.Prelude.{length, take, drop};
ghost use Rattle.pm_recipe.specs.Refusal.{IsRefusal, most_length};
ghost use Rattle.check_moving.specs.Found.{AreForms};
ghost use Rattle.check_fix.specs.Changes;
ghost use Rattle.check_fix.specs.Changes.{chosen, AreApart, AreChanges, rewritten};

use crate::edits::Edit;
use crate::spans::edits_of;
use check_moving::{Finding, find_forms};
use pm_bytes::{Blob, Memory};
use pm_recipe::{RcRefused, cut_rc};
use std::alloc::Global;

/// Bytes in the place of others.
#[derive(Drop)]
pub struct Change {
    /// The place of the first byte in the text, from 0.
    pub first: usize,
    /// How many bytes are replaced.
    pub count: usize,
    pub bytes: Blob,
}

/// The forms of a text, and the changes that bring them over.
#[derive(Drop)]
pub struct Found {
    pub findings: Vec<Finding>,
    pub changes: Vec<Change>,
}

/// What is found in a text.
pub fn look(alloc: Global, text: &[u8]) -> Result<Found, RcRefused>
    ensures forms { IfOk result (λ found. AreForms text.now found.findings.items) }
    ensures changes { IfOk result (λ found. AreChanges text.now found.changes.items) }
    ensures apart { IfOk result (λ found. AreApart 0 (length text.now) found.changes.items) }
    ensures fits { OnOk result (length text.now ≤ most_length) }
    ensures refused { IfErr result (λ refused. IsRefusal (length text.now) refused) }
{
    let findings = find_forms(alloc, text)?;
    let spans = cut_rc(alloc, text)?;
    let edits = edits_of(alloc, spans.as_slice(), findings.as_slice())?;
    let changes = choose(alloc, text.len(), edits.as_slice())?;
    Ok(Found { findings, changes })
}

// The place of an edit in the text, if it fits.
fn place_of(place: usize, size: usize, edit: &Edit) -> Option<usize>
    ensures place { result
        ≡ (if Changes.fits place size edit.now then Some (edit.now.first + edit.now.place) else None) }
    ensures within { IfSome result (λ first. first + edit.now.count ≤ size) }
{
    if edit.first > size || edit.place > size - edit.first {
        return None;
    }
    let first = edit.first + edit.place;
    if place <= first && edit.count <= size - first {
        Some(first)
    } else {
        None
    }
}

fn choose_from(alloc: Global, size: usize, edits: &[Edit]) -> Result<Vec<Change>, Memory>
    ensures { IfOk result (λ changes. changes.items ≡ chosen 0 size edits.now) }
{
    let mut changes = Vec::new(alloc);
    let mut place = 0;
    let mut rest = edits;
    while let Some((edit, later)) = rest.split_first() {
        if let Some(first) = place_of(place, size, edit) {
            changes.push(Change {
                first,
                count: edit.count,
                bytes: edit.bytes.copy(alloc)?,
            })?;
            place = first + edit.count;
        }
        rest = later;
    }
    Ok(changes)
}

fn choose(alloc: Global, size: usize, edits: &[Edit]) -> Result<Vec<Change>, Memory>
    ensures chosen { IfOk result (λ changes. changes.items ≡ chosen 0 size edits.now) }
    ensures apart { IfOk result (λ changes. AreApart 0 size changes.items) }
{
    let changes = choose_from(alloc, size, edits)?;
    Ok(changes)
}

// The text from a place to a change, and then the bytes of the change.
fn put_change(text: &[u8], from: usize, change: &Change, new: &mut Blob) -> Result<(), Memory>
    requires order { from ≤ change.now.first }
    requires within { change.now.first ≤ length text.now }
    ensures { OnOk result (new.new
        ≡ new.old ++ (take (change.now.first - from) (drop from text.now) ++ change.now.bytes)) }
{
    new.push_slice(&text[from..change.first])?;
    new.push_slice(change.bytes.as_slice())
}

/// The text with these changes.
pub fn rewrite(alloc: Global, text: &[u8], changes: &[Change]) -> Result<Blob, Memory>
    requires { AreApart 0 (length text.now) changes.now }
    ensures { IfOk result (λ new. new ≡ rewritten changes.now text.now) }
{
    let mut new = Blob::empty(alloc);
    let mut from = 0;
    let mut rest = changes;
    while let Some((change, later)) = rest.split_first() {
        put_change(text, from, change, &mut new)?;
        from = change.first + change.count;
        rest = later;
    }
    new.push_slice(&text[from..])?;
    Ok(new)
}
