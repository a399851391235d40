//! A text with the forms of procmail 3.22 brought over.
ghost use Rattle.std.specs.Prelude.{◌≡◌, ◌≤◌, IfOk, IfErr, OnOk, length, false};
ghost use Rattle.std.specs.List.{list_any};
ghost use Rattle.pm_recipe.specs.Refusal.{most_length};
ghost use Rattle.check_fix.specs.Fixes;
ghost use Rattle.check_fix.specs.Fixes.{IsFix, IsRefused};

use crate::changes::{Change, Found, look, rewrite};
use crate::moved::moves;
use check_moving::Finding;
use pm_bytes::{Blob, Memory};
use pm_recipe::RcRefused;
use std::alloc::Global;

/// What is left in the new text.
#[derive(Clone, Copy)]
pub enum Outcome {
    /// No form of a kind that is brought over, and there is nothing more to change.
    Fixed,
    /// Such forms, and there is nothing more to change.
    Left,
    /// There is more to change.
    More,
}

/// A text that was written anew.
#[derive(Drop)]
pub struct Fix {
    /// The changes, in the order of the old text.
    pub changes: Vec<Change>,
    /// The new text.
    pub text: Blob,
    /// The forms in the new text.
    pub left: Vec<Finding>,
    pub outcome: Outcome,
}

/// Why there is no new text.
#[derive(Clone, Copy)]
pub enum FixRefused {
    /// The text is too long for an rcfile.
    TooLong,
    /// The new text would be.
    Grown,
    Memory,
}

impl From<Memory> for FixRefused {
    ghost use Rattle.check_fix.specs.declared.fixing.FixRefused.TheVariants.{Memory};

    ghost from_gives = { λ _ refused. refused ≡ Memory };

    fn from(_: Memory) -> FixRefused {
        FixRefused::Memory
    }
}

/// Brings over what can be without asking. Only want of memory is free.
pub fn bring_over(alloc: Global, text: &[u8]) -> Result<Fix, FixRefused>
    ensures fix { IfOk result (λ fix. IsFix text.now fix) }
    ensures fixed { IfOk result (λ fix. fix.outcome ≡ Outcome.Fixed → Fixes.has_moving fix.left.items ≡ false) }
    ensures fits { OnOk result (length text.now ≤ most_length) }
    ensures refused { IfErr result (λ refused. IsRefused text.now refused) }
{
    let found = match look(alloc, text) {
        Ok(found) => found,
        Err(RcRefused::TooLong { .. }) => return Err(FixRefused::TooLong),
        Err(RcRefused::Memory) => return Err(FixRefused::Memory),
    };
    let new = rewrite(alloc, text, found.changes.as_slice())?;
    let again = match look(alloc, new.as_slice()) {
        Ok(again) => again,
        Err(RcRefused::TooLong { .. }) => return Err(FixRefused::Grown),
        Err(RcRefused::Memory) => return Err(FixRefused::Memory),
    };
    let outcome = outcome_of(again.changes.as_slice(), again.findings.as_slice());
    Ok(Fix {
        changes: found.changes,
        text: new,
        left: again.findings,
        outcome,
    })
}

fn has_moving(findings: &[Finding]) -> bool
    ensures { result ≡ Fixes.has_moving findings.now }
{
    findings.iter().any(|finding| moves(finding.form))
}

fn has_changes(changes: &[Change]) -> bool
    ensures { result ≡ Fixes.has_changes changes.now }
{
    match changes {
        [] => false,
        [_, ..] => true,
    }
}

fn outcome_of(changes: &[Change], findings: &[Finding]) -> Outcome
    ensures { result ≡ Fixes.outcome_of changes.now findings.now }
{
    if has_changes(changes) {
        Outcome::More
    } else if has_moving(findings) {
        Outcome::Left
    } else {
        Outcome::Fixed
    }
}
