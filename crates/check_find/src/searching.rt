//! The findings of an rcfile, in the order of their lines.
ghost use Rattle.std.specs.Prelude.{◌≤◌, IfOk, IfErr, OnOk, length};
ghost use Rattle.std.specs.List.Sorted.{IsPermutation};
ghost use Rattle.pm_recipe.specs.Refusal.{IsRefusal, most_length};
ghost use Rattle.pm_recipe.specs.Rc.{IsRc};
ghost use Rattle.pm_recipe.specs.Tree.{Trees};
ghost use Rattle.check_find.specs.Reports.{IsReport, NoSurprise, AreInOrder};

use crate::finding::Finding;
use crate::reports::gather;
use pm_bytes::Memory;
use pm_recipe::{RcRefused, cut_rc, read_rc};
use std::alloc::Global;

/// What is wrong in the text of an rcfile, in the order of the lines. The errors are those of `read_rc`.
pub fn find(alloc: Global, text: &[u8]) -> Result<Vec<Finding>, RcRefused>
    ensures report { IfOk result (λ findings. (statements : Trees) → IsRc text.now statements
        → IsReport text.now statements findings.items) }
    ensures no_surprise { IfOk result (λ findings. (statements : Trees) → IsRc text.now statements
        → NoSurprise statements findings.items) }
    ensures ordered { IfOk result (λ findings. AreInOrder findings.items) }
    ensures fits { OnOk result (length text.now ≤ most_length) }
    ensures refused { IfErr result (λ refused. IsRefusal (length text.now) refused) }
{
    let rc = read_rc(alloc, text)?;
    let spans = cut_rc(alloc, text)?;
    let mut findings = gather(alloc, text, &rc.statements, spans.as_slice())?;
    sort(&mut findings)?;
    Ok(findings)
}

fn sort(findings: &mut Vec<Finding>) -> Result<(), Memory>
    ensures same { IsPermutation findings.old.items findings.new.items }
    ensures ordered { OnOk result (AreInOrder findings.new.items) }
{
    findings.sort_by_key(|finding| finding.line)?;
    Ok(())
}
