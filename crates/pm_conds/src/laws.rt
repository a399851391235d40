//! Laws of conditions, and what the definitions say of short ones, each as the contract of a call that does nothing.
ghost use Rattle.pm_conds.specs.Examples.{OfVerdicts, OfNotes};
ghost use Rattle.pm_conds.specs.Notes.{NotesAreMeant};
ghost use Rattle.pm_meaning.specs.ConditionExamples.{OfLeads, OfTests, OfJudging};

use pm_meaning::laws::condition_examples;

/// Each answer has its verdict, and the definitions that this crate's contracts name say of some short conditions what
/// the manual does: what stands before a test, what the test asks, and what comes of all conditions of a recipe.
pub fn examples()
    ensures verdicts { OfVerdicts }
    ensures notes { OfNotes }
    ensures leads { OfLeads }
    ensures tests { OfTests }
    ensures judging { OfJudging }
{
    condition_examples();
}

/// The notes of conditions change nothing of what is judged.
#[tactic(auto, using(crate::proofs::NoteLemmas::notes_forgotten))]
pub fn notes_are_meant()
    ensures { NotesAreMeant }
{}
