//! What holds of the definitions, as contracts of calls that do nothing.
ghost use Rattle.explain_run.specs.Examples.{OfStarts, OfCaptures, OfScripts};
ghost use Rattle.explain_run.specs.Laws.{DeliveriesStay, FindsConditions, LeavesActions};
ghost use Rattle.explain_run.specs.LineExamples.{OfLines};

/// A program whose output isn't wanted isn't started if no condition is judged between it and the next recipe. So none
/// is that gets the mail as a delivery.
pub fn start_law()
    ensures { DeliveriesStay }
{}

/// By the notes of a recipe's conditions each entry that is made while these are judged is found to be of a condition,
/// and none of the recipe's action.
pub fn condition_law()
    ensures finds { FindsConditions }
    ensures leaves { LeavesActions }
{}

/// The definitions choose the programs of short runs as procmail-explain(1) says.
pub fn examples()
    ensures starts { OfStarts }
    ensures captures { OfCaptures }
    ensures scripts { OfScripts }
{}

/// The definitions print short runs as procmail-explain(1) says.
pub fn line_examples()
    ensures { OfLines }
{}
