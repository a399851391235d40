//! What the definitions promise, and what they say of short mails, as the contracts of calls that do nothing.
ghost use Rattle.explain_mails.specs.Examples.{OfSubjects, OfLines, OfComparisons, OfWords};
ghost use Rattle.explain_mails.specs.Laws.{BeginAlike};
ghost use Rattle.explain_mails.specs.ObjectExamples.{OfRuns, OfRecipes, OfMails};

/// A run with the new rcfile begins in the folder in which one with the old rcfile begins.
pub fn begin_alike()
    ensures { BeginAlike }
{}

/// The definitions show mails and comparisons as procmail-explain(1) says.
pub fn examples()
    ensures subjects { OfSubjects }
    ensures lines { OfLines }
    ensures comparisons { OfComparisons }
    ensures words { OfWords }
{}

/// The definitions print short runs and comparisons as procmail-explain(1) says.
pub fn object_examples()
    ensures runs { OfRuns }
    ensures recipes { OfRecipes }
    ensures mails { OfMails }
{}
