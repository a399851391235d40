//! What the definitions say of short journals, as the contract of a call that does nothing.
ghost use Rattle.explain_text.specs.Examples.{OfLines, OfSteps, OfResults, OfDestinations};

/// The definitions print short journals as procmail-explain(1) says, and find where their mail went.
pub fn examples()
    ensures lines { OfLines }
    ensures steps { OfSteps }
    ensures results { OfResults }
    ensures destinations { OfDestinations }
{}
