//! What the definitions say of short texts, as the contract of a call that does nothing.
ghost use Rattle.pm_regex.specs.Examples.{OfMacros, OfExpressions};
ghost use Rattle.pm_regex.specs.MatchExamples.{OfBytes, OfPlaces};
ghost use Rattle.pm_regex.specs.MatchExamples;

/// Each definition of expressions says of some short texts what its readers expect.
pub fn examples()
    ensures macros { OfMacros }
    ensures expressions { OfExpressions }
{}

/// Each definition of matches says of some short areas what the manual does.
pub fn match_examples()
    ensures bytes { OfBytes }
    ensures places { OfPlaces }
    ensures expressions { MatchExamples.OfExpressions }
{}
