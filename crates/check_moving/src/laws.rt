//! What the definitions say of short texts.
ghost use Rattle.check_moving.specs.Examples.{OfVariables, OfExpanded, OfConditions, OfNames, OfRecipes, OfCalls};

/// Which forms short texts have.
pub fn examples()
    ensures variables { OfVariables }
    ensures expanded { OfExpanded }
    ensures conditions { OfConditions }
    ensures names { OfNames }
    ensures recipes { OfRecipes }
    ensures calls { OfCalls }
{}
