//! What the definitions say of short texts.
ghost use Rattle.check_fix.specs.Examples.{OfValues, OfBraces, OfLocks, OfCounts, OfColons, OfConditions};
ghost use Rattle.check_fix.specs.Examples.{OfNumbers, OfCopies, OfScores, OfMailboxes, OfCalls, OfChanges};

/// What old forms are brought over by.
pub fn examples()
    ensures values { OfValues }
    ensures braces { OfBraces }
    ensures locks { OfLocks }
    ensures counts { OfCounts }
    ensures colons { OfColons }
    ensures conditions { OfConditions }
    ensures numbers { OfNumbers }
    ensures copies { OfCopies }
    ensures scores { OfScores }
    ensures mailboxes { OfMailboxes }
    ensures calls { OfCalls }
    ensures changes { OfChanges }
{}
