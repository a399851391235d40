//! Laws on flat code.
ghost use Rattle.pm_code.specs.Laws.{BlocksEnd, WholeAhead, BetweenAhead, BetweenOnce};

/// What stands ahead in code is what stands between its places, and there is one answer to that.
pub fn code_law()
    ensures whole { WholeAhead }
    ensures ahead { BetweenAhead }
    ensures once { BetweenOnce }
{}

/// The end of a block, from which the run goes on where the block isn't entered.
pub fn block_law()
    ensures { BlocksEnd }
{}
