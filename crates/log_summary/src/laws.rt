//! What the definitions say of short lines, as the contract of a call that does nothing.
ghost use Rattle.log_summary.specs.Examples.{OfDays, OfLines, OfSums};

/// The definitions read some short lines of logs as the manual says, and sum them up.
pub fn examples()
    ensures lines { OfLines }
    ensures days { OfDays }
    ensures sums { OfSums }
{}
