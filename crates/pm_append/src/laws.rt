//! What the definitions say of short appends, as the contract of a call that does nothing.
ghost use Rattle.pm_append.specs.Examples.{Examples};

/// Short appends go as a delivery and a line of the log do, and the replies of readings are named for their ends.
pub fn examples()
    ensures { Examples }
{}
