//! What the definitions say of short lists, as the contract of a call that does nothing.
ghost use Rattle.pm_vars.specs.Examples.{Examples};

/// Each definition of this crate says of some short lists what its readers expect.
pub fn examples()
    ensures { Examples }
{}
