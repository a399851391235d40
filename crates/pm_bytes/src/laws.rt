//! What the definitions say of short texts, as the contract of a call that does nothing.
ghost use Rattle.pm_bytes.specs.Examples.{Examples};

/// Each definition of this crate says of some short texts, and of each byte, what its readers expect.
pub fn examples()
    ensures { Examples }
{}
