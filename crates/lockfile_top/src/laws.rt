//! A law of the definitions, as the contract of a call that does nothing.
ghost use Rattle.lockfile_top.specs.Examples.{Examples};

/// The definitions make of some short command lines what the manual says.
pub fn examples()
    ensures { Examples }
{}
