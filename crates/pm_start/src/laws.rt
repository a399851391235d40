//! Laws of the definitions, each as the contract of a call that does nothing.
ghost use Rattle.pm_start.specs.Examples.{Examples};

/// The definitions of variables and of the login name say of some entries of an environment what they are.
pub fn examples()
    ensures { Examples }
{}
