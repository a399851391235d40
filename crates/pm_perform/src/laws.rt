//! Laws of actions, each as the contract of a call that does nothing.
ghost use Rattle.pm_perform.specs.Examples.{OfActs};

/// Each definition of what a delivery is says in some short cases what the manual does.
pub fn examples()
    ensures { OfActs }
{}
