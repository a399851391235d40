//! Laws of the definitions, each as the contract of a call that does nothing.
ghost use Rattle.pm_real.specs.Examples.{Examples};
ghost use Rattle.pm_real.specs.Kept.{NoMoreIsCut};

/// The definitions of the file that is kept open say of one what is meant.
pub fn examples()
    ensures { Examples }
{}

/// From a file that was appended to no more is cut off than was added.
pub fn no_more_is_cut()
    ensures { NoMoreIsCut }
{}
