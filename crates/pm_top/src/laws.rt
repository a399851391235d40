//! Laws, each as the contract of a call that does nothing.
ghost use Rattle.pm_top.specs.TrialExamples.{TrialExamples};
ghost use Rattle.pm_top.specs.WordExamples.{Examples};

/// The definition of command lines says of some short ones what the manual does.
pub fn word_examples()
    ensures { Examples }
{}

/// The definitions of a trial, and of the lines before a status, say of some short ones what the manual does.
pub fn trial_examples()
    ensures { TrialExamples }
{}
