//! What the definitions say of a small tree of files, as the contract of a call that does nothing.
ghost use Rattle.pm_host.specs.Examples.{OfCalls, OfNames, OfAnswers};

/// What calls make of a small tree of files, how names and ages are read there, and what calls may answer.
pub fn examples()
    ensures calls { OfCalls }
    ensures names { OfNames }
    ensures answers { OfAnswers }
{}
