//! What the definitions say of short takings of a lock, as the contract of a call that does nothing.
ghost use Rattle.pm_locks.specs.Examples.{Examples};

/// Short takings of a lock go as lockfile(1) says, and the ends of its giving back are named for their answers.
pub fn examples()
    ensures { Examples }
{}
