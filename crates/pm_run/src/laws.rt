//! Laws of runs, each as the contract of a call that does nothing.
ghost use Rattle.pm_run.specs.HeldLockExamples.{OfHeldLocks};
ghost use Rattle.pm_run.specs.HeldLocks.{OverHoldsGlobal, RunStaysRight};
ghost use Rattle.pm_run.specs.RunningOutExamples.{OfRunningOut};

/// Where memory may be wanting in a process, and where it may not, in short cases.
pub fn running_out_examples()
    ensures { OfRunningOut }
{}

/// Which locks are right where a process stands, in short cases.
#[tactic(auto, using(crate::proofs::HeldLockRows::of_held_locks))]
pub fn held_lock_examples()
    ensures { OfHeldLocks }
{}

/// Wherever a run comes to, its process holds the locks of the blocks that are open there and LOCKFILE's, and no other.
pub fn run_stays_right()
    ensures { RunStaysRight }
{}

/// A process of a run that is over holds LOCKFILE's lock, if any, and no other.
pub fn over_holds_global()
    ensures { OverHoldsGlobal }
{}
