//! Laws of the calls that run a child, each as the contract of a call that does nothing.
ghost use Rattle.pm_journal.specs.ChildLaws.{ChildrenRunRight, ChildrenChangeNothing, ChildFaultsHaveCalls};
ghost use Rattle.pm_journal.specs.ChildLaws.{ChildrenEnd};

/// A child took the first bytes of its input, as many as are stated, and its output is what came.
pub fn children_run_right()
    ensures { ChildrenRunRight }
{}

/// The run of a child changes the files by the others' next batch alone.
pub fn children_change_nothing()
    ensures { ChildrenChangeNothing }
{}

/// No fault of a child's run is invented: a faulty reply has a failed call.
pub fn child_faults_have_calls()
    ensures { ChildFaultsHaveCalls }
{}

/// No child runs after the calls that run one.
pub fn children_end()
    ensures { ChildrenEnd }
{}
