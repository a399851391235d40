//! Laws of the meaning and of whole runs, each as the contract of a call that does nothing.
ghost use Rattle.pm_meaning.specs.ActExamples.{OfLocks, OfDeliveries, OfConditions, OfTrials, OfTelling};
ghost use Rattle.pm_meaning.specs.Chains.{SuccessIsLast};
ghost use Rattle.pm_meaning.specs.Examples.{OfChains, OfDestinations, OfValues, OfAssignments, OfPrograms};
ghost use Rattle.pm_meaning.specs.Laws.{StoredIsDone};
ghost use Rattle.pm_meaning.specs.ConditionExamples.{OfLeads, OfTests, OfJudging};
ghost use Rattle.pm_meaning.specs.RunExamples.{OfStatuses, OfRcfiles};
ghost use Rattle.pm_meaning.specs.RunLaws.{EndsOrWants, OneEnd, DeliveredIsDone};
ghost use Rattle.pm_meaning.specs.Clones.{CloneIsWhole, CloneGoesOn};
ghost use Rattle.pm_meaning.specs.Completeness.{ClearIsWell};
ghost use Rattle.pm_meaning.specs.EndStatus.{EndHasStatus, EndsOneWay};

/// Each definition of what recipes mean says in some short cases what the manual does.
pub fn examples()
    ensures chains { OfChains }
    ensures destinations { OfDestinations }
    ensures values { OfValues }
    ensures assignments { OfAssignments }
    ensures programs { OfPrograms }
{}

/// A recipe's destinations all have the mail only where it was appended to each file among them, and filed in each
/// folder.
pub fn stored_is_done()
    ensures { StoredIsDone }
{}

/// A recipe that is executed and then succeeds leaves the chain of one that matched, was executed and succeeded.
pub fn success_is_last()
    ensures { SuccessIsLast }
{}

/// Each definition of conditions says of some short ones what the manual does.
pub fn condition_examples()
    ensures leads { OfLeads }
    ensures tests { OfTests }
    ensures judging { OfJudging }
{}

/// Each definition of a run says in some short cases what the manual does.
pub fn run_examples()
    ensures statuses { OfStatuses }
    ensures rcfiles { OfRcfiles }
{}

/// Each answer to an act comes to what the manual says, and each line that is logged has its text.
pub fn act_examples()
    ensures locks { OfLocks }
    ensures deliveries { OfDeliveries }
    ensures conditions { OfConditions }
    ensures trials { OfTrials }
    ensures telling { OfTelling }
{}

/// A step that ends over a list of entries asks for no further act over that list.
pub fn ends_or_wants()
    ensures { EndsOrWants }
{}

/// A run has at most one end over a list of entries, and so one exit status.
pub fn one_end()
    ensures { OneEnd }
{}

/// The first process ends as delivered only where it came to a recipe or a default mailbox that delivers for good, and
/// its acts there are done appends to each file, and placed pieces in each folder, among the destinations, a run of the
/// program with the piece that didn't fail, or the writing of the whole piece to standard output. After them the
/// process only gives locks back, logs lines and runs programs, and then only copies of it made for blocks go on.
pub fn delivered_is_done()
    ensures { DeliveredIsDone }
{}

/// The status of each run is that of its first process's end, by the exit code of TRAP's program, where that was to run
/// after the entries up to the end, and by the variables that the process had then.
#[tactic(auto, using(crate::proofs::EndStatus::end_has_status))]
pub fn end_has_status()
    ensures { EndHasStatus }
{}

/// A run ends in exactly one way over a list of entries, and so with one exit status.
pub fn ends_one_way()
    ensures { EndsOneWay }
{}

/// Where each lock is got and each mailbox and folder takes its piece, where a mail filter's rcfile is read, and where
/// a process that has nothing left to do has a default mailbox that it can deliver to, the first process delivers the
/// mail, or HOST names another host, and the status is that of this end.
pub fn clear_is_well()
    ensures { ClearIsWell }
{
    end_has_status();
}

/// A clone that is made for a block has all that the process has, the rcfiles of the command line that are left
/// included, but no lock.
pub fn clone_is_whole()
    ensures { CloneIsWhole }
{}

/// So a clone that meets another HOST goes on with the next rcfile of the command line: the run of `procmail ./rc
/// ./rc2` with `:0 c`, `{ HOST=other }`, `:0`, `|` in the first and `:0 b`, `|` in the other, act by act.
pub fn clone_goes_on()
    ensures { CloneGoesOn }
{}
