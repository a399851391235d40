//! A lock is taken through a host.
ghost use Rattle.std.specs.Prelude.{◌≡◌, ◌≤◌};
ghost use Rattle.pm_journal.specs.Locking.{TakesLock, lock_rule};
ghost use Rattle.pm_locks.specs.Steps.{as_answer, IsAnswerToLock, MakesLockStep, IsOpenStep};
ghost use Rattle.pm_locks.specs.Machine.{taking};
ghost use Rattle.pm_locks.specs.Walks.{RunsTaking};

use crate::{LockAnswer, LockCore};
use pm_bytes::Name;
use pm_host::Host;
use pm_journal::{LockEnd, LockStep};

/// Takes the lock, or gives up once so many tries were lost or a call failed; then no lock file of its own is left.
/// After a lost try it sleeps `sleep` seconds. A lock file that is older than `limit` seconds is removed by force, if
/// `limit` isn't 0, and a sleep of `suspend` seconds follows (lockfile(1)). It takes no memory.
pub fn take_lock<H: Host>(
    host: &mut H,
    name: &Name,
    sleep: u64,
    limit: u64,
    suspend: u64,
    tries: u32,
) -> LockEnd
    requires some { 1 ≤ tries }
    requires few { tries ≤ 1000000 }
    ensures takes { TakesLock (lock_rule sleep limit suspend tries) name.now result
        (H.told host.old) (H.told host.new) }
    ensures steps { RunsTaking name.now (taking (lock_rule sleep limit suspend tries)) result
        (H.told host.old) (H.told host.new) }
{
    let mut core = LockCore::new(sleep, limit, suspend, tries);
    loop {
        let step = core.next();
        if let LockStep::Finish(end) = step {
            return end;
        }
        core.heard(ask(host, name.as_str(), step));
    }
}

// Asks one step of the host.
fn ask<H: Host>(host: &mut H, name: &str, step: LockStep) -> LockAnswer
    requires { IsOpenStep step }
    ensures fits { IsAnswerToLock step result }
    ensures makes { MakesLockStep name.now step (as_answer result) (H.told host.old) (H.told host.new) }
{
    match step {
        LockStep::Create => LockAnswer::Create(host.create(name)),
        LockStep::Age => LockAnswer::Age(host.age(name)),
        LockStep::Look => LockAnswer::Look(host.look(name)),
        LockStep::Remove => LockAnswer::Remove(host.remove(name)),
        LockStep::Sleep(seconds) => {
            host.sleep(seconds);
            LockAnswer::Slept
        }
        LockStep::Finish(_) => unreachable!(),
    }
}
