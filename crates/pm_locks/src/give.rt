//! A lock is given back through a host.
ghost use Rattle.std.specs.Prelude.{◌≡◌};
ghost use Rattle.pm_locks.specs.Giving.{GivesLock, removed_of};

use pm_bytes::Name;
use pm_host::{Host, Removed};

/// How the giving back of a lock ended.
#[derive(Clone, Copy)]
pub enum GiveEnd {
    /// The lock file was there and is removed.
    Removed,
    /// Nothing was there.
    Gone,
    /// The removal failed.
    Failed,
}

/// Gives the lock back: its file is removed by one call. It takes no memory.
pub fn give_lock<H: Host>(host: &mut H, name: &Name) -> GiveEnd
    ensures gives { GivesLock name.now result (H.told host.old) (H.told host.new) }
{
    given(host.remove(name.as_str()))
}

fn given(removed: Removed) -> GiveEnd
    ensures { removed_of result ≡ removed }
{
    match removed {
        Removed::Removed => GiveEnd::Removed,
        Removed::Absent => GiveEnd::Gone,
        Removed::Failed => GiveEnd::Failed,
    }
}
