//! The calls that came, in a list that was reserved for so many, and the counts of them.
ghost use Rattle.std.specs.Prelude.{◌≡◌, ◌≤◌, ◌<◌, ◌+◌, ◌^◌, ◌-◌, vec_len, vec_capacity, IfOk, cond, [], ◌∷◌, ◌++◌};
ghost use Rattle.std.specs.Prelude.{true};
ghost use Rattle.pm_memory.specs.Counts.{risen};

use crate::tree::Denied;
use pm_bytes::Memory;
use pm_host::Logged;
use std::alloc::Global;

#[derive(Drop)]
pub(crate) struct Calls {
    list: Vec<Logged>,
    reserved: u64,
    came: u64,
    faults: u64,
    starved: u64,
    ghost listed: { vec_len list ≤ came },
    ghost room: { reserved ≤ vec_capacity list },
    ghost countable: { reserved + 1 < 2 ^ 64 },
}

impl Calls {
    ghost use Rattle.pm_memory.specs.Calls.{Settles, CountsCall, IsNoneOf};

    pub(crate) fn new(alloc: Global, reserved: u64) -> Result<Calls, Memory>
        ensures { IfOk result (λ calls. IsNoneOf reserved calls) }
    {
        if reserved == u64::MAX {
            return Err(Memory);
        }
        Ok(Calls {
            list: Vec::with_capacity(alloc, reserved as usize)?,
            reserved,
            came: 0,
            faults: 0,
            starved: 0,
        })
    }

    pub(crate) fn list(&self) -> &[Logged]
        ensures { result.now ≡ self.now.list.items }
    {
        self.list.as_slice()
    }

    pub(crate) fn faults(&self) -> u64
        ensures { result ≡ self.now.faults }
    {
        self.faults
    }

    pub(crate) fn starved(&self) -> u64
        ensures { result ≡ self.now.starved }
    {
        self.starved
    }

    /// The number of the call that comes next.
    pub(crate) fn next(&self) -> u64
        ensures { result ≡ risen self.now.came }
    {
        self.came.saturating_add(1)
    }

    /// Counts a call, and lists it where there is room and no call lacked memory.
    pub(crate) fn settle(&mut self, refused: Option<Denied>, logged: Result<Logged, Memory>)
        ensures { Settles refused logged self.old self.new }
    {
        let has_room = self.came < self.reserved;
        let lacked = logged.is_err() || refused == Some(Denied::Memory);
        self.count(refused.is_some(), lacked);
        if let Ok(logged) = logged {
            let fits = has_room && self.starved == 0;
            self.add(fits, logged);
        }
    }

    // The call goes to the end of the list where it fits.
    fn add(&mut self, fits: bool, logged: Logged)
        requires room { fits ≡ true → vec_len self.old.list < vec_capacity self.old.list }
        requires came { fits ≡ true → vec_len self.old.list < self.old.came }
        ensures list { self.new.list.items ≡ cond fits (self.old.list.items ++ logged ∷ []) self.old.list.items }
        ensures reserved { self.new.reserved ≡ self.old.reserved }
        ensures came { self.new.came ≡ self.old.came }
        ensures faults { self.new.faults ≡ self.old.faults }
        ensures starved { self.new.starved ≡ self.old.starved }
    {
        if fits {
            self.list.push_reserved(logged);
        }
    }

    fn count(&mut self, failed: bool, lacked: bool)
        ensures { CountsCall failed lacked self.old self.new }
    {
        self.came = self.came.saturating_add(1);
        self.faults = raised(self.faults, failed);
        self.starved = raised(self.starved, lacked);
    }
}

// A count that rises in some cases, and stands still at its end.
fn raised(count: u64, rises: bool) -> u64
    ensures risen { result ≡ cond rises (risen count) count }
    ensures later { count ≤ result }
{
    if rises {
        count.saturating_add(1)
    } else {
        count
    }
}
