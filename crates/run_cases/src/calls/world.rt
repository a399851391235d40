//! Hosts in memory.
ghost use Rattle.std.specs.Prelude.{◌≡◌, IfOk};
ghost use Rattle.pm_memory.specs.Host.{child_of};

use pm_bytes::{Memory, Name};
use pm_host::{Call, Change, Child};
use pm_memory::MemoryHost;
use std::alloc::Global;

// How many calls of a host are kept: those of a thousand tries for a lock.
const CALLS: u64 = 4_096;

/// What a host has at first, and what will be amiss with it.
#[derive(Clone, Copy)]
pub struct World<'a> {
    pub moment: i64,
    /// A file that was made at 0.
    pub file: Option<(&'a str, &'a [u8])>,
    pub folder: Option<&'a str>,
    /// The numbers of calls that fail, from 1 on.
    pub fails: [u64; 2],
    /// The second call takes at most so many bytes.
    pub most: usize,
}

/// Nothing is there, and nothing is amiss.
pub const NOTHING: World<'static> = World {
    moment: 0,
    file: None,
    folder: None,
    fails: [0, 0],
    most: 4_096,
};

/// The host of a world, in which no child runs.
pub fn make_host(alloc: Global, world: World<'_>) -> Result<MemoryHost, Memory>
    ensures { IfOk result (λ host. child_of host ≡ Child.NoChild) }
{
    let mut host = MemoryHost::new(alloc, world.moment, CALLS)?;
    furnish(&mut host, world)?;
    Ok(host)
}

fn furnish(host: &mut MemoryHost, world: World<'_>) -> Result<(), Memory>
    ensures { child_of host.new ≡ child_of host.old }
{
    put(host, world)?;
    host.fail(world.fails[0])?;
    host.fail(world.fails[1])
}

fn put(host: &mut MemoryHost, world: World<'_>) -> Result<(), Memory>
    ensures { child_of host.new ≡ child_of host.old }
{
    if let Some((name, bytes)) = world.file {
        host.put_file(name, bytes, 0)?;
    }
    if let Some(name) = world.folder {
        host.put_folder(name)?;
    }
    host.limit(2, world.most.max(1))
}

/// Others will do nothing in the first sleep, and remove the file in the second one.
pub fn remove_later(alloc: Global, host: &mut MemoryHost, name: Name) -> Result<(), Memory> {
    let mut changes = Vec::new(alloc);
    changes.push(Change::Remove { name })?;
    host.batch(Vec::new(alloc))?;
    host.batch(changes)
}

/// How many calls were made, and how many of them sleep.
pub fn count_calls(host: &MemoryHost) -> (usize, usize) {
    let calls = host.calls();
    let sleeps = calls
        .iter()
        .filter(|logged| matches!(&logged.call, Call::Sleep { .. }))
        .count();
    (calls.len(), sleeps)
}
