//! A host in memory as a case has it.
ghost use Rattle.std.specs.Prelude.{◌≡◌, IfOk};
ghost use Rattle.pm_memory.specs.Host.{child_of};

use crate::Refused;
use crate::outside::{Deed, Limit, Other, Outside, Program, Stands};
use pm_bytes::{Blob, Name};
use pm_host::{Change, Child, Script};
use pm_memory::MemoryHost;
use std::alloc::Global;

// How many calls of the host are kept: those of a long run.
const CALLS: u64 = 4096;

/// The host with this outside, in which these calls fail besides those that it names. No child runs in it.
pub fn memory_host(outside: &Outside, failing: [u64; 2]) -> Result<MemoryHost, Refused>
    ensures { IfOk result (λ host. child_of host ≡ Child.NoChild) }
{
    let mut host = MemoryHost::new(outside.alloc, outside.moment, CALLS)?;
    prepare(&mut host, outside, failing)?;
    Ok(host)
}

fn prepare(host: &mut MemoryHost, outside: &Outside, failing: [u64; 2]) -> Result<(), Refused>
    ensures { child_of host.new ≡ child_of host.old }
{
    put_all(host, &outside.stands)?;
    fail_each(host, &outside.fails)?;
    fail_each(host, &failing)?;
    limit_each(host, &outside.limits)?;
    batch_each(outside.alloc, host, &outside.batches)?;
    child_each(outside.alloc, host, &outside.programs)
}

fn put_all(host: &mut MemoryHost, all: &[Stands]) -> Result<(), Refused>
    ensures { child_of host.new ≡ child_of host.old }
{
    for stands in all {
        match &stands.bytes {
            Some(bytes) => host.put_file(stands.name.as_str(), bytes, 0)?,
            None => host.put_folder(stands.name.as_str())?,
        }
    }
    Ok(())
}

fn fail_each(host: &mut MemoryHost, calls: &[u64]) -> Result<(), Refused>
    ensures { child_of host.new ≡ child_of host.old }
{
    for call in calls {
        host.fail(*call)?;
    }
    Ok(())
}

fn limit_each(host: &mut MemoryHost, limits: &[Limit]) -> Result<(), Refused>
    ensures { child_of host.new ≡ child_of host.old }
{
    for limit in limits {
        host.limit(limit.call, limit.most.max(1))?;
    }
    Ok(())
}

fn batch_each(alloc: Global, host: &mut MemoryHost, batches: &[Vec<Other>]) -> Result<(), Refused>
    ensures { child_of host.new ≡ child_of host.old }
{
    for batch in batches {
        host.batch(changes_of(alloc, batch)?)?;
    }
    Ok(())
}

fn child_each(alloc: Global, host: &mut MemoryHost, programs: &[Program]) -> Result<(), Refused>
    ensures { child_of host.new ≡ child_of host.old }
{
    for program in programs {
        host.child(Script {
            code: program.code,
            closes_after: program.closes_after,
            output: Blob::from_slice(alloc, &program.output)?,
        })?;
    }
    Ok(())
}

fn changes_of(alloc: Global, batch: &[Other]) -> Result<Vec<Change>, Refused> {
    let mut changes = Vec::new(alloc);
    for other in batch {
        let name = Name::read(alloc, &other.name)?;
        let bytes = Blob::from_slice(alloc, &other.bytes)?;
        changes.push(match other.deed {
            Deed::Append => Change::Append { name, bytes },
            Deed::Create => Change::Create { name, bytes },
            Deed::Remove => Change::Remove { name },
        })?;
    }
    Ok(changes)
}
