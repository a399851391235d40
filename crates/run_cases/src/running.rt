//! Runs the program over files, a source and sinks in memory.
ghost use Rattle.std.specs.Prelude.{◌≡◌};
ghost use Rattle.pm_memory.specs.Host.{child_of};

use crate::left::push_left;
use crate::plan::{Choice, Plan};
use crate::streams::{Lost, Streams};
use cases::{Refused, Told, memory_host};
use pm_bytes::{Environ, Name, Pair, Pairs};
use pm_host::Child;
use pm_journal::Journal;
use pm_memory::MemoryHost;
use pm_top::procmail;
use std::alloc::Global;

/// What a run told and left.
#[derive(Drop)]
pub struct Ran {
    pub status: u8,
    pub journal: Journal,
    pub host: MemoryHost,
    pub streams: Streams,
}

/// Runs the program, with these calls of the host and this write to `err` failing besides those that the
/// plan names, and tells what came of it.
pub fn run(plan: &Plan, choice: Choice) -> Result<Told, Refused> {
    let env = environment(plan.alloc, plan)?;
    let lost = Lost {
        mail: plan.mail_fails,
        out: plan.out_lost,
        err: choice.lost.or(plan.lost),
    };
    let streams = Streams::new(plan.alloc, &plan.mail, lost)?;
    let host = memory_host(&plan.outside, choice.failing)?;
    told_of(plan, run_over(plan, &env, streams, host))
}

fn run_over(plan: &Plan, env: &Environ, streams: Streams, host: MemoryHost) -> Ran
    requires { child_of host ≡ Child.NoChild }
{
    let mut streams = streams;
    let mut host = host;
    let mut journal = Journal::new(plan.alloc);
    let status = procmail(
        plan.alloc,
        plan.words.as_slice(),
        env,
        &mut streams.source,
        &mut host,
        &mut streams.out,
        &mut streams.err,
        &mut journal,
    );
    Ran {
        status,
        journal,
        host,
        streams,
    }
}

fn told_of(plan: &Plan, ran: Ran) -> Result<Told, Refused> {
    let mut ran = ran;
    let mut told = Told::new(plan.alloc);
    push_left(plan.alloc, &mut told, plan, &mut ran)?;
    Ok(told)
}

fn environment(alloc: Global, plan: &Plan) -> Result<Environ, Refused> {
    let mut vars = Vec::new(alloc);
    for (name, value) in &plan.variables {
        vars.push(Pair {
            name: Name::read(alloc, name.as_str().as_bytes())?,
            value: Name::read(alloc, value.as_str().as_bytes())?,
        })?;
    }
    Ok(Environ {
        vars: Pairs::from_vec(vars),
        pid: 4242,
        host_name: Name::read(alloc, b"mx")?,
    })
}
