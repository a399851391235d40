//! Runs formail over a host, a source and sinks in memory.
ghost use Rattle.std.specs.Prelude.{◌≡◌};
ghost use Rattle.pm_memory.specs.Host.{child_of};

use crate::formail_case::FormailCase;
use crate::left::{push_status, push_unread, push_written};
use crate::streams::{Lost, Streams};
use cases::{Refused, Told, memory_host, push_changes};
use formail_top::formail;
use pm_bytes::{Environ, Memory, Name, Pair, Pairs};
use pm_host::{Child, ChildInput};
use pm_memory::MemoryHost;
use std::alloc::Global;

/// Runs formail, with these calls of the host failing besides those that the case names, and tells what came of it.
pub fn run_formail(case: &FormailCase, failing: [u64; 2]) -> Result<Told, Refused> {
    let env = environment(case.alloc)?;
    let lost = Lost {
        mail: case.mail_fails,
        out: case.out_lost,
        err: None,
    };
    let mut streams = Streams::new(case.alloc, &case.mail, lost)?;
    let mut host = memory_host(&case.outside, failing)?;
    let status = run_over(case, &env, &mut streams, &mut host);
    told_of(case, status, &mut streams, &host)
}

fn run_over(case: &FormailCase, env: &Environ, streams: &mut Streams, host: &mut MemoryHost) -> u8
    requires { child_of host.old ≡ Child.NoChild }
{
    formail(
        case.alloc,
        case.arguments.as_slice(),
        env,
        &mut streams.source,
        host,
        &mut streams.out,
        &mut streams.err,
    )
}

fn told_of(
    case: &FormailCase,
    status: u8,
    streams: &mut Streams,
    host: &MemoryHost,
) -> Result<Told, Refused> {
    let mut told = Told::new(case.alloc);
    push_status(case.alloc, &mut told, status)?;
    push_left(&mut told, case, streams, host)?;
    Ok(told)
}

fn push_left(
    told: &mut Told,
    case: &FormailCase,
    streams: &mut Streams,
    host: &MemoryHost,
) -> Result<(), Memory> {
    push_written(told, "out", &streams.out)?;
    push_written(told, "err", &streams.err)?;
    push_inputs(told, host.inputs())?;
    push_changes(case.alloc, told, &case.outside, host)?;
    push_unread(told, case.mail_fails, &mut streams.source)
}

// One variable, which programs get.
fn environment(alloc: Global) -> Result<Environ, Refused> {
    let mut vars = Vec::new(alloc);
    vars.push(Pair {
        name: Name::read(alloc, b"HOME")?,
        value: Name::read(alloc, b"/home/joe")?,
    })?;
    Ok(Environ {
        vars: Pairs::from_vec(vars),
        pid: 4242,
        host_name: Name::read(alloc, b"mx")?,
    })
}

// Each program that was started, with its words, what it gets as environment and folder, and what it took.
fn push_inputs(told: &mut Told, inputs: &[ChildInput]) -> Result<(), Memory> {
    for input in inputs {
        told.begin("got")?;
        told.add(input.command.program.as_str().as_bytes())?;
        for word in input.command.args.as_slice() {
            told.add(word.as_str().as_bytes())?;
        }
        told.add(b"<")?;
        told.add(input.bytes.as_slice())?;
    }
    Ok(())
}
