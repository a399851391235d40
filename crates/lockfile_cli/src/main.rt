//! The program lockfile: it makes the objects of the machine, reads the words and the environment, and ends with the
//! status of the run.
#![tactic(auto)]

use lockfile_top::{Status, lockfile};
use pm_bytes::{Environ, Memory};
use pm_real::{RealHost, RealSink, Setup};
use pm_start::{Words, machine_name, read_environment, read_words};
use std::fs::File;
use std::process::ExitCode;

fn main(rt: HostRuntime) -> ExitCode {
    let status = match Setup::new(&rt) {
        Ok(setup) => status(&rt, &setup),
        Err(_) => Status::SystemError.number(),
    };
    ExitCode::from(status)
}

// Words that aren't UTF-8 are refused like all others that aren't read.
fn status(rt: &HostRuntime, setup: &Setup<File>) -> u8 {
    match read_words(rt.alloc(), rt) {
        Words::Read(words) => match run(rt, setup, words.as_slice()) {
            Ok(status) => status,
            Err(Memory) => Status::SystemError.number(),
        },
        Words::NoText => Status::Usage.number(),
        Words::Memory => Status::SystemError.number(),
    }
}

fn run(rt: &HostRuntime, setup: &Setup<File>, words: &[String]) -> Result<u8, Memory> {
    let env = surroundings(rt)?;
    run_in(rt, setup, words, &env)
}

// What can fail is made before the host, so that there is one place where the host is given up.
fn run_in(
    rt: &HostRuntime,
    setup: &Setup<File>,
    words: &[String],
    env: &Environ,
) -> Result<u8, Memory> {
    let alloc = rt.alloc();
    let mut err = RealSink::stderr(rt, alloc, setup)?;
    let mut host = RealHost::new(rt, alloc, env.pid, setup)?;
    Ok(lockfile(alloc, words, env, &mut host, &mut err))
}

// The machine's name isn't asked for.
fn surroundings(rt: &HostRuntime) -> Result<Environ, Memory> {
    let alloc = rt.alloc();
    Ok(Environ {
        vars: read_environment(alloc, rt)?,
        pid: std::process::id(rt.process()),
        host_name: machine_name(alloc, b"")?,
    })
}
