//! The program formail: it makes the objects of the machine, reads the words, and ends with the status of the run.
#![tactic(auto)]

use formail_top::formail;
use pm_bytes::{Environ, Memory, Pairs};
use pm_real::{RealHost, RealSink, RealSource, Setup};
use pm_start::{Words, machine_name, read_environment, read_words};
use std::fs::File;
use std::process::ExitCode;

fn main(rt: HostRuntime) -> ExitCode {
    let status = match Setup::new(&rt) {
        Ok(setup) => status(&rt, &setup),
        Err(_) => 71,
    };
    ExitCode::from(status)
}

// Words that aren't UTF-8 are refused like all others that aren't read.
fn status(rt: &HostRuntime, setup: &Setup<File>) -> u8 {
    match read_words(rt.alloc(), rt) {
        Words::Read(words) => match run(rt, setup, words.as_slice()) {
            Ok(status) => status,
            Err(Memory) => 71,
        },
        Words::NoText => 64,
        Words::Memory => 71,
    }
}

fn run(rt: &HostRuntime, setup: &Setup<File>, words: &[String]) -> Result<u8, Memory> {
    let env = surroundings(rt, words)?;
    run_in(rt, setup, words, &env)
}

// What can fail is made before the host, so that there is one place where the host is given up.
fn run_in(
    rt: &HostRuntime,
    setup: &Setup<File>,
    words: &[String],
    env: &Environ,
) -> Result<u8, Memory> {
    let alloc = rt.alloc();
    let mut source = RealSource::stdin(rt, alloc)?;
    let mut out = RealSink::stdout(rt, alloc, setup)?;
    let mut err = RealSink::stderr(rt, alloc, setup)?;
    let mut host = RealHost::new(rt, alloc, env.pid, setup)?;
    Ok(formail(
        alloc,
        words,
        env,
        &mut source,
        &mut host,
        &mut out,
        &mut err,
    ))
}

// Nothing of formail names the machine.
fn surroundings(rt: &HostRuntime, words: &[String]) -> Result<Environ, Memory> {
    let alloc = rt.alloc();
    Ok(Environ {
        vars: variables(rt, words)?,
        pid: std::process::id(rt.process()),
        host_name: machine_name(alloc, b"")?,
    })
}

// Only children are given the environment, so without any it isn't read.
fn variables(rt: &HostRuntime, words: &[String]) -> Result<Pairs, Memory> {
    let alloc = rt.alloc();
    if may_start_programs(words) {
        return read_environment(alloc, rt);
    }
    Ok(Pairs::from_vec(Vec::new(alloc)))
}

// Whether `-s` may stand among the words.
fn may_start_programs(words: &[String]) -> bool {
    words.iter().any(|word| may_split(word.as_bytes()))
}

fn may_split(word: &[u8]) -> bool {
    word.starts_with(b"-") && word.contains(&b's')
}
