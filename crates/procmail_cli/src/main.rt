//! The program procmail: it makes the objects of the machine, reads the words and the environment, and ends with the
//! status of the run.
#![tactic(auto)]

use pm_bytes::{Environ, Memory, Name};
use pm_conds::NoObserver;
use pm_journal::{Journal, LastReply};
use pm_meaning::Status;
use pm_real::{RealHost, RealSink, RealSource, Setup, can_be_host_name, read_regular};
use pm_start::{Words, first_line, machine_name, read_environment, read_words};
use pm_top::{procmail_observed, refuse};
use std::fs::File;
use std::io::Stderr;
use std::process::ExitCode;

// Words that aren't UTF-8 are refused like all others that aren't read.
fn main(rt: HostRuntime) -> ExitCode {
    let not_begun = ExitCode::from(Status::SystemError.number());
    let Ok(setup) = Setup::new(&rt) else {
        return not_begun;
    };
    let Ok(mut err) = RealSink::stderr(&rt, rt.alloc(), &setup) else {
        return not_begun;
    };
    let status = match read_words(rt.alloc(), &rt) {
        Words::Read(words) => match deliver(&rt, &setup, words.as_slice(), &mut err) {
            Ok(status) => status,
            Err(Memory) => refuse(&mut err, Status::SystemError),
        },
        Words::NoText => refuse(&mut err, Status::Usage),
        Words::Memory => refuse(&mut err, Status::SystemError),
    };
    ExitCode::from(status)
}

fn deliver(
    rt: &HostRuntime,
    setup: &Setup<File>,
    words: &[String],
    err: &mut RealSink<Stderr>,
) -> Result<u8, Memory> {
    let env = surroundings(rt)?;
    deliver_in(rt, setup, words, &env, err)
}

// What can fail is made before the host, so that there is one place where the host is given up.
fn deliver_in(
    rt: &HostRuntime,
    setup: &Setup<File>,
    words: &[String],
    env: &Environ,
    err: &mut RealSink<Stderr>,
) -> Result<u8, Memory> {
    let alloc = rt.alloc();
    let mut source = RealSource::stdin(rt, alloc)?;
    let mut out = RealSink::stdout(rt, alloc, setup)?;
    let mut host = RealHost::new(rt, alloc, env.pid, setup)?;
    let mut journal = Journal::<LastReply>::empty(alloc);
    Ok(procmail_observed(
        alloc,
        words,
        env,
        &mut source,
        &mut host,
        &mut out,
        err,
        &mut journal,
        &mut NoObserver,
    ))
}

fn surroundings(rt: &HostRuntime) -> Result<Environ, Memory> {
    let alloc = rt.alloc();
    Ok(Environ {
        vars: read_environment(alloc, rt)?,
        pid: std::process::id(rt.process()),
        host_name: host_name(rt)?,
    })
}

// The host has no name if `/etc/hostname` can't be read, or if its line can't be a part of the name of a maildir's
// file.
fn host_name(rt: &HostRuntime) -> Result<Name, Memory> {
    let alloc = rt.alloc();
    match read_regular(rt, "/etc/hostname") {
        Ok(text) if can_be_host_name(first_line(text.as_slice())) => machine_name(
            alloc,
            text.as_slice(),
        ),
        _ => machine_name(alloc, b""),
    }
}
