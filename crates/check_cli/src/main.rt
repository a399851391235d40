//! The program procmail-check: it prints what is wrong in rcfiles, and brings old ones over (procmail-check(1)).
#![tactic(auto)]

mod allowed;
mod arguments;
mod checking;
mod disk;
mod findings;
mod fixed;
mod forms;
mod known;
mod options;
mod places;
mod programs;
mod remarks;
mod replacing;
mod report;
mod status;
mod steps;
mod walk;

use clap::Error;
use options::{Parsed, read_options};
use report::report_on;
use status::Status;
use std::io;
use std::process::ExitCode;

fn main(rt: HostRuntime) -> ExitCode {
    let status = match run(&rt) {
        Ok(status) => status,
        Err(_) => Status::SystemError,
    };
    ExitCode::from(status.number())
}

fn run(rt: &HostRuntime) -> io::Result<Status> {
    let words: Vec<String> = std::env::args(rt)?.collect(rt.alloc())?;
    run_by(rt, words.as_slice())
}

fn run_by(rt: &HostRuntime, words: &[String]) -> io::Result<Status> {
    match read_options(rt.alloc(), words) {
        Parsed::Options(options) => report_on(rt, &options),
        Parsed::Shown(error) => print_text(rt, &error, Status::Clean),
        Parsed::Refused(error) => print_text(rt, &error, Status::Usage),
        Parsed::Memory => Ok(Status::SystemError),
    }
}

// What clap has to say, and the exit status after it.
fn print_text(rt: &HostRuntime, error: &Error, status: Status) -> io::Result<Status> {
    error.print(rt)?;
    Ok(status)
}
