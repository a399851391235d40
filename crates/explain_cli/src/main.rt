//! The program procmail-explain: it prints what procmail would do with a mail, or with each mail of a mailbox
//! (procmail-explain(1)).
#![tactic(auto)]

mod answers;
mod comparing;
mod explaining;
mod input;
mod options;
mod output;
mod running;
mod status;
mod words;

use clap::Error;
use explaining::explain;
use options::{Parsed, read_options};
use status::{Status, Stopped};
use std::process::ExitCode;

fn main(rt: HostRuntime) -> ExitCode {
    let status = match run(&rt) {
        Ok(status) => status,
        Err(Stopped(status)) => status,
    };
    ExitCode::from(status.number())
}

fn run(rt: &HostRuntime) -> Result<Status, Stopped> {
    let words: Vec<String> = std::env::args(rt)?.collect(rt.alloc())?;
    run_by(rt, words.as_slice())
}

fn run_by(rt: &HostRuntime, words: &[String]) -> Result<Status, Stopped> {
    match read_options(rt.alloc(), words) {
        Parsed::Options(options) => explain(rt, &options),
        Parsed::Shown(error) => print_text(rt, &error, Status::Explained),
        Parsed::Refused(error) => print_text(rt, &error, Status::Usage),
        Parsed::Memory => Ok(Status::SystemError),
    }
}

// What clap has to say, and the exit status after it.
fn print_text(rt: &HostRuntime, error: &Error, status: Status) -> Result<Status, Stopped> {
    error.print(rt)?;
    Ok(status)
}
