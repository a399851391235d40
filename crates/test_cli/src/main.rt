//! The program procmail-test: it runs tests of rcfiles (procmail-test(1)).
#![tactic(auto)]

mod files;
mod options;
mod running;
mod status;
mod testing;

use clap::Error;
use options::{Parsed, read_options};
use status::Status;
use std::io;
use std::process::ExitCode;
use testing::test_files;

fn main(rt: HostRuntime) -> ExitCode {
    let code = match run(&rt) {
        Ok(status) => status.number(),
        Err(_) => Status::SystemError.number(),
    };
    ExitCode::from(code)
}

fn run(rt: &HostRuntime) -> io::Result<Status> {
    let words: Vec<String> = std::env::args(rt)?.collect(rt.alloc())?;
    run_by(rt, words.as_slice())
}

fn run_by(rt: &HostRuntime, words: &[String]) -> io::Result<Status> {
    match read_options(rt.alloc(), words) {
        Parsed::Options(options) => Ok(test_files(rt, &options)),
        Parsed::Shown(error) => print_text(rt, &error, Status::Passed),
        Parsed::Refused(error) => print_text(rt, &error, Status::Usage),
        Parsed::Memory => Ok(Status::SystemError),
    }
}

// What clap has to say, and the exit status after it.
fn print_text(rt: &HostRuntime, error: &Error, status: Status) -> io::Result<Status> {
    error.print(rt)?;
    Ok(status)
}
