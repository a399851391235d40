//! The program procmail-stat: it prints what log files say (procmail-stat(1)).
#![tactic(auto)]

mod options;
mod report;
mod written;

use options::{Parsed, read_options};
use report::report_on;
use std::io;
use std::process::ExitCode;

/// The exit statuses of procmail-stat.
#[derive(Clone, Copy)]
pub enum Status {
    /// A mail was delivered.
    Delivered,
    /// No mail was delivered.
    NoMail,
    /// The arguments aren't understood.
    Usage,
    /// A log file can't be read.
    NoInput,
    /// Want of memory, or the output can't be written.
    SystemError,
}

impl Status {
    fn number(self) -> u8 {
        match self {
            Status::Delivered => 0,
            Status::NoMail => 1,
            Status::Usage => 64,
            Status::NoInput => 66,
            Status::SystemError => 71,
        }
    }
}

fn main(rt: HostRuntime) -> ExitCode {
    let code = match run(&rt) {
        Ok(code) => code,
        Err(_) => Status::SystemError.number(),
    };
    ExitCode::from(code)
}

fn run(rt: &HostRuntime) -> io::Result<u8> {
    let alloc = rt.alloc();
    let words: Vec<String> = std::env::args(rt)?.collect(alloc)?;
    match read_options(alloc, words.as_slice()) {
        Parsed::Options(options) => report_on(rt, &options),
        Parsed::Shown(error) => {
            error.print(rt)?;
            Ok(0)
        }
        Parsed::Refused(error) => {
            error.print(rt)?;
            Ok(Status::Usage.number())
        }
        Parsed::NoDay => {
            rt.eprintln("procmail-stat: --since wants a day such as 2026-01-31")?;
            Ok(Status::Usage.number())
        }
        Parsed::Memory => Ok(Status::SystemError.number()),
    }
}
