//! Runs the cases of procmail and of formail that standard input has, prints each one that fails after its line's
//! number, and last how many tries passed and failed; with `calls` first on its command line it makes public calls of
//! the libraries and of the real host instead, and prints their answers, or does what `bench/` measures.
//!
//! The status is 0 only if no case failed, or each call was answered as is wanted. It is safe and total; what it
//! prints is not stated.
#![tactic(auto)]

mod calls;
mod entries;
mod formail_case;
mod formail_running;
mod formail_trying;
mod left;
mod lost;
mod plan;
mod running;
mod session;
mod streams;
mod tally;
mod trying;

use calls::make_calls;
use cases::{Line, Refused, read_lines};
use pm_start::{Words, read_words};
use session::Session;
use std::io;
use std::process::ExitCode;
use tally::Tally;

// The status where a case failed, and where the cases aren't read (sysexits(3)).
const FAILED: u8 = 1;

const MISREAD: u8 = 65;

fn main(rt: HostRuntime) -> ExitCode {
    match read_words(rt.alloc(), &rt) {
        Words::Read(words) => run_by(&rt, words.as_slice()),
        Words::NoText | Words::Memory => ExitCode::from(FAILED),
    }
}

fn run_by(rt: &HostRuntime, words: &[String]) -> ExitCode {
    match words.split_first() {
        Some((first, rest)) if first.as_str() == "calls" => make_calls(rt, rest),
        _ => try_cases(rt),
    }
}

fn try_cases(rt: &HostRuntime) -> ExitCode {
    match run_all(rt) {
        Ok(Tally { failed: 0, .. }) => ExitCode::SUCCESS,
        Ok(_) => ExitCode::from(FAILED),
        Err(refused) => {
            let _ = print_refused(rt, refused);
            ExitCode::from(MISREAD)
        }
    }
}

fn print_refused(rt: &HostRuntime, refused: Refused) -> io::Result<()> {
    match refused {
        Refused::File { line, why } => println!(rt; "{line}: {why}"),
        Refused::Misread(why) => println!(rt; "{why}"),
        Refused::Memory => println!(rt; "memory was wanting"),
        Refused::Stream => Ok(()),
    }
}

fn run_all(rt: &HostRuntime) -> Result<Tally, Refused> {
    let lines = read_all(rt)?;
    let mut session = Session::new(rt.alloc());
    session.take_all(rt, lines.as_slice())
}

fn read_all(rt: &HostRuntime) -> Result<Vec<Line>, Refused> {
    let file = io::read_to_string(rt.alloc(), rt.reader())?;
    read_lines(rt.alloc(), file.as_str())
}
