//! The public calls of the libraries and the calls of the real host that standard input lists, and their answers; with
//! words on its command line one thing of procmail's, done once, which `bench/` measures.
//!
//! The calls of the libraries have the types that any other program would give them, and each answer is a line: the
//! crate's `stdout` has those that the rules of the manuals give. `listing` says what is printed of the host's calls,
//! and `measured` has the words.
mod actions;
mod answers;
mod appends;
mod area;
mod caches;
mod children;
mod conditions;
mod edits;
mod failed;
mod host_calls;
mod host_session;
mod interrupted;
mod listing;
mod locks;
mod mailboxes;
mod mails;
mod measured;
mod minds;
mod others;
mod processes;
mod rcfiles;
mod reading;
mod report;
mod scores;
mod searches;
mod searching;
mod turns;
mod world;

use crate::calls::failed::Failed;
use crate::calls::listing::make_listed;
use crate::calls::measured::measure;
use crate::calls::report::Report;
use std::alloc::Global;
use std::process::ExitCode;

/// Does what the words after `calls` say; without words all calls are made. The status is 0 only if each call was
/// answered, and each of the host's as is wanted.
pub fn make_calls(rt: &HostRuntime, words: &[String]) -> ExitCode {
    match run(rt, words) {
        Ok(()) => ExitCode::SUCCESS,
        Err(failed) => ExitCode::from(failed.status()),
    }
}

fn run(rt: &HostRuntime, words: &[String]) -> Result<(), Failed> {
    if words.is_empty() {
        print_report(rt)?;
        return make_listed(rt);
    }
    measure(rt, words)
}

fn print_report(rt: &HostRuntime) -> Result<(), Failed> {
    let report = make_report(rt.alloc());
    if report.is_lost() {
        return Err(Failed::Call);
    }
    match print!(rt; "{}", report.text()) {
        Ok(()) => Ok(()),
        Err(_) => Err(Failed::Call),
    }
}

fn make_report(alloc: Global) -> Report {
    let mut report = Report::new(alloc);
    mails::show(alloc, &mut report);
    searches::show(alloc, &mut report);
    rcfiles::show(alloc, &mut report);
    scores::show(&mut report);
    edits::show(alloc, &mut report);
    conditions::show(alloc, &mut report);
    actions::show(alloc, &mut report);
    processes::show(alloc, &mut report);
    locks::show(alloc, &mut report);
    appends::show(alloc, &mut report);
    mailboxes::show(alloc, &mut report);
    caches::show(alloc, &mut report);
    turns::show(alloc, &mut report);
    interrupted::show(&mut report);
    report
}
