//! The calls of the real host that standard input lists. docs/CASES.md has the lines.
use crate::calls::failed::Failed;
use crate::calls::host_session::HostSession;
use crate::tally::Tally;
use cases::{Refused, read_lines};
use pm_host::{Sink, Source};
use pm_real::{RealSink, RealSource, Setup};
use pm_streams::{Mail, WriteEnd, read_mail, write_text};
use std::alloc::Global;
use std::fs::File;

/// Makes them, compares their answers with those that are wanted, and prints each that differs, and last how many
/// passed and failed.
pub fn make_listed(rt: &HostRuntime) -> Result<(), Failed> {
    match run(rt) {
        Ok(Tally { failed: 0, .. }) => Ok(()),
        Ok(_) => Err(Failed::Call),
        Err(_) => Err(Failed::Misread),
    }
}

fn run(rt: &HostRuntime) -> Result<Tally, Refused> {
    let alloc = rt.alloc();
    let setup = Setup::new(rt)?;
    let mut source = RealSource::stdin(rt, alloc)?;
    let mut out = RealSink::stdout(rt, alloc, &setup)?;
    let Mail::Bytes(bytes) = read_mail(alloc, &mut source)? else {
        return Err(Refused::Stream);
    };
    let (report, tally) = report_on(rt, alloc, &setup, bytes.as_slice())?;
    match write_text(&mut out, report.as_bytes()) {
        WriteEnd::Wrote => Ok(tally),
        WriteEnd::Short(_) => Err(Refused::Stream),
    }
}

// What differs, and the line of the numbers.
fn report_on(
    rt: &HostRuntime,
    alloc: Global,
    setup: &Setup<File>,
    bytes: &[u8],
) -> Result<(String, Tally), Refused> {
    let Ok(text) = std::str::from_utf8(bytes) else {
        return Err(Refused::Misread("the lines are UTF-8"));
    };
    let lines = read_lines(alloc, text)?;
    let mut session = HostSession::new(rt, alloc, setup)?;
    for line in &lines {
        session.take(line)?;
    }
    session.finish()
}
