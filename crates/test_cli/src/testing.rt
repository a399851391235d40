//! All tests of all files, and their report.
use crate::files::{Place, bytes_of, path_of, tests_of, unread};
use crate::options::{Format, Options};
use crate::running::run_test;
use crate::status::{Status, Stopped};
use explain_host::Machine;
use explain_text::value_in;
use std::io::{self, Write};
use test_text::{Report, Test, Tests, junit_report, tap_report};

/// Runs the tests and prints their report. Where a file can't be read nothing is printed but that.
pub fn test_files(rt: &HostRuntime, options: &Options<'_>) -> Status {
    match run_files(rt, options) {
        Ok(status) => status,
        Err(Stopped(status)) => status,
    }
}

fn run_files(rt: &HostRuntime, options: &Options<'_>) -> Result<Status, Stopped> {
    let machine = Machine::new(rt)?;
    run_on(rt, &machine, options)
}

fn run_on(rt: &HostRuntime, machine: &Machine, options: &Options<'_>) -> Result<Status, Stopped> {
    let files = options.files.as_slice();
    let suites = suites_of(rt, files)?;
    let mut reports = Vec::new(rt.alloc());
    run_suites(rt, machine, files, suites.as_slice(), &mut reports)?;
    print(rt, options.format, reports.as_slice())
}

fn suites_of(rt: &HostRuntime, files: &[&str]) -> Result<Vec<Tests>, Stopped> {
    let mut suites = Vec::new(rt.alloc());
    for file in files {
        suites.push(tests_of(rt, file)?)?;
    }
    Ok(suites)
}

fn run_suites(
    rt: &HostRuntime,
    machine: &Machine,
    files: &[&str],
    suites: &[Tests],
    reports: &mut Vec<Report>,
) -> Result<(), Stopped> {
    for (file, tests) in files.iter().zip(suites.iter()) {
        run_file(rt, machine, file, tests, reports)?;
    }
    Ok(())
}

fn run_file(
    rt: &HostRuntime,
    machine: &Machine,
    file: &str,
    tests: &Tests,
    reports: &mut Vec<Report>,
) -> Result<(), Stopped> {
    let home = match std::str::from_utf8(value_in(machine.env().vars.as_slice(), b"HOME")) {
        Ok(home) => home,
        Err(_) => "",
    };
    let place = Place {
        file,
        line: tests.rcfile().line,
        home,
    };
    let rcfile = rcfile_of(rt, place, tests.rcfile().name.as_slice())?;
    run_tests(rt, machine, place, rcfile.as_str(), tests.tests(), reports)
}

// The rcfile's name, if it can be read.
fn rcfile_of(rt: &HostRuntime, place: Place<'_>, name: &[u8]) -> Result<String, Stopped> {
    let _ = bytes_of(rt, place, name)?;
    match std::str::from_utf8(name) {
        Ok(name) => Ok(path_of(rt.alloc(), place, name)?),
        Err(_) => Err(unread(rt, place, name)?),
    }
}

fn run_tests(
    rt: &HostRuntime,
    machine: &Machine,
    place: Place<'_>,
    rcfile: &str,
    tests: &[Test],
    reports: &mut Vec<Report>,
) -> Result<(), Stopped> {
    for test in tests {
        let place = Place {
            line: test.line(),
            ..place
        };
        reports.push(run_test(rt, machine, place, rcfile, test)?)?;
    }
    Ok(())
}

fn print(rt: &HostRuntime, format: Format, reports: &[Report]) -> Result<Status, Stopped> {
    let text = match format {
        Format::Tap => tap_report(rt.alloc(), reports)?,
        Format::Junit => junit_report(rt.alloc(), reports)?,
    };
    io::writer(rt).write_all(text.as_slice())?;
    Ok(if reports.iter().all(|report| report.passed) {
        Status::Passed
    } else {
        Status::Failed
    })
}
