//! The files that tests name.
use crate::status::{Status, Stopped};
use bstr::ByteSlice;
use pm_bytes::Blob;
use pm_overlay::Given;
use std::alloc::{AllocError, Global};
use std::fs;
use test_text::{Answer, Fault, Reading, Reason, Tests, read_tests};

/// A place in a file of tests, and the home directory: by these names of files are read.
#[derive(Clone, Copy)]
pub struct Place<'a> {
    pub file: &'a str,
    pub line: u64,
    pub home: &'a str,
}

/// The tests of a file.
pub fn tests_of(rt: &HostRuntime, file: &str) -> Result<Tests, Stopped> {
    match fs::read(rt, file) {
        Ok(bytes) => tests_in(rt, file, bytes.as_slice()),
        Err(_) => Err(missing(rt, file)?),
    }
}

fn tests_in(rt: &HostRuntime, file: &str, bytes: &[u8]) -> Result<Tests, Stopped> {
    match read_tests(rt.alloc(), bytes)? {
        Reading::Tests(tests) => Ok(tests),
        Reading::Fault(fault) => Err(misread(rt, file, fault)?),
    }
}

fn missing(rt: &HostRuntime, file: &str) -> Result<Stopped, Stopped> {
    rt.eprintln(format!(in rt.alloc(); "procmail-test: can't read {file}")?)?;
    Ok(Stopped(Status::NoInput))
}

fn misread(rt: &HostRuntime, file: &str, fault: Fault) -> Result<Stopped, Stopped> {
    let Fault { line, reason } = fault;
    let text = text_of(reason);
    rt.eprintln(format!(in rt.alloc(); "procmail-test: {file}:{line}: {text}")?)?;
    Ok(Stopped(Status::Usage))
}

fn text_of(reason: Reason) -> &'static str {
    match reason {
        Reason::Unknown => "a line begins with rcfile, mail or #",
        Reason::NoName => "the name of a file is missing",
        Reason::NoArrow => "a test needs -> and its destinations",
        Reason::NoDestination => "a destination is missing",
        Reason::NoStatus => "a status is a number up to 255",
        Reason::NoAnswer => "an answer has the form LINE=CODE[:FILE]",
        Reason::SecondRcfile => "there is an rcfile already",
        Reason::NoRcfile => "the file names no rcfile",
        Reason::NoTest => "the file has no test",
    }
}

/// The name of a file from where the program runs: names are as seen from the directory of the file of tests, and `~/`
/// is the home directory. It begins with a slash or a dot.
pub fn path_of(alloc: Global, place: Place<'_>, name: &str) -> Result<String, AllocError> {
    if name.starts_with("/") {
        return String::from_str(alloc, name);
    }
    if let Some(rest) = name.strip_prefix("~/") {
        let home = place.home;
        return format!(in alloc; "{home}/{rest}");
    }
    let Some(slash) = place.file.rfind('/') else {
        return format!(in alloc; "./{name}");
    };
    let directory = &place.file[..slash];
    if place.file.starts_with("/") || place.file.starts_with("./") {
        return format!(in alloc; "{directory}/{name}");
    }
    format!(in alloc; "./{directory}/{name}")
}

/// The bytes of a file that a test names.
pub fn bytes_of(rt: &HostRuntime, place: Place<'_>, name: &[u8]) -> Result<Vec<u8>, Stopped> {
    match bytes_at(rt, place, name)? {
        Some(bytes) => Ok(bytes),
        None => Err(unread(rt, place, name)?),
    }
}

fn bytes_at(
    rt: &HostRuntime,
    place: Place<'_>,
    name: &[u8],
) -> Result<Option<Vec<u8>>, AllocError> {
    match std::str::from_utf8(name) {
        Ok(name) => {
            let path = path_of(rt.alloc(), place, name)?;
            Ok(fs::read(rt, path.as_str()).ok())
        }
        Err(_) => Ok(None),
    }
}

/// It is told that the file can't be read.
pub fn unread(rt: &HostRuntime, place: Place<'_>, name: &[u8]) -> Result<Stopped, Stopped> {
    rt.eprintln(unread_text(rt.alloc(), place, name)?)?;
    Ok(Stopped(Status::NoInput))
}

fn unread_text(alloc: Global, place: Place<'_>, name: &[u8]) -> Result<String, AllocError> {
    let (file, line) = (place.file, place.line);
    let name = name.to_str_lossy(alloc)?;
    let name = name.as_str();
    format!(in alloc; "procmail-test: {file}:{line}: can't read {name}")
}

/// What programs answer in a test.
pub fn given_of(
    rt: &HostRuntime,
    place: Place<'_>,
    answers: &[Answer],
) -> Result<Vec<Given>, Stopped> {
    let mut given = Vec::new(rt.alloc());
    for answer in answers {
        given.push(given_by(rt, place, answer)?)?;
    }
    Ok(given)
}

fn given_by(rt: &HostRuntime, place: Place<'_>, answer: &Answer) -> Result<Given, Stopped> {
    let line = answer.line.copy(rt.alloc())?;
    let output = output_of(rt, place, answer)?;
    Ok(Given {
        line,
        code: answer.code,
        output,
    })
}

fn output_of(rt: &HostRuntime, place: Place<'_>, answer: &Answer) -> Result<Option<Blob>, Stopped> {
    match &answer.output {
        None => Ok(None),
        Some(name) => Ok(Some(Blob::from_vec(bytes_of(rt, place, name.as_slice())?))),
    }
}
