//! What a program settles before it opens anything else: the standard streams that were closed when it began, and the
//! limit on the size of files.
use crate::again;
use crate::limit::SizeLimit;
use std::fs::OpenOptions;
use std::io;
use std::os::fd::AsRawFd;
use std::rt::Files;

/// The files that take the numbers of standard streams that were closed at the start, and the limit on the size of
/// files. The program keeps it to its end: without these files the next one that it opens, as a mailbox, would be its
/// standard output or error.
#[derive(Drop)]
pub struct Setup<F: Drop> {
    input: Option<F>,
    output: Option<F>,
    error: Option<F>,
    limit: SizeLimit,
}

// A standard stream was closed at the start for each file that gets a number below this one.
const STREAMS: u32 = 3;

impl<F: AsRawFd + Drop> Setup<F> {
    /// Takes the numbers of the closed standard streams: each open takes the lowest that is free. A read of such a
    /// stream, or a write to it, fails as it does if the stream is closed.
    pub fn new<R: Files<File = F>>(rt: &R) -> io::Result<Setup<F>> {
        let mut setup = Setup {
            input: None,
            output: None,
            error: None,
            limit: SizeLimit::of_process(),
        };
        for _ in 0..STREAMS {
            let file = stand_in(rt, false)?;
            match file.as_raw_fd() {
                0 => {
                    drop(file);
                    setup.input = Some(stand_in(rt, true)?);
                }
                1 => setup.output = Some(file),
                2 => setup.error = Some(file),
                _ => break,
            }
        }
        Ok(setup)
    }

    /// Whether standard error was closed, so that children get /dev/null in its place.
    pub fn lacks_error(&self) -> bool {
        self.error.is_some()
    }

    /// The limit on the size of files.
    pub fn limit(&self) -> SizeLimit {
        self.limit
    }
}

// /dev/null, opened for what nobody does with that stream. If there is none, the root directory serves, since no bytes
// are read from it or written to it.
fn stand_in<R: Files>(rt: &R, for_writing: bool) -> io::Result<R::File> {
    let mut how = OpenOptions::new();
    if for_writing {
        how.write(true);
    } else {
        how.read(true);
    }
    match again::open(rt, &how, "/dev/null") {
        Ok(file) => Ok(file),
        Err(_) => again::open(rt, OpenOptions::new().read(true), "/"),
    }
}
