//! What is written.
use crate::status::{Status, Stopped};
use pm_bytes::Blob;
use std::alloc::Global;
use std::io::{self, IsTerminal, Write};

/// Writes it to standard output.
pub fn write_out(rt: &HostRuntime, text: &Blob) -> Result<(), Stopped> {
    match io::writer(rt).write_all(text.as_slice()) {
        Ok(()) => Ok(()),
        Err(_) => Err(Stopped(Status::SystemError)),
    }
}

/// Says on standard error what stands in the way.
pub fn complain(rt: &HostRuntime, what: &str, of: &str) -> Result<(), Stopped> {
    match rt.eprintln(format!(in rt.alloc(); "procmail-explain: {what}{of}")?) {
        Ok(()) => Ok(()),
        Err(_) => Err(Stopped(Status::SystemError)),
    }
}

/// A line on a terminal that says how far a run over a mailbox is.
#[derive(Clone, Copy)]
pub struct Progress {
    all: usize,
    is_shown: bool,
}

impl Progress {
    /// It is shown where standard error is a terminal, and standard output is none, whose lines it would cut.
    pub fn new(rt: &HostRuntime, all: usize, is_mailbox: bool) -> Progress {
        Progress {
            all,
            is_shown: is_mailbox && rt.stderr().is_terminal() && !rt.stdout().is_terminal(),
        }
    }

    /// So many mails are done.
    pub fn show(self, rt: &HostRuntime, done: usize) {
        if self.is_shown && done % 50 == 0 {
            let _ = tell(rt, done, self.all);
        }
    }

    /// The line is taken back.
    pub fn end(self, rt: &HostRuntime) {
        if self.is_shown {
            let _ = say(rt, "\r\u{1b}[K");
        }
    }
}

fn tell(rt: &HostRuntime, done: usize, all: usize) -> Result<(), Stopped> {
    let line = format!(in rt.alloc(); "\r{done} of {all} mails")?;
    say(rt, line.as_str())
}

fn say(rt: &HostRuntime, text: &str) -> Result<(), Stopped> {
    match rt.stderr().write_all(text.as_bytes()) {
        Ok(()) => Ok(()),
        Err(_) => Err(Stopped(Status::SystemError)),
    }
}
