//! A child of this process. Its input goes through a pipe and its output to a file, so that feeding it never waits for
//! reading. The pipe is made here, since a write to one of `Stdio::piped()` holds SIGPIPE back by three more system
//! calls: a program of this language ignores that signal from its start on.
ghost use Rattle.std.specs.Prelude.{◌≡◌, ◌≤◌, ◌<◌, length, IfSome};
ghost use Rattle.pm_host.specs.World.{FedAtMost};

use crate::again;
use crate::again::MOST_TRIES;
use crate::kept_file::OWNER_ONLY;
use pm_host::{Command, Fed, Finished};
use std::alloc::Global;
use std::fs::OpenOptions;
use std::io::{ErrorKind, PipeWriter, Write};
use std::os::unix::fs::{FileExt, OpenOptionsExt};
use std::os::unix::process::ExitStatusExt;
use std::process::{Child, ExitStatus, OpenProcess, Processes, Stdio};
use std::rt::Files;
use std::{fs, io, process};

/// A child that was started, with the other end of the pipe that it reads, until that is closed, the file that its
/// output goes to where that is kept, and how many bytes of it were taken.
#[derive(Drop)]
pub struct Running<P: OpenProcess + Drop, F: FileExt + Drop> {
    process: Child<P>,
    input: Option<PipeWriter>,
    output: Option<F>,
    taken: u64,
}

/// A file for a child's output that nobody else made: where anything stands at a name, be it a link, the next one is
/// tried. Its name is removed at once, so that nothing is left of it however the run ends.
pub fn open_output<R: Files>(rt: &R, alloc: Global, pid: u32) -> io::Result<R::File> {
    let mut how = OpenOptions::new();
    how.read(true);
    how.write(true);
    how.create_new(true);
    how.mode(OWNER_ONLY);
    for count in 0..MOST_TRIES {
        let name = format!(in alloc; "/tmp/procmail.{pid}.{count}")?;
        match again::open(rt, &how, name.as_str()) {
            Ok(file) => {
                fs::remove_file(rt, name.as_str())?;
                return Ok(file);
            }
            Err(error) if error.kind() == ErrorKind::AlreadyExists => {}
            Err(error) => return Err(error),
        }
    }
    Err(io::Error::from(ErrorKind::AlreadyExists))
}

/// Starts the program with its own words, its environment and nothing else, from its folder. Its output goes to
/// `stdout`, of which `output` is another handle, and its errors to this process's standard error, or nowhere.
pub fn start<R: Files + Processes, F: FileExt + Drop>(
    rt: &R,
    alloc: Global,
    command: &Command,
    stdout: Stdio,
    stderr: Stdio,
    output: Option<F>,
) -> io::Result<Running<R::Started, F>> {
    let mut how = process::Command::new(alloc, command.program.as_str())?;
    for word in command.args.as_slice() {
        how.arg(word.as_str())?;
    }
    how.env_clear();
    for pair in command.env.as_slice() {
        how.env(pair.name.as_str(), pair.value.as_str())?;
    }
    how.current_dir(command.folder.as_str())?;
    let (reader, writer) = io::pipe(rt)?;
    how.stdin(reader);
    how.stdout(stdout);
    how.stderr(stderr);
    Ok(Running {
        process: how.spawn(rt)?,
        input: Some(writer),
        output,
        taken: 0,
    })
}

impl<P: OpenProcess + Drop, F: FileExt + Drop> Running<P, F> {
    /// Gives it a front of the piece. A write of no bytes is an error.
    pub fn feed(&mut self, piece: &[u8]) -> Fed
        ensures { FedAtMost (length piece.now) result }
    {
        let Some(input) = &mut self.input else {
            return Fed::Failed;
        };
        for _ in 0..MOST_TRIES {
            match input.write(piece) {
                Ok(0) => return Fed::Failed,
                Ok(count) => return Fed::Took(count),
                Err(error) if error.kind() == ErrorKind::Interrupted => {}
                Err(error) if error.kind() == ErrorKind::BrokenPipe => return Fed::Closed,
                Err(_) => return Fed::Failed,
            }
        }
        Fed::Failed
    }

    /// Waits for its end, since only then the end of the file is the end of its output, and gives the next bytes of
    /// that; None is an error.
    pub fn take(&mut self, room: &mut [u8]) -> Option<usize>
        ensures { IfSome result (λ count. count ≤ length room.new) }
    {
        self.input = None;
        let Ok(_) = self.process.wait() else {
            return None;
        };
        let Some(output) = &self.output else {
            return Some(0);
        };
        let count = again::read_at(output, room, self.taken)?;
        self.taken = self.taken.saturating_add(count as u64);
        Some(count)
    }

    /// Waits for its end.
    pub fn finish(&mut self) -> Finished {
        self.input = None;
        match self.process.wait() {
            Ok(status) => how_it_ended(status),
            Err(_) => Finished::Failed,
        }
    }
}

// A status without a code is that of a signal.
fn how_it_ended(status: ExitStatus) -> Finished {
    if let Some(code) = status.code() {
        return match u8::try_from(code) {
            Ok(code) => Finished::Code(code),
            Err(_) => Finished::Failed,
        };
    }
    match status.signal().map(u8::try_from) {
        Some(Ok(signal)) => Finished::Signal(signal),
        _ => Finished::Failed,
    }
}
