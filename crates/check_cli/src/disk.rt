//! The disk: a check can only look at it and read, and `--fix --in-place` can write rcfiles.
use crate::replacing::Rcfiles;
use std::fs::{self, OpenOptions};
use std::io::{self, ErrorKind, Read, Write};
use std::os::unix::fs::{MetadataExt, OpenOptionsExt};

/// What a name names.
#[derive(Clone, Copy)]
pub enum Look {
    Nothing,
    Directory,
    /// A file, whether users other than its owner and group can write to it, and whether it can be executed.
    File { is_writable: bool, is_program: bool },
    Other,
}

impl Look {
    pub fn is_directory(self) -> bool {
        matches!(self, Look::Directory)
    }

    /// Whether it is a file that other users can write to.
    pub fn is_writable(self) -> bool {
        match self {
            Look::File { is_writable, .. } => is_writable,
            _ => false,
        }
    }

    /// Whether it is a file that can be executed.
    pub fn is_program(self) -> bool {
        match self {
            Look::File { is_program, .. } => is_program,
            _ => false,
        }
    }
}

/// A disk. It has no call that changes anything.
pub trait Disk {
    fn look(&self, name: &str) -> Look;

    fn read(&self, name: &str) -> io::Result<Vec<u8>>;

    /// Standard input to its end.
    fn read_input(&self) -> io::Result<Vec<u8>>;
}

/// The disk of this machine.
#[derive(Drop)]
pub struct RealDisk<'a> {
    pub rt: &'a HostRuntime,
}

impl Disk for RealDisk<'_> {
    fn look(&self, name: &str) -> Look {
        match fs::metadata(self.rt, name) {
            Err(_) => Look::Nothing,
            Ok(found) if found.is_dir() => Look::Directory,
            Ok(found) if found.is_file() => Look::File {
                is_writable: found.mode() & 0o002 != 0,
                is_program: found.mode() & 0o111 != 0,
            },
            Ok(_) => Look::Other,
        }
    }

    fn read(&self, name: &str) -> io::Result<Vec<u8>> {
        fs::read(self.rt, name)
    }

    fn read_input(&self) -> io::Result<Vec<u8>> {
        let mut bytes = Vec::new(self.rt.alloc());
        self.rt.stdin().read_to_end(&mut bytes)?;
        Ok(bytes)
    }
}

impl Rcfiles for RealDisk<'_> {
    // What was made is removed again if not all of it can be written.
    fn write_new(&self, name: &str, like: &str, text: &[u8]) -> io::Result<()> {
        let permissions = fs::metadata(self.rt, like)?.permissions();
        let mut options = OpenOptions::new();
        options.write(true).create_new(true).mode(0o600);
        let mut file = options.open(self.rt, name)?;
        let written = match file.write_all(text) {
            Ok(()) => match file.set_permissions(permissions) {
                Ok(()) => file.sync_all(),
                Err(error) => Err(error),
            },
            Err(error) => Err(error),
        };
        if written.is_err() {
            let _ = self.remove(name);
        }
        written
    }

    fn link(&self, name: &str, second: &str) -> io::Result<()> {
        fs::hard_link(self.rt, name, second)
    }

    fn rename(&self, name: &str, new: &str) -> io::Result<()> {
        fs::rename(self.rt, name, new)
    }

    fn remove(&self, name: &str) -> io::Result<()> {
        fs::remove_file(self.rt, name)
    }
}

/// Whether a file couldn't be made because there is one of its name.
pub fn is_taken(error: &io::Error) -> bool {
    matches!(error.kind(), ErrorKind::AlreadyExists)
}

/// Whether reading failed because memory ran out.
pub fn is_memory(error: &io::Error) -> bool {
    matches!(error.kind(), ErrorKind::OutOfMemory)
}
