//! Which file of the machine a file is, whatever name it has.
ghost use Rattle.std.specs.Prelude.{IsSome};
ghost use Rattle.std.specs.Fs.{IsFile, file_type};

use std::fs::Metadata;
use std::os::unix::fs::MetadataExt;

/// The device and the number that a regular file has on it. No other file has them as long as this one is open.
#[derive(Clone, Copy, PartialEq, Eq)]
pub struct Inode {
    device: u64,
    number: u64,
}

impl Inode {
    /// None for what isn't a regular file, and where the system tells no number.
    pub fn of(found: &Metadata) -> Option<Inode>
        ensures { IsSome result → IsFile (file_type found.now) }
    {
        if !found.is_file() || found.ino() == 0 {
            return None;
        }
        Some(Inode {
            device: found.dev(),
            number: found.ino(),
        })
    }
}
