//! Names of the machine: what stands there, how old it is, moving it, and folders with the names in them.
use crate::inode::Inode;
use pm_bytes::{Name, NameRefused, Names};
use pm_host::{Aged, Listed, Looked, Made, Moved, Removed};
use std::alloc::{Alloc, Global};
use std::fs::DirBuilder;
use std::io::ErrorKind;
use std::os::unix::fs::DirBuilderExt;
use std::rt::{Clock, Files};
use std::time::SystemTime;
use std::{fs, io};

/// A made folder is its owner's only, as a made file is.
const OWNER_ONLY: u32 = 0o700;

/// What stands at the name, and which file it is if that is a regular one. Anything that isn't a folder is a file.
pub fn look<R: Files>(rt: &R, name: &str) -> (Looked, Option<Inode>) {
    match fs::metadata(rt, name) {
        Ok(found) if found.is_dir() => (Looked::Folder, None),
        Ok(found) => (Looked::File(found.len()), Inode::of(&found)),
        Err(error) if error.kind() == ErrorKind::NotFound => (Looked::Nothing, None),
        Err(_) => (Looked::Failed, None),
    }
}

pub fn remove<R: Files>(rt: &R, name: &str) -> Removed {
    match fs::remove_file(rt, name) {
        Ok(()) => Removed::Removed,
        Err(error) if error.kind() == ErrorKind::NotFound => Removed::Absent,
        Err(_) => Removed::Failed,
    }
}

// Whether anything stands at the name, be it a link that leads nowhere.
fn is_taken<R: Files>(rt: &R, name: &str) -> io::Result<bool> {
    match fs::symlink_metadata(rt, name) {
        Ok(_) => Ok(true),
        Err(error) if error.kind() == ErrorKind::NotFound => Ok(false),
        Err(error) => Err(error),
    }
}

// A folder isn't moved.
fn move_file<R: Files>(rt: &R, from: &str, to: &str) -> io::Result<()> {
    if fs::symlink_metadata(rt, from)?.is_dir() {
        return Err(io::Error::from(ErrorKind::IsADirectory));
    }
    fs::rename(rt, from, to)
}

// Between the look at the new name and the move another process may act.
fn look_and_move<R: Files>(rt: &R, from: &str, to: &str) -> Moved {
    match is_taken(rt, to) {
        Ok(true) => Moved::Taken,
        Ok(false) => match move_file(rt, from, to) {
            Ok(()) => Moved::Moved,
            Err(_) => Moved::Failed,
        },
        Err(_) => Moved::Failed,
    }
}

// The file has both names. Where the old one can't be removed, the new one is, so that nothing was done. Where neither
// can, the file is filed: another try would file it twice.
fn drop_old_name<R: Files>(rt: &R, from: &str, to: &str) -> Moved {
    match fs::remove_file(rt, from) {
        Ok(()) => Moved::Moved,
        Err(_) => match fs::remove_file(rt, to) {
            Ok(()) => Moved::Failed,
            Err(_) => Moved::Moved,
        },
    }
}

/// Moves a file to a name where nothing stands. The file gets its new name as a hard link, which the system makes only
/// where nothing stands, and then loses the old one. A file system without links gets a look and a move.
pub fn rename<R: Files>(rt: &R, from: &str, to: &str) -> Moved {
    match fs::hard_link(rt, from, to) {
        Ok(()) => drop_old_name(rt, from, to),
        Err(error) => match error.kind() {
            ErrorKind::AlreadyExists => Moved::Taken,
            ErrorKind::PermissionDenied | ErrorKind::Unsupported | ErrorKind::TooManyLinks =>
                look_and_move(rt, from, to),
            _ => Moved::Failed,
        },
    }
}

fn is_folder<R: Files>(rt: &R, name: &str) -> bool {
    match fs::metadata(rt, name) {
        Ok(found) => found.is_dir(),
        Err(_) => false,
    }
}

/// Makes a folder. A file that stands there is a fault.
pub fn make_folder<R: Files>(rt: &R, name: &str) -> Made {
    let mut how = DirBuilder::new();
    how.mode(OWNER_ONLY);
    match how.create(rt, name) {
        Ok(()) => Made::Made,
        Err(error) if error.kind() == ErrorKind::AlreadyExists && is_folder(rt, name) =>
            Made::Exists,
        Err(_) => Made::Failed,
    }
}

// A name that isn't UTF-8 is passed over: it is none of ours.
fn names_in<R: Files + Alloc<A = Global> + Clone + Drop>(
    rt: &R,
    alloc: Global,
    folder: &str,
) -> io::Result<Names> {
    let mut names = Vec::new(alloc);
    for entry in fs::read_dir(rt, folder)? {
        match entry {
            Ok(entry) => match Name::read(alloc, entry.file_name().as_bytes()) {
                Ok(name) => names.push(name)?,
                Err(NameRefused::Unusable) => {}
                Err(NameRefused::Memory) => return Err(io::Error::from(ErrorKind::OutOfMemory)),
            },
            Err(error) if error.kind() == ErrorKind::InvalidFilename => {}
            Err(error) => return Err(error),
        }
    }
    names.sort_unstable_by(|one, other| one.as_str().cmp(other.as_str()));
    Ok(Names::from_vec(names))
}

/// The last parts of the names in the folder, in the order of their bytes.
pub fn names<R: Files + Alloc<A = Global> + Clone + Drop>(
    rt: &R,
    alloc: Global,
    folder: &str,
) -> Listed {
    match names_in(rt, alloc, folder) {
        Ok(names) => Listed::Names(names),
        Err(error) if error.kind() == ErrorKind::OutOfMemory => Listed::Memory,
        Err(_) => Listed::Failed,
    }
}

// A file of a later moment is new.
fn age_of<R: Files + Clock>(rt: &R, name: &str) -> io::Result<u64> {
    let found = fs::symlink_metadata(rt, name)?;
    if found.is_dir() {
        return Err(io::Error::from(ErrorKind::IsADirectory));
    }
    match SystemTime::now(rt)?.duration_since(found.modified()?) {
        Ok(age) => Ok(age.as_secs()),
        Err(_) => Ok(0),
    }
}

/// Seconds since the last change of the file's content, by the machine's clock. A link isn't followed, as `create` and
/// `remove` don't.
pub fn age<R: Files + Clock>(rt: &R, name: &str) -> Aged {
    match age_of(rt, name) {
        Ok(seconds) => Aged::Age(seconds),
        Err(error) if error.kind() == ErrorKind::NotFound => Aged::Absent,
        Err(_) => Aged::Failed,
    }
}
