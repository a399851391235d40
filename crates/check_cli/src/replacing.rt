//! An rcfile is written anew in its place: a new file beside it is renamed over it, after the old one was kept.
use crate::disk::is_taken;
use std::alloc::Global;
use std::io;

/// The calls that write an rcfile anew. Checks have none of them.
pub trait Rcfiles {
    /// A new file with these bytes, on the disk, and with the permissions of another file.
    fn write_new(&self, name: &str, like: &str, text: &[u8]) -> io::Result<()>;

    /// A second name of a file, if there is none of that name.
    fn link(&self, name: &str, second: &str) -> io::Result<()>;

    fn rename(&self, name: &str, new: &str) -> io::Result<()>;

    fn remove(&self, name: &str) -> io::Result<()>;
}

/// Writes a text in the place of an rcfile, which stays as NAME.orig. If this fails, the rcfile is as it was.
pub fn replace<R: Rcfiles>(
    alloc: Global,
    files: &R,
    name: &str,
    old: &[u8],
    text: &[u8],
) -> io::Result<()> {
    let new = format!(in alloc; "{name}.new")?;
    let kept = format!(in alloc; "{name}.orig")?;
    write_and_rename(files, [name, new.as_str(), kept.as_str()], old, text)
}

// The names are that of the rcfile, of the file beside it, and of the one that is kept.
fn write_and_rename<R: Rcfiles>(
    files: &R,
    names: [&str; 3],
    old: &[u8],
    text: &[u8],
) -> io::Result<()> {
    let [name, new, kept] = names;
    files.write_new(new, name, text)?;
    if let Err(error) = keep(files, name, kept, old) {
        let _ = files.remove(new);
        return Err(error);
    }
    if let Err(error) = files.rename(new, name) {
        let _ = files.remove(new);
        let _ = files.remove(kept);
        return Err(error);
    }
    Ok(())
}

// Where a file has only one name, a copy of it is kept.
fn keep<R: Rcfiles>(files: &R, name: &str, kept: &str, old: &[u8]) -> io::Result<()> {
    match files.link(name, kept) {
        Ok(()) => Ok(()),
        Err(error) if is_taken(&error) => Err(error),
        Err(_) => files.write_new(kept, name, old),
    }
}
