//! A piece is filed under one name.
ghost use Rattle.std.specs.Prelude.{◌≡◌, length};
ghost use Rattle.pm_folders.specs.Filing.{Tried, Writes, Stores, RemovesMade};
ghost use Rattle.pm_folders.specs.Trying.{tried_last};

use crate::names::Names;
use pm_host::{Host, Made, Moved, Removed, Synced, Took};
use pm_journal::FileEnd;

// How many bytes are offered at most at a time.
const PART: usize = 4096;

/// Makes a file of the piece, brings it to the store, and moves it where there is another name for it. Where a
/// call fails, the file is removed. It takes no memory.
pub fn file_under<H: Host>(host: &mut H, names: &Names, piece: &[u8]) -> FileEnd
    ensures { Tried (tried_last names.now) piece.now result (H.told host.old) (H.told host.new) }
{
    match host.create(names.at()) {
        Made::Made => {}
        Made::Exists => return FileEnd::Taken,
        Made::Failed => return FileEnd::Undone,
    }
    let len = piece.len() as u64;
    if let Err(taken) = store(host, names, piece) {
        return remove_made(host, names, FileEnd::Undone, taken);
    }
    let Some(to) = names.to() else {
        return FileEnd::Filed;
    };
    match host.rename(names.at(), to) {
        Moved::Moved => FileEnd::Filed,
        Moved::Taken => remove_made(host, names, FileEnd::Taken, len),
        Moved::Failed => remove_made(host, names, FileEnd::Undone, len),
    }
}

// Adds the piece to the file and brings it to the store. After a failed call it tells how many bytes were added.
fn store<H: Host>(host: &mut H, names: &Names, piece: &[u8]) -> Result<(), u64>
    ensures { Stores (tried_last names.now) piece.now result (H.told host.old) (H.told host.new) }
{
    if let Err(taken) = write_all(host, names, piece) {
        return Err(taken);
    }
    match host.sync(names.at()) {
        Synced::Synced => Ok(()),
        Synced::Failed => Err(piece.len() as u64),
    }
}

// Adds the piece to the file, in parts. After a failed call it tells how many bytes were added.
fn write_all<H: Host>(host: &mut H, names: &Names, piece: &[u8]) -> Result<(), u64>
    ensures { Writes (tried_last names.now) piece.now result (H.told host.old) (H.told host.new) }
{
    let mut taken: usize = 0;
    while taken < piece.len() {
        let end = piece.len().min(taken.saturating_add(PART));
        match host.append(names.at(), &piece[taken..end]) {
            Took::Took(n) => taken += n,
            Took::Failed => return Err(taken as u64),
        }
    }
    Ok(())
}

// Removes the file that was made, which has so many bytes of the piece.
fn remove_made<H: Host>(host: &mut H, names: &Names, gone: FileEnd, taken: u64) -> FileEnd
    ensures { RemovesMade (tried_last names.now) gone (FileEnd.Torn taken) result (H.told host.old) (H.told host.new) }
{
    match host.remove(names.at()) {
        Removed::Failed => FileEnd::Torn(taken),
        _ => gone,
    }
}
