//! A piece is filed in a folder.
ghost use Rattle.std.specs.Prelude.{List, ℕ};
ghost use Rattle.pm_journal.specs.declared.placing.Stamp.{Stamp as Stamped};
ghost use Rattle.pm_folders.specs.Filing.{PlacesIn, MakesAll};

use crate::names::{maildir_folders, maildir_names, mh_names, plain_names};
use crate::numbers::first_number;
use crate::tries::{PlaceEnd, file_in_first};
use pm_bytes::{Memory, Name};
use pm_host::{Host, Listed, Made};
use pm_journal::{FolderKind, Stamp};
use std::alloc::Global;

/// Files the piece in the folder as a file of its own, under the first of 100 names that isn't taken (maildir(5),
/// mh-folders(5)). A file that was made is removed where a call fails. Want of memory comes before any file is made; a
/// maildir or a plain folder then got no call.
pub fn place<H: Host>(
    alloc: Global,
    host: &mut H,
    kind: FolderKind,
    folder: &Name,
    prefix: &Name,
    piece: &[u8],
    stamp: &Stamp,
) -> PlaceEnd
    ensures { PlacesIn kind folder.now prefix.now piece.now stamp.now result (H.told host.old) (H.told host.new) }
{
    match kind {
        FolderKind::Maildir => place_maildir(alloc, host, folder, piece, stamp),
        FolderKind::Mh => place_mh(alloc, host, folder, piece),
        FolderKind::Plain => place_plain(alloc, host, folder, prefix, piece, stamp),
    }
}

// Files the piece in a plain folder. Want of memory comes before any call.
fn place_plain<H: Host>(
    alloc: Global,
    host: &mut H,
    folder: &Name,
    prefix: &Name,
    piece: &[u8],
    stamp: &Stamp,
) -> PlaceEnd
    ensures { PlacesIn FolderKind.Plain folder.now prefix.now piece.now stamp.now result (H.told host.old)
        (H.told host.new) }
{
    match plain_names(alloc, folder, prefix, stamp) {
        Ok(names) => file_in_first(host, names, piece),
        Err(Memory) => PlaceEnd::Memory,
    }
}

// Files the piece in an MH folder. Want of memory comes before any file is made.
fn place_mh<H: Host>(alloc: Global, host: &mut H, folder: &Name, piece: &[u8]) -> PlaceEnd
    ensures { (prefix : List ℕ) (stamp : Stamped) → PlacesIn FolderKind.Mh folder.now prefix piece.now stamp result
        (H.told host.old) (H.told host.new) }
{
    if let Made::Failed = host.make_folder(folder.as_str()) {
        return PlaceEnd::Undone;
    }
    let parts = match host.names(alloc, folder.as_str()) {
        Listed::Names(parts) => parts,
        Listed::Failed => return PlaceEnd::Undone,
        Listed::Memory => return PlaceEnd::Memory,
    };
    match mh_names(alloc, folder, first_number(parts.as_slice())) {
        Ok(names) => file_in_first(host, names, piece),
        Err(Memory) => PlaceEnd::Memory,
    }
}

// Files the piece in a maildir. Want of memory comes before any call.
fn place_maildir<H: Host>(
    alloc: Global,
    host: &mut H,
    folder: &Name,
    piece: &[u8],
    stamp: &Stamp,
) -> PlaceEnd
    ensures { (prefix : List ℕ) → PlacesIn FolderKind.Maildir folder.now prefix piece.now stamp.now result
        (H.told host.old) (H.told host.new) }
{
    let Ok(folders) = maildir_folders(alloc, folder) else {
        return PlaceEnd::Memory;
    };
    let Ok(names) = maildir_names(alloc, folder, stamp) else {
        return PlaceEnd::Memory;
    };
    if make_folders(host, folders.as_slice()) {
        file_in_first(host, names, piece)
    } else {
        PlaceEnd::Undone
    }
}

// Makes the folders in order, and tells whether all are there.
fn make_folders<H: Host>(host: &mut H, folders: &[Name]) -> bool
    ensures { MakesAll folders.now result (H.told host.old) (H.told host.new) }
{
    for folder in folders {
        if let Made::Failed = host.make_folder(folder.as_str()) {
            return false;
        }
    }
    true
}
