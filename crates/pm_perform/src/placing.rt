//! A piece is filed in a folder: under the moment, which is asked first, and with the count of the run's filings.
ghost use Rattle.std.specs.Prelude.{◌≡◌, ◌+◌, ◌≤◌, true, [], length, is_some, IfOk, OnErr};
ghost use Rattle.pm_journal.specs.Executed.{Carries};
ghost use Rattle.pm_journal.specs.Outcomes;
ghost use Rattle.pm_meaning.specs.Changes.{stored_in};
ghost use Rattle.pm_meaning.specs.Delivering.{in_folder};
ghost use Rattle.pm_meaning.specs.Locks.{text_or};
ghost use Rattle.pm_meaning.specs.Minds.{mind_of};
ghost use Rattle.pm_perform.specs.Copies.{filing_of};
ghost use Rattle.pm_perform.specs.Filing.{HasMet};
ghost use Rattle.pm_perform.specs.Placing.{HasFile, placed_as};

use pm_bytes::{Blob, Memory, Name};
use pm_journal::{Effects, Entries, Filing, FolderEnd, FolderKind, Journal, Stamp};
use pm_meaning::{Filed, Process, Run, Stored};
use std::alloc::Global;

/// A folder with all that is wanted to file a piece there: its name for the entry and for the line where that fails,
/// how the names in it begin, and the piece.
#[derive(Drop)]
pub struct FolderCopy {
    pub kind: FolderKind,
    pub folder: Name,
    pub shown: Name,
    pub prefix: Name,
    pub piece: Blob,
}

/// Files the piece in the folder as a file of its own. After want of memory after the filing, that is noted.
pub fn file_in_folder<D: Effects>(
    alloc: Global,
    run: &mut Run<D>,
    copy: FolderCopy,
) -> Result<Filed, Memory>
    requires room { length run.old.process.locks.names + 2 ≤ run.old.journal.room }
    requires shown { copy.shown ≡ copy.folder }
    ensures carries { Carries (in_folder copy.kind copy.folder copy.prefix copy.piece (mind_of run.old.process))
        (λ filed. filing_of filed (mind_of run.new.process)) result
        run.old.journal run.new.journal (D.told run.old.outside) (D.told run.new.outside) }
    ensures locks { run.new.process.locks ≡ run.old.process.locks }
    ensures room { IfOk result (λ _. run.old.journal.room ≤ run.new.journal.room + 2) }
    ensures met { OnErr result (HasMet run.old.journal run.new.journal) }
{
    let moment = run.outside.moment(&mut run.journal);
    let serial = next_serial(&run.process)?;
    let host_name = run.process.host_name.copy(alloc)?;
    let FolderCopy {
        kind,
        folder,
        shown,
        prefix,
        piece,
    } = copy;
    let size = piece.len() as u64;
    let stamp = Stamp {
        moment,
        pid: run.process.vars.marks().pid,
        serial,
        host_name,
    };
    let filing = Filing {
        kind,
        folder,
        prefix,
        piece,
        stamp,
    };
    let end = run.outside.place(alloc, &mut run.journal, filing)?;
    run.process.placed = serial;
    conclude(alloc, end, shown, size, &mut run.process, &run.journal)
}

// The number of the next filing of the run. One that is too great for 64 bits would be want of memory.
fn next_serial(process: &Process) -> Result<u64, Memory>
    ensures { IfOk result (λ serial. serial ≡ process.now.placed + 1) }
{
    match process.placed.checked_add(1) {
        Some(serial) => Ok(serial),
        None => Err(Memory),
    }
}

// What came of a filing of so many bytes that is the last entry. The name of its file is copied out of that entry.
fn conclude<K: Entries>(
    alloc: Global,
    end: FolderEnd,
    folder: Name,
    size: u64,
    process: &mut Process,
    journal: &Journal<K>,
) -> Result<Filed, Memory>
    requires file { HasFile end (Outcomes.last_file journal.now.entries) }
    ensures filed { IfOk result (λ filed. filing_of filed (mind_of process.new)
        ≡ placed_as end (Outcomes.last_file journal.now.entries) folder size (mind_of process.old)) }
    ensures locks { process.new.locks ≡ process.old.locks }
{
    match end {
        FolderEnd::Placed => {
            remember_file(alloc, size, process, journal)?;
            Ok(Filed::Stored)
        }
        FolderEnd::Undone => Ok(Filed::Unwritten(folder)),
        FolderEnd::Torn(count) => Ok(Filed::Left {
            name: last_file(journal).copy(alloc)?,
            count,
        }),
        FolderEnd::NamesOut => Ok(Filed::Crowded(folder)),
    }
}

// LASTFOLDER is the file of the last entry, which has so many bytes.
fn remember_file<K: Entries>(
    alloc: Global,
    size: u64,
    process: &mut Process,
    journal: &Journal<K>,
) -> Result<(), Memory>
    requires file { is_some (Outcomes.last_file journal.now.entries) ≡ true }
    ensures mind { IfOk result (λ _. mind_of process.new
        ≡ stored_in (text_or [] (Outcomes.last_file journal.now.entries)) size (mind_of process.old)) }
    ensures locks { process.new.locks ≡ process.old.locks }
{
    let name = last_file(journal).as_str().as_bytes();
    let folder = Blob::from_slice(alloc, name)?;
    let value = Blob::from_slice(alloc, name)?;
    process.vars.set_last_folder(value);
    process.stored = Stored { folder, size };
    Ok(())
}

fn last_file<K: Entries>(journal: &Journal<K>) -> &Name
    requires { is_some (Outcomes.last_file journal.now.entries) ≡ true }
    ensures { result.now ≡ text_or [] (Outcomes.last_file journal.now.entries) }
{
    match journal.last_file() {
        Some(name) => name,
        None => unreachable!(),
    }
}
