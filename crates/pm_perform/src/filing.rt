//! The mail goes to files and folders, one destination after the other. What each wants is taken before the first of
//! them, so that no memory can be wanting between two deliveries to files or right after one.
ghost use Rattle.std.specs.Prelude.{◌≡◌, ◌+◌, ◌*◌, ◌≤◌, length, map, IfOk, OnErr, List};
ghost use Rattle.pm_bytes.specs.Path.{full_name};
ghost use Rattle.pm_journal.specs.Appending.{append_reply};
ghost use Rattle.pm_journal.specs.Executed.{Carries};
ghost use Rattle.pm_meaning.specs.Delivering.{feed_of, folder_piece};
ghost use Rattle.pm_meaning.specs.Delivering;
ghost use Rattle.pm_meaning.specs.Delivering.{file_all, to_file, in_plain};
ghost use Rattle.pm_meaning.specs.Minds.{mind_of};
ghost use Rattle.pm_meaning.specs.declared.process.Destination.{Destination as Asked};
ghost use Rattle.pm_perform.specs.Copies.{copy_for, file_copy_for, folder_copy_for, filing_of, with_kept};
ghost use Rattle.pm_perform.specs.Copies.{AllShown};
ghost use Rattle.pm_perform.specs.Copies;
ghost use Rattle.pm_perform.specs.Filing.{is_folder_there, filed_by, mind_after, HasMet};

use crate::kept::{Kept, keep, remembering};
use crate::placing::{FolderCopy, file_in_folder};
use pm_bytes::{Blob, Memory, Name, full};
use pm_journal::{AppendEnd, Effects, FolderKind};
use pm_meaning::{Destination, Filed, Process, Run, is_nothing, plain_prefix};
use pm_message::Feed;
use pm_recipe::Flags;
use std::alloc::Global;
use std::collections::VecDeque;

/// A file with all that is wanted for it: its name for the entry and for what comes where it isn't done, the piece, and
/// what the process remembers once it has the mail.
#[derive(Drop)]
pub struct FileCopy {
    name: Name,
    shown: Name,
    piece: Blob,
    kept: Kept,
}

/// One destination with all that is wanted for it.
#[derive(Drop)]
pub enum Copy {
    ToFile(FileCopy),
    ToFolder(FolderCopy),
}

/// The destinations in order, each with all that is wanted for it. What mailboxes get is made once for the mail.
pub fn copies_for(
    alloc: Global,
    flags: Flags,
    destinations: &[Destination],
    process: &mut Process,
) -> Result<VecDeque<Copy>, Memory>
    ensures copies { IfOk result (λ copies. copies.items
        ≡ map (copy_for flags (mind_of process.old)) destinations.now) }
    ensures same { process.new ≡ process.old }
{
    let mut copies = VecDeque::new(alloc);
    for destination in destinations {
        let copy = make_copy(alloc, flags, destination, process)?;
        copies.push_back(copy)?;
    }
    Ok(copies)
}

fn make_copy(
    alloc: Global,
    flags: Flags,
    destination: &Destination,
    process: &mut Process,
) -> Result<Copy, Memory>
    ensures copy { IfOk result (λ copy. copy ≡ copy_for flags (mind_of process.old) destination.now) }
    ensures same { process.new ≡ process.old }
{
    let word = &destination.name;
    match destination.kind {
        None => Ok(Copy::ToFile(file_copy_of(alloc, flags, word, process)?)),
        Some(kind) => Ok(Copy::ToFolder(folder_copy_of(alloc, kind, flags, word, process)?)),
    }
}

fn file_copy_of(
    alloc: Global,
    flags: Flags,
    word: &Name,
    process: &mut Process,
) -> Result<FileCopy, Memory>
    ensures copy { IfOk result (λ copy. copy ≡ file_copy_for flags (mind_of process.old) word.now) }
    ensures same { process.new ≡ process.old }
{
    let name = full(alloc, &process.base, word)?;
    let piece = file_piece(alloc, flags, &name, process)?;
    file_copy_with(alloc, flags, word, name, piece, process)
}

fn file_copy_with(
    alloc: Global,
    flags: Flags,
    word: &Name,
    name: Name,
    piece: Blob,
    process: &Process,
) -> Result<FileCopy, Memory>
    requires name { name ≡ full_name process.now.base word.now }
    requires piece { piece ≡ Copies.file_piece name flags (mind_of process.now) }
    ensures { IfOk result (λ copy. copy ≡ file_copy_for flags (mind_of process.now) word.now) }
{
    let shown = name.copy(alloc)?;
    let size = file_size(flags, &name, &piece, process);
    let kept = remembering(alloc, word.as_str().as_bytes(), size)?;
    Ok(FileCopy {
        name,
        shown,
        piece,
        kept,
    })
}

// What is appended to the file: to `/dev/null` nothing is.
fn file_piece(
    alloc: Global,
    flags: Flags,
    name: &Name,
    process: &mut Process,
) -> Result<Blob, Memory>
    ensures piece { IfOk result (λ piece. piece ≡ Copies.file_piece name.now flags (mind_of process.old)) }
    ensures same { process.new ≡ process.old }
{
    if is_nothing(name) {
        Ok(Blob::empty(alloc))
    } else {
        process
            .message
            .mailbox_piece(alloc, fed_parts(flags), flags.raw)
    }
}

// How many bytes the file gets of which this is the piece: `/dev/null` gets those of no mailbox.
fn file_size(flags: Flags, name: &Name, piece: &Blob, process: &Process) -> u64
    requires { piece.now ≡ Copies.file_piece name.now flags (mind_of process.now) }
    ensures { result ≡ Delivering.file_size name.now flags (mind_of process.now) }
{
    if is_nothing(name) {
        fed_length(flags, process)
    } else {
        piece.len() as u64
    }
}

// How many bytes the parts have that are fed.
fn fed_length(flags: Flags, process: &Process) -> u64
    ensures { result ≡ length (folder_piece flags (mind_of process.now)) }
{
    let parts = process.message.parts();
    let head = parts.head.as_slice();
    let body = parts.body.as_slice();
    let bytes = match fed_parts(flags) {
        Feed::Head => head.len(),
        Feed::Body => body.len(),
        Feed::Both => head.len() + body.len(),
    };
    bytes as u64
}

fn folder_copy_of(
    alloc: Global,
    kind: FolderKind,
    flags: Flags,
    word: &Name,
    process: &Process,
) -> Result<FolderCopy, Memory>
    ensures { IfOk result (λ copy. copy ≡ folder_copy_for kind flags (mind_of process.now) word.now) }
{
    let folder = full(alloc, &process.base, word)?;
    let shown = folder.copy(alloc)?;
    let prefix = Name::from_text(String::new(alloc));
    let piece = own_piece(alloc, flags, process)?;
    Ok(FolderCopy {
        kind,
        folder,
        shown,
        prefix,
        piece,
    })
}

// What a file of its own gets in a folder.
fn own_piece(alloc: Global, flags: Flags, process: &Process) -> Result<Blob, Memory>
    ensures { IfOk result (λ piece. piece ≡ folder_piece flags (mind_of process.now)) }
{
    process.message.chosen(alloc, fed_parts(flags))
}

/// The parts of the mail that the flags h and b feed.
pub fn fed_parts(flags: Flags) -> Feed
    ensures { result ≡ feed_of flags }
{
    if flags.feed_head && !flags.feed_body {
        Feed::Head
    } else if flags.feed_body && !flags.feed_head {
        Feed::Body
    } else {
        Feed::Both
    }
}

/// Delivers to each destination in order, up to the first that doesn't get the mail. It runs out of memory only if a
/// directory is met.
pub fn file_each<D: Effects>(
    alloc: Global,
    run: &mut Run<D>,
    flags: Flags,
    mut copies: VecDeque<Copy>,
) -> Result<Filed, Memory>
    requires room { length run.old.process.locks.names + 3 * length copies.items ≤ run.old.journal.room }
    requires shown { AllShown copies.items }
    ensures carries { (destinations : List Asked)
        → copies.items ≡ map (copy_for flags (mind_of run.old.process)) destinations
        → Carries (file_all flags destinations (mind_of run.old.process))
        (λ filed. filing_of filed (mind_of run.new.process)) result
        run.old.journal run.new.journal (D.told run.old.outside) (D.told run.new.outside) }
    ensures locks { run.new.process.locks ≡ run.old.process.locks }
    ensures met { OnErr result (HasMet run.old.journal run.new.journal) }
{
    while let Some(copy) = copies.pop_front() {
        let filed = match copy {
            Copy::ToFile(copy) => append_copy(alloc, run, flags, copy)?,
            Copy::ToFolder(copy) => file_in_folder(alloc, run, copy)?,
        };
        if !is_stored(&filed) {
            return Ok(filed);
        }
    }
    Ok(Filed::Stored)
}

// A file gets the piece; where a folder stands, that gets it.
fn append_copy<D: Effects>(
    alloc: Global,
    run: &mut Run<D>,
    flags: Flags,
    copy: FileCopy,
) -> Result<Filed, Memory>
    requires room { length run.old.process.locks.names + 3 ≤ run.old.journal.room }
    requires shown { copy.shown ≡ copy.name }
    ensures carries { let p = mind_of run.old.process in
        Carries (to_file flags copy.name copy.piece (with_kept copy.kept p) p)
        (λ filed. filing_of filed (mind_of run.new.process)) result
        run.old.journal run.new.journal (D.told run.old.outside) (D.told run.new.outside) }
    ensures locks { run.new.process.locks ≡ run.old.process.locks }
    ensures room { IfOk result (λ _. run.old.journal.room ≤ run.new.journal.room + 3) }
    ensures met { OnErr result (HasMet run.old.journal run.new.journal) }
{
    let FileCopy {
        name,
        shown,
        piece,
        kept,
    } = copy;
    if is_nothing(&name) {
        keep(kept, &mut run.process);
        return Ok(Filed::Stored);
    }
    let end = run.outside.append(&mut run.journal, name, piece);
    if is_folder(end) {
        return file_plain(alloc, run, flags, shown);
    }
    let filed = filed_of(end, shown);
    remember(&filed, kept, &mut run.process);
    Ok(filed)
}

// A plain folder gets the piece as a file of its own, if a name can begin as MSGPREFIX says.
fn file_plain<D: Effects>(
    alloc: Global,
    run: &mut Run<D>,
    flags: Flags,
    folder: Name,
) -> Result<Filed, Memory>
    requires room { length run.old.process.locks.names + 2 ≤ run.old.journal.room }
    ensures carries { Carries (in_plain flags folder (mind_of run.old.process))
        (λ filed. filing_of filed (mind_of run.new.process)) result
        run.old.journal run.new.journal (D.told run.old.outside) (D.told run.new.outside) }
    ensures locks { run.new.process.locks ≡ run.old.process.locks }
    ensures room { IfOk result (λ _. run.old.journal.room ≤ run.new.journal.room + 2) }
{
    match plain_prefix(alloc, &run.process.vars)? {
        None => Ok(Filed::Unnamed),
        Some(prefix) => {
            let shown = folder.copy(alloc)?;
            let piece = own_piece(alloc, flags, &run.process)?;
            let copy = FolderCopy {
                kind: FolderKind::Plain,
                folder,
                shown,
                prefix,
                piece,
            };
            file_in_folder(alloc, run, copy)
        }
    }
}

// Only a destination that has the mail is remembered.
fn remember(filed: &Filed, kept: Kept, process: &mut Process)
    ensures mind { mind_of process.new ≡ mind_after filed.now kept (mind_of process.old) }
    ensures locks { process.new.locks ≡ process.old.locks }
{
    if let Filed::Stored = filed {
        keep(kept, process);
    }
}

// Whether a folder stands where the piece was to be appended.
fn is_folder(end: AppendEnd) -> bool
    ensures { result ≡ is_folder_there (append_reply end) }
{
    matches!(end, AppendEnd::IsFolder)
}

fn filed_of(end: AppendEnd, name: Name) -> Filed
    ensures { result ≡ filed_by name (append_reply end) }
{
    match end {
        AppendEnd::Done => Filed::Stored,
        AppendEnd::Torn(count) => Filed::Left { name, count },
        AppendEnd::Raced => Filed::Raced(name),
        AppendEnd::Undone | AppendEnd::IsFolder => Filed::Unwritten(name),
    }
}

/// Whether the destinations have the mail.
pub fn is_stored(filed: &Filed) -> bool
    ensures { result ≡ Delivering.is_stored filed.now }
{
    matches!(filed, Filed::Stored)
}
