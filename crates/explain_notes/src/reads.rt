//! The rcfiles that a run read, by the entries of its journal.
ghost use Rattle.std.specs.Prelude.{◌≡◌, ◌++◌, IfOk, OnOk, option_copied};
ghost use Rattle.explain_notes.specs.Reads.{read_of, reads_from, listed, last_read, recipe_in, comes_first};
ghost use Rattle.explain_notes.specs.Steps.{lines_of};

use crate::rcfile::RcLines;
use crate::recipe::RecipeLines;
use pm_bytes::{Blob, Memory};
use pm_journal::{Act, Entry, Reply};
use std::alloc::Global;

/// A file that was read: how many entries come before that, its name, and the steps of its code.
#[derive(Drop)]
pub struct Read {
    pub before: usize,
    pub name: Blob,
    pub lines: RcLines,
}

/// The files that were read, in order.
pub fn reads_of(alloc: Global, entries: &[Entry]) -> Result<Vec<Read>, Memory>
    ensures { IfOk result (λ reads. reads.items ≡ reads_from 0 entries.now) }
{
    let mut reads = Vec::new(alloc);
    for (index, entry) in entries.iter().enumerate() {
        add_read(&mut reads, read_of(alloc, index, entry)?)?;
    }
    Ok(reads)
}

fn add_read(reads: &mut Vec<Read>, read: Option<Read>) -> Result<(), Memory>
    ensures { OnOk result (reads.new.items ≡ reads.old.items ++ listed read) }
{
    if let Some(read) = read {
        reads.push(read)?;
    }
    Ok(())
}

fn read_of(alloc: Global, before: usize, entry: &Entry) -> Result<Option<Read>, Memory>
    ensures { IfOk result (λ read. read ≡ read_of before entry.now.act entry.now.reply) }
{
    match (&entry.act, &entry.reply) {
        (Act::ReadFile { name }, Reply::Content(bytes)) => Ok(Some(Read {
            before,
            name: Blob::from_slice(alloc, name.as_str().as_bytes())?,
            lines: RcLines::read(alloc, bytes.as_slice())?,
        })),
        _ => Ok(None),
    }
}

/// The recipe at a place of the rcfile of this name, as it was read last before so many entries.
pub fn recipe_in<'a>(
    reads: &'a [Read],
    name: &[u8],
    entries: usize,
    place: usize,
) -> Option<&'a RecipeLines>
    ensures { option_copied result ≡ recipe_in reads.now name.now entries place }
{
    match last_read(reads, name, entries) {
        None => None,
        Some(lines) => lines.recipe(place),
    }
}

fn last_read<'a>(reads: &'a [Read], name: &[u8], entries: usize) -> Option<&'a RcLines>
    ensures { option_copied result ≡ last_read reads.now name.now entries }
{
    let mut found = None;
    for read in reads {
        if comes_first(read, name, entries) {
            found = Some(&read.lines);
        }
    }
    found
}

fn comes_first(read: &Read, name: &[u8], entries: usize) -> bool
    ensures { result ≡ comes_first read.now name.now entries }
{
    read.before < entries && read.name.as_slice() == name
}
