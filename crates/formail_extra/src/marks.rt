//! Marks on the identifiers of some mails, so that a cache is looked through once for all of them.
ghost use Rattle.std.specs.Prelude.{◌≡◌, ◌||◌, List, ℕ, Bool, IfOk, OnOk, Some, option_map, if◌then◌else◌};
ghost use Rattle.std.specs.Str.{bytes_eq};
ghost use Rattle.std.specs.List.{list_any};
ghost use Rattle.bstr.specs.Text.{lines_of};
ghost use Rattle.formail_extra.specs.Cache.{is_line_of};
ghost use Rattle.formail_extra.specs.Table.{mark_at, marked_by, ArePast};

use crate::seen::unended;
use bstr::ByteSlice;
use pm_bytes::{Blob, Memory};
use std::alloc::Global;
use std::collections::BTreeMap;

// For each identifier the number of the round in which it was marked last.
type Table = BTreeMap<Vec<u8>, u64>;

/// Marks on some identifiers. All of them are taken off at once, by a new round.
#[derive(Drop)]
pub struct Marks {
    table: Table,
    round: u64,
    ghost past: { ArePast table round },
}

// Marks an identifier, if it is one of the table's.
fn mark(table: &mut Table, id: &[u8], round: u64)
    ensures { (other : List ℕ) → mark_at table.new other
        ≡ (if bytes_eq id.now other then option_map (λ _. round) (mark_at table.old other)
        else mark_at table.old other) }
{
    if let Some(last) = table.get_mut(id) {
        *last = round;
    }
}

// Marks the identifiers that are whole lines of these bytes.
fn mark_all(table: &mut Table, bytes: &[u8], round: u64)
    ensures { (id : List ℕ) → mark_at table.new id ≡ marked_by (lines_of bytes.now) round id (mark_at table.old id) }
{
    for line in bytes.lines_with_terminator() {
        if line.ends_with(b"\n") {
            mark(table, unended(line), round);
        }
    }
}

// Adds an identifier that isn't marked.
fn add(alloc: Global, table: &mut Table, id: &[u8]) -> Result<(), Memory>
    requires { ArePast table.old 0 }
    ensures { OnOk result (ArePast table.new 0) }
{
    table.insert(Vec::from_slice(alloc, id)?, 0)?;
    Ok(())
}

// One mail alone has no table, since to look it up in each line costs more than to look for it.
fn table_of(alloc: Global, ids: &[Option<Blob>]) -> Result<Table, Memory>
    ensures { IfOk result (λ table. ArePast table 0) }
{
    let mut table = BTreeMap::new(alloc);
    if ids.len() < 2 {
        return Ok(table);
    }
    for id in ids {
        if let Some(id) = id {
            add(alloc, &mut table, id.as_slice())?;
        }
    }
    Ok(table)
}

impl Marks {
    ghost use Rattle.formail_extra.specs.Marks.{mark_on, IsClear};

    /// Takes the memory for the identifiers of some mails, none of which is marked.
    pub fn of(alloc: Global, ids: &[Option<Blob>]) -> Result<Marks, Memory>
        ensures { IfOk result IsClear }
    {
        let table = table_of(alloc, ids)?;
        Ok(Marks { table, round: 1 })
    }

    /// Whether an identifier is marked. Of others than those of the mails nothing is said.
    pub fn mark_on(&self, id: &[u8]) -> Option<bool>
        ensures { result ≡ mark_on self.now id.now }
    {
        self.table.get(id).map(|last| *last == self.round)
    }

    /// Marks the identifiers that are whole lines of these bytes.
    pub fn mark_lines(&mut self, bytes: &[u8])
        ensures { (id : List ℕ) → mark_on self.new id
            ≡ option_map (λ was. was || list_any (is_line_of id) (lines_of bytes.now)) (mark_on self.old id) }
    {
        if !self.table.is_empty() {
            mark_all(&mut self.table, bytes, self.round);
        }
    }

    /// Takes all marks off.
    pub fn clear(&mut self)
        ensures { IsClear self.new }
    {
        match self.round.checked_add(1) {
            Some(round) => self.round = round,
            None => self.table.clear(),
        }
    }
}
