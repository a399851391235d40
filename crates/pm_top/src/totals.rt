//! What is counted of the entries of a trial.
ghost use Rattle.std.specs.Prelude.{◌≡◌, ◌+◌, OnOk, IfOk, count_by, sum_by};
ghost use Rattle.pm_top.specs.Counting.{none, plus, totals_of, is_append, is_lock, piece_length};

use pm_bytes::Memory;
use pm_journal::{Act, Entry};

/// How many entries there are, how many of them append to a file and how many take a lock, and how many bytes the
/// pieces of those that append have in all.
#[derive(Clone, Copy)]
pub struct Totals {
    pub entries: u64,
    pub appends: u64,
    pub locks: u64,
    pub bytes: u64,
}

impl Totals {
    pub fn none() -> Totals
        ensures { result ≡ none }
    {
        Totals {
            entries: 0,
            appends: 0,
            locks: 0,
            bytes: 0,
        }
    }

    /// Counts these entries too. A count that 64 bits don't hold is want of memory.
    pub fn add(&mut self, entries: &[Entry]) -> Result<(), Memory>
        ensures { OnOk result (self.new ≡ plus self.old (totals_of entries.now)) }
    {
        self.entries = sum(self.entries, entries.len() as u64)?;
        self.appends = sum(self.appends, count_appends(entries) as u64)?;
        self.locks = sum(self.locks, count_locks(entries) as u64)?;
        self.bytes = sum(self.bytes, count_bytes(entries)?)?;
        Ok(())
    }
}

fn sum(a: u64, b: u64) -> Result<u64, Memory>
    ensures { IfOk result (λ c. c ≡ a + b) }
{
    match a.checked_add(b) {
        Some(c) => Ok(c),
        None => Err(Memory),
    }
}

fn count_appends(entries: &[Entry]) -> usize
    ensures { result ≡ count_by (λ e. is_append e.act) entries.now }
{
    let mut count = 0;
    for entry in entries {
        if appends(&entry.act) {
            count += 1;
        }
    }
    count
}

fn count_locks(entries: &[Entry]) -> usize
    ensures { result ≡ count_by (λ e. is_lock e.act) entries.now }
{
    let mut count = 0;
    for entry in entries {
        if locks(&entry.act) {
            count += 1;
        }
    }
    count
}

fn count_bytes(entries: &[Entry]) -> Result<u64, Memory>
    ensures { IfOk result (λ bytes. bytes ≡ sum_by (λ e. piece_length e.act) entries.now) }
{
    let mut bytes = 0;
    for entry in entries {
        bytes = sum(bytes, piece_len(&entry.act) as u64)?;
    }
    Ok(bytes)
}

fn appends(act: &Act) -> bool
    ensures { result ≡ is_append act.now }
{
    matches!(act, Act::Append { .. })
}

fn locks(act: &Act) -> bool
    ensures { result ≡ is_lock act.now }
{
    matches!(act, Act::Lock { .. })
}

fn piece_len(act: &Act) -> usize
    ensures { result ≡ piece_length act.now }
{
    match act {
        Act::Append { piece, .. } => piece.len(),
        _ => 0,
    }
}
