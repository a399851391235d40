//! A table of names, each with how often it came and with how many bytes.
ghost use Rattle.std.specs.Prelude.{◌≡◌, [], OnOk, OnErr, option_map};
ghost use Rattle.log_summary.specs.Tallies.{grown, with_one};

use indexmap::IndexMap;
use pm_bytes::Memory;
use std::alloc::Global;
use std::marker::Model;

/// How often a name came, and with how many bytes. A number that would be above 2^64 - 1 stays there.
#[derive(Clone, Copy)]
pub struct Tally {
    pub count: u64,
    pub bytes: u64,
}

// A tally with one more.
fn with_one(old: Option<Tally>, bytes: u64) -> Tally
    ensures count { result.count ≡ grown 1 (option_map (λ tally. tally.count) old) }
    ensures bytes { result.bytes ≡ grown bytes (option_map (λ tally. tally.bytes) old) }
{
    match old {
        None => Tally { count: 1, bytes },
        Some(old) => Tally {
            count: old.count.saturating_add(1),
            bytes: old.bytes.saturating_add(bytes),
        },
    }
}

/// Names in the order in which they first came, each with its tally.
#[derive(Drop)]
pub struct Table {
    tallies: IndexMap<Vec<u8>, Tally>,
}

impl Model for Table {
    ghost use Rattle.std.specs.Prelude.{List};
    ghost use Rattle.log_summary.specs.Tallies.{Row};

    ghost Value = { List Row };

    ghost use Rattle.log_summary.specs.View.{rows_of};

    ghost view = { rows_of };
}

impl Table {
    pub fn new(alloc: Global) -> Table
        ensures { result ≡ [] }
    {
        Table {
            tallies: IndexMap::new(alloc),
        }
    }

    /// Counts this name once more.
    pub fn add(&mut self, name: Vec<u8>, bytes: u64) -> Result<(), Memory>
        ensures ok { OnOk result (self.new ≡ with_one name.items bytes self.old) }
        ensures err { OnErr result (self.new ≡ self.old) }
    {
        let tally = with_one(self.tallies.get(name.as_slice()).copied(), bytes);
        self.tallies.insert(name, tally)?;
        Ok(())
    }

    /// The rows by their names, in the order of their bytes.
    pub fn sort(&mut self) -> Result<(), Memory> {
        self.tallies.sort_keys()?;
        Ok(())
    }

    pub fn len(&self) -> usize {
        self.tallies.len()
    }

    /// The names with their tallies.
    pub fn rows(&self) -> indexmap::map::Iter<'_, Vec<u8>, Tally> {
        self.tallies.iter()
    }
}
