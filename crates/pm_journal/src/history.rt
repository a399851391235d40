//! A list of entries that proofs alone have.
ghost use Rattle.std.specs.Prelude.{◌≡◌, [], ◌∷◌, ◌++◌};

use crate::{Entry, Reply};
use std::marker::Model;
use std::mem;
use std::snapshot::Snapshot;

/// The entries that were noted, the last one outermost. It has none of their bytes.
#[cycle(noted)]
#[derive(Drop)]
pub enum Noted {
    Nothing,
    Then(Snapshot<Noting>),
}

/// An entry, and those that were noted before it.
#[cycle(noted)]
#[derive(Drop)]
pub struct Noting {
    pub before: Noted,
    pub entry: Entry,
}

/// The entries of a run, of which no memory is kept: contracts see the whole list.
#[derive(Drop)]
pub struct History {
    noted: Noted,
}

impl Model for History {
    ghost use Rattle.std.specs.Prelude.{List};
    ghost use Rattle.pm_journal.specs.declared.acts.Entry.{Entry};
    ghost use Rattle.pm_journal.specs.Histories.{entries_of};

    ghost Value = { List Entry };

    ghost view = { λ h. entries_of h.noted };
}

impl History {
    pub fn new() -> History
        ensures { result ≡ [] }
    {
        History {
            noted: Noted::Nothing,
        }
    }

    /// Puts the entry last, and answers its reply. The rest of the entry is dropped.
    pub fn note(&mut self, entry: Entry) -> Reply
        ensures entries { self.new ≡ self.old ++ entry ∷ [] }
        ensures reply { result ≡ entry.reply }
    {
        let noting = Noting {
            before: mem::replace(&mut self.noted, Noted::Nothing),
            entry,
        };
        self.noted = Noted::Then(Snapshot::of(&noting));
        let Noting { entry, .. } = noting;
        let Entry { reply, .. } = entry;
        reply
    }
}
