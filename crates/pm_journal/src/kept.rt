//! What a journal keeps of its entries: all of them, or what a run asks of the last one.
ghost use Rattle.std.specs.Prelude.{◌≡◌, ◌+◌, ◌<◌, ◌≤◌, [], ◌∷◌, ◌++◌, length, OnOk, OnErr, option_copied};
ghost use Rattle.pm_journal.specs.JournalState.{JournalState};
ghost use Rattle.pm_journal.specs.Outcomes;

use crate::history::History;
use crate::{Entry, Reply};
use pm_bytes::Memory;
use std::alloc::Global;

/// The entries of a journal, as far as they are kept, and room for more. Contracts see all of them.
pub trait Entries: Drop {
    ghost state: { Self → JournalState };

    /// It takes no memory.
    fn none(alloc: Global) -> Self
        ensures { (state result).entries ≡ [] };

    /// Makes the spare room at least this count. It takes memory only where there is less.
    fn reserve(&mut self, count: usize) -> Result<(), Memory>
        ensures same { (state self.new).entries ≡ (state self.old).entries }
        ensures ok { OnOk result (count ≤ (state self.new).room) }
        ensures full { OnErr result ((state self.old).room < count) }
        ensures err { OnErr result (state self.new ≡ state self.old) };

    /// Puts the entry last. It takes one off the spare room, and no memory.
    fn note(&mut self, entry: Entry)
        requires { 0 < (state self.old).room }
        ensures entries { (state self.new).entries ≡ (state self.old).entries ++ entry ∷ [] }
        ensures room { (state self.new).room + 1 ≡ (state self.old).room };

    /// How many entries there are.
    fn len(&self) -> usize
        ensures { result ≡ length (state self.now).entries };

    /// The reply of the last entry.
    fn last_reply(&self) -> Option<&Reply>
        ensures { option_copied result ≡ Outcomes.last_reply (state self.now).entries };
}

/// All entries.
#[derive(Drop)]
pub struct AllEntries {
    noted: Vec<Entry>,
}

impl AllEntries {
    pub fn as_slice(&self) -> &[Entry]
        ensures { result.now ≡ self.now.noted.items }
    {
        self.noted.as_slice()
    }
}

impl Entries for AllEntries {
    ghost use Rattle.std.specs.Prelude.{◌-◌, vec_len, vec_capacity};

    ghost state = { λ a. record { entries = a.noted.items; room = vec_capacity a.noted - vec_len a.noted } };

    fn none(alloc: Global) -> AllEntries {
        AllEntries {
            noted: Vec::new(alloc),
        }
    }

    fn reserve(&mut self, count: usize) -> Result<(), Memory> {
        self.noted.try_reserve_exact(count)?;
        Ok(())
    }

    fn note(&mut self, entry: Entry) {
        self.noted.push_reserved(entry);
    }

    fn len(&self) -> usize {
        self.noted.len()
    }

    fn last_reply(&self) -> Option<&Reply> {
        match self.noted.as_slice().last() {
            Some(entry) => Some(&entry.reply),
            None => None,
        }
    }
}

/// The reply of the last entry alone: what a run takes in memory doesn't grow with its acts.
#[derive(Drop)]
pub struct LastReply {
    history: History,
    reply: Option<Reply>,
    count: usize,
    room: usize,
    ghost last: { reply ≡ Outcomes.last_reply history },
    ghost counted: { count ≡ length history },
    ghost fits: { count + room ≤ 18446744073709551615 },
}

impl Entries for LastReply {
    ghost state = { λ l. record { entries = l.history; room = l.room } };

    fn none(alloc: Global) -> LastReply {
        let _ = alloc;
        LastReply {
            history: History::new(),
            reply: None,
            count: 0,
            room: 0,
        }
    }

    fn reserve(&mut self, count: usize) -> Result<(), Memory> {
        if self.room < count {
            if usize::MAX - self.count < count {
                return Err(Memory);
            }
            self.room = count;
        }
        Ok(())
    }

    fn note(&mut self, entry: Entry) {
        self.reply = Some(self.history.note(entry));
        self.count += 1;
        self.room -= 1;
    }

    fn len(&self) -> usize {
        self.count
    }

    fn last_reply(&self) -> Option<&Reply> {
        self.reply.as_ref()
    }
}
