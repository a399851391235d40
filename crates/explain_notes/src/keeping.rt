//! An observer that keeps notes.
ghost use Rattle.std.specs.Prelude.{◌≡◌, []};

use crate::outcomes::copy_outcome;
use pm_bytes::{Memory, Name};
use pm_conds::{Note, Observer};
use pm_meaning::question::Outcome;
use std::alloc::Global;

/// What was heard of a run, in order.
#[derive(Drop)]
pub struct Notes {
    notes: Vec<Note>,
    alloc: Global,
}

impl Notes {
    /// Nothing was heard. It takes no memory.
    pub fn new(alloc: Global) -> Notes
        ensures { result.notes.items ≡ [] }
    {
        Notes {
            notes: Vec::new(alloc),
            alloc,
        }
    }

    pub fn as_slice(&self) -> &[Note]
        ensures { result.now ≡ self.now.notes.items }
    {
        self.notes.as_slice()
    }
}

impl Observer for Notes {
    ghost use Rattle.std.specs.Prelude.{Some};

    ghost heard = { λ o. Some o.notes.items };

    fn came_to(
        &mut self,
        rcfile: &Name,
        place: usize,
        admitted: bool,
        entries: usize,
    ) -> Result<(), Memory> {
        self.notes.push(Note::CameTo {
            rcfile: rcfile.copy(self.alloc)?,
            place,
            admitted,
            entries,
        })?;
        Ok(())
    }

    fn judged(&mut self, outcome: &Outcome, score: i32, entries: usize) -> Result<(), Memory> {
        self.notes.push(Note::Judged {
            outcome: copy_outcome(self.alloc, outcome)?,
            score,
            entries,
        })?;
        Ok(())
    }
}
