//! Values that are too long.
ghost use Rattle.pm_journal.specs.Executed.{Carries};
ghost use Rattle.pm_journal.specs.LogText.{value_too_long_line};
ghost use Rattle.pm_meaning.specs.Changes.{overflowed};
ghost use Rattle.pm_meaning.specs.Minds.{mind_of};
ghost use Rattle.pm_meaning.specs.Turns.{GoesOn, say_then};
ghost use Rattle.pm_meaning.specs.Turning.{turn_of};

use crate::telling::tell;
use crate::{End, Run};
use pm_bytes::{Blob, Memory};
use pm_journal::{Asks, value_too_long};
use std::alloc::Global;

/// Tells of a value of so many bytes, and marks in PROCMAIL_OVERFLOW that there was one (procmailrc(5), "Environment").
pub fn skip_value<D: Asks>(
    alloc: Global,
    run: &mut Run<D>,
    length: u64,
) -> Result<Option<End>, Memory>
    ensures carries { let p = mind_of run.old.process in
        Carries (say_then p (value_too_long_line length) (GoesOn (overflowed p)))
        (λ end. turn_of end (mind_of run.new.process)) result
        run.old.journal run.new.journal (D.told run.old.outside) (D.told run.new.outside) }
{
    let line = value_too_long(alloc, length)?;
    let mark = Blob::from_slice(alloc, b"yes")?;
    tell(alloc, run, line)?;
    run.process.vars.set(b"PROCMAIL_OVERFLOW", mark)?;
    Ok(None)
}
