//! Actions that aren't done since a text of theirs can't be used.
ghost use Rattle.std.specs.Prelude.{◌≡◌, OnErr};
ghost use Rattle.pm_journal.specs.Executed.{Carries};
ghost use Rattle.pm_journal.specs.Plan.{Plan};
ghost use Rattle.pm_meaning.specs.Apart.{acted_with};
ghost use Rattle.pm_meaning.specs.Minds.{mind_of};
ghost use Rattle.pm_meaning.specs.Turns;
ghost use Rattle.pm_meaning.specs.Turns.{ActEnd};
ghost use Rattle.pm_recipe.specs.declared.tree.Flags.{Flags};
ghost use Rattle.pm_perform.specs.Refusals.{Refuses};
ghost use Rattle.pm_perform.specs.Undelivered.{Undelivered};

use pm_bytes::{Blob, Memory};
use pm_journal::{Effects, unusable_name, value_too_long};
use pm_meaning::{Acted, Cause, Run, tell};
use std::alloc::Global;

/// Why an action isn't done: a text has so many bytes, which are too many for a value; a name can't be used for this
/// cause, which is told of the text; or memory is wanting.
#[derive(Drop)]
pub enum Refusal<'a> {
    TooLong(u64),
    Unusable(Cause, &'a [u8]),
    Memory,
}

impl<'a> From<Memory> for Refusal<'a> {
    ghost use Rattle.pm_perform.specs.declared.refusing.Refusal.TheVariants.{Memory};

    ghost from_gives = { λ _ refusal. refusal ≡ Memory };

    fn from(_: Memory) -> Refusal<'a> {
        Refusal::Memory
    }
}

/// Tells why the action isn't done.
pub fn tell_refusal<D: Effects>(
    alloc: Global,
    run: &mut Run<D>,
    refusal: Refusal<'_>,
) -> Result<Acted, Memory>
    ensures carries { (plan : Plan ActEnd) → Refuses plan (mind_of run.old.process) refusal.entry
        → Carries plan (λ acted. acted_with acted (mind_of run.new.process)) result
        run.old.journal run.new.journal (D.told run.old.outside) (D.told run.new.outside) }
    ensures sure { (flags : Flags) → OnErr result (Undelivered flags run.old.journal run.new.journal) }
{
    match refusal {
        Refusal::TooLong(length) => overflow(alloc, run, length),
        Refusal::Unusable(cause, text) => refuse_act(alloc, run, cause, text),
        Refusal::Memory => Err(Memory),
    }
}

// A name can't be used, for this cause: this is told of the text, and the action isn't done.
fn refuse_act<D: Effects>(
    alloc: Global,
    run: &mut Run<D>,
    cause: Cause,
    text: &[u8],
) -> Result<Acted, Memory>
    ensures carries { Carries (Turns.refuse_act cause text.now (mind_of run.old.process))
        (λ acted. acted_with acted (mind_of run.new.process)) result
        run.old.journal run.new.journal (D.told run.old.outside) (D.told run.new.outside) }
    ensures same { run.new.process ≡ run.old.process }
{
    let line = unusable_name(alloc, text)?;
    tell(alloc, run, line)?;
    Ok(Acted::Failed(cause))
}

// A text has so many bytes, which are too many for a value: this is told, and PROCMAIL_OVERFLOW is set (procmailrc(5),
// "Environment").
fn overflow<D: Effects>(alloc: Global, run: &mut Run<D>, length: u64) -> Result<Acted, Memory>
    ensures carries { Carries (Turns.overflow_act length (mind_of run.old.process))
        (λ acted. acted_with acted (mind_of run.new.process)) result
        run.old.journal run.new.journal (D.told run.old.outside) (D.told run.new.outside) }
{
    let line = value_too_long(alloc, length)?;
    let mark = Blob::from_slice(alloc, b"yes")?;
    tell(alloc, run, line)?;
    run.process.vars.set(b"PROCMAIL_OVERFLOW", mark)?;
    Ok(Acted::Failed(Cause::Overflow { length }))
}
