//! The default mailboxes of a process that no recipe ended (procmail(1), "DESCRIPTION").
ghost use Rattle.std.specs.Prelude.{◌≡◌, ◌++◌, IfOk, OnOk, OnErr};
ghost use Rattle.pm_journal.specs.Executed.{Carries};
ghost use Rattle.pm_meaning.specs.Apart.{acted_with};
ghost use Rattle.pm_meaning.specs.Delivering;
ghost use Rattle.pm_meaning.specs.Minds.{mind_of};
ghost use Rattle.pm_meaning.specs.Running;
ghost use Rattle.pm_meaning.specs.Running.{unless_same};
ghost use Rattle.pm_meaning.specs.Turns.{is_for_good};
ghost use Rattle.pm_perform.specs.Undelivered.{Undelivered};
ghost use Rattle.pm_meaning.specs.declared.acted.Acted.TheVariants.{Failed};
ghost use Rattle.pm_meaning.specs.declared.acted.Cause.TheVariants.{NoName};

use crate::delivering::deliver_default;
use pm_bytes::{Blob, Memory};
use pm_journal::Effects;
use pm_meaning::{Acted, Cause, Run, value_or};
use pm_vars::Vars;
use std::alloc::Global;
use std::collections::VecDeque;

/// Delivers to DEFAULT, or to ORGMAIL where that is another mailbox and DEFAULT didn't get the mail. The answer is what
/// came of the last one that was tried; without one there is no name.
pub fn fall_back<D: Effects>(alloc: Global, run: &mut Run<D>) -> Result<Acted, Memory>
    ensures carries { Carries (Running.fall_back (mind_of run.old.process))
        (λ acted. acted_with acted (mind_of run.new.process)) result
        run.old.journal run.new.journal (D.told run.old.outside) (D.told run.new.outside) }
    ensures sure { OnErr result (Undelivered Delivering.no_flags run.old.journal run.new.journal) }
{
    let mailboxes = default_mailboxes(alloc, &run.process.vars)?;
    try_each(alloc, run, mailboxes)
}

/// DEFAULT and ORGMAIL, unless they are unset, empty or the same.
pub fn default_mailboxes(alloc: Global, vars: &Vars) -> Result<VecDeque<Blob>, Memory>
    ensures { IfOk result (λ mailboxes. mailboxes.items ≡ Running.default_mailboxes vars.now) }
{
    let mut mailboxes = VecDeque::new(alloc);
    let first = value_or(b"", b"DEFAULT", vars);
    push_other(alloc, first, b"", &mut mailboxes)?;
    let second = value_or(b"", b"ORGMAIL", vars);
    push_other(alloc, second, first, &mut mailboxes)?;
    Ok(mailboxes)
}

// A text that is neither empty nor the other one.
fn push_other(
    alloc: Global,
    text: &[u8],
    other: &[u8],
    mailboxes: &mut VecDeque<Blob>,
) -> Result<(), Memory>
    ensures { OnOk result (mailboxes.new.items ≡
        mailboxes.old.items ++ unless_same other.now text.now) }
{
    if !text.is_empty() && text != other {
        mailboxes.push_back(Blob::from_slice(alloc, text)?)?;
    }
    Ok(())
}

// Delivers to the first of these mailboxes that gets the mail.
fn try_each<D: Effects>(
    alloc: Global,
    run: &mut Run<D>,
    mut mailboxes: VecDeque<Blob>,
) -> Result<Acted, Memory>
    ensures carries { Carries (Delivering.try_each mailboxes.items (Failed NoName) (mind_of run.old.process))
        (λ acted. acted_with acted (mind_of run.new.process)) result
        run.old.journal run.new.journal (D.told run.old.outside) (D.told run.new.outside) }
    ensures sure { OnErr result (Undelivered Delivering.no_flags run.old.journal run.new.journal) }
{
    let mut acted = Acted::Failed(Cause::NoName);
    while let Some(mailbox) = mailboxes.pop_front() {
        acted = deliver_default(alloc, run, &mailbox)?;
        if is_delivered(acted) {
            return Ok(acted);
        }
    }
    Ok(acted)
}

/// Whether the mail was delivered for good.
pub fn is_delivered(acted: Acted) -> bool
    ensures { result ≡ is_for_good acted }
{
    matches!(acted, Acted::Delivered)
}
