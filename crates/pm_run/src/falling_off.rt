//! A process that no statement ended delivers to its default mailbox (procmail(1), "DESCRIPTION").
ghost use Rattle.std.specs.Prelude.{◌≡◌, IfOk, OnErr, []};
ghost use Rattle.pm_journal.specs.Executed.{Carries};
ghost use Rattle.pm_journal.specs.Walking.{Go};
ghost use Rattle.pm_perform.specs.Undelivered.{Undelivered};
ghost use Rattle.pm_meaning.specs.Apart.{acted_with};
ghost use Rattle.pm_meaning.specs.Delivering.{no_flags};
ghost use Rattle.pm_meaning.specs.Delivering;
ghost use Rattle.pm_meaning.specs.Minds.{mind_of};
ghost use Rattle.pm_meaning.specs.Running.{Running, FallingOff, Over, step};
ghost use Rattle.pm_run.specs.Drafts.{IsDrafted};
ghost use Rattle.pm_run.specs.Stretches.{Walks};

use crate::draft::Draft;
use crate::drafting::renew;
use pm_bytes::{Blob, Memory};
use pm_journal::{Effects, no_delivery};
use pm_meaning::{Acted, End, Run, tell};
use pm_perform::{default_mailboxes, deliver_default, is_delivered};
use std::alloc::Global;
use std::collections::VecDeque;

/// Tries DEFAULT, and then ORGMAIL where it is another mailbox. The draft is that of the delivery's abstract.
pub fn fall_off<D: Effects>(
    alloc: Global,
    run: &mut Run<D>,
    draft: &mut Option<Draft>,
) -> Result<End, Memory>
    ensures walks { Walks (Running [] (mind_of run.old.process)) (λ end. Over end (mind_of run.new.process)) result
        run.old.journal run.new.journal (D.told run.old.outside) (D.told run.new.outside) }
{
    let mailboxes = default_mailboxes(alloc, &run.process.vars)?;
    try_each(alloc, run, mailboxes, draft)
}

// Delivers to the first of these mailboxes that takes the mail.
fn try_each<D: Effects>(
    alloc: Global,
    run: &mut Run<D>,
    mut mailboxes: VecDeque<Blob>,
    draft: &mut Option<Draft>,
) -> Result<End, Memory>
    ensures walks { Walks (FallingOff mailboxes.items (mind_of run.old.process))
        (λ end. Over end (mind_of run.new.process)) result
        run.old.journal run.new.journal (D.told run.old.outside) (D.told run.new.outside) }
{
    while let Some(mailbox) = mailboxes.pop_front() {
        let acted = try_mailbox(alloc, run, mailbox, draft)?;
        if is_delivered(acted) {
            return Ok(End::Delivered);
        }
    }
    lose(alloc, run)
}

// Delivers to the mailbox, once the draft of its abstract is there.
fn try_mailbox<D: Effects>(
    alloc: Global,
    run: &mut Run<D>,
    mailbox: Blob,
    draft: &mut Option<Draft>,
) -> Result<Acted, Memory>
    ensures carries { Carries (Delivering.deliver_default mailbox (mind_of run.old.process))
        (λ acted. acted_with acted (mind_of run.new.process)) result
        run.old.journal run.new.journal (D.told run.old.outside) (D.told run.new.outside) }
    ensures sure { OnErr result (Undelivered no_flags run.old.journal run.new.journal) }
    ensures drafted { IfOk result (λ _. IsDrafted draft.new (mind_of run.old.process)) }
{
    renew(alloc, &run.process, draft)?;
    deliver_default(alloc, run, &mailbox)
}

// No mailbox took the mail.
fn lose<D: Effects>(alloc: Global, run: &mut Run<D>) -> Result<End, Memory>
    ensures carries { Carries (step (FallingOff [] (mind_of run.old.process)))
        (λ end. Go (Over end (mind_of run.new.process))) result
        run.old.journal run.new.journal (D.told run.old.outside) (D.told run.new.outside) }
    ensures same { run.new.process ≡ run.old.process }
{
    let line = no_delivery(alloc)?;
    tell(alloc, run, line)?;
    Ok(End::FellOff)
}
