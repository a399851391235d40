//! Whether the conditions of a recipe hold, over a host and the sink for errors (procmailrc(5), "Conditions").
ghost use Rattle.std.specs.Prelude.{◌≡◌, [], false, IfOk};
ghost use Rattle.pm_host.specs.Streams.{StreamView};
ghost use Rattle.pm_journal.specs.Entries.{view_of};
ghost use Rattle.pm_journal.specs.Executed.{Carries};
ghost use Rattle.pm_journal.specs.Held.{Keeping};
ghost use Rattle.pm_journal.specs.LogText.{defective_condition_line, value_too_long_line};
ghost use Rattle.pm_meaning.specs.Changes.{overflowed};
ghost use Rattle.pm_meaning.specs.Judging.{holding, held_with, told_judgement};
ghost use Rattle.pm_meaning.specs.Apart.{judged_of};
ghost use Rattle.pm_meaning.specs.Minds.{mind_of};
ghost use Rattle.pm_meaning.specs.Turns.{say_then};
ghost use Rattle.pm_conds.specs.Holding.{Holds, holding_alone, verdict_of};
ghost use Rattle.pm_conds.specs.Notes.{HearsHeld};

use crate::asked::Asked;
use crate::conditions::judge;
use crate::observer::{NoObserver, Observer};
use core::mem::replace_with;
use pm_bytes::{Blob, Memory, Name};
use pm_host::{Host, Sink};
use pm_journal::{AllEntries, Asks, Entries, Journal, defective_condition, value_too_long};
use pm_meaning::question::Judgement;
use pm_meaning::{Mind, Paused, Run, Shared, tell};
use pm_recipe::{Condition, Flags};
use std::alloc::Global;

/// Whether a recipe's conditions match it. After `Memory` some of their acts were done and noted, or none.
#[derive(Clone, Copy, Debug, PartialEq, Eq)]
pub enum Verdict {
    Matched,
    Unmatched,
    Memory,
}

/// Judges the conditions in order, and tells the first that is none, or whose value is too long. The score and MATCH
/// are in `mind` then. `out` is the count of faults of the run's standard output, which isn't touched.
pub fn holds<H: Host, E: Sink>(
    alloc: Global,
    conditions: &[Condition],
    flags: &Flags,
    mind: &mut Mind,
    host: &mut H,
    err: &mut E,
    journal: &mut Journal,
    out: u64,
) -> Verdict
    requires keeping { Keeping journal.old mind.old.locks.names }
    ensures holds { (told : StreamView) → told.faults ≡ out →
        Holds result conditions.now flags.now (judged_of mind.old) (judged_of mind.new) journal.old journal.new
        (view_of (H.told host.old) told (E.told err.old)) (view_of (H.told host.new) told (E.told err.new)) }
    ensures keeping { Keeping journal.new mind.new.locks.names }
    ensures rcfiles { mind.new.rcfiles ≡ mind.old.rcfiles }
{
    let mut shared = nothing_shared(alloc);
    match mind.pause(alloc, &shared, journal) {
        Err(Memory) => Verdict::Memory,
        Ok(paused) => {
            let mut asked = Asked { host, err, out };
            let Held { held, paused } = hold_lent(alloc, conditions, *flags, paused, &mut asked);
            mind.resume(paused, &mut shared, journal);
            answered(held)
        }
    }
}

// Conditions look at nothing that the processes of a run share.
fn nothing_shared(alloc: Global) -> Shared
    ensures host { result.host_name ≡ [] }
    ensures placed { result.placed ≡ 0 }
{
    Shared {
        openings: 0,
        clones: 0,
        placed: 0,
        host_name: Name::from_text(String::new(alloc)),
    }
}

fn answered(held: Result<bool, Memory>) -> Verdict
    ensures { result ≡ verdict_of held }
{
    match held {
        Ok(true) => Verdict::Matched,
        Ok(false) => Verdict::Unmatched,
        Err(_) => Verdict::Memory,
    }
}

// Whether the conditions hold, with the process and the journal afterwards.
struct Held<K: Entries> {
    held: Result<bool, Memory>,
    paused: Paused<K>,
}

// Judges them over objects that are lent; they are the same ones afterwards.
fn hold_lent<'a, H: Host, E: Sink>(
    alloc: Global,
    conditions: &[Condition],
    flags: Flags,
    paused: Paused<AllEntries>,
    asked: &mut Asked<'a, H, E>,
) -> Held<AllEntries>
    ensures carries { (told : StreamView) → told.faults ≡ asked.old.out →
        Carries (holding conditions.now flags (mind_of paused.process))
        (λ held. held_with held (mind_of result.paused.process)) result.held paused.journal result.paused.journal
        (view_of (H.told asked.old.host.now) told (E.told asked.old.err.now))
        (view_of (H.told asked.new.host.now) told (E.told asked.new.err.now)) }
    ensures host { asked.new.host.ghost_name ≡ asked.old.host.ghost_name }
    ensures err { asked.new.err.ghost_name ≡ asked.old.err.ghost_name }
{
    hold_apart(alloc, conditions, flags, paused, asked)
}

// The same over whatever does the acts.
fn hold_apart<D: Asks>(
    alloc: Global,
    conditions: &[Condition],
    flags: Flags,
    paused: Paused<D::Kept>,
    outside: &mut D,
) -> Held<D::Kept>
    ensures carries { Carries (holding conditions.now flags (mind_of paused.process))
        (λ held. held_with held (mind_of result.paused.process)) result.held
        paused.journal result.paused.journal (D.told outside.old) (D.told outside.new) }
{
    let asking = Asking {
        alloc,
        conditions,
        flags,
        paused,
    };
    replace_with(outside, asking, hold_all)
}

// What is asked of a process.
struct Asking<'a, K: Entries> {
    alloc: Global,
    conditions: &'a [Condition],
    flags: Flags,
    paused: Paused<K>,
}

// The same, while what does the acts is the run's own.
fn hold_all<D: Asks>(outside: D, asking: Asking<'_, D::Kept>) -> (D, Held<D::Kept>)
    ensures carries { Carries
        (holding asking.entry.conditions.now asking.entry.flags (mind_of asking.entry.paused.process))
        (λ held. held_with held (mind_of result.1.paused.process)) result.1.held
        asking.entry.paused.journal result.1.paused.journal (D.told outside) (D.told result.0) }
{
    let Asking {
        alloc,
        conditions,
        flags,
        paused,
    } = asking;
    let Paused { process, journal } = paused;
    let mut run = Run {
        process,
        journal,
        outside,
    };
    let held = conditions_hold(alloc, &mut run, conditions, flags, &mut NoObserver);
    let Run {
        process,
        journal,
        outside,
    } = run;
    let paused = Paused { process, journal };
    (outside, Held { held, paused })
}

/// As [`holds`], for a run: whether the conditions hold; a defect is told. The observer hears what came of each.
pub fn conditions_hold<D: Asks, N: Observer>(
    alloc: Global,
    run: &mut Run<D>,
    conditions: &[Condition],
    flags: Flags,
    observer: &mut N,
) -> Result<bool, Memory>
    ensures carries { Carries (holding conditions.now flags (mind_of run.old.process))
        (λ held. held_with held (mind_of run.new.process)) result
        run.old.journal run.new.journal (D.told run.old.outside) (D.told run.new.outside) }
    ensures hears { IfOk result (λ held. HearsHeld conditions.now flags (mind_of run.old.process)
        (held_with held (mind_of run.new.process)) run.old.journal run.new.journal
        (N.heard observer.old) (N.heard observer.new)) }
{
    let judgement = judge(alloc, run, conditions, flags, observer)?;
    tell_judgement(alloc, run, judgement)
}

// Whether they hold; a defect is told.
fn tell_judgement<D: Asks>(
    alloc: Global,
    run: &mut Run<D>,
    judgement: Judgement,
) -> Result<bool, Memory>
    ensures carries { Carries (told_judgement judgement (mind_of run.old.process))
        (λ held. held_with held (mind_of run.new.process)) result
        run.old.journal run.new.journal (D.told run.old.outside) (D.told run.new.outside) }
{
    match judgement {
        Judgement::Matched => Ok(true),
        Judgement::Unmatched => Ok(false),
        Judgement::Defective(text) => tell_defect(alloc, run, text),
        Judgement::TooLong(length) => tell_long(alloc, run, length),
    }
}

// A condition that is none doesn't hold.
fn tell_defect<D: Asks>(alloc: Global, run: &mut Run<D>, text: Blob) -> Result<bool, Memory>
    ensures carries { let p = mind_of run.old.process in
        Carries (say_then p (defective_condition_line text) (held_with false p)) (λ held. held_with held p) result
        run.old.journal run.new.journal (D.told run.old.outside) (D.told run.new.outside) }
    ensures same { run.new.process ≡ run.old.process }
{
    let line = defective_condition(alloc, text.as_slice())?;
    tell(alloc, run, line)?;
    Ok(false)
}

// One whose value is too long doesn't hold, and PROCMAIL_OVERFLOW is set.
fn tell_long<D: Asks>(alloc: Global, run: &mut Run<D>, length: u64) -> Result<bool, Memory>
    ensures carries { let p = mind_of run.old.process in
        Carries (say_then p (value_too_long_line length) (held_with false (overflowed p)))
        (λ held. held_with held (mind_of run.new.process)) result
        run.old.journal run.new.journal (D.told run.old.outside) (D.told run.new.outside) }
{
    let line = value_too_long(alloc, length)?;
    let mark = Blob::from_slice(alloc, b"yes")?;
    tell(alloc, run, line)?;
    run.process.vars.set(b"PROCMAIL_OVERFLOW", mark)?;
    Ok(false)
}
