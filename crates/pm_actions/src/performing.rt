//! Recipes' actions and the default mailboxes, over a host and its sinks (procmailrc(5), "Recipe action line").
ghost use Rattle.std.specs.Prelude.{◌≡◌, OnErr};
ghost use Rattle.pm_host.specs.Streams.{StreamView};
ghost use Rattle.pm_journal.specs.Entries.{view_of};
ghost use Rattle.pm_journal.specs.Executed.{Carries};
ghost use Rattle.pm_journal.specs.Held.{Keeping};
ghost use Rattle.pm_meaning.specs.Apart.{acted_with};
ghost use Rattle.pm_meaning.specs.Delivering.{no_flags};
ghost use Rattle.pm_meaning.specs.Minds.{mind_of};
ghost use Rattle.pm_meaning.specs.Running.{fall_back};
ghost use Rattle.pm_perform.specs.Undelivered.{Undelivered};
ghost use Rattle.pm_actions.specs.Performing.{Performs, IsMemory, state_in};
ghost use Rattle.pm_actions.specs.Works.{action_alone, action_of, fallback_alone};

use crate::performed::{Performed, answered};
use crate::work::{Done, Work, do_work};
use pm_bytes::Memory;
use pm_host::{Host, Sink};
use pm_journal::{AllEntries, Journal};
use pm_meaning::{Mind, Paused, Shared};
use pm_objects::{Objects, Untouched, lend};
use pm_recipe::Recipe;
use std::alloc::Global;
use std::marker::PhantomData;

/// Does the action of a recipe whose flags and conditions admit it. One with a block isn't done here: nothing is done
/// then, and the answer is `Went`. After `Memory` the mail wasn't delivered for good, but for what `Undelivered` names.
pub fn perform<H: Host, O: Sink, E: Sink>(
    alloc: Global,
    recipe: &Recipe,
    mind: &mut Mind,
    shared: &mut Shared,
    host: &mut H,
    out: &mut O,
    err: &mut E,
    journal: &mut Journal,
) -> Performed
    requires keeping { Keeping journal.old mind.old.locks.names }
    ensures performs { Performs result (action_alone recipe.now (state_in mind.old shared.old))
        (state_in mind.new shared.new) journal.old journal.new
        (view_of (H.told host.old) (O.told out.old) (E.told err.old))
        (view_of (H.told host.new) (O.told out.new) (E.told err.new)) }
    ensures sure { IsMemory result → Undelivered recipe.now.flags journal.old journal.new }
    ensures keeping { Keeping journal.new mind.new.locks.names }
    ensures rcfiles { mind.new.rcfiles ≡ mind.old.rcfiles }
    ensures counts { (shared.new.openings ≡ shared.old.openings) × (shared.new.clones ≡ shared.old.clones) }
{
    match mind.pause(alloc, shared, journal) {
        Err(Memory) => Performed::Memory,
        Ok(paused) => {
            let mut objects = lend(host, out, err);
            let Done { acted, paused } = act_lent(alloc, recipe, paused, &mut objects);
            mind.resume(paused, shared, journal);
            answered(acted)
        }
    }
}

// The recipe's action, over objects that are lent; they are the same ones afterwards.
fn act_lent<'a, H: Host, O: Sink, E: Sink>(
    alloc: Global,
    recipe: &Recipe,
    paused: Paused<AllEntries>,
    objects: &mut Objects<'a, H, &'a mut O, E>,
) -> Done<AllEntries>
    ensures carries { Carries (action_of recipe.now (mind_of paused.process))
        (λ acted. acted_with acted (mind_of result.paused.process)) result.acted
        paused.journal result.paused.journal
        (view_of (H.told objects.old.host.now) (O.told objects.old.out.now) (E.told objects.old.err.now))
        (view_of (H.told objects.new.host.now) (O.told objects.new.out.now) (E.told objects.new.err.now)) }
    ensures sure { OnErr result.acted (Undelivered recipe.now.flags paused.journal result.paused.journal) }
    ensures host { objects.new.host.ghost_name ≡ objects.old.host.ghost_name }
    ensures out { objects.new.out.ghost_name ≡ objects.old.out.ghost_name }
    ensures err { objects.new.err.ghost_name ≡ objects.old.err.ghost_name }
{
    do_work(alloc, Work::Action(recipe), paused, objects)
}

/// Delivers to DEFAULT, or to ORGMAIL where DEFAULT doesn't get the mail (procmail(1), "DESCRIPTION"). That no mailbox
/// got it isn't logged here. `out` is the count of faults of the run's standard output, which isn't touched.
pub fn deliver_default<H: Host, E: Sink>(
    alloc: Global,
    mind: &mut Mind,
    shared: &mut Shared,
    host: &mut H,
    err: &mut E,
    journal: &mut Journal,
    out: u64,
) -> Performed
    requires keeping { Keeping journal.old mind.old.locks.names }
    ensures performs { (told : StreamView) → told.faults ≡ out →
        Performs result (fallback_alone (state_in mind.old shared.old))
        (state_in mind.new shared.new) journal.old journal.new
        (view_of (H.told host.old) told (E.told err.old)) (view_of (H.told host.new) told (E.told err.new)) }
    ensures sure { IsMemory result → Undelivered no_flags journal.old journal.new }
    ensures keeping { Keeping journal.new mind.new.locks.names }
    ensures rcfiles { mind.new.rcfiles ≡ mind.old.rcfiles }
    ensures counts { (shared.new.openings ≡ shared.old.openings) × (shared.new.clones ≡ shared.old.clones) }
{
    match mind.pause(alloc, shared, journal) {
        Err(Memory) => Performed::Memory,
        Ok(paused) => {
            let mut objects = Objects {
                host,
                out: Untouched { faults: out },
                err,
                kept: PhantomData,
            };
            let Done { acted, paused } = fall_back_lent(alloc, paused, &mut objects);
            mind.resume(paused, shared, journal);
            answered(acted)
        }
    }
}

// The default mailboxes, over objects that are lent; they are the same ones afterwards.
fn fall_back_lent<'a, H: Host, E: Sink>(
    alloc: Global,
    paused: Paused<AllEntries>,
    objects: &mut Objects<'a, H, Untouched, E>,
) -> Done<AllEntries>
    ensures carries { (told : StreamView) → told.faults ≡ objects.old.out.faults →
        Carries (fall_back (mind_of paused.process))
        (λ acted. acted_with acted (mind_of result.paused.process)) result.acted
        paused.journal result.paused.journal
        (view_of (H.told objects.old.host.now) told (E.told objects.old.err.now))
        (view_of (H.told objects.new.host.now) told (E.told objects.new.err.now)) }
    ensures sure { OnErr result.acted (Undelivered no_flags paused.journal result.paused.journal) }
    ensures host { objects.new.host.ghost_name ≡ objects.old.host.ghost_name }
    ensures err { objects.new.err.ghost_name ≡ objects.old.err.ghost_name }
{
    do_work(alloc, Work::Fallback, paused, objects)
}
