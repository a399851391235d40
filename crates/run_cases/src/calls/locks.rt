//! Lock files (pm_locks).
ghost use Rattle.std.specs.Prelude.{◌≡◌};
ghost use Rattle.pm_locks.specs.Steps.{IsAnswerToLock, IsOpenStep};

use crate::calls::failed::Failed;
use crate::calls::report::Report;
use crate::calls::world::{NOTHING, World, count_calls, make_host, remove_later};
use pm_bytes::Name;
use pm_host::{Aged, Host, Looked, Made, Removed};
use pm_locks::{GiveEnd, LockAnswer, LockCore, LockStep, give_lock, take_lock};
use pm_memory::MemoryHost;
use std::alloc::Global;

const LOCK: &str = "mbox.lock";

// The lock of others, with a length that may be forced.
const LOCKED: World<'static> = World {
    file: Some((LOCK, b"sixteen bytes...")),
    ..NOTHING
};

pub fn show(alloc: Global, report: &mut Report) {
    let long = Some((LOCK, b"seventeen bytes..".as_slice()));
    let old = World {
        moment: 2_000,
        ..LOCKED
    };
    let shown = show_waited(alloc, report);
    report.lines(shown);
    for world in [
        old,
        World { file: long, ..old },
        World {
            fails: [2, 0],
            ..LOCKED
        },
    ] {
        let shown = show_taken(alloc, report, world);
        report.lines(shown);
    }
    let shown = show_given(alloc, report);
    report.lines(shown);
    show_core(report);
}

// Others give the lock back in the second sleep.
fn show_waited(alloc: Global, report: &mut Report) -> Result<(), Failed> {
    let mut host = make_host(alloc, LOCKED)?;
    take_later(alloc, report, &mut host)
}

fn take_later(alloc: Global, report: &mut Report, host: &mut MemoryHost) -> Result<(), Failed> {
    let name = Name::read(alloc, LOCK.as_bytes())?;
    remove_later(alloc, host, name.copy(alloc)?)?;
    take(report, host, &name);
    Ok(())
}

fn show_taken(alloc: Global, report: &mut Report, world: World<'_>) -> Result<(), Failed> {
    let name = Name::read(alloc, LOCK.as_bytes())?;
    let mut host = make_host(alloc, world)?;
    take(report, &mut host, &name);
    Ok(())
}

fn take(report: &mut Report, host: &mut MemoryHost, name: &Name) {
    report.answer("take_lock", take_lock(host, name, 8, 1_024, 16, 1_000));
    report.answer("  calls, sleeps", count_calls(host));
    report.answer("  moment", host.now());
    report.file("  mbox.lock", host.file(LOCK));
}

// A lock that is there, that isn't, and whose removal fails.
fn show_given(alloc: Global, report: &mut Report) -> Result<(), Failed> {
    let name = Name::read(alloc, LOCK.as_bytes())?;
    let mut host = make_host(
        alloc,
        World {
            fails: [3, 0],
            ..LOCKED
        },
    )?;
    give_thrice(report, &mut host, &name);
    Ok(())
}

fn give_thrice(report: &mut Report, host: &mut MemoryHost, name: &Name) {
    give(report, host, name);
    give(report, host, name);
    give(report, host, name);
}

fn give(report: &mut Report, host: &mut MemoryHost, name: &Name) {
    report.word(
        "give_lock",
        match give_lock(host, name) {
            GiveEnd::Removed => "Removed",
            GiveEnd::Gone => "Gone",
            GiveEnd::Failed => "Failed",
        },
    );
}

// A lock that is forced, and made then.
fn show_core(report: &mut Report) {
    let mut core = LockCore::new(8, 1_024, 16, 1_000);
    for _ in 0..5 {
        advance(report, &mut core, Made::Exists);
    }
    advance(report, &mut core, Made::Made);
    report.answer("LockCore", core.next());
}

fn advance(report: &mut Report, core: &mut LockCore, made: Made) {
    let step = core.next();
    report.answer("LockCore", step);
    if !matches!(step, LockStep::Finish(_)) {
        core.heard(answer_to(step, made));
    }
}

fn answer_to(step: LockStep, made: Made) -> LockAnswer
    requires { IsOpenStep step }
    ensures { IsAnswerToLock step result }
{
    match step {
        LockStep::Create => LockAnswer::Create(made),
        LockStep::Age => LockAnswer::Age(Aged::Age(1_025)),
        LockStep::Look => LockAnswer::Look(Looked::File(16)),
        LockStep::Remove => LockAnswer::Remove(Removed::Removed),
        LockStep::Sleep(_) => LockAnswer::Slept,
        LockStep::Finish(_) => unreachable!(),
    }
}
