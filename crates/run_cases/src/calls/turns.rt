//! Two deliveries in turns (pm_turns).
ghost use Rattle.std.specs.Prelude.{◌≡◌, ◌≤◌, ◌<◌, IfOk, length};
ghost use Rattle.pm_turns.specs.Workable.{IsTriable};

use crate::calls::failed::Failed;
use crate::calls::report::Report;
use pm_bytes::{Blob, Memory};
use pm_turns::{Turns, Will, Writer};
use std::alloc::Global;

pub fn show(alloc: Global, report: &mut Report) {
    let shown = show_two(alloc, report);
    report.lines(shown);
    let shown = show_forced(alloc, report);
    report.lines(shown);
}

// The first writer's append fails after a byte and is cut back, while the second waits; then that delivers.
fn show_two(alloc: Global, report: &mut Report) -> Result<(), Failed> {
    let mut turns = begin(alloc, 0, false)?;
    play(
        report,
        &mut turns,
        &[(false, 0), (true, 0), (false, 0), (false, 1)],
    );
    play(report, &mut turns, &[(true, 0), (true, 0)]);
    report.answer("Turns::step", turns.step(0, Will::Fail));
    play(report, &mut turns, &[(false, 0), (false, 0), (false, 0)]);
    play(
        report,
        &mut turns,
        &[(true, 0), (true, 0), (true, 0), (true, 9), (true, 0)],
    );
    play(report, &mut turns, &[(true, 0), (true, 0)]);
    Ok(())
}

// A lock that is older than the limit is forced.
fn show_forced(alloc: Global, report: &mut Report) -> Result<(), Failed> {
    let mut turns = begin(alloc, 5, true)?;
    play(
        report,
        &mut turns,
        &[(false, 0), (false, 6), (false, 0), (false, 0)],
    );
    play(report, &mut turns, &[(true, 0)]);
    Ok(())
}

// Two writers of a mailbox, whose lock is there or isn't, and is forced above this age, if that isn't 0.
fn begin(alloc: Global, limit: u64, locked: bool) -> Result<Turns, Memory>
    ensures { IfOk result (λ turns. length turns.writers ≡ 2) }
{
    let first = writer(alloc, b"aa", limit)?;
    let second = writer(alloc, b"b", limit)?;
    let mailbox = Blob::from_slice(alloc, b"x")?;
    let writers = Vec::from_array(alloc, [first, second])?;
    Turns::new(alloc, Some(mailbox), locked, writers)
}

fn writer(alloc: Global, piece: &[u8], limit: u64) -> Result<Writer, Memory>
    ensures { IfOk result (λ writer. IsTriable writer) }
{
    Ok(Writer {
        piece: Blob::from_slice(alloc, piece)?,
        sleep: 1,
        limit,
        suspend: 1,
        tries: 3,
    })
}

// Each event is the second writer's or the first one's, whose call is served with a number.
fn play(report: &mut Report, turns: &mut Turns, events: &[(bool, u64)])
    requires { length turns.old.writers ≡ 2 }
    ensures { length turns.new.writers ≡ 2 }
{
    for (second, n) in events {
        let writer = if *second { 1 } else { 0 };
        report.answer("Turns::step", turns.step(writer, Will::Serve(*n)));
    }
}
