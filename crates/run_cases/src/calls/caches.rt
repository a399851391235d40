//! The cache of identifiers (formail_extra).
ghost use Rattle.std.specs.Prelude.{◌≤◌, All};
ghost use Rattle.formail_extra.specs.Cache.{IsShortId};

use crate::calls::failed::Failed;
use crate::calls::report::Report;
use crate::calls::world::{NOTHING, World, count_calls, make_host};
use formail_extra::{CacheEnd, cache_step};
use pm_bytes::{Blob, Name};
use pm_host::Host;
use pm_memory::MemoryHost;
use std::alloc::Global;

const CACHE: World<'static> = World {
    file: Some(("c", b"<a@x>\n")),
    ..NOTHING
};

const OPEN: World<'static> = World {
    file: Some(("c", b"<a@")),
    ..NOTHING
};

const OLD: World<'static> = World {
    file: Some(("c.lock", b"")),
    ..NOTHING
};

const LOCKED: World<'static> = World {
    file: Some(("c.lock", b"seventeen bytes..")),
    ..NOTHING
};

const FOLDER: World<'static> = World {
    folder: Some("c"),
    ..NOTHING
};

// Where a mail with another identifier is held.
const NEW: &[World<'static>] = &[
    CACHE,
    OPEN,
    OLD,
    LOCKED,
    FOLDER,
    World {
        fails: [6, 0],
        ..CACHE
    },
];

pub fn show(alloc: Global, report: &mut Report) {
    let shown = hold_known(alloc, report);
    report.lines(shown);
    let shown = hold_nameless(alloc, report);
    report.lines(shown);
    let shown = hold_two(alloc, report);
    report.lines(shown);
    let shown = hold_new(alloc, report, CACHE, 6);
    report.lines(shown);
    for world in NEW {
        let shown = hold_new(alloc, report, *world, 8_192);
        report.lines(shown);
    }
}

// A mail with an identifier that the cache has.
fn hold_known(alloc: Global, report: &mut Report) -> Result<(), Failed> {
    let id = Blob::from_slice(alloc, b"<a@x>")?;
    hold(alloc, report, CACHE, 8_192, &[Some(id)])
}

// One without an identifier.
fn hold_nameless(alloc: Global, report: &mut Report) -> Result<(), Failed> {
    hold(alloc, report, CACHE, 8_192, &[None])
}

// One with another identifier.
fn hold_new(alloc: Global, report: &mut Report, world: World<'_>, most: u64) -> Result<(), Failed>
    requires { most ≤ 1048576 }
{
    let id = Blob::from_slice(alloc, b"<b@x>")?;
    hold(alloc, report, world, most, &[Some(id)])
}

// Two mails with one identifier.
fn hold_two(alloc: Global, report: &mut Report) -> Result<(), Failed> {
    let first = Blob::from_slice(alloc, b"<b@x>")?;
    let second = Blob::from_slice(alloc, b"<b@x>")?;
    hold(alloc, report, NOTHING, 8_192, &[Some(first), Some(second)])
}

fn hold(
    alloc: Global,
    report: &mut Report,
    world: World<'_>,
    most: u64,
    ids: &[Option<Blob>],
) -> Result<(), Failed>
    requires most { most ≤ 1048576 }
    requires ids { All IsShortId ids.now }
{
    let name = Name::read(alloc, b"c")?;
    let mut host = make_host(alloc, world)?;
    print_end(report, cache_step(alloc, &mut host, &name, most, ids));
    print_host(report, &mut host);
    Ok(())
}

fn print_host(report: &mut Report, host: &mut MemoryHost) {
    report.file("  c", host.file("c"));
    report.file("  c.lock", host.file("c.lock"));
    report.answer("  calls, sleeps", count_calls(host));
    report.answer("  moment", host.now());
}

fn print_end(report: &mut Report, end: CacheEnd) {
    match end {
        CacheEnd::Kept(kept) => report.answer("cache_step, Kept", kept.as_slice()),
        CacheEnd::Busy => report.word("cache_step", "Busy"),
        CacheEnd::IsFolder => report.word("cache_step", "IsFolder"),
        CacheEnd::Failed => report.word("cache_step", "Failed"),
        CacheEnd::Memory => report.word("cache_step", "Memory"),
        CacheEnd::Raced => report.word("cache_step", "Raced"),
    }
}
