//! Actions of recipes, and default mailboxes (pm_actions).
ghost use Rattle.std.specs.Prelude.{◌≡◌, []};

use crate::calls::failed::Failed;
use crate::calls::minds::mind_with;
use crate::calls::report::Report;
use crate::calls::world::{NOTHING, World, make_host};
use pm_actions::{deliver_default, perform};
use pm_bytes::{Blob, Name};
use pm_journal::Journal;
use pm_meaning::{Mind, Shared};
use pm_memory::{MemoryHost, MemorySink};
use pm_recipe::{Recipe, Statement, read_rc};
use std::alloc::Global;

const MAIL: &[u8] = b"A: b\n\nhi\n";

// Rcfiles of one recipe, and what is amiss.
const RECIPES: &[(&[u8], World<'static>)] = &[
    (b":0\nm\n", NOTHING),
    (b":0 c:\nm\n", NOTHING),
    (
        b":0:\nm\n",
        World {
            file: Some(("/home/joe/m.lock", b"another's lock")),
            fails: [2, 0],
            ..NOTHING
        },
    ),
    (b":0\n$NONE\n", NOTHING),
    (b":0\n|\n", NOTHING),
    (
        b":0 f\n| prog\n",
        World {
            fails: [1, 0],
            ..NOTHING
        },
    ),
];

// DEFAULT and ORGMAIL.
const DEFAULTS: &[(&[u8], &[u8])] = &[(b"", b""), (b"d", b"o"), (b"\xff", b"o")];

pub fn show(alloc: Global, report: &mut Report) {
    for (rcfile, world) in RECIPES {
        let shown = act(alloc, report, rcfile, *world);
        report.lines(shown);
    }
    for (first, second) in DEFAULTS {
        let shown = fall_back(alloc, report, first, second);
        report.lines(shown);
    }
}

// The action of the recipe that begins this rcfile.
fn act(alloc: Global, report: &mut Report, rcfile: &[u8], world: World<'_>) -> Result<(), Failed> {
    let rc = read_rc(alloc, rcfile)?;
    match rc.statements.as_slice().first() {
        Some(Statement::Recipe(recipe)) => act_on(alloc, report, recipe, world),
        _ => Err(Failed::Call),
    }
}

fn act_on(
    alloc: Global,
    report: &mut Report,
    recipe: &Recipe,
    world: World<'_>,
) -> Result<(), Failed> {
    let mut shared = shared(alloc)?;
    let mut mind = mind_with(alloc, MAIL)?;
    let shown = act_in(alloc, report, recipe, world, &mut mind, &mut shared);
    drop(mind);
    shown
}

fn act_in(
    alloc: Global,
    report: &mut Report,
    recipe: &Recipe,
    world: World<'_>,
    mind: &mut Mind,
    shared: &mut Shared,
) -> Result<(), Failed>
    requires { mind.old.locks.names ≡ [] }
{
    let mut out = MemorySink::new(alloc, None)?;
    let mut err = MemorySink::new(alloc, None)?;
    let mut host = make_host(alloc, world)?;
    let mut journal = Journal::new(alloc);
    let performed = perform(
        alloc,
        recipe,
        mind,
        shared,
        &mut host,
        &mut out,
        &mut err,
        &mut journal,
    );
    report.answer("perform", performed);
    report.file("  m", host.file("/home/joe/m"));
    drop(host);
    report.bytes("  out", out.written());
    tell(report, mind, &err, &journal);
    drop(journal);
    Ok(())
}

// What a delivery leaves, but for the mailbox.
fn tell(report: &mut Report, mind: &Mind, err: &MemorySink, journal: &Journal) {
    report.bytes("  err", err.written());
    report.answer("  entries", journal.entries().len());
    match &mind.last {
        None => report.word("  last", "None"),
        Some(last) => {
            report.bytes("  last", last.folder.as_slice());
            report.answer("  length", last.length);
        }
    }
}

fn fall_back(
    alloc: Global,
    report: &mut Report,
    first: &[u8],
    second: &[u8],
) -> Result<(), Failed> {
    let mut mind = mind_with(alloc, MAIL)?;
    mind.vars.set(b"DEFAULT", Blob::from_slice(alloc, first)?)?;
    mind.vars.set(b"ORGMAIL", Blob::from_slice(alloc, second)?)?;
    let mut shared = shared(alloc)?;
    fall_in(alloc, report, &mut mind, &mut shared)
}

fn fall_in(
    alloc: Global,
    report: &mut Report,
    mind: &mut Mind,
    shared: &mut Shared,
) -> Result<(), Failed>
    requires { mind.old.locks.names ≡ [] }
{
    let mut err = MemorySink::new(alloc, None)?;
    let mut host = make_host(alloc, NOTHING)?;
    let mut journal = Journal::new(alloc);
    let performed = deliver_default(alloc, mind, shared, &mut host, &mut err, &mut journal, 7);
    report.answer("deliver_default", performed);
    print_defaults(report, &host);
    drop(host);
    tell(report, mind, &err, &journal);
    drop(journal);
    Ok(())
}

fn print_defaults(report: &mut Report, host: &MemoryHost) {
    report.file("  d", host.file("/home/joe/d"));
    report.file("  o", host.file("/home/joe/o"));
}

fn shared(alloc: Global) -> Result<Shared, Failed> {
    Ok(Shared {
        openings: 0,
        clones: 0,
        placed: 0,
        host_name: Name::read(alloc, b"here")?,
    })
}
