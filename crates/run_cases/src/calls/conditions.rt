//! Conditions of a recipe over a mail (pm_conds).
ghost use Rattle.std.specs.Prelude.{◌≡◌, []};

use crate::calls::failed::Failed;
use crate::calls::minds::mind_with;
use crate::calls::report::Report;
use crate::calls::world::{NOTHING, make_host};
use pm_bytes::Blob;
use pm_conds::holds;
use pm_journal::Journal;
use pm_meaning::Mind;
use pm_memory::{MemoryHost, MemorySink};
use pm_recipe::{Recipe, Statement, read_rc};
use std::alloc::Global;

const LINES: &[u8] = b":0\n* -2^0\n* 1^1 B ?? ^.*$\nm\n";

// Rcfiles of one recipe, and mails.
const CASES: &[(&[u8], &[u8])] = &[
    (LINES, b"A: b\n\na\nb\n"),
    (LINES, b"A: b\n\na\nb\nc\n"),
    (b":0\n* 2147483647^0\n* ? prog\nm\n", b"A: b\n\n"),
    (
        b":0\n* ^Subject:.*\\/[0-9]+\nm\n",
        b"Subject: 12 and 345\n\n",
    ),
    (b":0\n* [a\n* ? prog\nm\n", b"A: b\n\n"),
];

pub fn show(alloc: Global, report: &mut Report) {
    for (rcfile, mail) in CASES {
        let shown = judge(alloc, report, rcfile, mail);
        report.lines(shown);
    }
}

// The conditions of the recipe that begins this rcfile, over this mail.
fn judge(alloc: Global, report: &mut Report, rcfile: &[u8], mail: &[u8]) -> Result<(), Failed> {
    let rc = read_rc(alloc, rcfile)?;
    judge_first(alloc, report, rc.statements.as_slice(), mail)
}

fn judge_first(
    alloc: Global,
    report: &mut Report,
    statements: &[Statement],
    mail: &[u8],
) -> Result<(), Failed> {
    match statements.first() {
        Some(Statement::Recipe(recipe)) => judge_mail(alloc, report, recipe, mail),
        _ => Err(Failed::Call),
    }
}

fn judge_mail(
    alloc: Global,
    report: &mut Report,
    recipe: &Recipe,
    mail: &[u8],
) -> Result<(), Failed> {
    let mut mind = mind_with(alloc, mail)?;
    let shown = judge_recipe(alloc, report, recipe, &mut mind);
    drop(mind);
    shown
}

fn judge_recipe(
    alloc: Global,
    report: &mut Report,
    recipe: &Recipe,
    mind: &mut Mind,
) -> Result<(), Failed>
    requires { mind.old.locks.names ≡ [] }
{
    let mut err = MemorySink::new(alloc, None)?;
    let mut host = make_host(alloc, NOTHING)?;
    judge_by(alloc, report, recipe, mind, &mut host, &mut err);
    Ok(())
}

fn judge_by(
    alloc: Global,
    report: &mut Report,
    recipe: &Recipe,
    mind: &mut Mind,
    host: &mut MemoryHost,
    err: &mut MemorySink,
)
    requires { mind.old.locks.names ≡ [] }
{
    let mut journal = Journal::new(alloc);
    let verdict = holds(
        alloc,
        &recipe.conditions,
        &recipe.flags,
        mind,
        host,
        err,
        &mut journal,
        7,
    );
    report.answer("holds", verdict);
    report.answer("  $=", mind.vars.marks().score);
    report.file("  MATCH", mind.vars.get(b"MATCH").map(Blob::as_slice));
    report.answer("  entries", journal.entries().len());
    report.bytes("  err", err.written());
}
