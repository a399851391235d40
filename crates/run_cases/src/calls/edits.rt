//! Edits of a header (formail_edit).
use crate::calls::failed::Failed;
use crate::calls::report::Report;
use formail_edit::{Edits, Listed, Put, PutKind, Rename, Take, edit};
use pm_bytes::{Blob, Memory};
use pm_message::split;
use std::alloc::Global;

const MAIL: &[u8] =
    b"From a Thu Jan  1 00:00:00 1970\nSubject: one\nSubject: two\n more\nTo: x\nTotal: 3\nFoo: q\n\nb\n";

// -x with these names, and perhaps -z and -c.
const TAKEN: &[(&[u8], bool, bool)] = &[
    (b"Subject", false, false),
    (b"Subject", false, true),
    (b"Subject", true, false),
    (b"From", false, false),
];

pub fn show(alloc: Global, report: &mut Report) {
    let shown = show_puts(alloc, report);
    report.lines(shown);
    let shown = show_line(alloc, report);
    report.lines(shown);
    for (name, zap, join) in TAKEN {
        let shown = show_taken(alloc, report, name, *zap, *join);
        report.lines(shown);
    }
}

fn show_puts(alloc: Global, report: &mut Report) -> Result<(), Failed> {
    let mut edits = no_edits(alloc)?;
    put_and_show(alloc, report, &mut edits)
}

// -i Subject: -I To -a Cc:x -R Foo Bar
fn put_and_show(alloc: Global, report: &mut Report, edits: &mut Edits) -> Result<(), Failed> {
    put(alloc, edits, PutKind::Old, b"Subject:")?;
    put(alloc, edits, PutKind::Replace, b"To")?;
    put(alloc, edits, PutKind::IfNone, b"Cc:x")?;
    rename(alloc, edits)?;
    show_edited(alloc, report, MAIL, edits, None)
}

fn show_line(alloc: Global, report: &mut Report) -> Result<(), Failed> {
    let edits = no_edits(alloc)?;
    show_edited(alloc, report, b"A: b\n\nFrom c", &edits, Some(b"From d\n"))
}

fn show_edited(
    alloc: Global,
    report: &mut Report,
    mail: &[u8],
    edits: &Edits,
    from: Option<&[u8]>,
) -> Result<(), Failed> {
    let message = split(alloc, mail)?;
    report.blob("edit", edit(alloc, &message, edits, from));
    Ok(())
}

fn show_taken(
    alloc: Global,
    report: &mut Report,
    name: &[u8],
    zap: bool,
    join: bool,
) -> Result<(), Failed> {
    let mut edits = no_edits(alloc)?;
    edits.zap = zap;
    edits.join = join;
    take_and_show(alloc, report, &mut edits, name)
}

fn take_and_show(
    alloc: Global,
    report: &mut Report,
    edits: &mut Edits,
    name: &[u8],
) -> Result<(), Failed> {
    let name = Blob::from_slice(alloc, name)?;
    edits.takes.push(Take { whole: false, name })?;
    show_edited(alloc, report, MAIL, edits, None)
}

/// Nothing is edited, and a line `From ` of the body gets a `>`.
pub fn no_edits(alloc: Global) -> Result<Edits, Memory> {
    Ok(Edits {
        renames: Listed::empty(alloc),
        puts: Listed::empty(alloc),
        uniques: Listed::empty(alloc),
        takes: Listed::empty(alloc),
        prefix: Blob::from_slice(alloc, b">")?,
        keep_from: false,
        keep_body: false,
        zap: false,
        join: false,
        with_body: false,
    })
}

fn put(alloc: Global, edits: &mut Edits, kind: PutKind, text: &[u8]) -> Result<(), Memory> {
    let text = Blob::from_slice(alloc, text)?;
    edits.puts.push(Put { kind, text })
}

fn rename(alloc: Global, edits: &mut Edits) -> Result<(), Memory> {
    let old = Blob::from_slice(alloc, b"Foo")?;
    let new = Blob::from_slice(alloc, b"Bar")?;
    edits.renames.push(Rename { old, new })
}
