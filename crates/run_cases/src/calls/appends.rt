//! Appends to a mailbox, and lines of a log (pm_append).
use crate::calls::failed::Failed;
use crate::calls::report::Report;
use crate::calls::world::{NOTHING, World, count_calls, make_host};
use pm_append::{append_whole, say};
use pm_bytes::{Blob, Name};
use pm_host::Host;
use pm_journal::{Journal, Reply};
use pm_memory::{MemoryHost, MemorySink};
use std::alloc::Global;

const PIECE: &[u8] = b"A: b\n\nhi\n\n";

const MBOX: World<'static> = World {
    file: Some(("mbox", b"old\n")),
    ..NOTHING
};

const LOG: World<'static> = World {
    file: Some(("log", b"a\n")),
    ..NOTHING
};

// One whose second call takes five bytes.
const SHORT: World<'static> = World { most: 5, ..MBOX };

const APPENDS: &[(World<'static>, &[u8])] = &[
    (SHORT, PIECE),
    (
        World {
            fails: [3, 0],
            ..SHORT
        },
        PIECE,
    ),
    (
        World {
            fails: [3, 4],
            ..SHORT
        },
        PIECE,
    ),
    (
        World {
            fails: [3, 0],
            ..MBOX
        },
        PIECE,
    ),
    (
        World {
            fails: [3, 4],
            ..MBOX
        },
        PIECE,
    ),
    (
        World {
            fails: [3, 0],
            ..NOTHING
        },
        PIECE,
    ),
    (
        World {
            fails: [2, 0],
            ..MBOX
        },
        b"",
    ),
    (
        World {
            folder: Some("mbox"),
            ..NOTHING
        },
        PIECE,
    ),
];

const LINES: &[(World<'static>, Option<&[u8]>)] = &[
    (LOG, Some(b"log")),
    (
        World {
            fails: [2, 0],
            ..LOG
        },
        Some(b"log"),
    ),
    (LOG, None),
];

pub fn show(alloc: Global, report: &mut Report) {
    for (world, piece) in APPENDS {
        let shown = append(alloc, report, *world, piece);
        report.lines(shown);
    }
    for (world, log) in LINES {
        let shown = say_line(alloc, report, *world, *log);
        report.lines(shown);
    }
}

fn append(
    alloc: Global,
    report: &mut Report,
    world: World<'_>,
    piece: &[u8],
) -> Result<(), Failed> {
    let name = Name::read(alloc, b"mbox")?;
    let mut host = make_host(alloc, world)?;
    append_by(report, &mut host, &name, piece);
    Ok(())
}

fn append_by(report: &mut Report, host: &mut MemoryHost, name: &Name, piece: &[u8]) {
    report.answer("append_whole", append_whole(host, name, piece));
    report.file("  mbox", host.file("mbox"));
    report.answer("  calls", count_calls(host).0);
    report.answer("  faults", host.faults());
}

// A line for the log of this name, or for standard error.
fn say_line(
    alloc: Global,
    report: &mut Report,
    world: World<'_>,
    log: Option<&[u8]>,
) -> Result<(), Failed> {
    let mut err = MemorySink::new(alloc, None)?;
    let mut host = make_host(alloc, world)?;
    say_by(alloc, report, &mut host, &mut err, log)
}

fn say_by(
    alloc: Global,
    report: &mut Report,
    host: &mut MemoryHost,
    err: &mut MemorySink,
    log: Option<&[u8]>,
) -> Result<(), Failed> {
    let mut journal = Journal::new(alloc);
    say_noted(alloc, host, err, &mut journal, log)?;
    print_entries(report, &journal);
    report.bytes("  err", err.written());
    report.file("  log", host.file("log"));
    report.answer("  calls", count_calls(host).0);
    Ok(())
}

fn say_noted(
    alloc: Global,
    host: &mut MemoryHost,
    err: &mut MemorySink,
    journal: &mut Journal,
    log: Option<&[u8]>,
) -> Result<(), Failed> {
    journal.reserve(1)?;
    let to = name_of(alloc, log)?;
    let line = Blob::from_slice(alloc, b"procmail: x\n")?;
    say(host, err, journal, to, line, 7);
    Ok(())
}

fn name_of(alloc: Global, log: Option<&[u8]>) -> Result<Option<Name>, Failed> {
    match log {
        Some(log) => Ok(Some(Name::read(alloc, log)?)),
        None => Ok(None),
    }
}

fn print_entries(report: &mut Report, journal: &Journal) {
    for entry in journal.entries() {
        report.word(
            "say",
            match &entry.reply {
                Reply::Done => "Done",
                Reply::Undone => "Undone",
                Reply::Wrote => "Wrote",
                _ => "another reply",
            },
        );
        report.answer(
            "  faults of host and out",
            (entry.after.host, entry.after.out),
        );
    }
}
