//! The mails of a mailbox, each for a child of its own (formail_split).
ghost use Rattle.std.specs.Prelude.{◌≡◌};
ghost use Rattle.pm_memory.specs.Host.{child_of};

use crate::calls::edits::no_edits;
use crate::calls::failed::Failed;
use crate::calls::report::Report;
use crate::calls::world::{NOTHING, World, make_host};
use formail_edit::Edits;
use formail_split::{Ran, feed_parts, parts, select};
use pm_bytes::{Blob, Name, Names, Pairs};
use pm_host::{Child, Command, Finished, Script};
use pm_memory::MemoryHost;
use std::alloc::Global;

const MAILBOX: &[u8] = b"From a\nA: 1\n\nx\n\nFrom b\nB: 2\n\ny\n";

// Its mail gets a From line with the moment.
const WITHOUT_LINE: &[u8] = b"A: 1\n\nx\n";

// A second after the first day of 1970.
const MOMENT: i64 = 86_401;

// Of which mailbox, whether the parts are as they are or edited as formail edits them, with which code the first child
// ends, whether it closes its input before, and which call of the host fails.
#[derive(Clone, Copy)]
struct Feeding {
    mailbox: &'static [u8],
    as_is: bool,
    code: u8,
    closes_after: Option<u64>,
    failing: u64,
}

const AS_IS: Feeding = Feeding {
    mailbox: MAILBOX,
    as_is: true,
    code: 0,
    closes_after: None,
    failing: 0,
};

const FEEDINGS: &[Feeding] = &[
    AS_IS,
    Feeding {
        as_is: false,
        ..AS_IS
    },
    Feeding { code: 3, ..AS_IS },
    Feeding {
        closes_after: Some(3),
        ..AS_IS
    },
    Feeding {
        failing: 1,
        ..AS_IS
    },
    Feeding {
        failing: 2,
        ..AS_IS
    },
    Feeding {
        mailbox: WITHOUT_LINE,
        as_is: false,
        ..AS_IS
    },
];

pub fn show(alloc: Global, report: &mut Report) {
    for mailbox in [MAILBOX, b"From a\n\nFrom b\n".as_slice(), b"".as_slice()] {
        let shown = show_parts(alloc, report, mailbox);
        report.lines(shown);
    }
    let shown = show_selected(alloc, report);
    report.lines(shown);
    for feeding in FEEDINGS {
        let shown = feed(alloc, report, *feeding);
        report.lines(shown);
    }
}

fn show_parts(alloc: Global, report: &mut Report, mailbox: &[u8]) -> Result<(), Failed> {
    let parts = parts(alloc, mailbox)?;
    report.answer("parts", parts.len());
    for part in &parts {
        report.bytes("  part", part.as_slice());
    }
    Ok(())
}

fn show_selected(alloc: Global, report: &mut Report) -> Result<(), Failed> {
    let parts = parts(alloc, MAILBOX)?;
    report.answer("select", select(&parts, 0, None));
    report.answer("select", select(&parts, 0, Some(1)));
    report.answer("select", select(&parts, 1, Some(1)));
    report.answer("select", select(&parts, 2, Some(1)));
    report.answer("select", select(&parts, 5, Some(9)));
    Ok(())
}

fn feed(alloc: Global, report: &mut Report, feeding: Feeding) -> Result<(), Failed> {
    let mut edits = no_edits(alloc)?;
    edits.keep_from = feeding.as_is;
    edits.keep_body = feeding.as_is;
    feed_edited(alloc, report, feeding, &edits)
}

fn feed_edited(
    alloc: Global,
    report: &mut Report,
    feeding: Feeding,
    edits: &Edits,
) -> Result<(), Failed> {
    let mut host = make_host(
        alloc,
        World {
            fails: [feeding.failing, 0],
            ..NOTHING
        },
    )?;
    feed_by(alloc, report, &mut host, feeding, edits)
}

fn feed_by(
    alloc: Global,
    report: &mut Report,
    host: &mut MemoryHost,
    feeding: Feeding,
    edits: &Edits,
) -> Result<(), Failed>
    requires { child_of host.old ≡ Child.NoChild }
{
    host.child(Script {
        code: Finished::Code(feeding.code),
        closes_after: feeding.closes_after,
        output: Blob::empty(alloc),
    })?;
    feed_all(alloc, report, host, edits, feeding.mailbox)
}

fn feed_all(
    alloc: Global,
    report: &mut Report,
    host: &mut MemoryHost,
    edits: &Edits,
    mailbox: &[u8],
) -> Result<(), Failed>
    requires { child_of host.old ≡ Child.NoChild }
{
    let parts = parts(alloc, mailbox)?;
    feed_each(alloc, report, host, edits, &parts)
}

fn feed_each(
    alloc: Global,
    report: &mut Report,
    host: &mut MemoryHost,
    edits: &Edits,
    parts: &[Blob],
) -> Result<(), Failed>
    requires { child_of host.old ≡ Child.NoChild }
{
    let command = command(alloc)?;
    let rans = feed_parts(alloc, host, parts, edits, MOMENT, &command)?;
    print_rans(report, &rans);
    print_inputs(report, host);
    Ok(())
}

fn command(alloc: Global) -> Result<Command, Failed> {
    let program = Name::read(alloc, b"p")?;
    let folder = Name::read(alloc, b".")?;
    Ok(Command {
        program,
        args: Names::from_vec(Vec::new(alloc)),
        env: Pairs::from_vec(Vec::new(alloc)),
        folder,
    })
}

fn print_rans(report: &mut Report, rans: &[Ran]) {
    for ran in rans {
        match ran {
            Ran::Ended { code, took } => report.answer("feed_parts, Ended", (*code, *took)),
            Ran::NotStarted => report.word("feed_parts", "NotStarted"),
            Ran::Broken { took } => report.answer("feed_parts, Broken", *took),
        }
    }
}

fn print_inputs(report: &mut Report, host: &MemoryHost) {
    for input in host.inputs() {
        report.bytes("  input", input.bytes.as_slice());
    }
}
