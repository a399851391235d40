//! A mail in its parts (pm_message).
use crate::calls::failed::Failed;
use crate::calls::report::Report;
use pm_bytes::{Blob, Memory};
use pm_message::{Message, Place, Renew, area, prepare, split, whole};
use std::alloc::Global;

// A mail with a line `From `, and one without.
const LINED: &[u8] = b"From a  Mon\nA: b\n\nc";

const PLAIN: &[u8] = b"A: b\n";

pub fn show(alloc: Global, report: &mut Report) {
    for mail in [b"A: b\n\nFrom x\nlast".as_slice(), b"A: b".as_slice()] {
        let shown = show_split(alloc, report, mail);
        report.lines(shown);
    }
    let shown = show_areas(alloc, report);
    report.lines(shown);
    let shown = show_prepared(alloc, report);
    report.lines(shown);
}

fn show_split(alloc: Global, report: &mut Report, bytes: &[u8]) -> Result<(), Failed> {
    let message = split(alloc, bytes)?;
    show_parts(alloc, report, &message)
}

// The parts of a mail, the mail of them, and that of a copy.
fn show_parts(alloc: Global, report: &mut Report, message: &Message) -> Result<(), Failed> {
    let copy = message.copy(alloc)?;
    report.bytes("split, head", message.head.as_slice());
    report.bytes("split, body", message.body.as_slice());
    report.blob("whole", whole(alloc, message));
    report.blob("Message::copy", whole(alloc, &copy));
    Ok(())
}

// What conditions search of a mail with a folded field.
fn show_areas(alloc: Global, report: &mut Report) -> Result<(), Failed> {
    let message = split(alloc, b"A: b\n\tc\nD: e\n\nf\n g\n")?;
    report.blob("area H", area(alloc, &message, Place::H));
    report.blob("area B", area(alloc, &message, Place::B));
    report.blob("area HB", area(alloc, &message, Place::Hb));
    Ok(())
}

// The line `From ` that each way of renewing leaves a mail with.
fn show_prepared(alloc: Global, report: &mut Report) -> Result<(), Failed> {
    let sender = Renew::Sender(Blob::from_slice(alloc, b"x@y")?);
    show_mail(
        alloc,
        report,
        prepare(alloc, b"", &Renew::AddMissing, b"joe", 0),
    );
    show_mail(
        alloc,
        report,
        prepare(alloc, LINED, &Renew::AddMissing, b"joe", 0),
    );
    show_mail(
        alloc,
        report,
        prepare(alloc, PLAIN, &Renew::Keep, b"joe", 0),
    );
    show_mail(
        alloc,
        report,
        prepare(alloc, LINED, &sender, b"joe", 86_400),
    );
    show_mail(
        alloc,
        report,
        prepare(alloc, LINED, &Renew::Date, b"joe", 86_399),
    );
    show_mail(
        alloc,
        report,
        prepare(alloc, PLAIN, &Renew::Date, b"joe", -1),
    );
    Ok(())
}

fn show_mail(alloc: Global, report: &mut Report, prepared: Result<Message, Memory>) {
    match prepared {
        Ok(message) => {
            report.blob("prepare", whole(alloc, &message));
            report.bytes("prepare, body", message.body.as_slice());
        }
        Err(Memory) => report.blob("prepare", Err(Memory)),
    }
}
