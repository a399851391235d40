//! What a trial says at its end.
ghost use Rattle.std.specs.Prelude.{◌≡◌, ◌++◌, IfOk, OnOk};
ghost use Rattle.pm_top.specs.Report.{report_of, count_line};

use crate::totals::Totals;
use itoa::Buffer;
use pm_bytes::{Blob, Memory};
use std::alloc::Global;

/// The five lines of a trial of so many messages.
pub fn make_report(alloc: Global, messages: u64, totals: Totals) -> Result<Blob, Memory>
    ensures { IfOk result (λ report. report ≡ report_of messages totals) }
{
    let mut report = Blob::empty(alloc);
    push_line(&mut report, b"messages ", messages)?;
    push_line(&mut report, b"entries ", totals.entries)?;
    push_line(&mut report, b"appends ", totals.appends)?;
    push_line(&mut report, b"locks ", totals.locks)?;
    push_line(&mut report, b"bytes ", totals.bytes)?;
    Ok(report)
}

fn push_line(report: &mut Blob, label: &[u8], number: u64) -> Result<(), Memory>
    ensures { OnOk result (report.new ≡ report.old ++ count_line label.now number) }
{
    let mut buffer = Buffer::new();
    report.push_slice(label)?;
    report.push_slice(buffer.format(number).as_bytes())?;
    report.push_slice(b"\n")
}
