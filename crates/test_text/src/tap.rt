//! The report of tests as TAP, version 13 (the Test Anything Protocol).
ghost use Rattle.std.specs.Prelude.{◌≡◌, ◌<◌, ◌-◌, ◌^◌, ◌++◌, IfOk, OnOk, flat_map, decimal};
ghost use Rattle.test_text.specs.Tap.{tap, tap_lines, tap_test, tap_details, place_fields, outcome_fields, tap_byte};
ghost use Rattle.test_text.specs.Tap.{quoted_byte, field, number_field, verdict};

use itoa::Buffer;
use pm_bytes::{Blob, Memory};
use std::alloc::Global;

/// What came of one test.
#[derive(Drop)]
pub struct Report {
    /// The file of tests.
    pub file: Blob,
    /// From 1.
    pub line: u64,
    pub mail: Blob,
    pub wanted: Blob,
    pub got: Blob,
    pub passed: bool,
}

/// All reports, with a number for each.
pub fn tap_report(alloc: Global, reports: &[Report]) -> Result<Blob, Memory>
    ensures { IfOk result (λ text. text ≡ tap reports.now) }
{
    let mut text = Blob::from_slice(alloc, b"TAP version 13\n1..")?;
    push_number(&mut text, reports.len() as u64)?;
    text.push_slice(b"\n")?;
    push_tests(alloc, &mut text, reports)?;
    Ok(text)
}

fn push_tests(alloc: Global, text: &mut Blob, reports: &[Report]) -> Result<(), Memory>
    ensures { OnOk result (text.new ≡ text.old ++ tap_lines 0 reports.now) }
{
    for (index, report) in reports.iter().enumerate() {
        let lines = tap_test(alloc, index as u64, report)?;
        text.push_slice(lines.as_slice())?;
    }
    Ok(())
}

#[tactic(auto, unfolding(crate::specs::Tap::tap_test))]
fn tap_test(alloc: Global, before: u64, report: &Report) -> Result<Blob, Memory>
    requires { before < 2 ^ 64 - 1 }
    ensures { IfOk result (λ text. text ≡ tap_test before report.now) }
{
    let mut text = Blob::from_slice(alloc, verdict(report.passed))?;
    push_number(&mut text, before + 1)?;
    text.push_slice(b" - ")?;
    push_description(alloc, &mut text, report.mail.as_slice())?;
    text.push_slice(b"\n")?;
    if !report.passed {
        push_details(alloc, &mut text, report)?;
    }
    Ok(text)
}

fn verdict(passed: bool) -> &'static [u8]
    ensures { result.now ≡ verdict passed }
{
    if passed { b"ok " } else { b"not ok " }
}

#[tactic(auto, unfolding(crate::specs::Tap::tap_details))]
fn push_details(alloc: Global, text: &mut Blob, report: &Report) -> Result<(), Memory>
    ensures { OnOk result (text.new ≡ text.old ++ tap_details report.now) }
{
    text.push_slice(b"  ---\n")?;
    push_place(alloc, text, report)?;
    push_outcome(alloc, text, report)?;
    text.push_slice(b"  ...\n")
}

#[tactic(auto, unfolding(crate::specs::Tap::place_fields))]
fn push_place(alloc: Global, text: &mut Blob, report: &Report) -> Result<(), Memory>
    ensures { OnOk result (text.new ≡ text.old ++ place_fields report.now) }
{
    push_field(alloc, text, b"file", report.file.as_slice())?;
    push_number_field(text, b"line", report.line)
}

#[tactic(auto, unfolding(crate::specs::Tap::outcome_fields))]
fn push_outcome(alloc: Global, text: &mut Blob, report: &Report) -> Result<(), Memory>
    ensures { OnOk result (text.new ≡ text.old ++ outcome_fields report.now) }
{
    push_field(alloc, text, b"wanted", report.wanted.as_slice())?;
    push_field(alloc, text, b"got", report.got.as_slice())
}

fn push_field(alloc: Global, text: &mut Blob, name: &[u8], value: &[u8]) -> Result<(), Memory>
    ensures { OnOk result (text.new ≡ text.old ++ field name.now value.now) }
{
    text.push_slice(b"  ")?;
    text.push_slice(name)?;
    text.push_slice(b": '")?;
    let quoted = quoted(alloc, value)?;
    text.push_slice(quoted.as_slice())?;
    text.push_slice(b"'\n")
}

fn push_number_field(text: &mut Blob, name: &[u8], number: u64) -> Result<(), Memory>
    ensures { OnOk result (text.new ≡ text.old ++ number_field name.now number) }
{
    text.push_slice(b"  ")?;
    text.push_slice(name)?;
    text.push_slice(b": ")?;
    push_number(text, number)?;
    text.push_slice(b"\n")
}

pub(crate) fn push_number(text: &mut Blob, number: u64) -> Result<(), Memory>
    ensures { OnOk result (text.new ≡ text.old ++ decimal number) }
{
    let mut buffer = Buffer::new();
    text.push_slice(buffer.format(number).as_bytes())
}

fn push_description(alloc: Global, text: &mut Blob, bytes: &[u8]) -> Result<(), Memory>
    ensures { OnOk result (text.new ≡ text.old ++ flat_map tap_byte bytes.now) }
{
    let mut shown = Vec::new(alloc);
    for byte in bytes {
        push_tap_byte(&mut shown, *byte)?;
    }
    text.push_slice(shown.as_slice())
}

fn push_tap_byte(shown: &mut Vec<u8>, byte: u8) -> Result<(), Memory>
    ensures { OnOk result (shown.new.items ≡ shown.old.items ++ tap_byte byte) }
{
    match byte {
        b'#' => shown.extend_from_slice(b"\\#")?,
        b'\\' => shown.extend_from_slice(b"\\\\")?,
        0..32 | 127 => shown.push(b' ')?,
        _ => shown.push(byte)?,
    }
    Ok(())
}

fn quoted(alloc: Global, bytes: &[u8]) -> Result<Vec<u8>, Memory>
    ensures { IfOk result (λ text. text.items ≡ flat_map quoted_byte bytes.now) }
{
    let mut text = Vec::new(alloc);
    for byte in bytes {
        push_quoted_byte(&mut text, *byte)?;
    }
    Ok(text)
}

fn push_quoted_byte(text: &mut Vec<u8>, byte: u8) -> Result<(), Memory>
    ensures { OnOk result (text.new.items ≡ text.old.items ++ quoted_byte byte) }
{
    match byte {
        b'\'' => text.extend_from_slice(b"''")?,
        0..32 | 127 => text.push(b' ')?,
        _ => text.push(byte)?,
    }
    Ok(())
}
