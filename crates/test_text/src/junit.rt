//! The report of tests as XML in the form of JUnit.
ghost use Rattle.std.specs.Prelude.{◌≡◌, ◌++◌, IfOk, OnOk, flat_map, decimal, count_by, not};
ghost use Rattle.test_text.specs.Junit.{junit, head, case_of, case_named, failure_in, failure_front, failure_end};
ghost use Rattle.test_text.specs.Junit.{message_in, line_in, xml_byte, expectation};

use crate::Report;
use crate::tap::push_number;
use pm_bytes::{Blob, Memory};
use std::alloc::Global;

/// One suite with a case for each report.
pub fn junit_report(alloc: Global, reports: &[Report]) -> Result<Blob, Memory>
    ensures { IfOk result (λ text. text ≡ junit reports.now) }
{
    let mut text = head(alloc, reports.len() as u64, failures(reports) as u64)?;
    push_cases(alloc, &mut text, reports)?;
    text.push_slice(b"</testsuite>\n</testsuites>\n")?;
    Ok(text)
}

fn failures(reports: &[Report]) -> usize
    ensures { result ≡ count_by (λ r. not r.passed) reports.now }
{
    reports.iter().filter(|report| !report.passed).count()
}

#[tactic(auto, unfolding(crate::specs::Junit::head))]
fn head(alloc: Global, count: u64, failures: u64) -> Result<Blob, Memory>
    ensures { IfOk result (λ text. text ≡ head count failures) }
{
    let mut text = Blob::from_slice(
        alloc,
        b"<?xml version=\"1.0\" encoding=\"UTF-8\"?>\n<testsuites>\n<testsuite name=\"procmail-test\" tests=\"",
    )?;
    push_number(&mut text, count)?;
    text.push_slice(b"\" failures=\"")?;
    push_number(&mut text, failures)?;
    text.push_slice(b"\">\n")?;
    Ok(text)
}

fn push_cases(alloc: Global, text: &mut Blob, reports: &[Report]) -> Result<(), Memory>
    ensures { OnOk result (text.new ≡ text.old ++ flat_map case_of reports.now) }
{
    for report in reports {
        let case = case_of(alloc, report)?;
        text.push_slice(case.as_slice())?;
    }
    Ok(())
}

#[tactic(auto, unfolding(crate::specs::Junit::case_of))]
fn case_of(alloc: Global, report: &Report) -> Result<Blob, Memory>
    ensures { IfOk result (λ text. text ≡ case_of report.now) }
{
    let mut text = case_named(alloc, report)?;
    if report.passed {
        text.push_slice(b"/>\n")?;
    } else {
        push_failure(alloc, &mut text, report)?;
    }
    Ok(text)
}

#[tactic(auto, unfolding(crate::specs::Junit::case_named))]
fn case_named(alloc: Global, report: &Report) -> Result<Blob, Memory>
    ensures { IfOk result (λ text. text ≡ case_named report.now) }
{
    let mut text = Blob::from_slice(alloc, b"  <testcase classname=\"")?;
    push_escaped(alloc, &mut text, report.file.as_slice())?;
    text.push_slice(b"\" name=\"")?;
    push_number(&mut text, report.line)?;
    text.push_slice(b": ")?;
    push_escaped(alloc, &mut text, report.mail.as_slice())?;
    text.push_slice(b"\"")?;
    Ok(text)
}

#[tactic(auto, unfolding(crate::specs::Junit::failure_in))]
fn push_failure(alloc: Global, text: &mut Blob, report: &Report) -> Result<(), Memory>
    ensures { OnOk result (text.new ≡ text.old ++ failure_in report.now) }
{
    push_message(alloc, text, report)?;
    push_line(alloc, text, report)?;
    push_expectation(alloc, text, report)?;
    text.push_slice(failure_end())
}

#[tactic(auto, unfolding(crate::specs::Junit::message_in))]
fn push_message(alloc: Global, text: &mut Blob, report: &Report) -> Result<(), Memory>
    ensures { OnOk result (text.new ≡ text.old ++ message_in report.now) }
{
    text.push_slice(failure_front())?;
    push_expectation(alloc, text, report)?;
    text.push_slice(b"\">")
}

#[tactic(auto, unfolding(crate::specs::Junit::failure_front))]
fn failure_front() -> &'static [u8]
    ensures { result.now ≡ failure_front }
{
    b">\n    <failure message=\""
}

#[tactic(auto, unfolding(crate::specs::Junit::failure_end))]
fn failure_end() -> &'static [u8]
    ensures { result.now ≡ failure_end }
{
    b"</failure>\n  </testcase>\n"
}

#[tactic(auto, unfolding(crate::specs::Junit::line_in))]
fn push_line(alloc: Global, text: &mut Blob, report: &Report) -> Result<(), Memory>
    ensures { OnOk result (text.new ≡ text.old ++ line_in report.now) }
{
    push_escaped(alloc, text, report.file.as_slice())?;
    text.push_slice(b":")?;
    push_number(text, report.line)?;
    text.push_slice(b": ")
}

#[tactic(auto, unfolding(crate::specs::Junit::expectation))]
fn push_expectation(alloc: Global, text: &mut Blob, report: &Report) -> Result<(), Memory>
    ensures { OnOk result (text.new ≡ text.old ++ expectation report.now) }
{
    text.push_slice(b"wanted ")?;
    push_escaped(alloc, text, report.wanted.as_slice())?;
    text.push_slice(b"; got ")?;
    push_escaped(alloc, text, report.got.as_slice())
}

fn push_escaped(alloc: Global, text: &mut Blob, bytes: &[u8]) -> Result<(), Memory>
    ensures { OnOk result (text.new ≡ text.old ++ flat_map xml_byte bytes.now) }
{
    let mut escaped = Vec::new(alloc);
    for byte in bytes {
        push_xml_byte(&mut escaped, *byte)?;
    }
    text.push_slice(escaped.as_slice())
}

fn push_xml_byte(escaped: &mut Vec<u8>, byte: u8) -> Result<(), Memory>
    ensures { OnOk result (escaped.new.items ≡ escaped.old.items ++ xml_byte byte) }
{
    match byte {
        b'&' => escaped.extend_from_slice(b"&amp;")?,
        b'<' => escaped.extend_from_slice(b"&lt;")?,
        b'>' => escaped.extend_from_slice(b"&gt;")?,
        b'"' => escaped.extend_from_slice(b"&quot;")?,
        0..32 | 127 => escaped.push(b' ')?,
        _ => escaped.push(byte)?,
    }
    Ok(())
}
