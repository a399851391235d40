//! The lines of a run whose programs at some places were started.
ghost use Rattle.std.specs.Prelude.{◌≡◌, ◌++◌, ◌≤◌, IfOk, OnOk, codes, length};
ghost use Rattle.explain_run.specs.Lines.{is_marked, is_run, is_result, without_end, line_told, place_after};
ghost use Rattle.explain_run.specs.Lines.{started_line, result_line, with_started};

use crate::script::was_started;
use bstr::ByteSlice;
use pm_bytes::{Blob, Memory};
use std::alloc::Global;

/// The text of a run, of which the programs at these places were started.
pub fn with_started(alloc: Global, text: &[u8], started: &[usize]) -> Result<Blob, Memory>
    ensures { IfOk result (λ told. told ≡ with_started started.now text.now) }
{
    let mut told = Blob::empty(alloc);
    let mut place: usize = 0;
    for line in text.lines() {
        push_line(&mut told, started, place, line)?;
        place = place_after(place, line);
    }
    Ok(told)
}

fn push_line(told: &mut Blob, started: &[usize], place: usize, line: &[u8]) -> Result<(), Memory>
    ensures { OnOk result (told.new ≡ told.old ++ (line_told started.now place line.now ++ codes "\n")) }
{
    if !is_run(line) {
        push_result(told, line)?;
    } else if was_started(started, place) {
        told.push_slice(started_line(line))?;
    } else {
        told.push_slice(line)?;
    }
    told.push_slice(b"\n")
}

fn push_result(told: &mut Blob, line: &[u8]) -> Result<(), Memory>
    ensures { OnOk result (told.new ≡ told.old ++ result_line line.now) }
{
    if !is_result(line) {
        return told.push_slice(line);
    }
    told.push_slice(without_end(20, line))?;
    told.push_slice(b"Programs were started; nothing else was changed.")
}

fn started_line(line: &[u8]) -> &[u8]
    ensures { result.now ≡ started_line line.now }
{
    if is_marked(line) {
        without_end(14, line)
    } else {
        line
    }
}

fn without_end(count: usize, line: &[u8]) -> &[u8]
    ensures { result.now ≡ without_end count line.now }
{
    &line[..line.len().saturating_sub(count)]
}

fn is_marked(line: &[u8]) -> bool
    ensures { result ≡ is_marked line.now }
{
    line.ends_with(b" [not started]")
}

fn is_run(line: &[u8]) -> bool
    ensures { result ≡ is_run line.now }
{
    line.starts_with(b"  run ") && (is_marked(line) || line.ends_with(b": not done"))
}

fn is_result(line: &[u8]) -> bool
    ensures { result ≡ is_result line.now }
{
    (line.starts_with(b"delivered to ") || line.starts_with(b"not delivered,"))
        && line.ends_with(b". Nothing was changed.")
}

fn place_after(place: usize, line: &[u8]) -> usize
    ensures { result ≡ place_after place line.now }
{
    if is_run(line) {
        place.saturating_add(1)
    } else {
        place
    }
}
