//! The line of a step. In names and texts a byte below 32 is shown as a blank.
ghost use Rattle.std.specs.Prelude.{◌≡◌, ◌++◌, IfOk, OnOk, codes, decimal};
ghost use Rattle.explain_text.specs.Lines.{step_line, before, after};
ghost use Rattle.pm_journal.specs.LogText.{shown_byte, quoted};

use crate::{Kind, Step};
use itoa::Buffer;
use pm_bytes::{Blob, Memory};
use std::alloc::Global;

/// The line, with its end.
pub fn step_line(alloc: Global, step: &Step) -> Result<Blob, Memory>
    ensures { IfOk result (λ line. line ≡ step_line step.now) }
{
    let mut line = Blob::from_slice(alloc, b"  ")?;
    push_before(&mut line, step.kind, step.bytes)?;
    push_quoted(alloc, &mut line, step.name.as_slice())?;
    if step.done {
        push_after(alloc, &mut line, step)?;
    } else {
        line.push_slice(b": not done")?;
    }
    line.push_slice(b"\n")?;
    Ok(line)
}

fn push_before(line: &mut Blob, kind: Kind, bytes: u64) -> Result<(), Memory>
    ensures { OnOk result (line.new ≡ line.old ++ before kind bytes) }
{
    match kind {
        Kind::Read => line.push_slice(b"read "),
        Kind::Append => push_amount(line, b"append ", bytes, b" bytes to "),
        Kind::File => push_amount(line, b"file ", bytes, b" bytes as "),
        Kind::Lock => line.push_slice(b"lock "),
        Kind::Unlock => line.push_slice(b"unlock "),
        Kind::Run | Kind::Filter => line.push_slice(b"run "),
        Kind::Log => line.push_slice(b"log to "),
        Kind::Say => line.push_slice(b"say "),
        Kind::Write => push_amount(line, b"write ", bytes, b" bytes to "),
    }
}

fn push_after(alloc: Global, line: &mut Blob, step: &Step) -> Result<(), Memory>
    ensures { OnOk result (line.new ≡ line.old ++ after step.now step.now.kind) }
{
    match step.kind {
        Kind::Read => push_amount(line, b": ", step.bytes, b" bytes"),
        Kind::Run => push_ending(line, step.bytes, step.code, b" [not started]"),
        Kind::Filter => push_ending(line, step.bytes, step.code, b", output taken [not started]"),
        Kind::Log => {
            line.push_slice(b": ")?;
            push_quoted(alloc, line, step.text.as_slice())
        }
        _ => Ok(()),
    }
}

fn push_ending(line: &mut Blob, bytes: u64, code: u8, end: &[u8]) -> Result<(), Memory>
    ensures { OnOk result (line.new ≡ line.old
        ++ (codes " < " ++ decimal bytes ++ codes " bytes: " ++ decimal code ++ end.now)) }
{
    push_amount(line, b" < ", bytes, b" bytes: ")?;
    push_amount(line, b"", code as u64, end)
}

/// A number between two texts.
pub(crate) fn push_amount(
    line: &mut Blob,
    front: &[u8],
    count: u64,
    end: &[u8],
) -> Result<(), Memory>
    ensures { OnOk result (line.new ≡ line.old ++ (front.now ++ decimal count ++ end.now)) }
{
    let mut buffer = Buffer::new();
    line.push_slice(front)?;
    line.push_slice(buffer.format(count).as_bytes())?;
    line.push_slice(end)
}

pub(crate) fn push_quoted(alloc: Global, line: &mut Blob, bytes: &[u8]) -> Result<(), Memory>
    ensures { OnOk result (line.new ≡ line.old ++ quoted bytes.now) }
{
    let shown = quote(alloc, bytes)?;
    line.push_slice(shown.as_slice())
}

fn quote(alloc: Global, bytes: &[u8]) -> Result<Vec<u8>, Memory>
    ensures { IfOk result (λ shown. shown.items ≡ quoted bytes.now) }
{
    Ok(bytes.iter().map(|byte| shown(*byte)).collect(alloc)?)
}

fn shown(byte: u8) -> u8
    ensures { result ≡ shown_byte byte }
{
    if byte < 32 { b' ' } else { byte }
}
