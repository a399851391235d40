//! Findings as lines, in the form of compilers: `FILE:LINE:COLUMN: SEVERITY: TEXT [CODE]`.
ghost use Rattle.std.specs.Prelude.{◌≡◌, IfOk, map, flat_map};
ghost use Rattle.check_find.specs.Lines.{line_of, severity_word, shown_byte};

use crate::codes::Severity;
use itoa::Buffer;
use std::alloc::{AllocError, Global};

/// What is said of a place in a file.
#[derive(Clone, Copy)]
pub struct Line<'a> {
    pub file: &'a str,
    /// From 1.
    pub line: u64,
    /// In bytes, from 1.
    pub column: u64,
    pub severity: Severity,
    pub text: &'a str,
    pub code: &'a str,
}

/// All of them, each on a line of its own. A control character is printed as a blank.
pub fn lines_text(alloc: Global, lines: &[Line<'_>]) -> Result<Vec<u8>, AllocError>
    ensures { IfOk result (λ text. text.items ≡ flat_map line_of lines.now) }
{
    let mut text = Vec::new(alloc);
    for line in lines {
        let one = line_text(alloc, line)?;
        text.extend_from_slice(one.as_slice())?;
    }
    Ok(text)
}

fn line_text(alloc: Global, line: &Line<'_>) -> Result<Vec<u8>, AllocError>
    ensures { IfOk result (λ text. text.items ≡ line_of line.now) }
{
    let mut number = Buffer::new();
    let mut text = shown(alloc, line.file)?;
    text.extend_from_slice(b":")?;
    text.extend_from_slice(number.format(line.line).as_bytes())?;
    text.extend_from_slice(b":")?;
    text.extend_from_slice(number.format(line.column).as_bytes())?;
    text.extend_from_slice(b": ")?;
    text.extend_from_slice(severity_word(line.severity).as_bytes())?;
    text.extend_from_slice(b": ")?;
    text.extend_from_slice(shown(alloc, line.text)?.as_slice())?;
    text.extend_from_slice(b" [")?;
    text.extend_from_slice(line.code.as_bytes())?;
    text.extend_from_slice(b"]\n")?;
    Ok(text)
}

/// `error`, `warning` or `note`.
pub fn severity_word(severity: Severity) -> &'static str
    ensures { result.now ≡ severity_word severity }
{
    match severity {
        Severity::Error => "error",
        Severity::Warning => "warning",
        Severity::Note => "note",
    }
}

fn shown(alloc: Global, text: &str) -> Result<Vec<u8>, AllocError>
    ensures { IfOk result (λ bytes. bytes.items ≡ map shown_byte text.now) }
{
    text.as_bytes()
        .iter()
        .map(|byte| shown_byte(*byte))
        .collect(alloc)
}

fn shown_byte(byte: u8) -> u8
    ensures { result ≡ shown_byte byte }
{
    if byte < b' ' || byte == 127 {
        b' '
    } else {
        byte
    }
}
