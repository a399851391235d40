//! What programs answer in a test: `LINE=CODE[:FILE]`, as procmail-explain(1) takes it.
ghost use Rattle.std.specs.Prelude.{◌≡◌, IfOk, option_map};
ghost use Rattle.test_text.specs.Answers.{answer_of, answer_coded, answer_with, answers_of};
ghost use Rattle.pm_bytes.specs.Number.{count_of};

use crate::cut::{cut_at, cut_at_last};
use bstr::{ByteSlice, Split};
use pm_bytes::{Blob, Memory, read_count};
use std::alloc::Global;

/// What a program does that isn't started: the line that runs it, the code with which it ends, and the name of the file
/// that has its output, where one is given.
#[derive(Drop)]
pub struct Answer {
    pub line: Blob,
    pub code: u8,
    pub output: Option<Blob>,
}

/// All of these answers; `None` where one of them isn't understood.
pub(crate) fn read_answers(
    alloc: Global,
    pieces: Split<'_, '_>,
) -> Result<Option<Vec<Answer>>, Memory>
    ensures { IfOk result (λ found. option_map (λ made. made.items) found ≡ answers_of pieces.entry) }
{
    let mut made = Vec::new(alloc);
    for piece in pieces {
        match read_answer(alloc, piece.trim())? {
            Some(answer) => made.push(answer)?,
            None => return Ok(None),
        }
    }
    Ok(Some(made))
}

fn read_answer(alloc: Global, text: &[u8]) -> Result<Option<Answer>, Memory>
    ensures { IfOk result (λ answer. answer ≡ answer_of text.now) }
{
    let Some((line, end)) = cut_at_last(text, b"=") else {
        return Ok(None);
    };
    match cut_at(end, b":") {
        None => answer_with(alloc, line, end, None),
        Some((code, file)) => answer_with(alloc, line, code, Some(file)),
    }
}

fn answer_with(
    alloc: Global,
    line: &[u8],
    code: &[u8],
    file: Option<&[u8]>,
) -> Result<Option<Answer>, Memory>
    ensures { IfOk result (λ answer. answer ≡ answer_with line.now (count_of code.now)
        (option_map (λ name. name.now) file.entry)) }
{
    match read_count(code) {
        Some(code) if code <= 255 => Ok(Some(Answer {
            line: Blob::from_slice(alloc, line)?,
            code: code as u8,
            output: output_in(alloc, file)?,
        })),
        _ => Ok(None),
    }
}

fn output_in(alloc: Global, file: Option<&[u8]>) -> Result<Option<Blob>, Memory>
    ensures { IfOk result (λ name. name ≡ option_map (λ name. name.now) file.entry) }
{
    match file {
        Some(name) => Ok(Some(Blob::from_slice(alloc, name)?)),
        None => Ok(None),
    }
}
