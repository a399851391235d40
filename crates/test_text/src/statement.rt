//! What a line of a file of tests says.
ghost use Rattle.std.specs.Prelude.{◌≡◌, IfOk, option_map};
ghost use Rattle.test_text.specs.Cuts.{pieces_at};
ghost use Rattle.test_text.specs.Answers.{answers_of};
ghost use Rattle.test_text.specs.Expected.{parts_of};
ghost use Rattle.test_text.specs.Statements.{statement_of, statement_in, rcfile_named, mail_test, test_cut, test_of};
ghost use Rattle.test_text.specs.Statements.{is_comment};

use crate::answer::read_answers;
use crate::cut::{after_word, cut_at};
use crate::expected::{fault_in, parts_of, status_in, wanted_in};
use crate::{Answer, Test};
use bstr::ByteSlice;
use pm_bytes::{Blob, Memory};
use std::alloc::Global;

/// Why a file isn't understood.
#[derive(Clone, Copy, PartialEq, Eq)]
pub enum Reason {
    /// A line begins with another word than `rcfile` and `mail`.
    Unknown,
    /// No name stands behind the word.
    NoName,
    /// A test has no `->`.
    NoArrow,
    /// Nothing stands behind the arrow, or between two commas.
    NoDestination,
    /// A status is no number up to 255.
    NoStatus,
    /// An answer has another form than `LINE=CODE[:FILE]`, or its code is above 255.
    NoAnswer,
    /// A second rcfile is named.
    SecondRcfile,
    /// The file names no rcfile.
    NoRcfile,
    /// The file has no test.
    NoTest,
}

/// The name of an rcfile, and the line on which it stands, from 1.
#[derive(Drop)]
pub struct Rcfile {
    pub line: u64,
    pub name: Blob,
}

#[derive(Drop)]
pub(crate) enum Statement {
    /// A blank line or a comment.
    Nothing,
    Rcfile(Rcfile),
    Mail(Test),
    Wrong(Reason),
}

/// What a line says that has this number.
pub(crate) fn statement_of(alloc: Global, number: u64, line: &[u8]) -> Result<Statement, Memory>
    ensures { IfOk result (λ statement. statement ≡ statement_of number line.now) }
{
    statement_in(alloc, number, line.trim())
}

fn statement_in(alloc: Global, number: u64, text: &[u8]) -> Result<Statement, Memory>
    ensures { IfOk result (λ statement. statement ≡ statement_in number text.now) }
{
    if is_comment(text) {
        return Ok(Statement::Nothing);
    }
    if let Some(name) = after_word(text, b"rcfile") {
        return rcfile_named(alloc, number, name);
    }
    match after_word(text, b"mail") {
        Some(rest) => mail_test(alloc, number, rest),
        None => Ok(Statement::Wrong(Reason::Unknown)),
    }
}

fn is_comment(text: &[u8]) -> bool
    ensures { result ≡ is_comment text.now }
{
    text.is_empty() || text.starts_with(b"#")
}

fn rcfile_named(alloc: Global, number: u64, name: &[u8]) -> Result<Statement, Memory>
    ensures { IfOk result (λ statement. statement ≡ rcfile_named number name.now) }
{
    if name.is_empty() {
        return Ok(Statement::Wrong(Reason::NoName));
    }
    Ok(Statement::Rcfile(Rcfile {
        line: number,
        name: Blob::from_slice(alloc, name)?,
    }))
}

fn mail_test(alloc: Global, number: u64, text: &[u8]) -> Result<Statement, Memory>
    ensures { IfOk result (λ statement. statement ≡ mail_test number text.now) }
{
    match cut_at(text, b"->") {
        None => Ok(Statement::Wrong(Reason::NoArrow)),
        Some((front, expected)) => test_cut(alloc, number, front, expected),
    }
}

fn test_cut(alloc: Global, number: u64, front: &[u8], expected: &[u8]) -> Result<Statement, Memory>
    ensures { IfOk result (λ statement. statement ≡ test_cut number front.now expected.now) }
{
    let mut pieces = front.split_str(b" answer ");
    let name = match pieces.next() {
        Some(piece) => piece.trim(),
        None => b"",
    };
    if name.is_empty() {
        return Ok(Statement::Wrong(Reason::NoName));
    }
    match read_answers(alloc, pieces)? {
        None => Ok(Statement::Wrong(Reason::NoAnswer)),
        Some(answers) => test_of(alloc, number, name, answers, expected),
    }
}

fn test_of(
    alloc: Global,
    number: u64,
    name: &[u8],
    answers: Vec<Answer>,
    expected: &[u8],
) -> Result<Statement, Memory>
    ensures { IfOk result (λ statement. statement ≡ test_of number name.now answers.items (parts_of expected.now)) }
{
    let parts = parts_of(alloc, expected)?;
    if let Some(reason) = fault_in(parts.as_slice()) {
        return Ok(Statement::Wrong(reason));
    }
    let mail = Blob::from_slice(alloc, name)?;
    let wanted = wanted_in(alloc, parts.as_slice())?;
    let status = status_in(parts.as_slice());
    Ok(Statement::Mail(Test::new(number, mail, answers, wanted, status)))
}
