//! What came of a condition, in words.
ghost use Rattle.std.specs.Prelude.{◌≡◌, ◌++◌, OnOk, codes, decimal};
ghost use Rattle.explain_notes.specs.Came.{score_told, sizes_told};
ghost use Rattle.explain_notes.specs.Came.{came, match_told, maybe_match, match_word, matches_told};

use crate::pushing::{push_number, push_quoted, push_signed};
use pm_bytes::{Blob, Memory};
use pm_meaning::question::Outcome;
use std::alloc::Global;

pub fn push_came(
    alloc: Global,
    line: &mut Blob,
    outcome: &Outcome,
    score: i32,
) -> Result<(), Memory>
    ensures { OnOk result (line.new ≡ line.old ++ came outcome.now score) }
{
    match outcome {
        Outcome::Holds => line.push_slice(b"yes"),
        Outcome::Matched(bytes) => {
            line.push_slice(b"yes")?;
            push_match(alloc, line, bytes)
        }
        Outcome::Fails => line.push_slice(b"no"),
        Outcome::Counted { matches, bytes, .. } => {
            push_matches(line, *matches)?;
            push_score(line, score)?;
            push_maybe_match(alloc, line, bytes)
        }
        Outcome::Compared { length, number, .. } => {
            push_sizes(line, *length, *number)?;
            push_score(line, score)
        }
        Outcome::Exited { code, .. } => push_code(line, *code, score),
        Outcome::Defective => line.push_slice(b"not a condition"),
        Outcome::TooLong(length) => push_long(line, *length),
    }
}

fn push_match(alloc: Global, line: &mut Blob, bytes: &Blob) -> Result<(), Memory>
    ensures { OnOk result (line.new ≡ line.old ++ match_told bytes.now) }
{
    line.push_slice(b", MATCH is \"")?;
    push_quoted(alloc, line, bytes.as_slice())?;
    line.push_slice(b"\"")
}

fn push_maybe_match(alloc: Global, line: &mut Blob, bytes: &Option<Blob>) -> Result<(), Memory>
    ensures { OnOk result (line.new ≡ line.old ++ maybe_match bytes.now) }
{
    match bytes {
        None => line.push_slice(b""),
        Some(bytes) => push_match(alloc, line, bytes),
    }
}

fn push_matches(line: &mut Blob, matches: u64) -> Result<(), Memory>
    ensures { OnOk result (line.new ≡ line.old ++ matches_told matches) }
{
    push_number(line, matches)?;
    line.push_slice(match_word(matches))
}

fn match_word(matches: u64) -> &'static [u8]
    ensures { result.now ≡ match_word matches }
{
    if matches == 1 { b" match" } else { b" matches" }
}

fn push_score(line: &mut Blob, score: i32) -> Result<(), Memory>
    ensures { OnOk result (line.new ≡ line.old ++ score_told score) }
{
    line.push_slice(b", score ")?;
    push_signed(line, score)
}

fn push_sizes(line: &mut Blob, length: u64, number: u64) -> Result<(), Memory>
    ensures { OnOk result (line.new ≡ line.old ++ sizes_told length number) }
{
    push_number(line, length)?;
    line.push_slice(b" bytes, limit ")?;
    push_number(line, number)
}

fn push_code(line: &mut Blob, code: u8, score: i32) -> Result<(), Memory>
    ensures { OnOk result (line.new ≡ line.old ++ (codes "exit status " ++ decimal code ++ score_told score)) }
{
    line.push_slice(b"exit status ")?;
    push_number(line, code as u64)?;
    push_score(line, score)
}

fn push_long(line: &mut Blob, length: u64) -> Result<(), Memory>
    ensures { OnOk result (line.new ≡ line.old ++ (codes "value too long (" ++ decimal length ++ codes " bytes)")) }
{
    line.push_slice(b"value too long (")?;
    push_number(line, length)?;
    line.push_slice(b" bytes)")
}
