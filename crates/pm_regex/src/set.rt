//! Bracket expressions.
ghost use Rattle.std.specs.Prelude.{◌≡◌, ◌≤◌, true, IfOk, IsTrue, length};
ghost use Rattle.pm_regex.specs.Tokens.{begins_with, ends_range};
ghost use Rattle.pm_regex.specs.Sets.{ReadsMember, ReadsMembers, ReadsSet, HasNoMember, HasNoBody};
ghost use Rattle.pm_regex.specs.Signs.{HasNoToken};

use crate::error::ReadRefused;
use crate::op::Op;
use crate::sign::begins_with;

/// Whether a `-` and a byte other than `]` stand at the front of a text.
fn ends_range(text: &[u8]) -> bool
    ensures value { result ≡ ends_range text.now }
    ensures within { IsTrue result → 2 ≤ length text.now }
{
    if text.len() < 2 {
        return false;
    }
    text[0] == b'-' && text[1] != b']'
}

/// Reads the member at the front of a text, and answers how many bytes it has.
fn member(ops: &mut Vec<Op>, text: &[u8]) -> Result<usize, ReadRefused>
    ensures ok { IfOk result (ReadsMember text.now ops.old.items ops.new.items) }
    ensures defect { result ≡ Err ReadRefused.Defect → HasNoMember text.now }
{
    if text.is_empty() {
        return Err(ReadRefused::Defect);
    }
    let first = text[0];
    if !ends_range(&text[1..]) {
        ops.push(Op::Range(first, first))?;
        return Ok(1);
    }
    let last = text[2];
    if last < first {
        return Err(ReadRefused::Defect);
    }
    ops.push(Op::Range(first, last))?;
    Ok(3)
}

/// Reads members up to the `]` that closes them, and answers how many bytes they have with it.
fn members(ops: &mut Vec<Op>, text: &[u8]) -> Result<usize, ReadRefused>
    ensures ok { IfOk result (ReadsMembers text.now ops.old.items ops.new.items) }
    ensures defect { result ≡ Err ReadRefused.Defect → HasNoBody text.now }
{
    let mut place = member(ops, text)?;
    while place < text.len() {
        if text[place] == b']' {
            return Ok(place + 1);
        }
        place += member(ops, &text[place..])?;
    }
    Err(ReadRefused::Defect)
}

/// Reads the bracket expression at the front of a text, and answers how many bytes it has.
pub fn set(ops: &mut Vec<Op>, text: &[u8]) -> Result<usize, ReadRefused>
    requires { begins_with 91 text.now ≡ true }
    ensures ok { IfOk result (ReadsSet text.now ops.old.items ops.new.items) }
    ensures defect { result ≡ Err ReadRefused.Defect → HasNoToken text.now }
{
    if begins_with(b'^', &text[1..]) {
        let length = members(ops, &text[2..])?;
        ops.push(Op::Set(true))?;
        return Ok(2 + length);
    }
    let length = members(ops, &text[1..])?;
    ops.push(Op::Set(false))?;
    Ok(1 + length)
}
