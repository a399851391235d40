//! Texts without the joins of their lines, and without the blanks at their ends.
ghost use Rattle.std.specs.Prelude.{◌≡◌, ◌+◌, ◌<◌, IfOk, length, drop, if◌then◌else◌, List, ℕ, ◌++◌, ◌∷◌};
ghost use Rattle.pm_recipe.specs.declared.joins.Side.TheVariants as Side;
ghost use Rattle.pm_recipe.specs.Joins.{is_join, unjoined, unindented, before_blanks};
ghost use Rattle.pm_recipe.specs.Kept.{is_dropped, side_after, kept, trimmed};

use crate::places::{newline_after, past};
use crate::runs::Run;
use pm_bytes::{BACKSLASH, Blob, Memory, is_blank};
use std::alloc::Global;

/// Where a byte stands: in the text, at a join's newline, or among the blanks after one.
#[derive(Clone, Copy)]
pub enum Side {
    Text,
    Newline,
    Indent,
}

fn drops(side: Side, byte: u8, joins: bool) -> bool
    ensures { (bytes : List ℕ) → joins ≡ is_join byte bytes → result ≡ is_dropped side byte bytes }
{
    match side {
        Side::Text => joins,
        Side::Newline => true,
        Side::Indent => is_blank(byte) || joins,
    }
}

fn after(indents: bool, side: Side, byte: u8, joins: bool) -> Side
    ensures { (bytes : List ℕ) → joins ≡ is_join byte bytes
        → result ≡ side_after indents side byte bytes }
{
    match side {
        Side::Text => if joins { Side::Newline } else { Side::Text },
        Side::Newline => if indents { Side::Indent } else { Side::Text },
        Side::Indent => {
            if is_blank(byte) {
                return Side::Indent;
            }
            if joins { Side::Newline } else { Side::Text }
        }
    }
}

fn push_kept(copy: &mut Vec<u8>, byte: u8, dropped: bool) -> Result<(), Memory>
    ensures { IfOk result (λ _. (rest : List ℕ) → copy.new.items ++ rest
        ≡ copy.old.items ++ (if dropped then rest else byte ∷ rest)) }
{
    if !dropped {
        copy.push(byte)?;
    }
    Ok(())
}

fn joins_at(text: &[u8], i: usize, byte: u8) -> bool
    requires { i < length text.now }
    ensures { result ≡ is_join byte (drop (i + 1) text.now) }
{
    byte == BACKSLASH && newline_after(text, i)
}

fn keep(alloc: Global, indents: bool, text: &[u8]) -> Result<Vec<u8>, Memory>
    ensures { IfOk result (λ copy. copy.items ≡ kept indents Side.Text text.now) }
{
    let mut copy = Vec::new(alloc);
    let mut side = Side::Text;
    for (i, byte) in text.iter().enumerate() {
        let joins = joins_at(text, i, *byte);
        push_kept(&mut copy, *byte, drops(side, *byte, joins))?;
        side = after(indents, side, *byte, joins);
    }
    Ok(copy)
}

pub fn without_joins(alloc: Global, text: &[u8]) -> Result<Blob, Memory>
    ensures { IfOk result (λ line. line ≡ unjoined text.now) }
{
    Ok(Blob::from_vec(keep(alloc, false, text)?))
}

pub fn without_indents(alloc: Global, text: &[u8]) -> Result<Blob, Memory>
    ensures { IfOk result (λ line. line ≡ unindented text.now) }
{
    Ok(Blob::from_vec(keep(alloc, true, text)?))
}

fn without_last_blanks(text: &[u8]) -> &[u8]
    ensures { result.now ≡ before_blanks text.now }
{
    let mut end = 0;
    for (i, byte) in text.iter().enumerate() {
        if !is_blank(*byte) {
            end = i + 1;
        }
    }
    &text[..end]
}

pub fn trim(text: &[u8]) -> &[u8]
    ensures { result.now ≡ trimmed text.now }
{
    without_last_blanks(past(Run::Blanks, text))
}
