//! Rows of texts and the expressions that they are read as. An expression is written in postfix order: `0`
//! for no bytes, a byte after `'`, `A` and `Z` for the area's start and end, `&` for two expressions one
//! after the other, `[]` and `[^]` after their ranges.
use crate::searching::read_expr;
use crate::told::{answered, defect, said};
use crate::{Refused, Words, one_word, only_word};
use pm_bytes::Memory;
use pm_regex::{Atom, Expr, Op, Times};
use std::alloc::{AllocError, Global};

/// What a text is read as.
pub fn expression(alloc: Global, text: &[u8]) -> Result<Words, Refused> {
    match read_expr(alloc, text)? {
        None => defect(alloc),
        Some(expr) => answered(written_word(alloc, &expr)),
    }
}

fn written_word(alloc: Global, expr: &Expr) -> Result<Words, Memory> {
    only_word(alloc, written(alloc, expr)?)
}

/// Whether two texts are read as the same expression.
pub fn same(alloc: Global, text: &[u8], other: &[u8]) -> Result<Words, Refused> {
    let one = read_expr(alloc, text)?;
    same_as(alloc, &one, other)
}

fn same_as(alloc: Global, one: &Option<Expr>, other: &[u8]) -> Result<Words, Refused> {
    let other = read_expr(alloc, other)?;
    same_exprs(alloc, one, &other)
}

fn same_exprs(alloc: Global, one: &Option<Expr>, other: &Option<Expr>) -> Result<Words, Refused> {
    match (one, other) {
        (Some(one), Some(other)) => said(alloc, are_equal(alloc, one, other)?),
        _ => defect(alloc),
    }
}

fn are_equal(alloc: Global, one: &Expr, other: &Expr) -> Result<bool, AllocError> {
    let one = written(alloc, one)?;
    let other = written(alloc, other)?;
    Ok(one.as_slice() == other.as_slice())
}

/// Whether a text is read.
pub fn reads(alloc: Global, text: &[u8]) -> Result<Words, Refused> {
    let answer = match read_expr(alloc, text)? {
        Some(_) => "yes",
        None => "defect",
    };
    Ok(one_word(alloc, answer)?)
}

/// Whether the expression has a cut.
pub fn has_cut(alloc: Global, text: &[u8]) -> Result<Words, Refused> {
    let answer = match read_expr(alloc, text)? {
        Some(expr) => if expr.has_cut() { "yes" } else { "no" },
        None => "defect",
    };
    Ok(one_word(alloc, answer)?)
}

fn written(alloc: Global, expr: &Expr) -> Result<Vec<u8>, AllocError> {
    let mut out = Vec::new(alloc);
    write_expr(&mut out, expr)?;
    Ok(out)
}

fn write_expr(out: &mut Vec<u8>, expr: &Expr) -> Result<(), AllocError> {
    if let Some(ops) = expr.left() {
        write_ops(out, ops)?;
        out.extend_from_slice(b"\\/")?;
    }
    write_ops(out, expr.right())
}

fn write_ops(out: &mut Vec<u8>, ops: &[Op]) -> Result<(), AllocError> {
    for op in ops {
        write_op(out, *op)?;
    }
    Ok(())
}

fn write_op(out: &mut Vec<u8>, op: Op) -> Result<(), AllocError> {
    match op {
        Op::Nothing => out.extend_from_slice(b"0"),
        Op::One(atom) => write_atom(out, atom),
        Op::Range(first, last) => out.extend_from_slice(&[first, b'-', last]),
        Op::Set(negated) => out.extend_from_slice(if negated { b"[^]" } else { b"[]" }),
        Op::Seq => out.extend_from_slice(b"&"),
        Op::Either => out.extend_from_slice(b"|"),
        Op::Repeat(Times::Star) => out.extend_from_slice(b"*"),
        Op::Repeat(Times::Plus) => out.extend_from_slice(b"+"),
        Op::Repeat(Times::Maybe) => out.extend_from_slice(b"?"),
    }
}

fn write_atom(out: &mut Vec<u8>, atom: Atom) -> Result<(), AllocError> {
    match atom {
        Atom::Byte(byte) => out.extend_from_slice(&[b'\'', byte]),
        Atom::Any => out.extend_from_slice(b"."),
        Atom::LineStart => out.extend_from_slice(b"^"),
        Atom::LineEnd => out.extend_from_slice(b"$"),
        Atom::WordStart => out.extend_from_slice(b"<"),
        Atom::WordEnd => out.extend_from_slice(b">"),
        Atom::AreaStart => out.extend_from_slice(b"A"),
        Atom::AreaEnd => out.extend_from_slice(b"Z"),
    }
}
