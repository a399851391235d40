//! An expression that was read.
ghost use Rattle.std.specs.Prelude.{◌≡◌, IfOk};

use crate::op::Op;
use pm_bytes::Memory;
use std::alloc::Global;
use std::marker::Model;

/// A regular expression, and what stands left of its `\/` where it has one.
#[derive(Drop)]
pub struct Expr {
    left: Option<Vec<Op>>,
    right: Vec<Op>,
}

impl Model for Expr {
    ghost use Rattle.std.specs.Prelude.{◌≡◌, true, option_map};
    ghost use Rattle.pm_regex.specs.Re.{Whole};
    ghost use Rattle.pm_regex.specs.Postfix.{is_spelling, is_left_spelling, whole_of};
    ghost use Rattle.pm_regex.specs.Code.{whole_code};
    ghost use Rattle.pm_regex.specs.contracts.op.Op.{the_row};

    ghost Value = { Whole };

    ghost coded = { whole_code the_row.coded };

    ghost view = { λ e. whole_of (option_map (λ v. v.items) e.left) e.right.items };

    ghost invariant = { λ e. (is_left_spelling (option_map (λ v. v.items) e.left) ≡ true)
        × (is_spelling e.right.items ≡ true) };
}

/// Equal operators.
fn copied(alloc: Global, ops: &[Op]) -> Result<Vec<Op>, Memory>
    ensures { IfOk result (λ copy. copy.items ≡ ops.now) }
{
    let mut copy = Vec::new(alloc);
    copy.extend_from_slice(ops)?;
    Ok(copy)
}

impl Expr {
    ghost use Rattle.std.specs.Prelude.{◌≡◌, true, None, Some, option_map, is_some, IfOk, MatchOption};
    ghost use Rattle.pm_regex.specs.Re.{Re};
    ghost use Rattle.pm_regex.specs.Postfix.{Spells, whole_of, is_spelling, is_left_spelling};

    /// Makes an expression of the operators that spell it.
    pub(crate) fn new(left: Option<Vec<Op>>, right: Vec<Op>) -> Expr
        requires left_spelling { is_left_spelling (option_map (λ v. v.items) left) ≡ true }
        requires right_spelling { is_spelling right.items ≡ true }
        ensures { result ≡ whole_of (option_map (λ v. v.items) left) right.items }
    {
        Expr { left, right }
    }

    /// An equal expression.
    pub fn copy(&self, alloc: Global) -> Result<Expr, Memory>
        ensures { IfOk result (λ copy. copy ≡ self.now) }
    {
        let left = match &self.left {
            None => None,
            Some(ops) => Some(copied(alloc, ops.as_slice())?),
        };
        let right = copied(alloc, self.right.as_slice())?;
        Ok(Expr { left, right })
    }

    /// Whether the expression has a `\/`.
    pub fn has_cut(&self) -> bool
        ensures { result ≡ is_some self.now.left }
    {
        self.left.is_some()
    }

    /// The operators of what stands left of the `\/`, where the expression has one.
    pub fn left(&self) -> Option<&[Op]>
        ensures { MatchOption result (self.now.left ≡ None) (λ ops. (e : Re) × (self.now.left ≡ Some e)
            × Spells ops.now e) }
    {
        match &self.left {
            None => None,
            Some(ops) => Some(ops.as_slice()),
        }
    }

    /// The operators of what stands right of the `\/`, or of the whole expression where it has none.
    pub fn right(&self) -> &[Op]
        ensures { Spells result.now self.now.right }
    {
        self.right.as_slice()
    }
}
