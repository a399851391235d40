//! An open group of an expression: the operators of its parts, as they are written.
ghost use Rattle.std.specs.Prelude.{◌≡◌, ◌∷◌, false, List, OnOk, IfOk};
ghost use Rattle.pm_regex.specs.Re.{one};
ghost use Rattle.pm_regex.specs.Machine.{Frame, with_piece, repeated_frame, barred, expr_of, fresh, next_stand};
ghost use Rattle.pm_regex.specs.Grammar.{edge_atom, times_byte};
ghost use Rattle.pm_regex.specs.Groups.{Shows, Ends, Joined, GroupIs, Changes};

use crate::op::{Atom, Op, Times};
use pm_bytes::Memory;

/// What is open of a group: whether it has finished branches, whether this branch has a piece, and whether the group
/// is directly after the cut.
#[derive(Clone, Copy, Drop)]
pub struct Group {
    pub has_bars: bool,
    pub has_last: bool,
    pub after_cut: bool,
}

/// A group of which nothing is read.
pub fn fresh_group(after_cut: bool) -> Group
    ensures { GroupIs result (fresh after_cut) }
{
    Group {
        has_bars: false,
        has_last: false,
        after_cut,
    }
}

/// Joins the last piece to those before it.
pub fn join_last(ops: &mut Vec<Op>, group: Group) -> Result<(), Memory>
    ensures { OnOk result ((f : Frame) (fs : List Frame) → Shows ops.old.items group f fs → Joined ops.new.items f fs) }
{
    if !group.has_last {
        return Ok(());
    }
    ops.push(Op::Seq)?;
    Ok(())
}

/// Adds an atom as a piece.
pub fn piece(ops: &mut Vec<Op>, group: Group, atom: Atom) -> Result<Group, Memory>
    ensures { IfOk result (λ new. Changes ops.old.items group ops.new.items new (λ f. with_piece f (one atom))) }
{
    join_last(ops, group)?;
    ops.push(Op::One(atom))?;
    Ok(Group {
        has_last: true,
        ..group
    })
}

/// What two carets ask for, by where they stand.
pub fn edge(group: Group) -> Atom
    ensures { (f : Frame) → GroupIs group f → result ≡ edge_atom (next_stand f) }
{
    if group.has_last {
        return Atom::AreaEnd;
    }
    if group.after_cut && !group.has_bars {
        return Atom::AreaEnd;
    }
    Atom::AreaStart
}

fn times_byte(times: Times) -> u8
    ensures { result ≡ times_byte times }
{
    match times {
        Times::Star => b'*',
        Times::Plus => b'+',
        Times::Maybe => b'?',
    }
}

/// Repeats the last piece; at the front of a branch the repeat's byte is a piece.
pub fn repeat(ops: &mut Vec<Op>, group: Group, times: Times) -> Result<Group, Memory>
    ensures { IfOk result (λ new. Changes ops.old.items group ops.new.items new (λ f. repeated_frame f times f.last)) }
{
    if !group.has_last {
        return piece(ops, group, Atom::Byte(times_byte(times)));
    }
    ops.push(Op::Repeat(times))?;
    Ok(group)
}

/// Ends the last branch.
pub fn end_branch(ops: &mut Vec<Op>, group: Group) -> Result<(), Memory>
    ensures { OnOk result ((f : Frame) (fs : List Frame) → Shows ops.old.items group f fs
        → Ends ops.new.items (expr_of f) fs) }
{
    join_last(ops, group)?;
    if !group.has_bars {
        return Ok(());
    }
    ops.push(Op::Either)?;
    Ok(())
}

/// Begins the next branch.
pub fn bar(ops: &mut Vec<Op>, group: Group) -> Result<Group, Memory>
    ensures { IfOk result (λ new. Changes ops.old.items group ops.new.items new barred) }
{
    end_branch(ops, group)?;
    ops.push(Op::Nothing)?;
    Ok(Group {
        has_bars: true,
        has_last: false,
        after_cut: group.after_cut,
    })
}

/// Begins a group within this one.
pub fn open(ops: &mut Vec<Op>, group: Group) -> Result<Group, Memory>
    ensures { IfOk result (λ new. (f : Frame) (fs : List Frame) → Shows ops.old.items group f fs
        → Shows ops.new.items new (fresh false) (f ∷ fs)) }
{
    join_last(ops, group)?;
    ops.push(Op::Nothing)?;
    Ok(fresh_group(false))
}

/// Ends a group, whose expression is a piece of the group around it.
pub fn close(ops: &mut Vec<Op>, group: Group, around: Group) -> Result<Group, Memory>
    ensures { IfOk result (λ new. (f g : Frame) (gs : List Frame) → Shows ops.old.items group f (g ∷ gs)
        → GroupIs around g → Shows ops.new.items new (with_piece g (expr_of f)) gs) }
{
    end_branch(ops, group)?;
    Ok(Group {
        has_last: true,
        ..around
    })
}
