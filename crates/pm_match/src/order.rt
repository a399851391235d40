//! An order of the states of an automaton for passes from an area's end: a state comes after those that it leads to
//! without a byte, but for loops. It is a hint: a pass is right in any order, and in this one it takes few rounds.
use crate::step::{Step, Test};
use pm_regex::Atom;
use std::alloc::{AllocError, Global};

/// A state that a walk comes to: before the states that it leads to, or after them.
#[derive(Clone, Copy, Drop)]
struct Visit {
    state: usize,
    is_after: bool,
}

/// Whether the test takes nothing at some place.
fn may_pass(test: Test) -> bool {
    match test {
        Test::One(Atom::Byte(_), _) => false,
        Test::One(Atom::Any, _) => false,
        Test::One(_, _) => true,
        Test::Set(_, _, _, _) => false,
    }
}

/// Puts a state before all others that the walk is to come to.
fn put(stack: &mut Vec<Visit>, state: usize, is_after: bool) -> Result<(), AllocError> {
    stack.push(Visit { state, is_after })?;
    Ok(())
}

/// Puts the states that a step leads to without a byte.
fn put_next(stack: &mut Vec<Visit>, step: Step) -> Result<(), AllocError> {
    match step {
        Step::Stop => Ok(()),
        Step::Go(to) => put(stack, to, false),
        Step::Fork(first, second) => {
            put(stack, second, false)?;
            put(stack, first, false)
        }
        Step::Take(test, to) => {
            if may_pass(test) {
                put(stack, to, false)
            } else {
                Ok(())
            }
        }
        Step::Range(_, _) => Ok(()),
    }
}

/// Comes to a state: lists it, if the states that it leads to are listed, and else has them come before it.
fn come_to(
    steps: &[Step],
    seen: &mut Vec<bool>,
    stack: &mut Vec<Visit>,
    order: &mut Vec<usize>,
    visit: Visit,
) -> Result<(), AllocError> {
    let state = visit.state;
    if visit.is_after {
        order.push(state)?;
        return Ok(());
    }
    if state >= steps.len() || state >= seen.len() || seen[state] {
        return Ok(());
    }
    seen[state] = true;
    put(stack, state, true)?;
    put_next(stack, steps[state])
}

/// Walks from a state to all that it leads to, in at most so many steps.
fn walk(
    steps: &[Step],
    seen: &mut Vec<bool>,
    stack: &mut Vec<Visit>,
    order: &mut Vec<usize>,
    limit: usize,
) -> Result<(), AllocError> {
    for _ in 0..limit {
        match stack.pop() {
            None => return Ok(()),
            Some(visit) => come_to(steps, seen, stack, order, visit)?,
        }
    }
    Ok(())
}

/// The states, each after those that it leads to without a byte, but for loops.
pub fn order_of(alloc: Global, steps: &[Step]) -> Result<Vec<usize>, AllocError> {
    let size = steps.len();
    let mut seen = vec![in alloc; false; size]?;
    let mut stack = Vec::new(alloc);
    let mut order = Vec::with_capacity(alloc, size)?;
    for root in 0..size {
        put(&mut stack, root, false)?;
        walk(
            steps,
            &mut seen,
            &mut stack,
            &mut order,
            size.saturating_mul(4),
        )?;
    }
    Ok(order)
}
