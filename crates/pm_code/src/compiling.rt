//! The code of an rcfile's statements.
ghost use Rattle.std.specs.Prelude.{◌≡◌, ◌++◌, ◌<◌, [], ◌∷◌, IfOk, OnOk, length, slice_set};
ghost use Rattle.pm_recipe.specs.View.{tree_of, act_of, top_of};
ghost use Rattle.pm_code.specs.Between.{IsBetween};
ghost use Rattle.pm_code.specs.Flat.{flats_of, written, written_one, written_recipe, Does, Enters, Leaves};
ghost use Rattle.pm_recipe.specs.Tree.{Assign, Unset, Defect};
ghost use Rattle.pm_recipe.specs.Tree;

use crate::code::Code;
use crate::steps::Step;
use pm_bytes::{Blob, Memory};
use pm_recipe::{Action, Rc, Recipe, Statement, Statements};
use std::alloc::Global;
use std::mem;

/// The code of the statements.
pub fn compile(alloc: Global, rc: &Rc) -> Result<Code, Memory>
    ensures between { IfOk result (λ code. IsBetween (flats_of code.steps.items) 0 (length code.steps.items)
        rc.now.statements) }
    ensures written { IfOk result (λ code. flats_of code.steps.items ≡ written 0 rc.now.statements) }
{
    let mut steps = Vec::new(alloc);
    put_all(alloc, &rc.statements, &mut steps)?;
    Ok(Code { steps })
}

// Puts the code of the statements after the steps.
#[cycle(put)]
fn put_all(alloc: Global, statements: &Statements, steps: &mut Vec<Step>) -> Result<(), Memory>
    ensures { OnOk result (flats_of steps.new.items ≡ flats_of steps.old.items
        ++ written (length steps.old.items) statements.now) }
{
    for statement in statements.as_slice() {
        put_one(alloc, statement, steps)?;
    }
    Ok(())
}

#[cycle(put)]
fn put_one(alloc: Global, statement: &Statement, steps: &mut Vec<Step>) -> Result<(), Memory>
    ensures { OnOk result (flats_of steps.new.items ≡ flats_of steps.old.items
        ++ written_one (length steps.old.items) (tree_of statement.now)) }
{
    match statement {
        Statement::Assign { name, value } => put_assign(alloc, name, value, steps),
        Statement::Unset { name } => put_unset(alloc, name, steps),
        Statement::Defect { line, text } => put_defect(alloc, *line, text, steps),
        Statement::Recipe(recipe) => put_recipe(alloc, recipe, steps),
    }
}

#[cycle(put)]
fn put_recipe(alloc: Global, recipe: &Recipe, steps: &mut Vec<Step>) -> Result<(), Memory>
    ensures { OnOk result (flats_of steps.new.items ≡ flats_of steps.old.items
        ++ written_recipe (length steps.old.items) (top_of recipe.now) (act_of recipe.now.action)) }
{
    match &recipe.action {
        Action::Block(statements) => {
            let enter = begin_block(steps)?;
            put_all(alloc, statements, steps)?;
            end_block(alloc, recipe, enter, steps)?;
            Ok(())
        }
        _ => put_plain(alloc, recipe, steps),
    }
}

// What is put stands in functions of its own, so that the recursion over blocks takes little of the stack.

fn put_assign(alloc: Global, name: &Blob, value: &Blob, steps: &mut Vec<Step>) -> Result<(), Memory>
    ensures { OnOk result (flats_of steps.new.items ≡ flats_of steps.old.items
        ++ Does (Assign name.now value.now) ∷ []) }
{
    let name = name.copy(alloc)?;
    let value = value.copy(alloc)?;
    steps.push(Step::Assign { name, value })?;
    Ok(())
}

fn put_unset(alloc: Global, name: &Blob, steps: &mut Vec<Step>) -> Result<(), Memory>
    ensures { OnOk result (flats_of steps.new.items ≡ flats_of steps.old.items
        ++ Does (Unset name.now) ∷ []) }
{
    let name = name.copy(alloc)?;
    steps.push(Step::Unset { name })?;
    Ok(())
}

fn put_defect(alloc: Global, line: u64, text: &Blob, steps: &mut Vec<Step>) -> Result<(), Memory>
    ensures { OnOk result (flats_of steps.new.items ≡ flats_of steps.old.items
        ++ Does (Defect line text.now) ∷ []) }
{
    let text = text.copy(alloc)?;
    steps.push(Step::Defect { line, text })?;
    Ok(())
}

fn put_plain(alloc: Global, recipe: &Recipe, steps: &mut Vec<Step>) -> Result<(), Memory>
    ensures { OnOk result (flats_of steps.new.items ≡ flats_of steps.old.items
        ++ Does (Tree.Recipe (top_of recipe.now) (act_of recipe.now.action)) ∷ []) }
{
    let recipe = recipe.copy(alloc)?;
    steps.push(Step::Plain(recipe))?;
    Ok(())
}

// The place of the block's beginning, which is written when its end is known.
fn begin_block(steps: &mut Vec<Step>) -> Result<usize, Memory>
    ensures place { IfOk result (λ enter. enter ≡ length steps.old.items) }
    ensures held { IfOk result (λ enter. flats_of steps.new.items ≡ flats_of steps.old.items ++ Leaves enter ∷ []) }
{
    let enter = steps.len();
    steps.push(Step::Leave { enter })?;
    Ok(enter)
}

fn end_block(
    alloc: Global,
    recipe: &Recipe,
    enter: usize,
    steps: &mut Vec<Step>,
) -> Result<(), Memory>
    requires { enter < length steps.old.items }
    ensures { OnOk result (flats_of steps.new.items
        ≡ slice_set (flats_of steps.old.items) enter (Enters (top_of recipe.now) (length steps.old.items))
        ++ Leaves enter ∷ []) }
{
    let head = recipe.copy_head(alloc, Action::Block(Statements::new(alloc)))?;
    let end = steps.len();
    put_enter(steps, enter, head, end);
    steps.push(Step::Leave { enter })?;
    Ok(())
}

// Puts the beginning of a block at its place.
fn put_enter(steps: &mut Vec<Step>, enter: usize, recipe: Recipe, end: usize)
    requires { enter < length steps.old.items }
    ensures { flats_of steps.new.items ≡ slice_set (flats_of steps.old.items) enter (Enters (top_of recipe) end) }
{
    let step = Step::Enter { recipe, end };
    let _ = mem::replace(&mut steps[enter], step);
}
