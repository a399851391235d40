//! The lines of the defects among statements.
ghost use Rattle.std.specs.Prelude.{◌≡◌, ◌++◌, [], ◌∷◌, OnOk};
ghost use Rattle.pm_recipe.specs.View.{tree_of, act_of};
ghost use Rattle.check_find.specs.Statements.{defect_lines, defects_in, defects_of};

use pm_bytes::Memory;
use pm_recipe::{Action, Statement, Statements};

/// Puts the lines of the defects, in their order, after these.
#[cycle(gather)]
pub fn gather_lines(statements: &Statements, lines: &mut Vec<u64>) -> Result<(), Memory>
    ensures { OnOk result (lines.new.items ≡ lines.old.items ++ defect_lines statements.now) }
{
    for statement in statements.as_slice() {
        gather_one(statement, lines)?;
    }
    Ok(())
}

#[cycle(gather)]
fn gather_one(statement: &Statement, lines: &mut Vec<u64>) -> Result<(), Memory>
    ensures { OnOk result (lines.new.items ≡ lines.old.items ++ defects_in (tree_of statement.now)) }
{
    match statement {
        Statement::Assign { .. } | Statement::Unset { .. } => Ok(()),
        Statement::Defect { line, .. } => put_line(*line, lines),
        Statement::Recipe(recipe) => gather_action(&recipe.action, lines),
    }
}

#[cycle(gather)]
fn gather_action(action: &Action, lines: &mut Vec<u64>) -> Result<(), Memory>
    ensures { OnOk result (lines.new.items ≡ lines.old.items ++ defects_of (act_of action.now)) }
{
    match action {
        Action::Block(statements) => gather_lines(statements, lines),
        _ => Ok(()),
    }
}

fn put_line(line: u64, lines: &mut Vec<u64>) -> Result<(), Memory>
    ensures { OnOk result (lines.new.items ≡ lines.old.items ++ line ∷ []) }
{
    lines.push(line)?;
    Ok(())
}
