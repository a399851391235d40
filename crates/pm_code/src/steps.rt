//! The steps of flat code.
ghost use Rattle.std.specs.Prelude.{◌≡◌, IfOk};
ghost use Rattle.pm_code.specs.Flat.{flat_of};

use pm_bytes::{Blob, Memory};
use pm_recipe::Recipe;
use std::alloc::Global;

/// A step of flat code. Places are counted from 0.
#[derive(Drop)]
pub enum Step {
    Assign { name: Blob, value: Blob },
    Unset { name: Blob },
    /// A line that wasn't understood, with its number from 1.
    Defect { line: u64, text: Blob },
    /// A recipe without a block.
    Plain(Recipe),
    /// The beginning of a block, whose `Leave` stands at the place `end`. The block of its recipe has no statements:
    /// they are the steps between the two.
    Enter { recipe: Recipe, end: usize },
    /// The end of the block whose `Enter` stands at the place `enter`.
    Leave { enter: usize },
}

impl Step {
    /// An equal step.
    pub fn copy(&self, alloc: Global) -> Result<Step, Memory>
        ensures { IfOk result (λ copy. flat_of copy ≡ flat_of self.now) }
    {
        match self {
            Step::Assign { name, value } => Ok(Step::Assign {
                name: name.copy(alloc)?,
                value: value.copy(alloc)?,
            }),
            Step::Unset { name } => Ok(Step::Unset {
                name: name.copy(alloc)?,
            }),
            Step::Defect { line, text } => Ok(Step::Defect {
                line: *line,
                text: text.copy(alloc)?,
            }),
            Step::Plain(recipe) => Ok(Step::Plain(recipe.copy(alloc)?)),
            Step::Enter { recipe, end } => Ok(Step::Enter {
                recipe: recipe.copy(alloc)?,
                end: *end,
            }),
            Step::Leave { enter } => Ok(Step::Leave { enter: *enter }),
        }
    }
}
