//! The code of an rcfile.
ghost use Rattle.std.specs.Prelude.{◌≡◌, true, IfOk};
ghost use Rattle.pm_code.specs.Flat.{flats_of};
ghost use Rattle.pm_code.specs.Ahead.{ends_right};

use crate::steps::Step;
use pm_bytes::Memory;
use std::alloc::Global;

/// The steps of an rcfile. Each block ends where its `Enter` says.
#[derive(Drop)]
pub struct Code {
    pub steps: Vec<Step>,
    ghost ends: { ends_right 0 (flats_of steps.items) ≡ true },
}

impl Code {
    /// Equal code.
    pub fn copy(&self, alloc: Global) -> Result<Code, Memory>
        ensures { IfOk result (λ copy. flats_of copy.steps.items ≡ flats_of self.now.steps.items) }
    {
        let mut steps = Vec::new(alloc);
        for step in &self.steps {
            steps.push(step.copy(alloc)?)?;
        }
        Ok(Code { steps })
    }
}
