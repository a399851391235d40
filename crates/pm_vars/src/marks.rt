//! What is known of a process beside its variables.
ghost use Rattle.std.specs.Prelude.{◌≡◌, IfOk};

use pm_bytes::{Blob, Memory};
use std::alloc::Global;

/// The process number `$$`, the last exit code `$?`, the last score `$=` and the name of the rcfile `$_`.
#[derive(Drop)]
pub struct Marks {
    pub pid: u32,
    pub code: u8,
    pub score: i32,
    pub rcfile: Blob,
}

impl Marks {
    pub(crate) fn copy(&self, alloc: Global) -> Result<Marks, Memory>
        ensures { IfOk result (λ copy. copy ≡ self.now) }
    {
        let Marks {
            pid,
            code,
            score,
            rcfile,
        } = self;
        Ok(Marks {
            pid: *pid,
            code: *code,
            score: *score,
            rcfile: rcfile.copy(alloc)?,
        })
    }
}
