//! Copies of what came of conditions.
ghost use Rattle.std.specs.Prelude.{◌≡◌, IfOk};

use pm_bytes::{Blob, Memory};
use pm_meaning::question::Outcome;
use std::alloc::Global;

/// An equal outcome.
pub fn copy_outcome(alloc: Global, outcome: &Outcome) -> Result<Outcome, Memory>
    ensures { IfOk result (λ copy. copy ≡ outcome.now) }
{
    match outcome {
        Outcome::Holds => Ok(Outcome::Holds),
        Outcome::Matched(bytes) => Ok(Outcome::Matched(bytes.copy(alloc)?)),
        Outcome::Fails => Ok(Outcome::Fails),
        Outcome::Counted {
            weight,
            matches,
            bytes,
        } => Ok(Outcome::Counted {
            weight: *weight,
            matches: *matches,
            bytes: copy_bytes(alloc, bytes)?,
        }),
        Outcome::Compared {
            weight,
            above,
            length,
            number,
        } => Ok(Outcome::Compared {
            weight: *weight,
            above: *above,
            length: *length,
            number: *number,
        }),
        Outcome::Exited {
            weight,
            inverted,
            code,
        } => Ok(Outcome::Exited {
            weight: *weight,
            inverted: *inverted,
            code: *code,
        }),
        Outcome::Defective => Ok(Outcome::Defective),
        Outcome::TooLong(length) => Ok(Outcome::TooLong(*length)),
    }
}

fn copy_bytes(alloc: Global, bytes: &Option<Blob>) -> Result<Option<Blob>, Memory>
    ensures { IfOk result (λ copy. copy ≡ bytes.now) }
{
    match bytes {
        None => Ok(None),
        Some(bytes) => Ok(Some(bytes.copy(alloc)?)),
    }
}
