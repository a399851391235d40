//! What came of an action.
ghost use Rattle.std.specs.Prelude.{◌≡◌};
ghost use Rattle.pm_actions.specs.Performing.{performed_of};

use pm_bytes::Memory;
use pm_meaning::{Acted, Cause};

/// What came of an action. After `Memory` some of its acts were done and noted, or none.
#[derive(Clone, Copy, Debug, PartialEq, Eq)]
pub enum Performed {
    /// The mail was delivered for good.
    Delivered,
    /// A copy of the mail was delivered: the recipe has the flag c.
    CopyDone,
    /// What a filter wrote took the mail's place, or what a program wrote became a variable's value.
    Went,
    /// It wasn't done, for this cause.
    ActionFailed { cause: Cause },
    /// Memory was wanting.
    Memory,
}

/// What came of an action, or that memory was wanting in it.
pub fn answered(acted: Result<Acted, Memory>) -> Performed
    ensures { result ≡ performed_of acted }
{
    match acted {
        Ok(Acted::Delivered) => Performed::Delivered,
        Ok(Acted::CopyDone) => Performed::CopyDone,
        Ok(Acted::Went) => Performed::Went,
        Ok(Acted::Failed(cause)) => Performed::ActionFailed { cause },
        Err(Memory) => Performed::Memory,
    }
}
