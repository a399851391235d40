//! Processes of which nothing is known but their mail.
ghost use Rattle.std.specs.Prelude.{◌≡◌, [], IfOk};

use crate::calls::failed::Failed;
use pm_bytes::Name;
use pm_journal::HeldLocks;
use pm_meaning::{Mind, new_chain};
use pm_message::{Message, split};
use pm_vars::Vars;
use std::alloc::Global;

/// A process that has this mail, and no variables and no locks.
pub fn mind_with(alloc: Global, mail: &[u8]) -> Result<Mind, Failed>
    ensures { IfOk result (λ mind. mind.locks.names ≡ []) }
{
    let base = Name::read(alloc, b"/home/joe")?;
    let message = split(alloc, mail)?;
    Ok(mind_of(alloc, message, base))
}

fn mind_of(alloc: Global, message: Message, base: Name) -> Mind
    ensures { result.locks.names ≡ [] }
{
    Mind {
        vars: Vars::new(alloc, 4242),
        message,
        base,
        chain: new_chain(),
        locks: HeldLocks::new(alloc),
        global: None,
        rcfiles: Vec::new(alloc),
        last: None,
    }
}
