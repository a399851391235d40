//! Which commands have an answer, by their line and by their program.
ghost use Rattle.std.specs.Prelude.{◌≡◌, IfOk};
ghost use Rattle.pm_overlay.specs.Tools.{has_answer, is_answered};

use crate::programs::line_of;
use crate::tool::tool_of;
use pm_bytes::{Blob, Memory};
use pm_host::Command;
use std::alloc::Global;

/// Whether a command has an answer without being started: a given one, by these lines, or that of its own code.
pub fn has_answer(alloc: Global, lines: &[Blob], command: &Command) -> Result<bool, Memory>
    ensures { IfOk result (λ has. has ≡ has_answer lines.now command.now) }
{
    Ok(is_answered(alloc, lines, command)? || tool_of(&command.program).is_some())
}

/// Whether one of these lines is the command's.
pub fn is_answered(alloc: Global, lines: &[Blob], command: &Command) -> Result<bool, Memory>
    ensures { IfOk result (λ is. is ≡ is_answered lines.now command.now) }
{
    let line = line_of(alloc, command)?;
    Ok(lines.iter().any(|one| one.as_slice() == line.as_slice()))
}
