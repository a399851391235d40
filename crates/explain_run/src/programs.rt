//! The programs of a journal, by their places among them: the first has the place 0.
ghost use Rattle.std.specs.Prelude.{◌≡◌, IfOk, option_copied};
ghost use Rattle.explain_run.specs.Programs.{program_at, is_program, runs, are_alike};

use pm_bytes::Memory;
use pm_host::Command;
use pm_journal::{Act, Entry};
use pm_overlay::line_of;
use std::alloc::Global;

/// The program at this place.
pub(crate) fn program_at(entries: &[Entry], place: usize) -> Option<&Entry>
    ensures { option_copied result ≡ program_at entries.now place }
{
    let mut before: usize = 0;
    for entry in entries {
        if is_program(&entry.act) {
            if before == place {
                return Some(entry);
            }
            before += 1;
        }
    }
    None
}

fn is_program(act: &Act) -> bool
    ensures { result ≡ is_program act.now }
{
    matches!(act, Act::Run { .. })
}

/// Whether the act runs this program, whose output is wanted or not.
pub(crate) fn runs(alloc: Global, act: &Act, command: &Command, want: bool) -> Result<bool, Memory>
    ensures { IfOk result (λ is. is ≡ runs command.now want act.now) }
{
    match act {
        Act::Run {
            command: other,
            want: wanted,
            ..
        } if want == *wanted => are_alike(alloc, command, other),
        _ => Ok(false),
    }
}

// Whether the commands have one line, and run from one directory.
fn are_alike(alloc: Global, one: &Command, other: &Command) -> Result<bool, Memory>
    ensures { IfOk result (λ are. are ≡ are_alike one.now other.now) }
{
    let line = line_of(alloc, one)?;
    let other_line = line_of(alloc, other)?;
    Ok(line.as_slice() == other_line.as_slice() && one.folder.as_str() == other.folder.as_str())
}
