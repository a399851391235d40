//! The lines that are due after an errand.
ghost use Rattle.std.specs.Prelude.{◌≡◌, ◌++◌, false, not, IfOk, OnOk, OnErr};
ghost use Rattle.pm_journal.specs.LogText.{program_failure_line};
ghost use Rattle.pm_meaning.specs.Delivering.{line_if, is_without};
ghost use Rattle.pm_meaning.specs.ProgramActions.{outcome_lines};
ghost use Rattle.pm_meaning.specs.ProgramActions;

use crate::saying::{push_forced, push_stuck};
use pm_bytes::{Blob, Memory};
use pm_journal::{
    couldnt_lock, couldnt_start, couldnt_write_out, input_closed, lost_contact, output_too_long,
    program_failure, value_too_long,
};
use pm_meaning::{Outcome, Trial};
use pm_recipe::Flags;
use std::alloc::Global;
use std::collections::VecDeque;

/// What is told of an errand and its lock file, in order. It takes memory only where something is told.
#[tactic(auto, using(crate::proofs::SureLemmas::without_front, crate::proofs::SureLemmas::without_back))]
pub fn trial_lines(
    alloc: Global,
    flags: Flags,
    line: &[u8],
    trial: &Trial,
) -> Result<VecDeque<Blob>, Memory>
    ensures lines { IfOk result (λ lines. lines.items ≡ ProgramActions.trial_lines flags line.now trial.now) }
    ensures sure { OnErr result (is_without (ProgramActions.trial_lines flags line.now trial.now) ≡ false) }
{
    let mut lines = VecDeque::new(alloc);
    match trial {
        Trial::Unlocked(outcome) => push_outcome(alloc, flags, line, *outcome, &mut lines)?,
        Trial::NotLocked { name, .. } => lines.push_back(couldnt_lock(alloc, name)?)?,
        Trial::Locked {
            name,
            forced,
            outcome,
            stuck,
        } => {
            push_forced(alloc, *forced, name, &mut lines)?;
            push_outcome(alloc, flags, line, *outcome, &mut lines)?;
            push_stuck(alloc, *stuck, name, &mut lines)?;
        }
    }
    Ok(lines)
}

// What is told of the program, or of standard output.
fn push_outcome(
    alloc: Global,
    flags: Flags,
    line: &[u8],
    outcome: Outcome,
    lines: &mut VecDeque<Blob>,
) -> Result<(), Memory>
    ensures lines { OnOk result (lines.new.items ≡ lines.old.items ++ outcome_lines flags line.now outcome) }
    ensures sure { OnErr result (is_without (outcome_lines flags line.now outcome) ≡ false) }
{
    match outcome {
        Outcome::Done => {}
        Outcome::NotStarted => lines.push_back(couldnt_start(alloc, line)?)?,
        Outcome::Lost => lines.push_back(lost_contact(alloc, line)?)?,
        Outcome::Closed => lines.push_back(input_closed(alloc, line)?)?,
        Outcome::Code(code) => push_code(alloc, flags, line, code, lines)?,
        Outcome::TooLong => lines.push_back(output_too_long(alloc, line)?)?,
        Outcome::Overflow(size) => lines.push_back(value_too_long(alloc, size)?)?,
        Outcome::Unwritten => lines.push_back(couldnt_write_out(alloc)?)?,
    }
    Ok(())
}

// Under the flag W nothing is told of an exit code.
fn push_code(
    alloc: Global,
    flags: Flags,
    line: &[u8],
    code: u8,
    lines: &mut VecDeque<Blob>,
) -> Result<(), Memory>
    ensures lines { OnOk result (lines.new.items ≡
        lines.old.items ++ line_if (not flags.wait_quiet) (program_failure_line code line.now)) }
    ensures sure { OnErr result
        (is_without (line_if (not flags.wait_quiet) (program_failure_line code line.now)) ≡ false) }
{
    if !flags.wait_quiet {
        lines.push_back(program_failure(alloc, code, line)?)?;
    }
    Ok(())
}
