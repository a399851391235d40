//! The lines that are due after an attempt to deliver (the log texts of procmail(1), "DIAGNOSTICS").
ghost use Rattle.std.specs.Prelude.{◌≡◌, ◌++◌, false, nat_lt, IfOk, OnOk, OnErr};
ghost use Rattle.pm_journal.specs.Executed.{Carries};
ghost use Rattle.pm_journal.specs.LogText.{forcing_lock_line, couldnt_unlock_line};
ghost use Rattle.pm_meaning.specs.Delivering.{is_without};
ghost use Rattle.pm_meaning.specs.Delivering.{filed_lines, line_if};
ghost use Rattle.pm_meaning.specs.Delivering;
ghost use Rattle.pm_meaning.specs.Minds.{mind_of};
ghost use Rattle.pm_meaning.specs.Apart.{acted_with};

use pm_bytes::{Blob, Memory, Name};
use pm_journal::{
    Effects, bytes_left, couldnt_lock, couldnt_unlock, couldnt_write, forcing_lock, no_free_name,
    unusable_name,
};
use pm_meaning::{Acted, Attempt, Filed, Run, tell};
use std::alloc::Global;
use std::collections::VecDeque;

/// What is told of an attempt, in order; `text` is that of the action. It takes memory only where something is told.
#[tactic(auto, using(crate::proofs::SureLemmas::without_front, crate::proofs::SureLemmas::without_back))]
pub fn attempt_lines(
    alloc: Global,
    text: &[u8],
    attempt: &Attempt,
) -> Result<VecDeque<Blob>, Memory>
    ensures lines { IfOk result (λ lines. lines.items ≡ Delivering.attempt_lines text.now attempt.now) }
    ensures sure { OnErr result (is_without (Delivering.attempt_lines text.now attempt.now) ≡ false) }
{
    let mut lines = VecDeque::new(alloc);
    match attempt {
        Attempt::Unlocked(filed) => push_filed(alloc, text, filed, &mut lines)?,
        Attempt::NotLocked { name, .. } => lines.push_back(couldnt_lock(alloc, name)?)?,
        Attempt::Locked {
            name,
            forced,
            filed,
            stuck,
        } => {
            push_forced(alloc, *forced, name, &mut lines)?;
            push_filed(alloc, text, filed, &mut lines)?;
            push_stuck(alloc, *stuck, name, &mut lines)?;
        }
    }
    Ok(lines)
}

// The destination that didn't get the mail.
fn push_filed(
    alloc: Global,
    text: &[u8],
    filed: &Filed,
    lines: &mut VecDeque<Blob>,
) -> Result<(), Memory>
    ensures lines { OnOk result (lines.new.items ≡ lines.old.items ++ filed_lines text.now filed.now) }
    ensures sure { OnErr result (is_without (filed_lines text.now filed.now) ≡ false) }
{
    match filed {
        Filed::Stored => {}
        Filed::Unwritten(name) => lines.push_back(couldnt_write(alloc, name)?)?,
        Filed::Raced(name) => lines.push_back(couldnt_write(alloc, name)?)?,
        Filed::Left { name, count } => lines.push_back(bytes_left(alloc, *count, name)?)?,
        Filed::Crowded(name) => lines.push_back(no_free_name(alloc, name)?)?,
        Filed::Unnamed => lines.push_back(unusable_name(alloc, text)?)?,
    }
    Ok(())
}

/// Adds that a lock file was removed by force, where it was.
pub fn push_forced(
    alloc: Global,
    forced: u32,
    name: &Name,
    lines: &mut VecDeque<Blob>,
) -> Result<(), Memory>
    ensures lines { OnOk result (lines.new.items ≡
        lines.old.items ++ line_if (nat_lt 0 forced) (forcing_lock_line name.now)) }
    ensures sure { OnErr result (is_without (line_if (nat_lt 0 forced) (forcing_lock_line name.now)) ≡ false) }
{
    if forced > 0 {
        lines.push_back(forcing_lock(alloc, name)?)?;
    }
    Ok(())
}

/// Adds that a lock file's removal failed, where it did.
pub fn push_stuck(
    alloc: Global,
    stuck: bool,
    name: &Name,
    lines: &mut VecDeque<Blob>,
) -> Result<(), Memory>
    ensures lines { OnOk result (lines.new.items ≡
        lines.old.items ++ line_if stuck (couldnt_unlock_line name.now)) }
    ensures sure { OnErr result (is_without (line_if stuck (couldnt_unlock_line name.now)) ≡ false) }
{
    if stuck {
        lines.push_back(couldnt_unlock(alloc, name)?)?;
    }
    Ok(())
}

/// Says each line, and answers with what came of the action.
pub fn say_each<D: Effects>(
    alloc: Global,
    run: &mut Run<D>,
    mut lines: VecDeque<Blob>,
    acted: Acted,
) -> Result<Acted, Memory>
    ensures carries { let p = mind_of run.old.process in
        Carries (Delivering.say_each p lines.items (acted_with acted p))
        (λ acted. acted_with acted (mind_of run.new.process)) result
        run.old.journal run.new.journal (D.told run.old.outside) (D.told run.new.outside) }
    ensures sure { OnErr result (is_without lines.items ≡ false) }
    ensures same { run.new.process ≡ run.old.process }
{
    while let Some(line) = lines.pop_front() {
        tell(alloc, run, line)?;
    }
    Ok(acted)
}
