//! Recipes with a block: whether it is entered, and under which lock (procmailrc(5), "Recipe action line" and "Local
//! lockfile").
ghost use Rattle.std.specs.Prelude.{◌≡◌, false, length, nat_lt, Some, if◌then◌else◌};
ghost use Rattle.pm_journal.specs.Executed.{Carries};
ghost use Rattle.pm_journal.specs.Held.{holds_name};
ghost use Rattle.pm_journal.specs.Locking.{lock_act};
ghost use Rattle.pm_journal.specs.LogText.{couldnt_lock_line, forcing_lock_line};
ghost use Rattle.pm_journal.specs.Plan.{Ends, and_then, ask};
ghost use Rattle.pm_meaning.specs.Blocks;
ghost use Rattle.pm_meaning.specs.Blocks.{enter_with};
ghost use Rattle.pm_meaning.specs.Blocks.{got_block_lock};
ghost use Rattle.pm_meaning.specs.Judging.{judge_first};
ghost use Rattle.pm_meaning.specs.Locks.{rule_of};
ghost use Rattle.pm_meaning.specs.Minds.{Mind, mind_of};
ghost use Rattle.pm_meaning.specs.Turns.{GoesOn, Enters, say_then};
ghost use Rattle.pm_subst.specs.Commands.{commands_in};
ghost use Rattle.pm_subst.specs.declared.kinds.Mode.TheVariants.{One};
ghost use Rattle.pm_recipe.specs.View.{top_of};
ghost use Rattle.pm_meaning.specs.Turning.{turn_of};
ghost use Rattle.pm_run.specs.Walk.{gate_turn};

use crate::judging::come_to;
use pm_bytes::{Blob, Memory, Name, full};
use pm_conds::Observer;
use pm_journal::{Effects, LockEnd, couldnt_lock, forcing_lock, no_lock, take};
use pm_meaning::{
    End, Expansion, Run, expand_text, file_name, first_word, outputs_of, skip_value, tell,
};
use pm_perform::{lock_rule, refuse};
use pm_recipe::Recipe;
use pm_subst::Mode;
use std::alloc::Global;

/// What comes of a recipe with a block: it is passed by, the process ends, the block is entered under this lock, or a
/// copy of the process is wanted for it.
#[derive(Drop)]
pub enum Gate {
    Passes,
    Halts(End),
    Enters(Option<Name>),
    Clones,
}

/// Comes to the recipe with a block at this place of the rcfile.
pub fn pass_gate<D: Effects, N: Observer>(
    alloc: Global,
    run: &mut Run<D>,
    recipe: &Recipe,
    place: usize,
    observer: &mut N,
) -> Result<Gate, Memory>
    ensures carries { let top = top_of recipe.now in
        Carries (judge_first top (λ p. Blocks.enter_block top p) (mind_of run.old.process))
        (λ gate. gate_turn gate (mind_of run.new.process)) result
        run.old.journal run.new.journal (D.told run.old.outside) (D.told run.new.outside) }
{
    if !come_to(alloc, run, recipe, place, observer)? {
        return Ok(Gate::Passes);
    }
    enter_block(alloc, run, recipe)
}

// The gate of a recipe whose lock's name can't be used.
fn gate_by(end: Option<End>) -> Gate
    ensures { (p : Mind) → turn_of end p ≡ gate_turn result p }
{
    match end {
        None => Gate::Passes,
        Some(end) => Gate::Halts(end),
    }
}

// The block of a recipe that is executed. One for a copy of the process has no lock.
fn enter_block<D: Effects>(alloc: Global, run: &mut Run<D>, recipe: &Recipe) -> Result<Gate, Memory>
    ensures carries { Carries (Blocks.enter_block (top_of recipe.now) (mind_of run.old.process))
        (λ gate. gate_turn gate (mind_of run.new.process)) result
        run.old.journal run.new.journal (D.told run.old.outside) (D.told run.new.outside) }
{
    if recipe.flags.copy {
        return Ok(Gate::Clones);
    }
    match &recipe.lock {
        None => Ok(Gate::Enters(None)),
        Some(text) => enter_under(alloc, run, text.as_slice()),
    }
}

// The block is entered under the lock of this text. A block has no automatic lock, which is told.
fn enter_under<D: Effects>(alloc: Global, run: &mut Run<D>, text: &[u8]) -> Result<Gate, Memory>
    ensures carries { Carries (Blocks.enter_under text.now (mind_of run.old.process))
        (λ gate. gate_turn gate (mind_of run.new.process)) result
        run.old.journal run.new.journal (D.told run.old.outside) (D.told run.new.outside) }
{
    if text.is_empty() {
        let line = no_lock(alloc, b"{")?;
        tell(alloc, run, line)?;
        return Ok(Gate::Enters(None));
    }
    let outputs = outputs_of(alloc, run, text, Mode::One)?;
    enter_expanded(alloc, run, text, outputs.as_slice())
}

// Expands the text of the lock with the outputs of its commands, and enters the block under it.
fn enter_expanded<D: Effects>(
    alloc: Global,
    run: &mut Run<D>,
    text: &[u8],
    outputs: &[Blob],
) -> Result<Gate, Memory>
    requires each { length outputs.now ≡ length (commands_in One text.now) }
    ensures carries { Carries (enter_with text.now outputs.now (mind_of run.old.process))
        (λ gate. gate_turn gate (mind_of run.new.process)) result
        run.old.journal run.new.journal (D.told run.old.outside) (D.told run.new.outside) }
{
    match expand_text(alloc, text, Mode::One, &run.process.vars, outputs)? {
        Expansion::Words(words) => {
            let value = first_word(alloc, words);
            lock_block(alloc, run, text, value.as_slice())
        }
        Expansion::TooLong(length) => { Ok(gate_by(skip_value(alloc, run, length)?)) }
    }
}

// The lock of this value is asked for, unless it can't be a file's name or is held already.
fn lock_block<D: Effects>(
    alloc: Global,
    run: &mut Run<D>,
    text: &[u8],
    value: &[u8],
) -> Result<Gate, Memory>
    ensures carries { Carries (Blocks.lock_block text.now value.now (mind_of run.old.process))
        (λ gate. gate_turn gate (mind_of run.new.process)) result
        run.old.journal run.new.journal (D.told run.old.outside) (D.told run.new.outside) }
{
    match file_name(alloc, value)? {
        None => Ok(gate_by(refuse(alloc, run, text)?)),
        Some(name) => {
            let lock = full(alloc, &run.process.base, &name)?;
            if run.process.locks.holds(&lock) {
                return Ok(gate_by(refuse(alloc, run, text)?));
            }
            ask_lock(alloc, run, lock)
        }
    }
}

fn ask_lock<D: Effects>(alloc: Global, run: &mut Run<D>, name: Name) -> Result<Gate, Memory>
    requires free { holds_name run.old.process.locks.names name ≡ false }
    ensures carries { let p = mind_of run.old.process in
        Carries (and_then (ask (lock_act name (rule_of p.vars))) (got_block_lock name p))
        (λ gate. gate_turn gate (mind_of run.new.process)) result
        run.old.journal run.new.journal (D.told run.old.outside) (D.told run.new.outside) }
{
    let rule = lock_rule(&run.process.vars);
    let noted = name.copy(alloc)?;
    let kept = name.copy(alloc)?;
    let shown = name.copy(alloc)?;
    run.process.locks.reserve()?;
    run.journal.reserve(run.process.locks.len() + 2)?;
    match take(
        &mut run.process.locks,
        noted,
        kept,
        rule,
        &mut run.outside,
        &mut run.journal,
    ) {
        LockEnd::Held { forced, .. } => tell_forced(alloc, run, forced, &shown, name),
        _ => tell_not_got(alloc, run, &shown),
    }
}

// A lock file that was removed by force is told, and the block is entered.
fn tell_forced<D: Effects>(
    alloc: Global,
    run: &mut Run<D>,
    forced: u32,
    shown: &Name,
    name: Name,
) -> Result<Gate, Memory>
    ensures carries { let p = mind_of run.old.process in
        Carries (if nat_lt 0 forced then say_then p (forcing_lock_line shown.now) (Enters (Some name) p)
        else Ends (Enters (Some name) p))
        (λ gate. gate_turn gate (mind_of run.new.process)) result
        run.old.journal run.new.journal (D.told run.old.outside) (D.told run.new.outside) }
    ensures same { run.new.process ≡ run.old.process }
{
    if forced == 0 {
        return Ok(Gate::Enters(Some(name)));
    }
    let line = forcing_lock(alloc, shown)?;
    tell(alloc, run, line)?;
    Ok(Gate::Enters(Some(name)))
}

// A lock that wasn't got is told, and the block isn't entered.
fn tell_not_got<D: Effects>(alloc: Global, run: &mut Run<D>, name: &Name) -> Result<Gate, Memory>
    ensures carries { let p = mind_of run.old.process in
        Carries (say_then p (couldnt_lock_line name.now) (GoesOn p))
        (λ gate. gate_turn gate (mind_of run.new.process)) result
        run.old.journal run.new.journal (D.told run.old.outside) (D.told run.new.outside) }
    ensures same { run.new.process ≡ run.old.process }
{
    let line = couldnt_lock(alloc, name)?;
    tell(alloc, run, line)?;
    Ok(Gate::Passes)
}
