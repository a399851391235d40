//! What a task asks of the outside: the mail goes to a program or to standard output, is filtered, or is captured. All
//! memory for a delivery is taken before, so that none can be wanting after it.
ghost use Rattle.std.specs.Prelude.{◌≡◌, ◌+◌, ◌≤◌, ℕ, List, codes, length, IfOk, OnErr, false};
ghost use Rattle.pm_journal.specs.Executed.{Carries, Executes};
ghost use Rattle.pm_journal.specs.Plan.{Plan};
ghost use Rattle.pm_meaning.specs.Minds.{Mind, mind_of};
ghost use Rattle.pm_meaning.specs.ProgramActions.{Tried, work_of};
ghost use Rattle.pm_meaning.specs.ProgramActions;
ghost use Rattle.pm_perform.specs.Copies.{remembered};
ghost use Rattle.pm_perform.specs.Errands.{tried_of, kept_if, purpose_of, IsWork, is_for_good};

use crate::ends::{feed_outcome, is_fine, write_outcome};
use crate::filing::fed_parts;
use crate::filtering::{capture, filter};
use crate::kept::{Kept, keep, remembering};
use crate::tasks::{Purpose, Task};
use pm_bytes::{Blob, Memory};
use pm_host::Command;
use pm_journal::Effects;
use pm_meaning::{Outcome, Process, Run, note_code};
use pm_recipe::Flags;
use std::alloc::Global;

/// What a task asks of the outside; of a delivery with what the process remembers once that is done.
#[derive(Drop)]
pub enum Errand {
    /// The program gets the input.
    Feed {
        command: Command,
        input: Blob,
        kept: Kept,
    },
    /// The program gets the input, and its output takes the place of that in the mail.
    Filter {
        command: Command,
        input: Blob,
    },
    /// The program gets the input, and the variable of this name its output.
    Capture {
        command: Command,
        input: Blob,
        name: Blob,
    },
    /// The piece is written to standard output.
    Write {
        piece: Blob,
        kept: Kept,
    },
}

/// The program gets the mail, as the task's flags feed it, for what the task is for.
pub fn errand_for(
    alloc: Global,
    task: &Task<'_>,
    command: Command,
    process: &Process,
) -> Result<Errand, Memory>
    ensures { let flags = task.now.flags in let p = mind_of process.now in
        IfOk result (λ errand. IsWork flags errand
        (work_of (purpose_of task.now.purpose) flags (ProgramActions.fed_piece flags p) command)) }
{
    let input = fed_piece(alloc, task.flags, process)?;
    match task.purpose {
        Purpose::Delivers(folder) => {
            let kept = remembering(alloc, folder, input.len() as u64)?;
            Ok(Errand::Feed {
                command,
                input,
                kept,
            })
        }
        Purpose::Filters => Ok(Errand::Filter { command, input }),
        Purpose::Captures(name) => {
            let name = name.copy(alloc)?;
            Ok(Errand::Capture {
                command,
                input,
                name,
            })
        }
    }
}

/// The mail, as the flags feed it, goes to standard output.
pub fn write_errand(alloc: Global, flags: Flags, process: &Process) -> Result<Errand, Memory>
    ensures { let p = mind_of process.now in
        IfOk result (λ errand. IsWork flags errand (ProgramActions.write (ProgramActions.fed_piece flags p))) }
{
    let piece = fed_piece(alloc, flags, process)?;
    let kept = remembering(alloc, b"|", piece.len() as u64)?;
    Ok(Errand::Write { piece, kept })
}

// The parts of the mail that the flags h and b feed, as they are.
fn fed_piece(alloc: Global, flags: Flags, process: &Process) -> Result<Blob, Memory>
    ensures { IfOk result (λ bytes. bytes ≡ ProgramActions.fed_piece flags (mind_of process.now)) }
{
    process.message.chosen(alloc, fed_parts(flags))
}

/// Does the errand. There is room for its entry.
pub fn carry<D: Effects>(
    alloc: Global,
    run: &mut Run<D>,
    errand: Errand,
    flags: Flags,
) -> Result<Outcome, Memory>
    requires room { length run.old.process.locks.names + 1 ≤ run.old.journal.room }
    ensures carries { (work : Mind → Plan Tried) → IsWork flags errand work
        → Carries (work (mind_of run.old.process))
        (λ outcome. tried_of outcome (mind_of run.new.process)) result
        run.old.journal run.new.journal (D.told run.old.outside) (D.told run.new.outside) }
    ensures sure { OnErr result (is_for_good errand ≡ false) }
    ensures locks { run.new.process.locks ≡ run.old.process.locks }
{
    match errand {
        Errand::Feed {
            command,
            input,
            kept,
        } => Ok(feed(alloc, run, command, input, kept, flags)),
        Errand::Filter { command, input } => filter(alloc, run, command, input, flags),
        Errand::Capture {
            command,
            input,
            name,
        } => capture(alloc, run, command, input, name, flags),
        Errand::Write { piece, kept } => Ok(write(run, piece, kept)),
    }
}

fn feed<D: Effects>(
    alloc: Global,
    run: &mut Run<D>,
    command: Command,
    input: Blob,
    kept: Kept,
    flags: Flags,
) -> Outcome
    requires room { length run.old.process.locks.names + 1 ≤ run.old.journal.room }
    ensures feeds { (folder : List ℕ) → kept ≡ remembered folder (length input)
        → Executes (ProgramActions.feed flags folder command input (mind_of run.old.process))
        (tried_of result (mind_of run.new.process))
        run.old.journal run.new.journal (D.told run.old.outside) (D.told run.new.outside) }
    ensures locks { run.new.process.locks ≡ run.old.process.locks }
{
    let count = input.len() as u64;
    let journal = &mut run.journal;
    let end = match run.outside.run(alloc, journal, command, input, false) {
        Ok(end) => end,
        Err(Memory) => unreachable!(),
    };
    let outcome = feed_outcome(flags, count, end);
    keep_if(outcome, kept, &mut run.process);
    note_code(end, &mut run.process);
    outcome
}

fn write<D: Effects>(run: &mut Run<D>, piece: Blob, kept: Kept) -> Outcome
    requires room { length run.old.process.locks.names + 1 ≤ run.old.journal.room }
    ensures writes { kept ≡ remembered (codes "|") (length piece)
        → Executes (ProgramActions.write piece (mind_of run.old.process)) (tried_of result (mind_of run.new.process))
        run.old.journal run.new.journal (D.told run.old.outside) (D.told run.new.outside) }
    ensures locks { run.new.process.locks ≡ run.old.process.locks }
{
    let outcome = write_outcome(run.outside.write_out(&mut run.journal, piece));
    keep_if(outcome, kept, &mut run.process);
    outcome
}

// Only where it was done the mail has a new destination.
fn keep_if(outcome: Outcome, kept: Kept, process: &mut Process)
    ensures mind { mind_of process.new ≡ kept_if outcome kept (mind_of process.old) }
    ensures locks { process.new.locks ≡ process.old.locks }
{
    if is_fine(outcome) {
        keep(kept, process);
    }
}
