//! Other rcfiles than the first: INCLUDERC and SWITCHRC (procmailrc(5), "Environment").
ghost use Rattle.std.specs.Prelude.{◌≡◌, ◌≤◌, List, length, None, IfOk, OnErr};
ghost use Rattle.pm_journal.specs.Executed.{Carries, OutOfMemory};
ghost use Rattle.pm_journal.specs.LogText.{couldnt_read_line, too_many_rcfiles_line};
ghost use Rattle.pm_journal.specs.Plan.{and_then, ask};
ghost use Rattle.pm_journal.specs.Walking.{Next};
ghost use Rattle.pm_journal.specs.declared.acts.Act.TheVariants.{ReadFile};
ghost use Rattle.pm_recipe.specs.Listed.{rc_of};
ghost use Rattle.pm_meaning.specs.Blocks.{begun_block};
ghost use Rattle.pm_meaning.specs.Changes.{with_rcfile};
ghost use Rattle.pm_meaning.specs.Minds.{mind_of};
ghost use Rattle.pm_meaning.specs.Running.{State, Item, Running, Including, Switching, LeavingFile};
ghost use Rattle.pm_meaning.specs.Running.{Event, Reading, open_rcfile, with_statements};
ghost use Rattle.pm_meaning.specs.Turns.{say_then};
ghost use Rattle.pm_run.specs.Frames.{items_of, outer_items, block_locks, left_over};
ghost use Rattle.pm_run.specs.Rcfiles.{GoesInto, HasCode, Opens, ReadsCode, TakesPlace};
ghost use Rattle.pm_run.specs.Stretches.{Walks};

use crate::frames::{Frames, Waiting};
use crate::leaving::leave_file;
use pm_bytes::{Memory, Name};
use pm_code::{Code, compile};
use pm_journal::{Effects, couldnt_read, too_many_rcfiles};
use pm_meaning::{Process, Run, new_chain, tell};
use pm_recipe::{Rc, RcRefused, Statements, one_rc, read_rc};
use std::alloc::Global;
use std::collections::VecDeque;
use std::mem;

/// Opens the rcfile, whose statements come before what is left of the current one.
pub fn include<D: Effects>(
    alloc: Global,
    run: &mut Run<D>,
    name: Name,
    frame: &mut Frames,
) -> Result<(), Memory>
    ensures walks { Walks (Including name (items_of frame.old) (mind_of run.old.process))
        (λ _. Running (items_of frame.new) (mind_of run.new.process)) result
        run.old.journal run.new.journal (D.told run.old.outside) (D.told run.new.outside) }
    ensures falls { IfOk result (λ _.
        left_over run.new.process.openings frame.new ≤ left_over run.old.process.openings frame.old) }
{
    match open_code(alloc, run, &name) {
        Err(Memory) => Err(Memory),
        Ok(opened) => match opened {
            None => Ok(()),
            Some(code) => go_into(alloc, name, code, frame, &mut run.process),
        },
    }
}

// The rcfile of this code begins, and the current one waits.
fn go_into(
    alloc: Global,
    name: Name,
    code: Code,
    frame: &mut Frames,
    process: &mut Process,
) -> Result<(), Memory>
    ensures into { IfOk result (λ _.
        GoesInto name code frame.old frame.new (mind_of process.old) (mind_of process.new)) }
    ensures locks { process.new.locks ≡ process.old.locks }
{
    process.vars.set_rcfile(&name)?;
    let back = mem::replace(&mut process.rcfile, name);
    let left = mem::replace(&mut frame.code, code);
    let blocks = mem::replace(&mut frame.blocks, VecDeque::new(alloc));
    let waiting = Waiting {
        name: back,
        code: left,
        place: frame.place,
        blocks,
    };
    frame.place = 0;
    frame.outer.push_front(waiting)?;
    Ok(())
}

/// Opens the rcfile, which takes the place of the current one. Where it isn't read, that one goes on.
pub fn switch<D: Effects>(
    alloc: Global,
    run: &mut Run<D>,
    name: Name,
    frame: &mut Frames,
) -> Result<(), Memory>
    ensures walks { Walks (Switching name (items_of frame.old) (mind_of run.old.process))
        (λ _. Running (items_of frame.new) (mind_of run.new.process)) result
        run.old.journal run.new.journal (D.told run.old.outside) (D.told run.new.outside) }
    ensures falls { IfOk result (λ _.
        left_over run.new.process.openings frame.new ≤ left_over run.old.process.openings frame.old) }
{
    match open_code(alloc, run, &name) {
        Err(Memory) => Err(Memory),
        Ok(opened) => match opened {
            None => Ok(()),
            Some(code) => take_place(alloc, run, name, code, frame),
        },
    }
}

// The blocks of the current rcfile are left, and the one of this code stands in its place.
fn take_place<D: Effects>(
    alloc: Global,
    run: &mut Run<D>,
    name: Name,
    code: Code,
    frame: &mut Frames,
) -> Result<(), Memory>
    ensures walks { (items : List Item) → Walks (LeavingFile (block_locks frame.old.blocks.items) items
        (begun_block (with_rcfile name (mind_of run.old.process))))
        (λ _. Running items (mind_of run.new.process)) result
        run.old.journal run.new.journal (D.told run.old.outside) (D.told run.new.outside) }
    ensures takes { IfOk result (λ _. TakesPlace code frame.old frame.new) }
    ensures count { run.new.process.openings ≡ run.old.process.openings }
{
    match run.process.vars.set_rcfile(&name) {
        Err(Memory) => return Err(Memory),
        Ok(()) => {}
    }
    run.process.rcfile = name;
    run.process.chain = new_chain();
    match leave_file(alloc, run, &mut frame.blocks) {
        Err(Memory) => Err(Memory),
        Ok(()) => {
            frame.code = code;
            frame.place = 0;
            Ok(())
        }
    }
}

/// Leaves the blocks of the current rcfile, of which nothing is left.
pub fn end_file<D: Effects>(
    alloc: Global,
    run: &mut Run<D>,
    frame: &mut Frames,
) -> Result<(), Memory>
    ensures walks { Walks (LeavingFile (block_locks frame.old.blocks.items) (outer_items frame.old.outer.items)
        (mind_of run.old.process)) (λ _. Running (items_of frame.new) (mind_of run.new.process)) result
        run.old.journal run.new.journal (D.told run.old.outside) (D.told run.new.outside) }
    ensures falls { IfOk result (λ _.
        left_over run.new.process.openings frame.new ≤ left_over run.old.process.openings frame.old) }
{
    frame.place = frame.code.steps.len();
    match leave_file(alloc, run, &mut frame.blocks) {
        Err(Memory) => Err(Memory),
        Ok(()) => Ok(()),
    }
}

// Opens an rcfile, unless the run has opened 256. That, and that it wasn't read, is told.
fn open_code<D: Effects>(
    alloc: Global,
    run: &mut Run<D>,
    name: &Name,
) -> Result<Option<Code>, Memory>
    ensures opens { IfOk result (λ code. Opens name.now code (mind_of run.old.process) (mind_of run.new.process)
        run.old.journal run.new.journal (D.told run.old.outside) (D.told run.new.outside)) }
    ensures memory { OnErr result ((rest : List Item) (go : Reading) →
        OutOfMemory (open_rcfile name.now rest (mind_of run.old.process) go)
        run.old.journal run.new.journal (D.told run.old.outside) (D.told run.new.outside)) }
{
    if run.process.openings >= 256 {
        return tell_many(alloc, run, name);
    }
    run.process.openings += 1;
    read_code(alloc, run, name)
}

// Reads an rcfile. That it wasn't read is told.
fn read_code<D: Effects>(
    alloc: Global,
    run: &mut Run<D>,
    name: &Name,
) -> Result<Option<Code>, Memory>
    ensures reads { IfOk result (λ code. ReadsCode name.now code (mind_of run.old.process)
        run.old.journal run.new.journal (D.told run.old.outside) (D.told run.new.outside)) }
    ensures memory { let p = mind_of run.old.process in OnErr result ((rest : List Item) (go : Reading) →
        OutOfMemory (and_then (ask (ReadFile name.now)) (with_statements name.now rest p go))
        run.old.journal run.new.journal (D.told run.old.outside) (D.told run.new.outside)) }
    ensures same { run.new.process ≡ run.old.process }
{
    let noted = match name.copy(alloc) {
        Err(Memory) => return Err(Memory),
        Ok(noted) => noted,
    };
    match run.read(alloc, noted) {
        Err(Memory) => Err(Memory),
        Ok(content) => match content {
            None => tell_unread(alloc, run, name),
            Some(rc) => some_code(alloc, rc.as_slice()),
        },
    }
}

// The code of an rcfile of these bytes.
fn some_code(alloc: Global, rc: &[u8]) -> Result<Option<Code>, Memory>
    requires { length rc.now ≤ 1048576 }
    ensures { IfOk result (λ code. HasCode code (rc_of rc.now)) }
{
    let statements = read_statements(alloc, rc)?;
    Ok(Some(compile(alloc, &Rc { statements })?))
}

/// The statements of an rcfile of these bytes.
pub fn read_statements(alloc: Global, rc: &[u8]) -> Result<Statements, Memory>
    requires { length rc.now ≤ 1048576 }
    ensures { IfOk result (λ statements. statements ≡ rc_of rc.now) }
{
    one_rc();
    match read_rc(alloc, rc) {
        Ok(rc) => {
            let Rc { statements } = rc;
            Ok(statements)
        }
        Err(RcRefused::Memory) => Err(Memory),
        Err(RcRefused::TooLong { .. }) => unreachable!(),
    }
}

// The run has opened as many rcfiles as it may.
fn tell_many<D: Effects>(
    alloc: Global,
    run: &mut Run<D>,
    name: &Name,
) -> Result<Option<Code>, Memory>
    ensures carries { (next : Next State Event) →
        Carries (say_then (mind_of run.old.process) (too_many_rcfiles_line name.now) next) (λ _. next) result
        run.old.journal run.new.journal (D.told run.old.outside) (D.told run.new.outside) }
    ensures none { IfOk result (λ code. code ≡ None) }
    ensures same { run.new.process ≡ run.old.process }
{
    match too_many_rcfiles(alloc, name) {
        Err(Memory) => Err(Memory),
        Ok(line) => match tell(alloc, run, line) {
            Err(Memory) => Err(Memory),
            Ok(()) => Ok(None),
        },
    }
}

// The rcfile wasn't read.
fn tell_unread<D: Effects>(
    alloc: Global,
    run: &mut Run<D>,
    name: &Name,
) -> Result<Option<Code>, Memory>
    ensures carries { (next : Next State Event) →
        Carries (say_then (mind_of run.old.process) (couldnt_read_line name.now) next) (λ _. next) result
        run.old.journal run.new.journal (D.told run.old.outside) (D.told run.new.outside) }
    ensures none { IfOk result (λ code. code ≡ None) }
    ensures same { run.new.process ≡ run.old.process }
{
    match couldnt_read(alloc, name) {
        Err(Memory) => Err(Memory),
        Ok(line) => match tell(alloc, run, line) {
            Err(Memory) => Err(Memory),
            Ok(()) => Ok(None),
        },
    }
}
