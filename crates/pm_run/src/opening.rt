//! The rcfiles of the command line (procmail(1), "ARGUMENTS"): the first that can be read is run.
ghost use Rattle.std.specs.Prelude.{◌≡◌, ◌<◌, ◌≤◌, ◌+◌, ◌&&◌, true, ◌∷◌, [], ℕ, List, length, reverse, IfOk, OnErr};
ghost use Rattle.pm_journal.specs.Executed.{OutOfMemory};
ghost use Rattle.pm_journal.specs.Plan.{and_then, ask};
ghost use Rattle.pm_journal.specs.declared.acts.Act.TheVariants.{ReadFile};
ghost use Rattle.pm_recipe.specs.Listed.{rc_of};
ghost use Rattle.pm_meaning.specs.Minds.{mind_of};
ghost use Rattle.pm_meaning.specs.Running.{Event, Opening, step, entered};
ghost use Rattle.pm_meaning.specs.Running.{open_next, after_read};
ghost use Rattle.pm_meaning.specs.Running;
ghost use Rattle.pm_meaning.specs.Running.{left_by};
ghost use Rattle.pm_meaning.specs.declared.process.End.TheVariants.{HostOff};
ghost use Rattle.pm_run.specs.Ends.{opened_at, rule_of_opening, IsCode};
ghost use Rattle.pm_run.specs.RunningOut.{MayRunOut, RunsOut};
ghost use Rattle.pm_run.specs.Stretches.{Walks};
ghost use Rattle.pm_run.specs.Opening.{OpensFrom, OpensOne, ReadsOne, PassesOver, is_read};

use crate::frames::Frames;
use crate::rcfiles::read_statements;
use pm_bytes::{Blob, Memory, Name};
use pm_code::{Code, compile};
use pm_journal::{Effects, couldnt_read, too_many_rcfiles};
use pm_meaning::{End, Process, Run, new_chain, tell};
use pm_recipe::Rc;
use std::alloc::Global;
use std::collections::VecDeque;
use std::mem;
use std::ops::ControlFlow;

/// Whether the only rcfile is the user's own, which may be missing, and whether MAILDIR stays as a word of the command
/// line set it.
#[derive(Clone, Copy)]
pub struct Rule {
    pub is_implied: bool,
    pub keeps_folder: bool,
}

/// Opens these rcfiles, the last one first, up to one that is read, and answers with its code. The others are left for
/// a process that isn't on its host. Where none is read, a process that has read one before, or must have its rcfile,
/// has ended; any other has nothing to do, and falls off its end.
pub fn open_first<D: Effects>(
    alloc: Global,
    run: &mut Run<D>,
    rule: Rule,
    mut names: Vec<Name>,
) -> Result<ControlFlow<End, Option<Code>>, Memory>
    ensures opens { IfOk result (λ opened. OpensFrom
        (Opening (rule_of_opening rule) (reverse names.items) (mind_of run.old.process))
        opened (mind_of run.new.process)
        run.old.journal run.new.journal (D.told run.old.outside) (D.told run.new.outside)) }
    ensures counted { IfOk result (λ opened.
        is_read opened ≡ true → run.old.process.openings < run.new.process.openings) }
    ensures most { IfOk result (λ opened. is_read opened ≡ true → run.new.process.openings ≤ 256) }
    ensures memory { OnErr result (RunsOut {X = Event} step MayRunOut
        (Opening (rule_of_opening rule) (reverse names.items) (mind_of run.old.process))
        run.old.journal run.new.journal (D.told run.old.outside) (D.told run.new.outside)) }
{
    while let Some(name) = names.pop() {
        match open_one(alloc, run, rule, name) {
            Err(Memory) => return Err(Memory),
            Ok(opened) => match opened {
                ControlFlow::Continue(Some(code)) => {
                    run.process.later = names;
                    run.process.chain = new_chain();
                    return Ok(ControlFlow::Continue(Some(code)));
                }
                ControlFlow::Continue(None) => {}
                ControlFlow::Break(end) => return Ok(ControlFlow::Break(end)),
            },
        }
    }
    if run.process.rcfile.as_str().is_empty() {
        Ok(ControlFlow::Continue(None))
    } else {
        Ok(ControlFlow::Break(End::HostOff))
    }
}

// Opens an rcfile, unless the run has opened 256, which is told. Without its code or the process's end the next one is
// tried.
fn open_one<D: Effects>(
    alloc: Global,
    run: &mut Run<D>,
    rule: Rule,
    name: Name,
) -> Result<ControlFlow<End, Option<Code>>, Memory>
    ensures opens { IfOk result (λ opened. OpensOne (rule_of_opening rule) name opened
        (mind_of run.old.process) (mind_of run.new.process)
        run.old.journal run.new.journal (D.told run.old.outside) (D.told run.new.outside)) }
    ensures memory { OnErr result ((names : List (List ℕ)) →
        OutOfMemory (open_next (rule_of_opening rule) (name ∷ names) (mind_of run.old.process))
        run.old.journal run.new.journal (D.told run.old.outside) (D.told run.new.outside)) }
{
    if run.process.openings >= 256 {
        let line = too_many_rcfiles(alloc, &name)?;
        tell(alloc, run, line)?;
        return Ok(ControlFlow::Continue(None));
    }
    run.process.openings += 1;
    read_one(alloc, run, rule, name)
}

// Reads an rcfile that is one of 256.
fn read_one<D: Effects>(
    alloc: Global,
    run: &mut Run<D>,
    rule: Rule,
    name: Name,
) -> Result<ControlFlow<End, Option<Code>>, Memory>
    ensures reads { IfOk result (λ opened. ReadsOne (rule_of_opening rule) name opened
        (mind_of run.old.process) (mind_of run.new.process)
        run.old.journal run.new.journal (D.told run.old.outside) (D.told run.new.outside)) }
    ensures memory { let p = mind_of run.old.process in OnErr result ((names : List (List ℕ)) →
        OutOfMemory (and_then (ask (ReadFile name)) (after_read (rule_of_opening rule) name names p))
        run.old.journal run.new.journal (D.told run.old.outside) (D.told run.new.outside)) }
{
    let noted = name.copy(alloc)?;
    match run.read(alloc, noted)? {
        Some(rc) => {
            let code = code_of(alloc, rc.as_slice())?;
            enter(alloc, rule, &name, &mut run.process)?;
            Ok(ControlFlow::Continue(Some(code)))
        }
        None => {
            let missing = run.journal.last_missing();
            pass_over(alloc, run, rule, &name, missing)
        }
    }
}

// The code of an rcfile of these bytes.
fn code_of(alloc: Global, rc: &[u8]) -> Result<Code, Memory>
    requires { length rc.now ≤ 1048576 }
    ensures { IfOk result (λ code. IsCode code (rc_of rc.now)) }
{
    let statements = read_statements(alloc, rc)?;
    compile(alloc, &Rc { statements })
}

// The rcfile has this name; the first one that is read, if it is of the working folder, is run from there.
fn enter(alloc: Global, rule: Rule, name: &Name, process: &mut Process) -> Result<(), Memory>
    ensures ok { IfOk result (λ _. mind_of process.new
        ≡ entered (rule_of_opening rule) name.now (mind_of process.old)) }
    ensures locks { process.new.locks ≡ process.old.locks }
{
    let is_first = process.rcfile.as_str().is_empty();
    process.vars.set_rcfile(name)?;
    process.rcfile = name.copy(alloc)?;
    if !is_first || !name.as_str().as_bytes().starts_with(b"./") || rule.keeps_folder {
        return Ok(());
    }
    let folder = Blob::from_slice(alloc, b".")?;
    process.vars.set(b"MAILDIR", folder)?;
    process.base = Name::from_text(String::from_str(alloc, ".")?);
    Ok(())
}

// The rcfile wasn't read: a mail filter ends at once, and for any other that is told, unless there is none of the
// user's own.
fn pass_over<D: Effects>(
    alloc: Global,
    run: &mut Run<D>,
    rule: Rule,
    name: &Name,
    missing: bool,
) -> Result<ControlFlow<End, Option<Code>>, Memory>
    ensures passes { let p = mind_of run.old.process in IfOk result (λ opened. PassesOver (rule_of_opening rule)
        name.now missing opened p run.old.journal run.new.journal (D.told run.old.outside) (D.told run.new.outside)) }
    ensures memory { OnErr result ((names : List (List ℕ)) →
        OutOfMemory (Running.pass_over (rule_of_opening rule) name.now names missing (mind_of run.old.process))
        run.old.journal run.new.journal (D.told run.old.outside) (D.told run.new.outside)) }
    ensures same { run.new.process ≡ run.old.process }
{
    if run.process.filter {
        return Ok(ControlFlow::Break(End::NoRc));
    }
    if may_miss(rule, missing) {
        return Ok(ControlFlow::Continue(None));
    }
    let line = couldnt_read(alloc, name)?;
    tell(alloc, run, line)?;
    Ok(ControlFlow::Continue(None))
}

// Whether nothing is told of this rcfile.
fn may_miss(rule: Rule, missing: bool) -> bool
    ensures { result ≡ (rule.is_implied && missing) }
{
    rule.is_implied && missing
}

/// Opens the next rcfile of the command line that can be read, for a process that isn't on its host and has left its
/// blocks; without one the process is over.
pub fn open_later<D: Effects>(
    alloc: Global,
    run: &mut Run<D>,
) -> Result<ControlFlow<End, Option<Code>>, Memory>
    ensures walks { Walks (left_by HostOff (mind_of run.old.process))
        (λ opened. opened_at opened (mind_of run.new.process)) result
        run.old.journal run.new.journal (D.told run.old.outside) (D.told run.new.outside) }
    ensures counted { IfOk result (λ opened.
        is_read opened ≡ true → run.old.process.openings < run.new.process.openings) }
    ensures most { IfOk result (λ opened. is_read opened ≡ true → run.new.process.openings ≤ 256) }
{
    let names = mem::replace(&mut run.process.later, Vec::new(alloc));
    let rule = Rule {
        is_implied: false,
        keeps_folder: true,
    };
    open_first(alloc, run, rule, names)
}

/// The rcfile of this code, with all of it left.
pub fn begin_frame(alloc: Global, code: Code) -> Frames
    ensures place { result.place ≡ 0 }
    ensures code { result.code ≡ code }
    ensures blocks { result.blocks.items ≡ [] }
    ensures outer { result.outer.items ≡ [] }
{
    Frames {
        code,
        place: 0,
        blocks: VecDeque::new(alloc),
        outer: VecDeque::new(alloc),
    }
}
