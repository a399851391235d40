//! Actions that hand the mail to a program: pipes, filters, captures and forwards, and `|` alone, which writes it to
//! standard output (procmailrc(5), "Recipe action line"). All their commands are run before a text is expanded.
ghost use Rattle.std.specs.Prelude.{◌≡◌, ◌++◌, codes, length, IfOk, OnErr};
ghost use Rattle.pm_journal.specs.Executed.{Carries};
ghost use Rattle.pm_meaning.specs.Minds.{mind_of};
ghost use Rattle.pm_meaning.specs.ProgramActions;
ghost use Rattle.pm_meaning.specs.ProgramActions.{capture_line};
ghost use Rattle.pm_meaning.specs.ProgramActions.{write_with};
ghost use Rattle.pm_meaning.specs.ProgramActions.{program_with};
ghost use Rattle.pm_meaning.specs.Programs.{line_reading as reading_of_line};
ghost use Rattle.pm_perform.specs.Errands.{task_of, purpose_of};
ghost use Rattle.pm_meaning.specs.Ready.{ready_of};
ghost use Rattle.pm_perform.specs.Programs.{reading_of};
ghost use Rattle.pm_meaning.specs.Apart.{acted_with};
ghost use Rattle.pm_perform.specs.Undelivered.{Undelivered};

use crate::delivering::Order;
use crate::errands::{errand_for, write_errand};
use crate::job::{Job, job_of, lock_of};
use crate::lock_texts::lock_commands;
use crate::refusing::tell_refusal;
use crate::tasks::{Purpose, Task, do_free};
use pm_bytes::{Blob, Memory};
use pm_journal::Effects;
use pm_meaning::{
    Acted, Process, ProgramLine, Ready, Run, appended_name, expanded_line, forward_line,
    make_ready, needs_shell, shell_line,
};
use pm_recipe::Flags;
use pm_subst::{Mode, commands};
use std::alloc::Global;

/// How the text of an action is read: as the line of a shell, as the words of a program, or as addresses.
#[derive(Clone, Copy)]
pub enum Reading {
    Shell,
    Plain,
    Forward,
}

/// The mail goes to the program of the line. Under the flag f what comes out takes its place.
pub fn pipe<D: Effects>(alloc: Global, run: &mut Run<D>, order: &Order<'_>) -> Result<Acted, Memory>
    ensures carries { let o = order.now in
        Carries (ProgramActions.pipe o.flags o.lock.now o.text.now (mind_of run.old.process))
        (λ acted. acted_with acted (mind_of run.new.process)) result
        run.old.journal run.new.journal (D.told run.old.outside) (D.told run.new.outside) }
    ensures sure { OnErr result (Undelivered order.now.flags run.old.journal run.new.journal) }
{
    let task = Task {
        flags: order.flags,
        lock: order.lock,
        automatic: appended_name(order.text),
        text: order.text,
        purpose: pipe_purpose(order.flags, order.text),
    };
    let reading = line_reading(order.text, &run.process);
    do_program(alloc, run, &task, reading)
}

fn pipe_purpose<'a>(flags: Flags, line: &'a [u8]) -> Purpose<'a>
    ensures { purpose_of result ≡ ProgramActions.pipe_purpose flags line.now }
{
    if flags.filter {
        Purpose::Filters
    } else {
        Purpose::Delivers(line)
    }
}

/// The mail goes to the program of the line, and what comes out is the value of this variable.
pub fn capture<D: Effects>(
    alloc: Global,
    run: &mut Run<D>,
    order: &Order<'_>,
    name: &Blob,
) -> Result<Acted, Memory>
    ensures carries { let o = order.now in
        Carries (capture_line o.flags o.lock.now name.now o.text.now (mind_of run.old.process))
        (λ acted. acted_with acted (mind_of run.new.process)) result
        run.old.journal run.new.journal (D.told run.old.outside) (D.told run.new.outside) }
    ensures sure { OnErr result (Undelivered order.now.flags run.old.journal run.new.journal) }
{
    let task = Task {
        flags: order.flags,
        lock: order.lock,
        automatic: appended_name(order.text),
        text: order.text,
        purpose: Purpose::Captures(name),
    };
    let reading = line_reading(order.text, &run.process);
    do_program(alloc, run, &task, reading)
}

/// The mail goes to the addresses of the text, by the program that sends mail.
pub fn forward<D: Effects>(
    alloc: Global,
    run: &mut Run<D>,
    order: &Order<'_>,
) -> Result<Acted, Memory>
    ensures carries { let o = order.now in
        Carries (ProgramActions.forward o.flags o.lock.now o.text.now (mind_of run.old.process))
        (λ acted. acted_with acted (mind_of run.new.process)) result
        run.old.journal run.new.journal (D.told run.old.outside) (D.told run.new.outside) }
    ensures sure { OnErr result (Undelivered order.now.flags run.old.journal run.new.journal) }
{
    let mut destination = Blob::from_slice(alloc, b"!")?;
    destination.push_slice(order.text)?;
    forward_as(
        alloc,
        run,
        order.flags,
        order.lock,
        order.text,
        destination.as_slice(),
    )
}

// The mail goes to the addresses of the text, and its destination is called so.
fn forward_as<'a, D: Effects>(
    alloc: Global,
    run: &mut Run<D>,
    flags: Flags,
    lock: &'a Option<Blob>,
    text: &'a [u8],
    destination: &'a [u8],
) -> Result<Acted, Memory>
    requires called { destination.now ≡ codes "!" ++ text.now }
    ensures carries { Carries (ProgramActions.forward flags lock.now text.now (mind_of run.old.process))
        (λ acted. acted_with acted (mind_of run.new.process)) result
        run.old.journal run.new.journal (D.told run.old.outside) (D.told run.new.outside) }
    ensures sure { OnErr result (Undelivered flags run.old.journal run.new.journal) }
{
    let task = Task {
        flags,
        lock,
        automatic: b"",
        text,
        purpose: Purpose::Delivers(destination),
    };
    do_program(alloc, run, &task, Reading::Forward)
}

// A line with a byte of SHELLMETAS is left to the shell.
fn line_reading(line: &[u8], process: &Process) -> Reading
    ensures { reading_of result line.now ≡ reading_of_line line.now (mind_of process.now) }
{
    if needs_shell(line, process) {
        Reading::Shell
    } else {
        Reading::Plain
    }
}

// Runs the commands of the task's texts, and then the program that its own text names.
fn do_program<D: Effects>(
    alloc: Global,
    run: &mut Run<D>,
    task: &Task<'_>,
    reading: Reading,
) -> Result<Acted, Memory>
    ensures carries { let t = task_of task.now in
        Carries (ProgramActions.do_program t (reading_of reading t.text) (mind_of run.old.process))
        (λ acted. acted_with acted (mind_of run.new.process)) result
        run.old.journal run.new.journal (D.told run.old.outside) (D.told run.new.outside) }
    ensures sure { OnErr result (Undelivered task.now.flags run.old.journal run.new.journal) }
{
    let of_lock = lock_commands(alloc, task)?;
    let of_text = text_commands(alloc, task.text, reading)?;
    let ready = make_ready(alloc, run, of_lock.as_slice(), of_text.as_slice())?;
    do_ready(alloc, run, task, reading, &ready)
}

// The commands that are run before the text is read.
fn text_commands(alloc: Global, text: &[u8], reading: Reading) -> Result<Vec<Blob>, Memory>
    ensures { IfOk result (λ commands. commands.items ≡ (reading_of reading text.now).commands) }
{
    match reading {
        Reading::Shell => Ok(Vec::new(alloc)),
        Reading::Plain | Reading::Forward => commands(alloc, text, Mode::Many),
    }
}

// Runs the program by the outputs of the commands.
fn do_ready<D: Effects>(
    alloc: Global,
    run: &mut Run<D>,
    task: &Task<'_>,
    reading: Reading,
    ready: &Ready,
) -> Result<Acted, Memory>
    requires locks { length ready.now.lock_outputs.items ≡ length (ProgramActions.lock_commands (task_of task.now)) }
    requires each { length ready.now.outputs.items ≡ length (reading_of reading task.now.text.now).commands }
    ensures carries { let t = task_of task.now in
        Carries (program_with t (reading_of reading t.text) (ready_of ready.now (mind_of run.old.process)))
        (λ acted. acted_with acted (mind_of run.new.process)) result
        run.old.journal run.new.journal (D.told run.old.outside) (D.told run.new.outside) }
    ensures sure { OnErr result (Undelivered task.now.flags run.old.journal run.new.journal) }
{
    match job_of(alloc, task, reading, ready, &run.process) {
        Ok(Job { lock, command }) => {
            let errand = errand_for(alloc, task, command, &run.process)?;
            do_free(alloc, run, task, lock, errand)
        }
        Err(refusal) => tell_refusal(alloc, run, refusal),
    }
}

/// The text as a program with its words, with the outputs of its commands.
pub fn read_text(
    alloc: Global,
    text: &[u8],
    reading: Reading,
    outputs: &[Blob],
    process: &Process,
) -> Result<ProgramLine, Memory>
    requires { length outputs.now ≡ length (reading_of reading text.now).commands }
    ensures { IfOk result (λ line. line ≡ (reading_of reading text.now).read outputs.now (mind_of process.now)) }
{
    match reading {
        Reading::Shell => shell_line(alloc, text, process),
        Reading::Plain => expanded_line(alloc, text, outputs, process),
        Reading::Forward => forward_line(alloc, text, outputs, process),
    }
}

/// The mail goes to standard output.
pub fn write_out<D: Effects>(
    alloc: Global,
    run: &mut Run<D>,
    flags: Flags,
    lock: &Option<Blob>,
) -> Result<Acted, Memory>
    ensures carries { Carries (ProgramActions.write_out flags lock.now (mind_of run.old.process))
        (λ acted. acted_with acted (mind_of run.new.process)) result
        run.old.journal run.new.journal (D.told run.old.outside) (D.told run.new.outside) }
    ensures sure { OnErr result (Undelivered flags run.old.journal run.new.journal) }
{
    let task = Task {
        flags,
        lock,
        automatic: b"",
        text: b"|",
        purpose: Purpose::Delivers(b"|"),
    };
    let commands = lock_commands(alloc, &task)?;
    let ready = make_ready(alloc, run, commands.as_slice(), &[])?;
    write_ready(alloc, run, &task, &ready)
}

// Writes by the outputs of the commands.
fn write_ready<D: Effects>(
    alloc: Global,
    run: &mut Run<D>,
    task: &Task<'_>,
    ready: &Ready,
) -> Result<Acted, Memory>
    requires locks { length ready.now.lock_outputs.items ≡ length (ProgramActions.lock_commands (task_of task.now)) }
    ensures carries { Carries
        (write_with (task_of task.now) (ready_of ready.now (mind_of run.old.process)))
        (λ acted. acted_with acted (mind_of run.new.process)) result
        run.old.journal run.new.journal (D.told run.old.outside) (D.told run.new.outside) }
    ensures sure { OnErr result (Undelivered task.now.flags run.old.journal run.new.journal) }
{
    match lock_of(alloc, task, ready, &run.process) {
        Ok(lock) => {
            let errand = write_errand(alloc, task.flags, &run.process)?;
            do_free(alloc, run, task, lock, errand)
        }
        Err(refusal) => tell_refusal(alloc, run, refusal),
    }
}
