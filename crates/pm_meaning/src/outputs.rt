//! The outputs of backquoted commands (procmailrc(5), "Environment").
ghost use Rattle.std.specs.Prelude.{◌≡◌, [], length, true, IfOk};
ghost use Rattle.pm_journal.specs.Executed.{Carries};
ghost use Rattle.pm_journal.specs.LogText.{unusable_name_line, value_too_long_line};
ghost use Rattle.pm_journal.specs.Outcomes;
ghost use Rattle.pm_meaning.specs.Changes.{overflowed};
ghost use Rattle.pm_meaning.specs.Delivering;
ghost use Rattle.pm_meaning.specs.Minds.{mind_of};
ghost use Rattle.pm_meaning.specs.Outputs.{output_of, output_with, outputs_with};
ghost use Rattle.pm_meaning.specs.Outputs;
ghost use Rattle.pm_meaning.specs.Outputs.{read_with};
ghost use Rattle.pm_meaning.specs.Turns.{say_then};
ghost use Rattle.pm_subst.specs.Commands.{commands_in};
ghost use Rattle.pm_meaning.specs.Ready.{ready_of, told};

use crate::programs::{command_line, expanded_line, needs_shell, note_code, shell_line};
use crate::telling::tell;
use crate::{ProgramLine, Run};
use pm_bytes::{Blob, Memory};
use pm_host::Command;
use pm_journal::{
    Asks, Entries, Journal, RunEnd, couldnt_start, lost_contact, output_too_long, unusable_name,
    value_too_long,
};
use pm_subst::{Mode, commands};
use std::alloc::Global;

/// The most bytes of an output that a text gets.
const MOST_LENGTH: usize = 1_048_576;

/// The outputs of the commands of an action's lock file and of its own text.
#[derive(Drop)]
pub struct Ready {
    pub lock_outputs: Vec<Blob>,
    pub outputs: Vec<Blob>,
}

/// Runs the commands of a lock file's text, and then those of the action's text.
pub fn make_ready<D: Asks>(
    alloc: Global,
    run: &mut Run<D>,
    lock_commands: &[Blob],
    commands: &[Blob],
) -> Result<Ready, Memory>
    ensures carries { Carries (Delivering.make_ready lock_commands.now commands.now (mind_of run.old.process))
        (λ ready. ready_of ready (mind_of run.new.process)) result
        run.old.journal run.new.journal (D.told run.old.outside) (D.told run.new.outside) }
    ensures locks { IfOk result (λ ready. length ready.lock_outputs.items ≡ length lock_commands.now) }
    ensures each { IfOk result (λ ready. length ready.outputs.items ≡ length commands.now) }
{
    let lock_outputs = run_each(alloc, run, lock_commands)?;
    let outputs = run_each(alloc, run, commands)?;
    Ok(Ready {
        lock_outputs,
        outputs,
    })
}

/// Runs the commands of a text from left to right, and answers their outputs.
pub fn outputs_of<D: Asks>(
    alloc: Global,
    run: &mut Run<D>,
    text: &[u8],
    mode: Mode,
) -> Result<Vec<Blob>, Memory>
    ensures carries { Carries (Outputs.outputs_of (commands_in mode text.now) (mind_of run.old.process))
        (λ outputs. outputs_with outputs.items (mind_of run.new.process)) result
        run.old.journal run.new.journal (D.told run.old.outside) (D.told run.new.outside) }
    ensures each { IfOk result (λ outputs. length outputs.items ≡ length (commands_in mode text.now)) }
{
    let commands = commands(alloc, text, mode)?;
    run_each(alloc, run, commands.as_slice())
}

/// Reads a program's line, after the commands of one that no shell runs.
pub fn read_line<D: Asks>(
    alloc: Global,
    run: &mut Run<D>,
    line: &[u8],
) -> Result<ProgramLine, Memory>
    ensures carries { Carries (Outputs.read_line line.now (mind_of run.old.process))
        (λ read. read_with read (mind_of run.new.process)) result
        run.old.journal run.new.journal (D.told run.old.outside) (D.told run.new.outside) }
{
    if needs_shell(line, &run.process) {
        return shell_line(alloc, line, &run.process);
    }
    let outputs = outputs_of(alloc, run, line, Mode::Many)?;
    expanded_line(alloc, line, outputs.as_slice(), &run.process)
}

// Runs each of these commands, and answers their outputs in the same order.
fn run_each<D: Asks>(
    alloc: Global,
    run: &mut Run<D>,
    commands: &[Blob],
) -> Result<Vec<Blob>, Memory>
    ensures carries { Carries (Outputs.outputs_of commands.now (mind_of run.old.process))
        (λ outputs. outputs_with outputs.items (mind_of run.new.process)) result
        run.old.journal run.new.journal (D.told run.old.outside) (D.told run.new.outside) }
    ensures each { IfOk result (λ outputs. length outputs.items ≡ length commands.now) }
{
    let mut outputs = Vec::new(alloc);
    for command in commands {
        let output = run_text(alloc, run, command.as_slice())?;
        outputs.push(output)?;
    }
    Ok(outputs)
}

// Runs a command, and answers its output.
fn run_text<D: Asks>(alloc: Global, run: &mut Run<D>, text: &[u8]) -> Result<Blob, Memory>
    ensures carries { Carries (output_of text.now (mind_of run.old.process))
        (λ output. output_with output (mind_of run.new.process)) result
        run.old.journal run.new.journal (D.told run.old.outside) (D.told run.new.outside) }
{
    match command_line(alloc, text, &run.process)? {
        ProgramLine::Runs(command) => run_command(alloc, run, command, text),
        ProgramLine::NoWords | ProgramLine::Unusable => tell_unusable(alloc, run, text),
        ProgramLine::TooLong(length) => tell_long(alloc, run, length),
    }
}

// Runs the program of a command with the whole mail as its input.
fn run_command<D: Asks>(
    alloc: Global,
    run: &mut Run<D>,
    command: Command,
    text: &[u8],
) -> Result<Blob, Memory>
    ensures carries { Carries (Outputs.run_command command text.now (mind_of run.old.process))
        (λ output. output_with output (mind_of run.new.process)) result
        run.old.journal run.new.journal (D.told run.old.outside) (D.told run.new.outside) }
{
    let input = run.process.message.whole(alloc)?;
    let end = run.run_program(alloc, command, input, true)?;
    note_code(end, &mut run.process);
    let output = taken_output(alloc, &run.journal)?;
    tell_run(alloc, run, end, text)?;
    Ok(output)
}

// What a text gets of the output of the program that ran last.
fn taken_output<K: Entries>(alloc: Global, journal: &Journal<K>) -> Result<Blob, Memory>
    ensures { IfOk result (λ output. output ≡ Outputs.taken_output (Outcomes.last_output journal.now.entries)) }
{
    match journal.last_output() {
        None => Ok(Blob::empty(alloc)),
        Some(output) => {
            if output.len() > MOST_LENGTH {
                return Ok(Blob::empty(alloc));
            }
            output.copy(alloc)
        }
    }
}

/// Tells of a program of this line that wasn't started, was lost, or wrote too much.
pub fn tell_run<D: Asks>(
    alloc: Global,
    run: &mut Run<D>,
    end: RunEnd,
    line: &[u8],
) -> Result<(), Memory>
    ensures carries { Carries (Outputs.tell_run end line.now (mind_of run.old.process) told) (λ _. told) result
        run.old.journal run.new.journal (D.told run.old.outside) (D.told run.new.outside) }
    ensures same { run.new.process ≡ run.old.process }
{
    match run_fault(alloc, end, line)? {
        None => Ok(()),
        Some(text) => tell(alloc, run, text),
    }
}

// What is told of a program of this line, if anything.
fn run_fault(alloc: Global, end: RunEnd, line: &[u8]) -> Result<Option<Blob>, Memory>
    ensures { IfOk result (λ fault. fault ≡ Outputs.run_fault end line.now) }
{
    match end {
        RunEnd::Ended { .. } => Ok(None),
        RunEnd::NotStarted => Ok(Some(couldnt_start(alloc, line)?)),
        RunEnd::Broken => Ok(Some(lost_contact(alloc, line)?)),
        RunEnd::TooLong => Ok(Some(output_too_long(alloc, line)?)),
    }
}

// A command that can't be run is told, and has no output.
fn tell_unusable<D: Asks>(alloc: Global, run: &mut Run<D>, text: &[u8]) -> Result<Blob, Memory>
    ensures carries { let p = mind_of run.old.process in
        Carries (say_then p (unusable_name_line text.now) (output_with [] p))
        (λ output. output_with output p) result
        run.old.journal run.new.journal (D.told run.old.outside) (D.told run.new.outside) }
    ensures same { run.new.process ≡ run.old.process }
{
    let line = unusable_name(alloc, text)?;
    tell(alloc, run, line)?;
    Ok(Blob::empty(alloc))
}

// A command that expands to too many bytes is told, and has no output.
fn tell_long<D: Asks>(alloc: Global, run: &mut Run<D>, length: u64) -> Result<Blob, Memory>
    ensures carries { let p = mind_of run.old.process in
        Carries (say_then p (value_too_long_line length) (output_with [] (overflowed p)))
        (λ output. output_with output (mind_of run.new.process)) result
        run.old.journal run.new.journal (D.told run.old.outside) (D.told run.new.outside) }
{
    let line = value_too_long(alloc, length)?;
    let mark = Blob::from_slice(alloc, b"yes")?;
    tell(alloc, run, line)?;
    run.process.vars.set(b"PROCMAIL_OVERFLOW", mark)?;
    Ok(Blob::empty(alloc))
}
