//! How a program line is read (procmailrc(5), "Recipe action line", and SHELL, SHELLFLAGS and SHELLMETAS).
ghost use Rattle.std.specs.Prelude.{◌≡◌, ◌∷◌, length, IfOk};
ghost use Rattle.pm_meaning.specs.Locks;
ghost use Rattle.pm_meaning.specs.Minds.{mind_of};
ghost use Rattle.pm_meaning.specs.Programs.{line_of_words};
ghost use Rattle.pm_meaning.specs.Programs;
ghost use Rattle.pm_meaning.specs.Programs.{line_commands};
ghost use Rattle.pm_meaning.specs.Programs.{line_of, command_line_of};
ghost use Rattle.pm_meaning.specs.Programs.{with_exit_code};
ghost use Rattle.pm_subst.specs.Commands.{commands_in};
ghost use Rattle.pm_subst.specs.declared.kinds.Mode.TheVariants.{Many};
ghost use Rattle.pm_meaning.specs.UsableNames.{usable_name, AreUsable};

use crate::{Process, ProgramLine};
use pm_bytes::{BACKQUOTE, Blob, Memory, Name, NameRefused, Names, Pairs};
use pm_host::Command;
use pm_journal::RunEnd;
use pm_subst::{ExpandRefused, Mode, expand};
use pm_vars::Vars;
use std::alloc::Global;

/// The line as a program with its words, with the outputs of its backquoted commands in their order.
pub fn program_line(
    alloc: Global,
    line: &[u8],
    outputs: &[Blob],
    process: &Process,
) -> Result<ProgramLine, Memory>
    requires { length outputs.now ≡ length (line_commands line.now (mind_of process.now)) }
    ensures { IfOk result (λ read. read ≡ line_of outputs.now line.now (mind_of process.now)) }
{
    if needs_shell(line, process) {
        shell_line(alloc, line, process)
    } else {
        expanded_line(alloc, line, outputs, process)
    }
}

/// The backquoted command as a program with its words. It has no commands of its own.
pub fn command_line(alloc: Global, text: &[u8], process: &Process) -> Result<ProgramLine, Memory>
    ensures { IfOk result (λ read. read ≡ command_line_of text.now (mind_of process.now)) }
{
    if text.contains(&BACKQUOTE) {
        shell_line(alloc, text, process)
    } else {
        program_line(alloc, text, &[], process)
    }
}

/// Whether the line is left to the shell.
pub fn needs_shell(line: &[u8], process: &Process) -> bool
    ensures { result ≡ Programs.needs_shell line.now (mind_of process.now) }
{
    has_one_of(value_or(b"&|<>~;?*[", b"SHELLMETAS", &process.vars), line)
}

/// The program that was run last has this exit code.
pub fn note_code(end: RunEnd, process: &mut Process)
    ensures mind { mind_of process.new ≡ with_exit_code (Programs.code_of end) (mind_of process.old) }
    ensures locks { process.new.locks ≡ process.old.locks }
{
    process.vars.set_code(code_of(end));
}

/// The exit code of a program; one that didn't come to its end has 127.
pub fn code_of(end: RunEnd) -> u8
    ensures { result ≡ Programs.code_of end }
{
    match end {
        RunEnd::Ended { code, .. } => code,
        _ => 127,
    }
}

/// The value of a variable, or this where it is unset.
pub fn value_or<'a>(otherwise: &'a [u8], name: &[u8], vars: &'a Vars) -> &'a [u8]
    ensures { result.now ≡ Locks.value_or otherwise.now name.now vars.now }
{
    match vars.get(name) {
        None => otherwise,
        Some(value) => value.as_slice(),
    }
}

// Whether one of these bytes stands in the text.
fn has_one_of(bytes: &[u8], text: &[u8]) -> bool
    ensures { result ≡ Programs.has_one_of bytes.now text.now }
{
    text.iter().any(|byte| bytes.contains(byte))
}

/// The line as the two words of the shell.
pub fn shell_line(alloc: Global, line: &[u8], process: &Process) -> Result<ProgramLine, Memory>
    ensures { let p = mind_of process.now in
        IfOk result (λ read. read ≡ line_of_words (Programs.shell_words line.now p.vars) p) }
{
    let words = shell_words(alloc, line, &process.vars)?;
    words_line(alloc, words.as_slice(), process)
}

// SHELL with SHELLFLAGS and the line.
fn shell_words(alloc: Global, line: &[u8], vars: &Vars) -> Result<Vec<Blob>, Memory>
    ensures { IfOk result (λ words. words.items ≡ Programs.shell_words line.now vars.now) }
{
    let mut words = Vec::new(alloc);
    words.push(Blob::from_slice(alloc, value_or(b"/bin/sh", b"SHELL", vars))?)?;
    words.push(Blob::from_slice(alloc, value_or(b"-c", b"SHELLFLAGS", vars))?)?;
    words.push(Blob::from_slice(alloc, line)?)?;
    Ok(words)
}

/// A line that no shell runs, expanded with the outputs of its commands in their order.
pub fn expanded_line(
    alloc: Global,
    line: &[u8],
    outputs: &[Blob],
    process: &Process,
) -> Result<ProgramLine, Memory>
    requires { length outputs.now ≡ length (commands_in Many line.now) }
    ensures { IfOk result (λ read. read ≡ Programs.expanded_line outputs.now line.now (mind_of process.now)) }
{
    match expand(alloc, line, Mode::Many, &process.vars, outputs) {
        Ok(words) => words_line(alloc, words.as_slice(), process),
        Err(ExpandRefused::Overflow { length }) => Ok(ProgramLine::TooLong(length)),
        Err(ExpandRefused::Memory) => Err(Memory),
    }
}

/// The first word as a program, with the others.
pub fn words_line(alloc: Global, words: &[Blob], process: &Process) -> Result<ProgramLine, Memory>
    ensures { IfOk result (λ read. read ≡ line_of_words words.now (mind_of process.now)) }
{
    match words {
        [] => Ok(ProgramLine::NoWords),
        [program, args @ ..] => named_line(alloc, program, args, process),
    }
}

fn named_line(
    alloc: Global,
    program: &Blob,
    args: &[Blob],
    process: &Process,
) -> Result<ProgramLine, Memory>
    ensures { IfOk result (λ read. read ≡ line_of_words (program.now ∷ args.now) (mind_of process.now)) }
{
    let Some(program) = usable(alloc, program.as_slice())? else {
        return Ok(ProgramLine::Unusable);
    };
    let Some(args) = all_usable(alloc, args)? else {
        return Ok(ProgramLine::Unusable);
    };
    let env = environment(alloc, &process.vars)?;
    let folder = process.base.copy(alloc)?;
    Ok(ProgramLine::Runs(Command {
        program,
        args,
        env,
        folder,
    }))
}

// The text as a name, where it can be one.
fn usable(alloc: Global, text: &[u8]) -> Result<Option<Name>, Memory>
    ensures { IfOk result (λ name. name ≡ usable_name text.now) }
{
    match Name::read(alloc, text) {
        Ok(name) => Ok(Some(name)),
        Err(NameRefused::Unusable) => Ok(None),
        Err(NameRefused::Memory) => Err(Memory),
    }
}

// The words as names, where each can be one.
fn all_usable(alloc: Global, words: &[Blob]) -> Result<Option<Names>, Memory>
    ensures { IfOk result (λ names. AreUsable words.now names) }
{
    let mut names = Vec::new(alloc);
    for word in words {
        match usable(alloc, word.as_slice())? {
            Some(name) => names.push(name)?,
            None => return Ok(None),
        }
    }
    Ok(Some(Names::from_vec(names)))
}

// The variables that programs get.
fn environment(alloc: Global, vars: &Vars) -> Result<Pairs, Memory>
    ensures { IfOk result (λ pairs. pairs ≡ Programs.environment vars.now) }
{
    let pairs = vars.export(alloc)?;
    Ok(Pairs::from_vec(pairs))
}
