//! The entries of a journal as steps.
ghost use Rattle.std.specs.Prelude.{◌≡◌, ◌++◌, IfOk, OnOk};
ghost use Rattle.explain_text.specs.Steps.{step, step_of, steps_of, listed};
ghost use Rattle.explain_text.specs.Steps.{read_step, place_step, run_step, log_step, say_step, write_step};
ghost use Rattle.explain_text.specs.Steps.{ended, is_done, is_held, is_removed, is_wrote};

use pm_bytes::{Blob, Memory, Name};
use pm_host::Command;
use pm_journal::{Act, Entry, Reply};
use pm_overlay::line_of;
use std::alloc::Global;

/// What a step does.
#[derive(Clone, Copy, PartialEq, Eq)]
pub enum Kind {
    Read,
    Append,
    /// A file of its own in a folder.
    File,
    Lock,
    Unlock,
    Run,
    /// A program whose output is wanted.
    Filter,
    Log,
    /// A log text to standard error.
    Say,
    Write,
}

/// One step of a run. `name` is that of the file, the line of the program, or `standard output`; of a log text that
/// goes to standard error it is the text.
#[derive(Drop)]
pub struct Step {
    pub kind: Kind,
    pub name: Blob,
    /// How many bytes are read, written, or given to the program.
    pub bytes: u64,
    pub done: bool,
    /// With which a program ended; 0 of other steps.
    pub code: u8,
    /// What a log file gets.
    pub text: Blob,
}

/// The steps of a run, in order. What is only looked at, and the time, are none.
pub fn steps_of(alloc: Global, entries: &[Entry]) -> Result<Vec<Step>, Memory>
    ensures { IfOk result (λ steps. steps.items ≡ steps_of entries.now) }
{
    let mut steps = Vec::new(alloc);
    for entry in entries {
        add_step(&mut steps, step_of(alloc, entry)?)?;
    }
    Ok(steps)
}

fn add_step(steps: &mut Vec<Step>, step: Option<Step>) -> Result<(), Memory>
    ensures { OnOk result (steps.new.items ≡ steps.old.items ++ listed step) }
{
    if let Some(step) = step {
        steps.push(step)?;
    }
    Ok(())
}

fn step_of(alloc: Global, entry: &Entry) -> Result<Option<Step>, Memory>
    ensures { IfOk result (λ step. step ≡ step_of entry.now) }
{
    let reply = &entry.reply;
    let step = match &entry.act {
        Act::ReadFile { name } => read_step(alloc, name, reply)?,
        Act::Append { name, piece } => plain_step(
            alloc,
            Kind::Append,
            name,
            piece.len() as u64,
            is_done(reply),
        )?,
        Act::Place { folder, piece, .. } => place_step(alloc, folder, piece, reply)?,
        Act::Lock { name, .. } => plain_step(alloc, Kind::Lock, name, 0, is_held(reply))?,
        Act::Unlock { name } => plain_step(alloc, Kind::Unlock, name, 0, is_removed(reply))?,
        Act::Run {
            command,
            input,
            want,
        } => run_step(alloc, command, input, *want, reply)?,
        Act::SayFile { name, text } => log_step(alloc, name, text, reply)?,
        Act::SayErr { text } => say_step(alloc, text, reply)?,
        Act::WriteOut { piece } => write_step(alloc, piece, reply)?,
        Act::Probe { .. } | Act::Moment => return Ok(None),
    };
    Ok(Some(step))
}

fn plain_step(
    alloc: Global,
    kind: Kind,
    name: &Name,
    bytes: u64,
    done: bool,
) -> Result<Step, Memory>
    ensures { IfOk result (λ made. made ≡ step kind name.now bytes done) }
{
    Ok(Step {
        kind,
        name: Blob::from_slice(alloc, name.as_str().as_bytes())?,
        bytes,
        done,
        code: 0,
        text: Blob::empty(alloc),
    })
}

fn read_step(alloc: Global, name: &Name, reply: &Reply) -> Result<Step, Memory>
    ensures { IfOk result (λ made. made ≡ read_step name.now reply.now) }
{
    match reply {
        Reply::Content(bytes) => plain_step(alloc, Kind::Read, name, bytes.len() as u64, true),
        _ => plain_step(alloc, Kind::Read, name, 0, false),
    }
}

fn place_step(alloc: Global, folder: &Name, piece: &Blob, reply: &Reply) -> Result<Step, Memory>
    ensures { IfOk result (λ made. made ≡ place_step folder.now piece.now reply.now) }
{
    match reply {
        Reply::Placed(name) => plain_step(alloc, Kind::File, name, piece.len() as u64, true),
        _ => plain_step(alloc, Kind::File, folder, piece.len() as u64, false),
    }
}

fn run_step(
    alloc: Global,
    command: &Command,
    input: &Blob,
    want: bool,
    reply: &Reply,
) -> Result<Step, Memory>
    ensures { IfOk result (λ made. made ≡ run_step command.now input.now want reply.now) }
{
    let (done, code) = ended(reply);
    Ok(Step {
        kind: if want { Kind::Filter } else { Kind::Run },
        name: line_of(alloc, command)?,
        bytes: input.len() as u64,
        done,
        code,
        text: Blob::empty(alloc),
    })
}

fn ended(reply: &Reply) -> (bool, u8)
    ensures { result ≡ ended reply.now }
{
    match reply {
        Reply::Ended { code, .. } => (true, *code),
        _ => (false, 0),
    }
}

fn log_step(alloc: Global, name: &Name, text: &Blob, reply: &Reply) -> Result<Step, Memory>
    ensures { IfOk result (λ made. made ≡ log_step name.now text.now reply.now) }
{
    Ok(Step {
        kind: Kind::Log,
        name: Blob::from_slice(alloc, name.as_str().as_bytes())?,
        bytes: text.len() as u64,
        done: is_done(reply),
        code: 0,
        text: text.copy(alloc)?,
    })
}

fn say_step(alloc: Global, text: &Blob, reply: &Reply) -> Result<Step, Memory>
    ensures { IfOk result (λ made. made ≡ say_step text.now reply.now) }
{
    Ok(Step {
        kind: Kind::Say,
        name: text.copy(alloc)?,
        bytes: text.len() as u64,
        done: is_wrote(reply),
        code: 0,
        text: Blob::empty(alloc),
    })
}

fn write_step(alloc: Global, piece: &Blob, reply: &Reply) -> Result<Step, Memory>
    ensures { IfOk result (λ made. made ≡ write_step piece.now reply.now) }
{
    Ok(Step {
        kind: Kind::Write,
        name: Blob::from_slice(alloc, b"standard output")?,
        bytes: piece.len() as u64,
        done: is_wrote(reply),
        code: 0,
        text: Blob::empty(alloc),
    })
}

fn is_done(reply: &Reply) -> bool
    ensures { result ≡ is_done reply.now }
{
    matches!(reply, Reply::Done)
}

fn is_held(reply: &Reply) -> bool
    ensures { result ≡ is_held reply.now }
{
    matches!(reply, Reply::Held { .. })
}

fn is_removed(reply: &Reply) -> bool
    ensures { result ≡ is_removed reply.now }
{
    matches!(reply, Reply::Removed)
}

fn is_wrote(reply: &Reply) -> bool
    ensures { result ≡ is_wrote reply.now }
{
    matches!(reply, Reply::Wrote)
}
