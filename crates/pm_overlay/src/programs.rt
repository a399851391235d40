//! Programs that aren't started: each takes all its input and ends with a given code and output, and without a given
//! output gives back what it got.
ghost use Rattle.std.specs.Prelude.{◌≡◌, ◌≤◌, ◌++◌, IfOk, OnOk, OnErr, length, take, option_copied};
ghost use Rattle.pm_overlay.specs.Given.{line_of, spaced, answer_to, bytes_or_none, output_of, code_of, echoes_where};

use crate::part::copy_part;
use pm_bytes::{Blob, Memory, Name};
use pm_host::Command;
use std::alloc::Global;

/// What a program does that isn't started: the line that runs it, the code with which it ends, and its output, where
/// one is given.
#[derive(Drop)]
pub struct Given {
    pub line: Blob,
    pub code: u8,
    pub output: Option<Blob>,
}

/// The given answers, and what the last program does.
#[derive(Drop)]
pub(crate) struct Programs {
    given: Vec<Given>,
    code: u8,
    echoes: bool,
    output: Blob,
    at: usize,
    ghost within: { at ≤ length output },
}

impl Programs {
    ghost use Rattle.pm_overlay.specs.Programs.{left_in, Starts, Takes, Gives};

    pub(crate) fn new(alloc: Global, given: Vec<Given>) -> Programs
        ensures { result.given ≡ given }
    {
        Programs {
            given,
            code: 0,
            echoes: false,
            output: Blob::empty(alloc),
            at: 0,
        }
    }

    /// The program ends as its answer says.
    pub(crate) fn start(
        &mut self,
        alloc: Global,
        command: &Command,
        want: bool,
    ) -> Result<(), Memory>
        ensures ok { OnOk result (Starts (answer_to self.old.given.items
            (line_of command.now)) want self.old self.new) }
        ensures err { OnErr result (self.new ≡ self.old) }
    {
        let line = line_of(alloc, command)?;
        let answer = answer_to(self.given.as_slice(), line.as_slice());
        let output = output_of(alloc, answer)?;
        let code = code_of(answer);
        let echoes = echoes_where(answer, want);
        self.code = code;
        self.echoes = echoes;
        self.output = output;
        self.at = 0;
        Ok(())
    }

    /// The program takes the piece.
    pub(crate) fn feed(&mut self, piece: &[u8]) -> Result<(), Memory>
        ensures ok { OnOk result (Takes piece.now self.old self.new) }
        ensures err { OnErr result (self.new ≡ self.old) }
    {
        if self.echoes {
            self.output.push_slice(piece)?;
        }
        Ok(())
    }

    /// The next bytes of its output, into the front of the room.
    pub(crate) fn take(&mut self, room: &mut [u8]) -> usize
        ensures came { take result room.new ≡ take (length room.old) (left_in self.old) }
        ensures within { result ≤ length room.old }
        ensures gives { Gives result self.old self.new }
    {
        let count = copy_part(self.output.as_slice(), self.at as u64, room);
        self.at += count;
        count
    }

    pub(crate) fn code(&self) -> u8
        ensures { result ≡ self.now.code }
    {
        self.code
    }
}

fn answer_to<'a>(given: &'a [Given], line: &[u8]) -> Option<&'a Given>
    ensures { option_copied result ≡ answer_to given.now line.now }
{
    given.iter().find(|one| one.line.as_slice() == line)
}

fn output_of(alloc: Global, answer: Option<&Given>) -> Result<Blob, Memory>
    ensures { IfOk result (λ output. output ≡ bytes_or_none (output_of (option_copied answer.entry))) }
{
    match answer {
        Some(
            Given {
                output: Some(output),
                ..
            },
        ) => output.copy(alloc),
        _ => Ok(Blob::empty(alloc)),
    }
}

fn code_of(answer: Option<&Given>) -> u8
    ensures { result ≡ code_of (option_copied answer.entry) }
{
    match answer {
        Some(one) => one.code,
        None => 0,
    }
}

fn echoes_where(answer: Option<&Given>, want: bool) -> bool
    ensures { result ≡ echoes_where (output_of (option_copied answer.entry)) want }
{
    match answer {
        Some(
            Given {
                output: Some(_),
                ..
            },
        ) => false,
        _ => want,
    }
}

/// The line that a shell runs, or the program and its arguments with spaces between them.
pub fn line_of(alloc: Global, command: &Command) -> Result<Blob, Memory>
    ensures { IfOk result (λ line. line ≡ line_of command.now) }
{
    match command.args.as_slice() {
        [flags, text] if flags.as_str() == "-c" => Blob::from_slice(
            alloc,
            text.as_str().as_bytes(),
        ),
        args => spaced_line(alloc, command.program.as_str(), args),
    }
}

fn spaced_line(alloc: Global, program: &str, args: &[Name]) -> Result<Blob, Memory>
    ensures { IfOk result (λ line. line ≡ program.now ++ spaced args.now) }
{
    let mut line = Blob::from_slice(alloc, program.as_bytes())?;
    for arg in args {
        line.push_slice(b" ")?;
        line.push_slice(arg.as_str().as_bytes())?;
    }
    Ok(line)
}
