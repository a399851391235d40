//! A program whose own code answers: it takes its input, and runs once that has ended.
ghost use Rattle.std.specs.Prelude.{◌≡◌, ◌<◌, ◌++◌, None, [], IfOk, OnOk, OnErr, length, map, string_bytes};
ghost use Rattle.pm_host.specs.Answers.{IsWithin};
ghost use Rattle.pm_memory.specs.Source.{left_of};
ghost use Rattle.explain_host.specs.Answering.{Answers, RunsFormail, RunsLockfile};

use crate::in_folder::InFolder;
use formail_top::formail;
use lockfile_top::lockfile;
use pm_bytes::{Blob, Environ, Memory, Name};
use pm_host::{Child, Command, Got, Host, Source};
use pm_memory::{MemorySink, MemorySource};
use pm_overlay::{Tool, Void};
use std::alloc::Global;

/// The code with which a program ended, and what is left of its output.
#[derive(Drop)]
pub(crate) struct Output {
    pub(crate) code: u8,
    pub(crate) left: MemorySource,
}

/// A program with what it got, and what it answered once it ran.
#[derive(Drop)]
pub(crate) struct Program {
    pub(crate) tool: Tool,
    pub(crate) command: Command,
    pub(crate) input: Blob,
    pub(crate) output: Option<Output>,
}

/// The program runs over this host with its input.
pub(crate) fn answer<H: Host + Drop>(
    alloc: Global,
    tool: Tool,
    command: &Command,
    input: &Blob,
    place: &mut InFolder<H>,
) -> Result<Output, Memory>
    ensures { IfOk result (λ output. Answers tool command.now input.now output.code (left_of output.left)) }
{
    place.enter(command.folder.copy(alloc)?);
    match tool {
        Tool::Formail => answer_of_formail(alloc, command, input, place),
        Tool::Lockfile => answer_of_lockfile(alloc, command, place),
    }
}

fn answer_of_formail<H: Host + Drop>(
    alloc: Global,
    command: &Command,
    input: &Blob,
    place: &mut InFolder<H>,
) -> Result<Output, Memory>
    requires { place.old.child ≡ Child.NoChild }
    ensures { IfOk result (λ output. RunsFormail command.now.args command.now.env input.now
        output.code (left_of output.left)) }
{
    let words = words_of(alloc, command.args.as_slice())?;
    let env = environment_of(alloc, command)?;
    let mut source = MemorySource::new(alloc, input.as_slice(), None)?;
    let mut out = MemorySink::new(alloc, None)?;
    let code = formail(
        alloc,
        words.as_slice(),
        &env,
        &mut source,
        place,
        &mut out,
        &mut Void::new(),
    );
    let left = MemorySource::new(alloc, out.written(), None)?;
    Ok(Output { code, left })
}

fn answer_of_lockfile<H: Host + Drop>(
    alloc: Global,
    command: &Command,
    place: &mut InFolder<H>,
) -> Result<Output, Memory>
    ensures lockfile { IfOk result (λ output. RunsLockfile command.now.args command.now.env output.code) }
    ensures nothing { IfOk result (λ output. left_of output.left ≡ []) }
{
    let words = words_of(alloc, command.args.as_slice())?;
    let env = environment_of(alloc, command)?;
    let code = lockfile(alloc, words.as_slice(), &env, place, &mut Void::new());
    let left = MemorySource::new(alloc, b"", None)?;
    Ok(Output { code, left })
}

fn words_of(alloc: Global, args: &[Name]) -> Result<Vec<String>, Memory>
    ensures { IfOk result (λ words. map string_bytes words.items ≡ args.now) }
{
    let mut words = Vec::new(alloc);
    for arg in args {
        words.push(String::from_str(alloc, arg.as_str())?)?;
    }
    Ok(words)
}

// Neither program asks for the process number and the machine's name.
fn environment_of(alloc: Global, command: &Command) -> Result<Environ, Memory>
    ensures { IfOk result (λ env. env.vars ≡ command.now.env) }
{
    Ok(Environ {
        vars: command.env.copy(alloc)?,
        pid: 1,
        host_name: Name::from_text(String::from_str(alloc, "localhost")?),
    })
}

impl Program {
    ghost use Rattle.explain_host.specs.Answering.{OutputOf, GivesNext, EndsWith, SameBut};

    /// It has got nothing yet.
    pub(crate) fn new(alloc: Global, tool: Tool, command: &Command) -> Result<Program, Memory>
        ensures tool { IfOk result (λ program. program.tool ≡ tool) }
        ensures command { IfOk result (λ program. program.command ≡ command.now) }
        ensures input { IfOk result (λ program. program.input ≡ []) }
        ensures output { IfOk result (λ program. program.output ≡ None) }
    {
        Ok(Program {
            tool,
            command: command.copy(alloc)?,
            input: Blob::empty(alloc),
            output: None,
        })
    }

    /// It gets the piece.
    pub(crate) fn feed(&mut self, piece: &[u8]) -> Result<(), Memory>
        ensures ok { OnOk result (self.new ≡ record self.old { input = self.old.input ++ piece.now }) }
        ensures err { OnErr result (self.new ≡ self.old) }
    {
        self.input.push_slice(piece)?;
        Ok(())
    }

    /// The next bytes of its output, into the front of the room.
    pub(crate) fn take<H: Host + Drop>(
        &mut self,
        alloc: Global,
        place: &mut InFolder<H>,
        room: &mut [u8],
    ) -> Result<Got, Memory>
        requires { 0 < length room.old }
        ensures ok { IfOk result (λ got. GivesNext (length room.old) got room.new self.old self.new) }
        ensures within { IfOk result (λ got. IsWithin got (length room.old)) }
    {
        let mut output = self.run(alloc, place)?;
        let got = output.left.read(room);
        self.output = Some(output);
        Ok(got)
    }

    /// The code with which it ends.
    pub(crate) fn finish<H: Host + Drop>(
        &mut self,
        alloc: Global,
        place: &mut InFolder<H>,
    ) -> Result<u8, Memory>
        ensures { IfOk result (λ code. EndsWith code self.old) }
    {
        let output = self.run(alloc, place)?;
        Ok(output.code)
    }

    // What it answers: it runs where it didn't yet.
    fn run<H: Host + Drop>(
        &mut self,
        alloc: Global,
        place: &mut InFolder<H>,
    ) -> Result<Output, Memory>
        ensures ok { IfOk result (λ output. OutputOf self.old.output self.old output) }
        ensures same { SameBut self.old self.new }
    {
        match self.output.take() {
            Some(output) => Ok(output),
            None => answer(alloc, self.tool, &self.command, &self.input, place),
        }
    }
}
