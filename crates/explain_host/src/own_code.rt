//! A host on which formail and lockfile are answered by their own code.
ghost use Rattle.std.specs.Prelude.{◌≡◌, ◌≤◌, IfOk, None};
ghost use Rattle.pm_host.specs.Told.{Makes, Rose};
ghost use Rattle.explain_host.specs.Tools.{code_for, lines_of};
ghost use Rattle.explain_host.specs.Started.{StartsProgram};

use crate::in_folder::InFolder;
use crate::program::Program;
use pm_bytes::{Blob, Memory, Name};
use pm_host::{Answer, Call, Child, Command, Host, Started};
use pm_overlay::{Given, is_answered, tool_of};
use std::alloc::Global;

/// A host on which a command of formail or lockfile is answered by the program's own code over the files of another
/// host, unless that has an answer for the command's line. It leaves all other calls to that host. Where a shell runs
/// the line, the program is the shell.
#[derive(Drop)]
pub struct OwnCode<H: Host + Drop> {
    pub(crate) answered: Vec<Blob>,
    pub(crate) place: InFolder<H>,
    pub(crate) program: Option<Program>,
    pub(crate) child: Child,
    pub(crate) faults: u64,
}

impl<H: Host + Drop> OwnCode<H> {
    /// No program runs. The lines are those of the commands that the host has answers for.
    pub fn new(alloc: Global, host: H, answered: Vec<Blob>) -> Result<OwnCode<H>, Memory>
        requires { (H.told host).child ≡ Child.NoChild }
        ensures child { IfOk result (λ own. (H.told own.place.host).child ≡ Child.NoChild) }
        ensures program { IfOk result (λ own. own.program ≡ None) }
        ensures host { IfOk result (λ own. own.place.host ≡ host) }
        ensures answered { IfOk result (λ own. own.answered ≡ answered) }
    {
        let folder = Name::from_text(String::from_str(alloc, ".")?);
        Ok(OwnCode {
            answered,
            place: InFolder {
                alloc,
                host,
                folder,
                child: Child::NoChild,
                faults: 0,
            },
            program: None,
            child: Child::NoChild,
            faults: 0,
        })
    }

    pub(crate) fn count_fault(&mut self)
        ensures rose { Rose self.old.faults self.new.faults }
        ensures later { self.old.faults ≤ self.new.faults }
        ensures place { self.new.place ≡ self.old.place }
        ensures program { self.new.program ≡ self.old.program }
        ensures child { self.new.child ≡ self.old.child }
        ensures answered { self.new.answered ≡ self.old.answered }
    {
        self.faults = self.faults.saturating_add(1);
    }

    /// The program of the command, where its own code answers.
    pub(crate) fn program_of(&self, command: &Command) -> Result<Option<Program>, Memory>
        ensures { IfOk result (StartsProgram (code_for self.now.answered.items command.now) command.now) }
    {
        let alloc = self.place.alloc;
        match tool_of(&command.program) {
            Some(tool) if !is_answered(alloc, self.answered.as_slice(), command)? => {
                Ok(Some(Program::new(alloc, tool, command)?))
            }
            _ => Ok(None),
        }
    }

    /// The program is one of the host below.
    pub(crate) fn start_below(&mut self, command: &Command, want: bool) -> Started
        ensures below { Makes (Call.Start command.now want) (Answer.Start result)
            (H.told self.old.place.host) (H.told self.new.place.host) }
        ensures started { result ≡ Started.Started → self.new.program ≡ None }
        ensures failed { result ≡ Started.Failed → self.new.program ≡ self.old.program }
        ensures rose { result ≡ Started.Failed → Rose self.old.faults self.new.faults }
        ensures later { self.old.faults ≤ self.new.faults }
        ensures child { self.new.child ≡ self.old.child }
    {
        let answer = self.place.host.start(command, want);
        match answer {
            Started::Started => self.program = None,
            Started::Failed => self.count_fault(),
        }
        answer
    }
}

/// The lines of some answers.
pub fn lines_of(alloc: Global, given: &[Given]) -> Result<Vec<Blob>, Memory>
    ensures { IfOk result (λ lines. lines.items ≡ lines_of given.now) }
{
    let mut lines = Vec::new(alloc);
    for one in given {
        lines.push(one.line.copy(alloc)?)?;
    }
    Ok(lines)
}
