//! The children of a host in memory: what they will do, and what they took.
ghost use Rattle.std.specs.Prelude.{◌≡◌, ◌≢◌, ◌≤◌, ◌++◌, ◌∷◌, [], OnOk, OnErr, IfSome, length, drop, take};
ghost use Rattle.pm_memory.specs.Scripts.{next_script, silent_script};

use crate::part::copy_part;
use pm_bytes::{Blob, Memory};
use pm_host::{Child, ChildInput, Command, Finished, Script};
use std::alloc::Global;
use std::collections::VecDeque;

/// The scripts that weren't used yet, the children that were started, and what the last of them does.
#[derive(Drop)]
pub(crate) struct Programs {
    scripts: VecDeque<Script>,
    inputs: Vec<ChildInput>,
    script: Script,
    // whether its output is kept, and how much of it was given
    kept: bool,
    given: usize,
    child: Child,
    ghost within: { given ≤ length script.output },
}

impl Programs {
    ghost use Rattle.pm_memory.specs.Programs.{children_in, inputs_in, child_in, left_in, Starts, Fills, Stays};

    pub(crate) fn new(alloc: Global) -> Programs
        ensures children { children_in result ≡ [] }
        ensures inputs { inputs_in result ≡ [] }
        ensures child { child_in result ≡ Child.NoChild }
    {
        Programs {
            scripts: VecDeque::new(alloc),
            inputs: Vec::new(alloc),
            script: silent(alloc),
            kept: false,
            given: 0,
            child: Child::NoChild,
        }
    }

    pub(crate) fn inputs(&self) -> &[ChildInput]
        ensures { result.now ≡ inputs_in self.now }
    {
        self.inputs.as_slice()
    }

    /// A child after those that are there.
    pub(crate) fn add(&mut self, script: Script) -> Result<(), Memory>
        ensures ok { OnOk result (children_in self.new ≡ children_in self.old ++ script ∷ []) }
        ensures err { OnErr result (children_in self.new ≡ children_in self.old) }
        ensures inputs { inputs_in self.new ≡ inputs_in self.old }
        ensures child { child_in self.new ≡ child_in self.old }
    {
        self.scripts.push_back(script)?;
        Ok(())
    }

    /// Starts a child, which does what the next script says.
    pub(crate) fn start(
        &mut self,
        alloc: Global,
        command: &Command,
        want: bool,
    ) -> Result<(), Memory>
        ensures ok { OnOk result (Starts command.now want self.old self.new) }
        ensures err { OnErr result (Stays self.old self.new) }
        ensures child { OnErr result (child_in self.new ≡ child_in self.old) }
    {
        let command = command.copy(alloc)?;
        let bytes = Blob::empty(alloc);
        self.inputs.push(ChildInput { command, bytes })?;
        self.use_next(alloc);
        self.kept = want;
        self.child = Child::Feeding;
        Ok(())
    }

    fn use_next(&mut self, alloc: Global)
        ensures children { children_in self.new ≡ drop 1 (children_in self.old) }
        ensures script { self.new.script ≡ next_script (children_in self.old) }
        ensures given { self.new.given ≡ 0 }
        ensures inputs { inputs_in self.new ≡ inputs_in self.old }
        ensures child { child_in self.new ≡ child_in self.old }
    {
        self.given = 0;
        self.script = match self.scripts.pop_front() {
            Some(script) => script,
            None => silent(alloc),
        };
    }

    /// How many of so many bytes the last child takes; None where it takes no more.
    pub(crate) fn room(&self, most: usize) -> Option<usize>
        requires { 1 ≤ most }
        ensures some { IfSome result (λ count. 1 ≤ count) }
        ensures within { IfSome result (λ count. count ≤ most) }
    {
        let Some(after) = self.script.closes_after else {
            return Some(most);
        };
        let taken = match self.inputs.last() {
            Some(input) => input.bytes.len() as u64,
            None => 0,
        };
        if after <= taken {
            return None;
        }
        let left = usize::try_from(after - taken).unwrap_or(usize::MAX);
        Some(most.min(left))
    }

    /// The last child takes these bytes.
    pub(crate) fn feed(&mut self, more: &[u8]) -> Result<(), Memory>
        ensures ok { OnOk result (Fills more.now self.old self.new) }
        ensures err { OnErr result (Stays self.old self.new) }
        ensures child { child_in self.new ≡ child_in self.old }
    {
        let Some(mut input) = self.inputs.pop() else {
            return Ok(());
        };
        let fed = input.bytes.push_slice(more);
        self.inputs.push_reserved(input);
        fed
    }

    /// The last child's output is asked for.
    pub(crate) fn ask(&mut self)
        ensures stays { Stays self.old self.new }
        ensures child { child_in self.new ≡ Child.Taking }
    {
        self.child = Child::Taking;
    }

    /// The next bytes of the last child's output, into the front of the room.
    pub(crate) fn take(&mut self, room: &mut [u8]) -> usize
        ensures came { take result room.new ≡ take (length room.old) (left_in self.old) }
        ensures within { result ≤ length room.old }
        ensures children { children_in self.new ≡ children_in self.old }
        ensures inputs { inputs_in self.new ≡ inputs_in self.old }
        ensures child { child_in self.new ≡ Child.Taking }
    {
        self.child = Child::Taking;
        if !self.kept {
            return 0;
        }
        let count = copy_part(self.script.output.as_slice(), self.given as u64, room);
        self.given += count;
        count
    }

    /// The last child's end.
    pub(crate) fn finish(&mut self) -> Finished
        ensures stays { Stays self.old self.new }
        ensures child { child_in self.new ≡ Child.NoChild }
        ensures found { result ≢ Finished.Failed }
    {
        self.child = Child::NoChild;
        match self.script.code {
            Finished::Code(code) => Finished::Code(code),
            Finished::Signal(signal) => Finished::Signal(signal),
            Finished::Failed => Finished::Code(0),
        }
    }
}

// A child that takes all its input, gives no output and ends with code 0.
fn silent(alloc: Global) -> Script
    ensures { result ≡ silent_script }
{
    Script {
        code: Finished::Code(0),
        closes_after: None,
        output: Blob::empty(alloc),
    }
}
