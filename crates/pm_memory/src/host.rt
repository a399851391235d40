//! A tree of files in memory that takes the calls of a host, fails and limits those that it is told to, and lists
//! each call with its answer.
ghost use Rattle.std.specs.Prelude.{◌≡◌, ◌≤◌, ◌++◌, ◌∷◌, [], IfOk, OnOk, OnErr, Some, option_copied};
ghost use Rattle.pm_memory.specs.Node.{a_file, file_bytes};

use crate::calls::Calls;
use crate::plan::Plan;
use crate::tree::Tree;
use pm_bytes::{Blob, Memory};
use pm_host::{Change, ChildInput, File, Logged, Node, Script};
use std::alloc::Global;

/// A tree of files in memory. A name's parents aren't looked at. Its calls are numbered from 1. Where memory lacks
/// for what others change, they change no more then.
#[derive(Drop)]
pub struct MemoryHost {
    pub(crate) alloc: Global,
    pub(crate) tree: Tree,
    pub(crate) plan: Plan,
    pub(crate) calls: Calls,
}

impl MemoryHost {
    ghost use Rattle.pm_memory.specs.Host.{IsFresh, IsPut, world_of, plan_of, record_of};
    ghost use Rattle.pm_memory.specs.Host.{failing_of, limits_of, calls_of, starved_of};
    ghost use Rattle.pm_memory.specs.Host.{IsToCome, IsScripted, child_of};

    /// No files, at a moment in seconds since 1970, with a list that is reserved for so many calls: past them the
    /// host tells nothing.
    pub fn new(alloc: Global, moment: i64, calls: u64) -> Result<MemoryHost, Memory>
        ensures { IfOk result (λ host. IsFresh moment calls host) }
    {
        Ok(MemoryHost {
            alloc,
            tree: Tree::new(alloc, moment),
            plan: Plan::new(alloc),
            calls: Calls::new(alloc, calls)?,
        })
    }

    /// Puts a file that was made at a moment, whatever stands at the name.
    pub fn put_file(&mut self, name: &str, bytes: &[u8], made: i64) -> Result<(), Memory>
        ensures ok { OnOk result (IsPut name.now (a_file bytes.now made) self.old self.new) }
        ensures err { OnErr result (world_of self.new ≡ world_of self.old) }
        ensures plan { plan_of self.new ≡ plan_of self.old }
        ensures calls { record_of self.new ≡ record_of self.old }
        ensures child { child_of self.new ≡ child_of self.old }
    {
        let bytes = Blob::from_slice(self.alloc, bytes)?;
        self.tree.put(name, Node::File(File { bytes, made }))
    }

    /// Puts a folder, whatever stands at the name.
    pub fn put_folder(&mut self, name: &str) -> Result<(), Memory>
        ensures ok { OnOk result (IsPut name.now (Some Node.Folder) self.old self.new) }
        ensures err { OnErr result (world_of self.new ≡ world_of self.old) }
        ensures plan { plan_of self.new ≡ plan_of self.old }
        ensures calls { record_of self.new ≡ record_of self.old }
        ensures child { child_of self.new ≡ child_of self.old }
    {
        self.tree.put(name, Node::Folder)
    }

    /// The call with this number is to fail, unless it asks the moment or sleeps.
    pub fn fail(&mut self, call: u64) -> Result<(), Memory>
        ensures ok { OnOk result (failing_of self.new ≡ failing_of self.old ++ call ∷ []) }
        ensures err { OnErr result (failing_of self.new ≡ failing_of self.old) }
        ensures limits { limits_of self.new ≡ limits_of self.old }
        ensures world { world_of self.new ≡ world_of self.old }
        ensures calls { record_of self.new ≡ record_of self.old }
        ensures child { child_of self.new ≡ child_of self.old }
    {
        self.plan.fail(call)
    }

    /// An `append` or a `feed` with this number takes at most so many bytes, and memory is wanting to a `names` with
    /// this number for more names than that; of several limits the least holds.
    pub fn limit(&mut self, call: u64, most: usize) -> Result<(), Memory>
        requires { 1 ≤ most }
        ensures ok { OnOk result (limits_of self.new ≡ limits_of self.old ++ (call, most) ∷ []) }
        ensures err { OnErr result (limits_of self.new ≡ limits_of self.old) }
        ensures failing { failing_of self.new ≡ failing_of self.old }
        ensures world { world_of self.new ≡ world_of self.old }
        ensures calls { record_of self.new ≡ record_of self.old }
        ensures child { child_of self.new ≡ child_of self.old }
    {
        self.plan.limit(call, most)
    }

    /// Others will make these changes, one after the other, in the first `sleep` or `finish` after those that are
    /// for the batches given before. In a sleep a file is made at the moment after it.
    pub fn batch(&mut self, changes: Vec<Change>) -> Result<(), Memory>
        ensures ok { OnOk result (IsToCome changes.items self.old self.new) }
        ensures err { OnErr result (world_of self.new ≡ world_of self.old) }
        ensures plan { plan_of self.new ≡ plan_of self.old }
        ensures calls { record_of self.new ≡ record_of self.old }
        ensures child { child_of self.new ≡ child_of self.old }
    {
        self.tree.add_batch(changes)
    }

    /// A child after those that were given before will do this. A code that says `Failed` stands for 0.
    pub fn child(&mut self, script: Script) -> Result<(), Memory>
        ensures ok { OnOk result (IsScripted script self.old self.new) }
        ensures err { OnErr result (world_of self.new ≡ world_of self.old) }
        ensures plan { plan_of self.new ≡ plan_of self.old }
        ensures calls { record_of self.new ≡ record_of self.old }
        ensures child { child_of self.new ≡ child_of self.old }
    {
        self.tree.programs.add(script)
    }

    /// The bytes of the file at the name; `None` where a folder or nothing stands there.
    pub fn file(&self, name: &str) -> Option<&[u8]>
        ensures { option_copied result ≡ file_bytes ((world_of self.now).nodes name.now) }
    {
        self.tree.file(name)
    }

    /// Each call that was made, with its answer. What came after the host told no more is not among them.
    pub fn calls(&self) -> &[Logged]
        ensures { result.now ≡ calls_of self.now }
    {
        self.calls.list()
    }

    /// Each child that was started, with the bytes that it took.
    pub fn inputs(&self) -> &[ChildInput]
        ensures { result.now ≡ (world_of self.now).inputs }
    {
        self.tree.programs.inputs()
    }

    /// How many calls lacked memory.
    pub fn starved(&self) -> u64
        ensures { result ≡ starved_of self.now }
    {
        self.calls.starved()
    }
}
