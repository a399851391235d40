//! A host for trying a run, made of a tree that is only read and of given answers for programs.
ghost use Rattle.std.specs.Prelude.{◌≡◌, ◌≤◌};
ghost use Rattle.pm_host.specs.Told.{Rose};

use crate::Base;
use crate::programs::{Given, Programs};
use crate::tree::Tree;
use pm_host::Child;
use std::alloc::Global;

/// A host for trying a run. What it changes stays in memory, `sleep` moves its own time alone, programs have given
/// answers, and others don't act.
#[derive(Drop)]
pub struct Overlay<B: Base + Drop> {
    pub(crate) alloc: Global,
    pub(crate) tree: Tree<B>,
    pub(crate) programs: Programs,
    pub(crate) child: Child,
    pub(crate) faults: u64,
}

impl<B: Base + Drop> Overlay<B> {
    /// Nothing is changed yet. It takes no memory.
    pub fn new(alloc: Global, base: B, given: Vec<Given>) -> Overlay<B>
        ensures child { result.child ≡ Child.NoChild }
        ensures faults { result.faults ≡ 0 }
        ensures base { result.tree.base ≡ base }
    {
        Overlay {
            alloc,
            tree: Tree::new(alloc, base),
            programs: Programs::new(alloc, given),
            child: Child::NoChild,
            faults: 0,
        }
    }

    pub(crate) fn count_fault(&mut self)
        ensures rose { Rose self.old.faults self.new.faults }
        ensures later { self.old.faults ≤ self.new.faults }
        ensures tree { self.new.tree ≡ self.old.tree }
        ensures child { self.new.child ≡ self.old.child }
        ensures programs { self.new.programs ≡ self.old.programs }
    {
        self.faults = self.faults.saturating_add(1);
    }
}
