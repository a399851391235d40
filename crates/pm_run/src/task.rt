//! A process that is to be run, from its rcfiles on.
ghost use Rattle.std.specs.Prelude.{◌≡◌, true, [], map, reverse, Some, None};
ghost use Rattle.pm_meaning.specs.Apart.{bare, state_of};
ghost use Rattle.pm_meaning.specs.Minds.{mind_of};
ghost use Rattle.pm_run.specs.Nested.{are_nested, frame_of};

use crate::frames::RcFrame;
use pm_bytes::Name;
use pm_meaning::{Mind, Opening, Process};
use std::mem;

/// A copy of a process that waits for the end of the one that runs. It holds no lock.
#[derive(Drop)]
pub struct Copy {
    pub frames: Vec<RcFrame>,
    pub process: Process,
    ghost free: { process.locks.names ≡ [] },
    ghost nested: { are_nested (map frame_of frames.items) ≡ true },
}

/// A process that is to be run: the rcfiles in progress, the innermost first; how the first one is opened, if none is
/// in progress yet; and the state of the process. It keeps the name of the rcfile in progress too.
#[derive(Drop)]
pub struct Task {
    pub(crate) frames: Vec<RcFrame>,
    pub(crate) opening: Option<Opening>,
    pub(crate) mind: Mind,
    pub(crate) rcfile: Name,
    ghost nested: { are_nested (map frame_of frames.items) ≡ true },
}

impl Task {
    /// The first process of a run, of which no rcfile is in progress. It takes no memory.
    pub fn first(mind: Mind, opening: Opening) -> Task
        ensures frames { result.frames.items ≡ [] }
        ensures opening { result.opening ≡ Some opening }
        ensures mind { result.mind ≡ mind }
        ensures rcfile { result.rcfile ≡ [] }
    {
        let alloc = *mind.rcfiles.allocator();
        Task {
            frames: Vec::new(alloc),
            opening: Some(opening),
            mind,
            rcfile: Name::from_text(String::new(alloc)),
        }
    }

    /// The rcfiles in progress, the innermost first. A task of [`Task::first`] has none. It takes no memory.
    pub fn frames(&self) -> &[RcFrame]
        ensures { result.now ≡ self.now.frames.items }
    {
        self.frames.as_slice()
    }
}

/// A copy of a process, with these rcfiles in progress.
pub fn task_for(frames: Vec<RcFrame>, mut process: Process) -> Task
    requires nested { are_nested (map frame_of frames.items) ≡ true }
    ensures frames { result.frames ≡ frames }
    ensures opening { result.opening ≡ None }
    ensures mind { state_of result.mind process.host_name process.placed ≡ bare (mind_of process) }
    ensures rcfiles { result.mind.rcfiles.items ≡ reverse process.later.items }
    ensures rcfile { result.rcfile ≡ process.rcfile }
    ensures locks { result.mind.locks ≡ process.locks }
{
    let alloc = *process.later.allocator();
    let rcfile = mem::replace(&mut process.rcfile, Name::from_text(String::new(alloc)));
    Task {
        frames,
        opening: None,
        mind: Mind::of(process),
        rcfile,
    }
}
