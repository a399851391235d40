//! Copies of a process for blocks with the flag c (procmailrc(5), "Flags").
ghost use Rattle.std.specs.Prelude.{◌≡◌, ◌<◌, List, [], drop, map, IfOk};
ghost use Rattle.pm_code.specs.Ahead.{lists_of, others};
ghost use Rattle.pm_meaning.specs.Blocks.{begun_block};
ghost use Rattle.pm_meaning.specs.Minds.{mind_of};
ghost use Rattle.pm_meaning.specs.Running.{Item, clone_of, copied};
ghost use Rattle.pm_run.specs.Frames.{items_of, steps_of, weave};
ghost use Rattle.pm_run.specs.declared.frames.Open.{Open as OpenBlock};
ghost use Rattle.pm_run.specs.Copies.{task_of, block_at, unlocked_block, unlocked_frame, entered_frame, copied_frames};
ghost use Rattle.pm_run.specs.Nested.{frame_of, frame_in, frames_in, frame_waiting, name_first, outer_frames};

use crate::frames::{Frames, Open, RcFrame, Waiting};
use crate::task::Copy;
use pm_bytes::{Memory, Name};
use pm_journal::HeldLocks;
use pm_meaning::{Chain, Process, Stored, new_chain};
use pm_message::Mail;
use pm_vars::Vars;
use std::alloc::Global;
use std::collections::VecDeque;

/// The copy of a process that runs the block whose first statement stands at this place, and goes on as the process
/// does after the block, where that stands now. It holds no lock, and gives none back.
pub fn copy_for_block(
    alloc: Global,
    place: usize,
    frame: &Frames,
    process: &Process,
) -> Result<Copy, Memory>
    requires begun { 0 < place }
    requires behind { (blocks : List OpenBlock) (rest : List Item) →
        weave (others (lists_of (drop place (steps_of frame.now)))) blocks rest
        ≡ weave (lists_of (drop frame.now.place (steps_of frame.now))) blocks rest }
    ensures task { IfOk result (λ copy. task_of copy
        ≡ clone_of (block_at place frame.now) (items_of frame.now) (mind_of process.now)) }
    ensures frames { IfOk result (λ copy. map frame_of copy.frames.items
        ≡ copied_frames place process.now.chain (frames_in frame.now)) }
{
    let frames = copy_frames(alloc, place, process.chain, frame)?;
    match copy_process(alloc, process) {
        Ok(process) => Ok(Copy { frames, process }),
        Err(Memory) => {
            drop(frames);
            Err(Memory)
        }
    }
}

// The rcfiles, of which the first one stands at the place, in a block whose recipe has this chain.
fn copy_frames(
    alloc: Global,
    place: usize,
    chain: Chain,
    frame: &Frames,
) -> Result<Vec<RcFrame>, Memory>
    requires begun { 0 < place }
    ensures { IfOk result (λ copies. map frame_of copies.items ≡ copied_frames place chain (frames_in frame.now)) }
{
    let first = copy_first(alloc, place, chain, frame)?;
    match copy_outer(alloc, &frame.outer) {
        Ok(mut frames) => {
            frames.insert(0, first)?;
            Ok(frames)
        }
        Err(Memory) => {
            drop(first);
            Err(Memory)
        }
    }
}

// The one in progress.
fn copy_first(alloc: Global, place: usize, chain: Chain, frame: &Frames) -> Result<RcFrame, Memory>
    requires begun { 0 < place }
    ensures { IfOk result (λ copy. frame_of copy ≡ entered_frame place chain (frame_in frame.now)) }
{
    let code = frame.code.copy(alloc)?;
    let back = name_at(alloc, &frame.outer, 0)?;
    let mut blocks = copy_blocks(alloc, &frame.blocks)?;
    let block = Open {
        enter: place - 1,
        saved: chain,
        lock: None,
    };
    blocks.insert(0, block)?;
    Ok(RcFrame {
        code,
        place,
        blocks,
        back,
    })
}

// The name of the one that waits there.
fn name_at(alloc: Global, outer: &VecDeque<Waiting>, index: usize) -> Result<Option<Name>, Memory>
    ensures { IfOk result (λ name. name ≡ name_first (drop index outer.now.items)) }
{
    if index < outer.len() {
        Ok(Some(outer[index].name.copy(alloc)?))
    } else {
        Ok(None)
    }
}

// The blocks, with no lock.
fn copy_blocks(alloc: Global, blocks: &VecDeque<Open>) -> Result<Vec<Open>, Memory>
    ensures { IfOk result (λ copies. copies.items ≡ map unlocked_block blocks.now.items) }
{
    let mut copies = Vec::new(alloc);
    for index in 0..blocks.len() {
        let block = Open {
            enter: blocks[index].enter,
            saved: blocks[index].saved,
            lock: None,
        };
        copies.push(block)?;
    }
    Ok(copies)
}

// The rcfiles that wait, with no lock.
fn copy_outer(alloc: Global, outer: &VecDeque<Waiting>) -> Result<Vec<RcFrame>, Memory>
    ensures { IfOk result (λ copies. map frame_of copies.items ≡ map unlocked_frame (outer_frames outer.now.items)) }
{
    let mut copies = Vec::new(alloc);
    let mut index = outer.len();
    while index > 0 {
        let back = name_at(alloc, outer, index)?;
        index -= 1;
        let copy = copy_waiting(alloc, &outer[index], back)?;
        copies.insert(0, copy)?;
    }
    Ok(copies)
}

// One that waits, at whose end the rcfile of this name comes back.
fn copy_waiting(alloc: Global, waiting: &Waiting, back: Option<Name>) -> Result<RcFrame, Memory>
    ensures { IfOk result (λ copy. frame_of copy ≡ unlocked_frame (frame_waiting waiting.now back)) }
{
    match copy_blocks(alloc, &waiting.blocks) {
        Ok(blocks) => Ok(RcFrame {
            code: waiting.code.copy(alloc)?,
            place: waiting.place,
            blocks,
            back,
        }),
        Err(Memory) => {
            drop(back);
            Err(Memory)
        }
    }
}

// The process as it begins a block, with no lock, and the same rcfiles of the command line left.
fn copy_process(alloc: Global, process: &Process) -> Result<Process, Memory>
    ensures mind { IfOk result (λ copy. mind_of copy ≡ begun_block (copied (mind_of process.now))) }
    ensures free { IfOk result (λ copy. copy.locks.names ≡ []) }
{
    let places = copy_places(alloc, process)?;
    match copy_contents(alloc, process) {
        Ok((message, vars)) => Ok(Process {
            filter: process.filter,
            fails_softly: process.fails_softly,
            message,
            vars,
            base: places.base,
            host_name: places.host_name,
            locks: HeldLocks::new(alloc),
            global: None,
            chain: new_chain(),
            placed: process.placed,
            rcfile: places.rcfile,
            openings: process.openings,
            is_clone: true,
            later: places.later,
            stored: places.stored,
        }),
        // A call drops it, whose proof is kept: at the end of a block each field's drop is proved anew.
        Err(Memory) => {
            drop(places);
            Err(Memory)
        }
    }
}

// The names in a process, and where its mail was last delivered to.
#[derive(Drop)]
struct Places {
    base: Name,
    host_name: Name,
    rcfile: Name,
    later: Vec<Name>,
    stored: Stored,
}

fn copy_places(alloc: Global, process: &Process) -> Result<Places, Memory>
    ensures base { IfOk result (λ copy. copy.base ≡ process.now.base) }
    ensures host { IfOk result (λ copy. copy.host_name ≡ process.now.host_name) }
    ensures rcfile { IfOk result (λ copy. copy.rcfile ≡ process.now.rcfile) }
    ensures later { IfOk result (λ copy. copy.later.items ≡ process.now.later.items) }
    ensures stored { IfOk result (λ copy. copy.stored ≡ process.now.stored) }
{
    let base = process.base.copy(alloc)?;
    let host_name = process.host_name.copy(alloc)?;
    let rcfile = process.rcfile.copy(alloc)?;
    let later = copy_names(alloc, process.later.as_slice())?;
    let stored = copy_stored(alloc, &process.stored)?;
    Ok(Places {
        base,
        host_name,
        rcfile,
        later,
        stored,
    })
}

// The mail and the variables.
fn copy_contents(alloc: Global, process: &Process) -> Result<(Mail, Vars), Memory>
    ensures mail { IfOk result (λ copy. copy.0 ≡ process.now.message) }
    ensures vars { IfOk result (λ copy. copy.1 ≡ process.now.vars) }
{
    let vars = process.vars.copy(alloc)?;
    match process.message.copy(alloc) {
        Ok(message) => Ok((message, vars)),
        Err(Memory) => {
            drop(vars);
            Err(Memory)
        }
    }
}

// The names, in order.
fn copy_names(alloc: Global, names: &[Name]) -> Result<Vec<Name>, Memory>
    ensures { IfOk result (λ copies. copies.items ≡ names.now) }
{
    let mut copies = Vec::new(alloc);
    for index in 0..names.len() {
        copies.push(names[index].copy(alloc)?)?;
    }
    Ok(copies)
}

fn copy_stored(alloc: Global, stored: &Stored) -> Result<Stored, Memory>
    ensures { IfOk result (λ copy. copy ≡ stored.now) }
{
    let folder = stored.folder.copy(alloc)?;
    Ok(Stored {
        folder,
        size: stored.size,
    })
}
