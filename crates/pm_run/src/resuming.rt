//! A task's rcfiles, as those of a process that runs.
ghost use Rattle.std.specs.Prelude.{◌≡◌, true, ◌∷◌, map, IfOk};
ghost use Rattle.pm_run.specs.Nested.{are_nested, goes_back, frame_of, frames_in, frames_if, name_first, outer_frames};

use crate::frames::{Frames, Open, RcFrame, Waiting};
use pm_bytes::{Memory, Name};
use std::alloc::Global;
use std::collections::VecDeque;

/// These rcfiles, of which the first one is in progress and the others wait; or none.
pub fn resume(alloc: Global, mut frames: Vec<RcFrame>) -> Result<Option<Frames>, Memory>
    requires nested { are_nested (map frame_of frames.items) ≡ true }
    ensures { IfOk result (λ running. frames_if running ≡ map frame_of frames.items) }
{
    let mut running = None;
    while let Some(frame) = frames.pop() {
        running = Some(within(alloc, running, frame)?);
    }
    Ok(running)
}

// The rcfile goes on, and the one that ran waits for its end.
fn within(alloc: Global, running: Option<Frames>, frame: RcFrame) -> Result<Frames, Memory>
    requires { goes_back frame.back (frames_if running) ≡ true }
    ensures { IfOk result (λ inner. frames_in inner ≡ frame_of frame ∷ frames_if running) }
{
    let RcFrame {
        code,
        place,
        blocks,
        back,
    } = frame;
    let outer = outer_of(alloc, running, back)?;
    match queued(alloc, blocks) {
        Ok(blocks) => Ok(Frames {
            code,
            place,
            blocks,
            outer,
        }),
        Err(Memory) => {
            drop(outer);
            Err(Memory)
        }
    }
}

// What waits for the end of an rcfile at which this one comes back.
fn outer_of(
    alloc: Global,
    running: Option<Frames>,
    back: Option<Name>,
) -> Result<VecDeque<Waiting>, Memory>
    requires { goes_back back (frames_if running) ≡ true }
    ensures first { IfOk result (λ outer. name_first outer.items ≡ back) }
    ensures frames { IfOk result (λ outer. outer_frames outer.items ≡ frames_if running) }
{
    match running {
        None => Ok(VecDeque::new(alloc)),
        Some(running) => match back {
            None => unreachable!(),
            Some(name) => {
                let Frames {
                    code,
                    place,
                    blocks,
                    mut outer,
                } = running;
                let waiting = Waiting {
                    name,
                    code,
                    place,
                    blocks,
                };
                outer.push_front(waiting)?;
                Ok(outer)
            }
        },
    }
}

// The blocks, the innermost first.
fn queued(alloc: Global, mut blocks: Vec<Open>) -> Result<VecDeque<Open>, Memory>
    ensures { IfOk result (λ queue. queue.items ≡ blocks.items) }
{
    let mut queue = VecDeque::new(alloc);
    while let Some(block) = blocks.pop() {
        queue.push_front(block)?;
    }
    Ok(queue)
}
