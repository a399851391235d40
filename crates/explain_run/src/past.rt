//! A program that was started in an earlier run, and ends as it did then.
ghost use Rattle.std.specs.Prelude.{◌≡◌, ◌<◌, IfOk, length};
ghost use Rattle.pm_host.specs.Answers.{IsWithin};
ghost use Rattle.pm_host.specs.World.{FedAtMost};

use pm_bytes::Memory;
use pm_host::{Fed, Got, Source};
use pm_journal::Reply;
use pm_memory::MemorySource;
use std::alloc::Global;

/// The code with which it ends, how many bytes it still takes, and what is left of its output.
#[derive(Drop)]
pub(crate) struct Past {
    pub(crate) code: u8,
    pub(crate) takes: u64,
    pub(crate) output: MemorySource,
}

impl Past {
    ghost use Rattle.explain_run.specs.Scripts.{IsPast};
    ghost use Rattle.explain_run.specs.Calls.{FeedsAgain, TakesAgain};

    /// A program that ended with this reply; one that wasn't started isn't one.
    pub(crate) fn new(alloc: Global, reply: &Reply) -> Result<Option<Past>, Memory>
        ensures { IfOk result (IsPast reply.now) }
    {
        match reply {
            Reply::Ended { code, took, output } => Ok(Some(Past {
                code: *code,
                takes: *took,
                output: MemorySource::new(alloc, output.as_slice(), None)?,
            })),
            _ => Ok(None),
        }
    }

    /// It takes the next bytes of so many, as far as it did then.
    pub(crate) fn feed(&mut self, count: usize) -> Fed
        requires { 0 < count }
        ensures feeds { FeedsAgain count result self.old self.new }
        ensures within { FedAtMost count result }
    {
        if self.takes == 0 {
            return Fed::Closed;
        }
        let taken = (count as u64).min(self.takes);
        self.takes -= taken;
        Fed::Took(taken as usize)
    }

    /// The next bytes of its output, into the front of the room.
    pub(crate) fn take(&mut self, room: &mut [u8]) -> Got
        requires { 0 < length room.old }
        ensures takes { TakesAgain (length room.old) result room.new self.old self.new }
        ensures within { IsWithin result (length room.old) }
    {
        self.output.read(room)
    }
}
