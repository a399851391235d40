//! The run of a program, done and noted.
ghost use Rattle.std.specs.Prelude.{◌≡◌, ◌<◌, true, IfOk, OnErr};
ghost use Rattle.pm_host.specs.Streams.{StreamView};
ghost use Rattle.pm_journal.specs.Acts.{NotesRun, LeavesAct};
ghost use Rattle.pm_journal.specs.Entries.{view_of};
ghost use Rattle.pm_journal.specs.Outcomes.{run_end};
ghost use Rattle.pm_journal.specs.declared.acts.Act.TheVariants.{Run};
ghost use Rattle.pm_pipe.specs.Replied.{AreReply, counts_with};
ghost use Rattle.pm_pipe.specs.Runs.{child_reply};

use crate::{ChildEnd, run_child};
use pm_bytes::{Blob, Memory};
use pm_host::{Command, Host};
use pm_journal::{Act, Counts, Entries, Entry, Journal, Reply, RunEnd};
use std::alloc::Global;

/// The counts of faults of a run's two sinks, which the run of a program doesn't touch.
#[derive(Clone, Copy)]
pub struct SinkFaults {
    pub out: u64,
    pub err: u64,
}

/// Runs a program as `run_child` does, and notes it. The journal's last entry then has its output, where that is
/// wanted. After want of memory nothing is noted, and the program was waited for; without a wanted output there is
/// none.
pub fn run_noted<H: Host, K: Entries>(
    alloc: Global,
    host: &mut H,
    journal: &mut Journal<K>,
    command: Command,
    input: Blob,
    want: bool,
    sinks: SinkFaults,
) -> Result<RunEnd, Memory>
    requires { 0 < journal.old.room }
    ensures ok { (out err : StreamView) → out.faults ≡ sinks.out → err.faults ≡ sinks.err →
        IfOk result (λ end. NotesRun command input want end journal.old journal.new
        (view_of (H.told host.old) out err) (view_of (H.told host.new) out err)) }
    ensures wanted { OnErr result (want ≡ true) }
    ensures left { (out err : StreamView) → OnErr result (LeavesAct (Run command input want)
        (view_of (H.told host.old) out err) (view_of (H.told host.new) out err)) }
    ensures same { OnErr result (journal.new ≡ journal.old) }
{
    let before = counts(host, sinks);
    let end = run_child(alloc, host, &command, input.as_slice(), want);
    let reply = child_reply_of(end)?;
    let end = run_end_of(&reply);
    let after = counts(host, sinks);
    journal.note(Entry {
        act: Act::Run {
            command,
            input,
            want,
        },
        reply,
        before,
        after,
    });
    Ok(end)
}

fn counts<H: Host>(host: &H, sinks: SinkFaults) -> Counts
    ensures { result ≡ counts_with sinks (H.told host.now) }
{
    Counts {
        host: host.faults(),
        out: sinks.out,
        err: sinks.err,
    }
}

// The reply of the run of a program, unless memory was wanting.
fn child_reply_of(end: ChildEnd) -> Result<Reply, Memory>
    ensures { AreReply (child_reply end) result }
{
    match end {
        ChildEnd::Ended {
            code,
            took,
            mut output,
        } => {
            share_ended(&mut output);
            Ok(Reply::Ended { code, took, output })
        }
        ChildEnd::NotStarted => Ok(Reply::NotStarted),
        ChildEnd::Broken { took } => Ok(Reply::Broken { took }),
        ChildEnd::TooLong(count) => Ok(Reply::TooLong(count)),
        ChildEnd::Memory => Err(Memory),
    }
}

// The newlines that end a mail in a mailbox are put after the output in its memory, which copies share from now on. If
// memory runs out for that, each copy has its own.
fn share_ended(output: &mut Blob)
    ensures { output.new ≡ output.old }
{
    let length = output.len();
    let _ = output.push_slice(b"\n\n");
    let _ = output.share();
    output.truncate(length);
}

fn run_end_of(reply: &Reply) -> RunEnd
    ensures { result ≡ run_end reply.now }
{
    match reply {
        Reply::Ended { code, took, .. } => RunEnd::Ended {
            code: *code,
            took: *took,
        },
        Reply::NotStarted => RunEnd::NotStarted,
        Reply::TooLong(_) => RunEnd::TooLong,
        _ => RunEnd::Broken,
    }
}
