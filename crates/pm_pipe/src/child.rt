//! A child from its start to its end.
ghost use Rattle.std.specs.Prelude.{◌≡◌, ◌<◌, length, IfOk, OnErr, Some, [], true, false};
ghost use Rattle.pm_host.specs.World.{IsRunning};
ghost use Rattle.pm_journal.specs.Children.{takes_output, run_reply};
ghost use Rattle.pm_pipe.specs.Runs.{RunsTo, Feeds, TakesAll, TakesWhere, LeavesTaking, MakesTake, child_reply};
ghost use Rattle.pm_pipe.specs.Runs.{fed_reply};

use pm_bytes::{Blob, Memory};
use pm_host::{Child, Command, Fed, Finished, Got, Host, Started};
use pm_journal::{FeedEnd, TakeEnd};
use std::alloc::Global;

/// How a child ended. `took` counts the bytes of its input that it took.
#[derive(Drop)]
pub enum ChildEnd {
    /// It ended with the code, or a signal ended it: then the code is 128 and the signal's number, at most 255.
    /// It took fewer bytes than all exactly where it closed its input.
    Ended { code: u8, took: u64, output: Blob },
    /// It couldn't be started.
    NotStarted,
    /// A call failed that fed it, took its output or waited for it.
    Broken { took: u64 },
    /// So many bytes of output came, which are too many.
    TooLong(u64),
    /// Memory was wanting for its output. It was waited for.
    Memory,
}

/// How a child ended whose output isn't wanted; the words are those of `ChildEnd`.
#[derive(Clone, Copy)]
pub enum Fate {
    Ended { code: u8, took: u64 },
    NotStarted,
    Broken { took: u64 },
}

// What one `take` brought.
#[derive(Clone, Copy)]
enum Came {
    More,
    End,
    Failed,
}

/// The most bytes of output that are taken.
pub const MOST: usize = 67_108_864;

/// Starts the child, feeds it, takes its output where it is wanted, and waits for it. Where no
/// child ran before, none runs afterwards, whatever it answers. It takes memory for the output alone.
pub fn run_child<H: Host>(
    alloc: Global,
    host: &mut H,
    command: &Command,
    input: &[u8],
    want: bool,
) -> ChildEnd
    ensures runs { RunsTo command.now input.now want (child_reply result) (H.told host.old) (H.told host.new) }
    ensures none { (H.told host.old).child ≡ Child.NoChild → (H.told host.new).child ≡ Child.NoChild }
{
    if let Started::Failed = host.start(command, want) {
        return ChildEnd::NotStarted;
    }
    let fed = feed_all(host, input);
    let came = take_where(alloc, host, takes(want, fed));
    let finished = host.finish();
    match came {
        Ok(came) => end_of(input.len() as u64, fed, came, finished),
        Err(Memory) => ChildEnd::Memory,
    }
}

/// Starts the child, feeds it and waits for it; its output isn't kept. Where no child ran before,
/// none runs afterwards, whatever it answers. It takes no memory.
pub fn feed_child<H: Host>(host: &mut H, command: &Command, input: &[u8]) -> Fate
    ensures runs { RunsTo command.now input.now false (Some (fed_reply result)) (H.told host.old) (H.told host.new) }
    ensures none { (H.told host.old).child ≡ Child.NoChild → (H.told host.new).child ≡ Child.NoChild }
{
    if let Started::Failed = host.start(command, false) {
        return Fate::NotStarted;
    }
    let fed = feed_all(host, input);
    let ended = host.finish();
    fate_of(input.len() as u64, fed, ended)
}

// What the run of a child comes to whose output isn't wanted.
fn fate_of(len: u64, fed: FeedEnd, finished: Finished) -> Fate
    ensures { fed_reply result ≡ run_reply len fed (TakeEnd.All []) finished }
{
    let took = match fed {
        FeedEnd::All => len,
        FeedEnd::Closed(took) => took,
        FeedEnd::Failed(took) => return Fate::Broken { took },
    };
    match finished {
        Finished::Code(code) => Fate::Ended { code, took },
        Finished::Signal(signal) => Fate::Ended {
            code: signal.saturating_add(128),
            took,
        },
        Finished::Failed => Fate::Broken { took },
    }
}

fn takes(want: bool, fed: FeedEnd) -> bool
    ensures { result ≡ takes_output want fed }
{
    match fed {
        FeedEnd::Failed(_) => false,
        _ => want,
    }
}

// What the run of a child comes to, where memory wasn't wanting.
fn end_of(len: u64, fed: FeedEnd, came: TakeEnd, finished: Finished) -> ChildEnd
    ensures { child_reply result ≡ Some (run_reply len fed came finished) }
{
    let took = match fed {
        FeedEnd::All => len,
        FeedEnd::Closed(took) => took,
        FeedEnd::Failed(took) => return ChildEnd::Broken { took },
    };
    let code = match finished {
        Finished::Code(code) => code,
        Finished::Signal(signal) => signal.saturating_add(128),
        Finished::Failed => return ChildEnd::Broken { took },
    };
    match came {
        TakeEnd::All(output) => ChildEnd::Ended { code, took, output },
        TakeEnd::Failed => ChildEnd::Broken { took },
        TakeEnd::Long(count) => ChildEnd::TooLong(count),
    }
}

// Feeds the child until it has all, closes its input, or a feed fails.
fn feed_all<H: Host>(host: &mut H, input: &[u8]) -> FeedEnd
    requires { (H.told host.old).child ≡ Child.Feeding }
    ensures feeds { Feeds input.now result (H.told host.old) (H.told host.new) }
    ensures still { (H.told host.new).child ≡ Child.Feeding }
{
    let mut taken: usize = 0;
    while taken < input.len() {
        let end = input.len().min(taken.saturating_add(4096));
        match host.feed(&input[taken..end]) {
            Fed::Took(n) => taken += n,
            Fed::Closed => return FeedEnd::Closed(taken as u64),
            Fed::Failed => return FeedEnd::Failed(taken as u64),
        }
    }
    FeedEnd::All
}

// Takes the child's output where it is asked for.
fn take_where<H: Host>(alloc: Global, host: &mut H, asked: bool) -> Result<TakeEnd, Memory>
    requires { IsRunning (H.told host.old).child }
    ensures ok { IfOk result (λ end. TakesWhere asked end (H.told host.old) (H.told host.new)) }
    ensures err { OnErr result ((asked ≡ true) × LeavesTaking (H.told host.old) (H.told host.new)) }
    ensures still { IsRunning (H.told host.new).child }
{
    if asked {
        take_all(alloc, host)
    } else {
        Ok(TakeEnd::All(Blob::empty(alloc)))
    }
}

// Takes the child's output to its end, in parts of at most 4,096 bytes, or until too many bytes came.
fn take_all<H: Host>(alloc: Global, host: &mut H) -> Result<TakeEnd, Memory>
    requires { IsRunning (H.told host.old).child }
    ensures ok { IfOk result (λ end. TakesAll end (H.told host.old) (H.told host.new)) }
    ensures err { OnErr result (LeavesTaking (H.told host.old) (H.told host.new)) }
    ensures still { IsRunning (H.told host.new).child }
{
    let mut output = Blob::empty(alloc);
    let mut room = [0u8; 4096];
    while output.len() <= MOST {
        match take_more(host, &mut output, &mut room)? {
            Came::More => {}
            Came::End => return Ok(TakeEnd::All(output)),
            Came::Failed => return Ok(TakeEnd::Failed),
        }
    }
    Ok(TakeEnd::Long(output.len() as u64))
}

// One `take`, whose bytes go to the end.
fn take_more<H: Host>(host: &mut H, output: &mut Blob, room: &mut [u8]) -> Result<Came, Memory>
    requires some { 0 < length room.old }
    requires running { IsRunning (H.told host.old).child }
    ensures makes { MakesTake (length room.old) output.old result output.new (H.told host.old) (H.told host.new) }
    ensures still { IsRunning (H.told host.new).child }
{
    match host.take(room) {
        Got::Failed => Ok(Came::Failed),
        Got::Got(0) => Ok(Came::End),
        Got::Got(n) => {
            output.push_slice(&room[..n])?;
            Ok(Came::More)
        }
    }
}
