//! Processes of a run, one by one (pm_run).
ghost use Rattle.std.specs.Prelude.{◌≡◌, [], IfOk};

use crate::calls::failed::Failed;
use crate::calls::minds::mind_with;
use crate::calls::report::Report;
use crate::calls::world::{NOTHING, make_host};
use pm_bytes::{Memory, Name};
use pm_journal::Journal;
use pm_meaning::{Mind, Opening, Shared};
use pm_memory::{MemoryHost, MemorySink};
use pm_run::{ProcessEnd, Queue, RcFrame, Task, run_process};
use std::alloc::Global;

const MAIL: &[u8] = b"A: b\n\nhi\n";

// The rcfile `rc`, without which a mail filter runs, and the rcfile `inc`.
const RCFILES: &[(Option<&[u8]>, &[u8])] = &[
    // A block for a copy, which sees another variable.
    (Some(b":0 c\n{ X=1 }\n:0\nmbox$X\n"), b""),
    // Such a block in an rcfile that another one includes in a block under a lock.
    (
        Some(b":0:l\n{\nINCLUDERC=inc\n}\n:0\nmbox$X\n"),
        b"Y=2\n:0 c\n{ X=1 }\n",
    ),
    (Some(b"X=1\n"), b""),
    (Some(b"HOST=there\n"), b""),
    (None, b""),
];

pub fn show(alloc: Global, report: &mut Report) {
    for (rcfile, included) in RCFILES {
        let shown = run(alloc, report, *rcfile, included);
        report.lines(shown);
    }
    let shown = count(alloc, report);
    report.lines(shown);
}

// What the processes of a run have in common.
#[derive(Drop)]
struct Common {
    queue: Queue,
    shared: Shared,
    host: MemoryHost,
    out: MemorySink,
    err: MemorySink,
}

// A first process, and the copy that it makes.
fn run(
    alloc: Global,
    report: &mut Report,
    rcfile: Option<&[u8]>,
    included: &[u8],
) -> Result<(), Failed> {
    let mut common = make_common(alloc, 0)?;
    let shown = run_in(alloc, report, rcfile, included, &mut common);
    drop(common);
    shown
}

fn run_in(
    alloc: Global,
    report: &mut Report,
    rcfile: Option<&[u8]>,
    included: &[u8],
    common: &mut Common,
) -> Result<(), Failed> {
    if let Some(bytes) = rcfile {
        common.host.put_file("rc", bytes, 0)?;
    }
    common.host.put_file("/home/joe/inc", included, 0)?;
    let task = first_task(alloc, rcfile.is_none())?;
    report.answer("Task::frames", task.frames().len());
    run_one(alloc, report, task, common);
    run_next(alloc, report, common);
    tell_rest(report, &mut common.queue);
    Ok(())
}

// The copy that waits first, where one does.
fn run_next(alloc: Global, report: &mut Report, common: &mut Common) {
    match common.queue.next() {
        None => report.word("Queue::next", "None"),
        Some(copy) => {
            report.answer("Queue::next", copy.frames().len());
            for frame in copy.frames() {
                tell_frame(report, frame);
            }
            run_one(alloc, report, copy, common);
        }
    }
}

// Whether one more waits.
fn tell_rest(report: &mut Report, queue: &mut Queue) {
    let next = queue.next();
    report.answer("Queue::next", next.is_some());
    drop(next);
}

// Runs one of them, with a journal of its own.
fn run_one(alloc: Global, report: &mut Report, task: Task, common: &mut Common)
    requires { task.mind.locks.names ≡ [] }
{
    let mut journal = Journal::new(alloc);
    let ended = run_process(
        alloc,
        task,
        &mut common.queue,
        &mut common.shared,
        &mut common.host,
        &mut common.out,
        &mut common.err,
        &mut journal,
    );
    tell_end(report, &ended);
    drop(ended);
    report.answer("  entries", journal.entries().len());
    drop(journal);
    tell_common(report, common);
}

// What the run has then.
fn tell_common(report: &mut Report, common: &Common) {
    report.answer("  openings", common.shared.openings);
    report.answer("  clones", common.shared.clones);
    report.file("  mbox", common.host.file("/home/joe/mbox"));
    report.file("  mbox1", common.host.file("/home/joe/mbox1"));
    report.file("  l", common.host.file("/home/joe/l"));
    report.bytes("  err", common.err.written());
}

fn tell_end(report: &mut Report, ended: &ProcessEnd) {
    match ended {
        ProcessEnd::Delivered(mind) => tell_mind(report, "Delivered", mind),
        ProcessEnd::FellOff(mind) => tell_mind(report, "FellOff", mind),
        ProcessEnd::HostOff(mind) => tell_mind(report, "HostOff", mind),
        ProcessEnd::NoRc(mind) => tell_mind(report, "NoRc", mind),
        ProcessEnd::Memory => report.word("run_process", "Memory"),
    }
}

// How a process ended, the locks that it holds, the rcfiles that are left, and its last delivery.
fn tell_mind(report: &mut Report, end: &str, mind: &Mind) {
    report.word("run_process", end);
    report.answer("  locks, rcfiles", (mind.locks.len(), mind.rcfiles.len()));
    match &mind.last {
        None => report.word("  last", "None"),
        Some(last) => {
            report.bytes("  last", last.folder.as_slice());
            report.answer("  length", last.length);
        }
    }
}

// An rcfile in progress: how many steps it has, where it stands, its blocks, and what comes back.
fn tell_frame(report: &mut Report, frame: &RcFrame) {
    report.answer("  steps, place", (frame.code.steps.len(), frame.place));
    for block in frame.blocks.as_slice() {
        report.answer("  enter, has a lock", (block.enter, block.lock.is_some()));
    }
    match &frame.back {
        None => report.word("  back", "None"),
        Some(name) => report.bytes("  back", name.as_str().as_bytes()),
    }
}

// A run that has made sixteen copies makes no more.
fn count(alloc: Global, report: &mut Report) -> Result<(), Failed> {
    let mut common = make_common(alloc, 16)?;
    let shown = count_in(alloc, report, &mut common);
    drop(common);
    shown
}

fn count_in(alloc: Global, report: &mut Report, common: &mut Common) -> Result<(), Failed> {
    common.host.put_file("rc", b":0 c\n{ X=1 }\n:0\nmbox\n", 0)?;
    let task = first_task(alloc, false)?;
    run_one(alloc, report, task, common);
    tell_rest(report, &mut common.queue);
    Ok(())
}

fn make_common(alloc: Global, clones: u32) -> Result<Common, Failed> {
    let host_name = Name::read(alloc, b"here")?;
    let out = MemorySink::new(alloc, None)?;
    let err = MemorySink::new(alloc, None)?;
    let host = make_host(alloc, NOTHING)?;
    let shared = Shared {
        openings: 0,
        clones,
        placed: 0,
        host_name,
    };
    Ok(Common {
        queue: Queue::new(alloc),
        shared,
        host,
        out,
        err,
    })
}

// The first process of a run whose rcfiles are `rc` and `/more`, which isn't there.
fn first_task(alloc: Global, under_m: bool) -> Result<Task, Failed>
    ensures { IfOk result (λ task. task.mind.locks.names ≡ []) }
{
    let mut mind = mind_with(alloc, MAIL)?;
    if name_rcfiles(alloc, &mut mind.rcfiles).is_err() {
        drop(mind);
        return Err(Failed::Call);
    }
    let opening = Opening {
        under_m,
        implied: false,
        keep_base: false,
    };
    Ok(Task::first(mind, opening))
}

fn name_rcfiles(alloc: Global, rcfiles: &mut Vec<Name>) -> Result<(), Memory> {
    let first = Name::from_text(String::from_str(alloc, "rc")?);
    let second = Name::from_text(String::from_str(alloc, "/more")?);
    rcfiles.push(first)?;
    rcfiles.push(second)?;
    Ok(())
}
