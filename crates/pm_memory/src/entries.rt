//! The calls of a host with their answers, as its list holds them.
ghost use Rattle.std.specs.Prelude.{◌≡◌, IfOk, length};
ghost use Rattle.pm_host.specs.Answers.{read_answer, take_answer, IsWithin};
ghost use Rattle.pm_host.specs.Runs.{logged};

use pm_bytes::{Blob, Memory, Names};
use pm_host::{
    Aged, Answer, Call, Command, Cut, Fed, Finished, Got, Logged, Looked, Made, Moved, Removed,
    Started, Synced, Took,
};
use std::alloc::Global;

pub(crate) fn looked_entry(alloc: Global, name: &str, looked: Looked) -> Result<Logged, Memory>
    ensures { IfOk result (λ entry. entry ≡ logged (Call.Look name.now) (Answer.Look looked)) }
{
    let name = Blob::from_slice(alloc, name.as_bytes())?;
    Ok(Logged {
        call: Call::Look { name },
        answer: Answer::Look(looked),
    })
}

/// The bytes that came stand at the front of the room.
pub(crate) fn read_entry(
    alloc: Global,
    name: &str,
    at: u64,
    room: &[u8],
    got: Got,
) -> Result<Logged, Memory>
    requires { IsWithin got (length room.now) }
    ensures { IfOk result (λ entry. entry
        ≡ logged (Call.Read name.now at (length room.now)) (read_answer got room.now)) }
{
    let answer = match got {
        Got::Got(count) => Answer::Read(Blob::from_slice(alloc, &room[..count])?),
        Got::Failed => Answer::Failed,
    };
    let name = Blob::from_slice(alloc, name.as_bytes())?;
    Ok(Logged {
        call: Call::Read {
            name,
            at,
            room: room.len() as u64,
        },
        answer,
    })
}

pub(crate) fn created_entry(alloc: Global, name: &str, made: Made) -> Result<Logged, Memory>
    ensures { IfOk result (λ entry. entry ≡ logged (Call.Create name.now) (Answer.Create made)) }
{
    let name = Blob::from_slice(alloc, name.as_bytes())?;
    Ok(Logged {
        call: Call::Create { name },
        answer: Answer::Create(made),
    })
}

pub(crate) fn appended_entry(
    alloc: Global,
    name: &str,
    piece: &[u8],
    took: Took,
) -> Result<Logged, Memory>
    ensures { IfOk result (λ entry. entry ≡ logged (Call.Append name.now piece.now) (Answer.Append took)) }
{
    let name = Blob::from_slice(alloc, name.as_bytes())?;
    let piece = Blob::from_slice(alloc, piece)?;
    Ok(Logged {
        call: Call::Append { name, piece },
        answer: Answer::Append(took),
    })
}

pub(crate) fn cut_entry(alloc: Global, name: &str, len: u64, cut: Cut) -> Result<Logged, Memory>
    ensures { IfOk result (λ entry. entry ≡ logged (Call.Cut name.now len) (Answer.Cut cut)) }
{
    let name = Blob::from_slice(alloc, name.as_bytes())?;
    Ok(Logged {
        call: Call::Cut { name, len },
        answer: Answer::Cut(cut),
    })
}

pub(crate) fn removed_entry(alloc: Global, name: &str, removed: Removed) -> Result<Logged, Memory>
    ensures { IfOk result (λ entry. entry ≡ logged (Call.Remove name.now) (Answer.Remove removed)) }
{
    let name = Blob::from_slice(alloc, name.as_bytes())?;
    Ok(Logged {
        call: Call::Remove { name },
        answer: Answer::Remove(removed),
    })
}

pub(crate) fn moment_entry(moment: i64) -> Logged
    ensures { result ≡ logged Call.Now (Answer.Now moment) }
{
    Logged {
        call: Call::Now,
        answer: Answer::Now(moment),
    }
}

pub(crate) fn synced_entry(alloc: Global, name: &str, synced: Synced) -> Result<Logged, Memory>
    ensures { IfOk result (λ entry. entry ≡ logged (Call.Sync name.now) (Answer.Sync synced)) }
{
    let name = Blob::from_slice(alloc, name.as_bytes())?;
    Ok(Logged {
        call: Call::Sync { name },
        answer: Answer::Sync(synced),
    })
}

pub(crate) fn renamed_entry(
    alloc: Global,
    from: &str,
    to: &str,
    moved: Moved,
) -> Result<Logged, Memory>
    ensures { IfOk result (λ entry. entry ≡ logged (Call.Rename from.now to.now) (Answer.Rename moved)) }
{
    let from = Blob::from_slice(alloc, from.as_bytes())?;
    let to = Blob::from_slice(alloc, to.as_bytes())?;
    Ok(Logged {
        call: Call::Rename { from, to },
        answer: Answer::Rename(moved),
    })
}

pub(crate) fn folder_entry(alloc: Global, name: &str, made: Made) -> Result<Logged, Memory>
    ensures { IfOk result (λ entry. entry ≡ logged (Call.MakeFolder name.now) (Answer.MakeFolder made)) }
{
    let name = Blob::from_slice(alloc, name.as_bytes())?;
    Ok(Logged {
        call: Call::MakeFolder { name },
        answer: Answer::MakeFolder(made),
    })
}

pub(crate) fn listed_entry(alloc: Global, folder: &str, names: &Names) -> Result<Logged, Memory>
    ensures { IfOk result (λ entry. entry ≡ logged (Call.Names folder.now) (Answer.Names names.now)) }
{
    let names = names.copy(alloc)?;
    let folder = Blob::from_slice(alloc, folder.as_bytes())?;
    Ok(Logged {
        call: Call::Names { folder },
        answer: Answer::Names(names),
    })
}

pub(crate) fn unlisted_entry(alloc: Global, folder: &str) -> Result<Logged, Memory>
    ensures { IfOk result (λ entry. entry ≡ logged (Call.Names folder.now) Answer.Failed) }
{
    let folder = Blob::from_slice(alloc, folder.as_bytes())?;
    Ok(Logged {
        call: Call::Names { folder },
        answer: Answer::Failed,
    })
}

pub(crate) fn aged_entry(alloc: Global, name: &str, aged: Aged) -> Result<Logged, Memory>
    ensures { IfOk result (λ entry. entry ≡ logged (Call.Age name.now) (Answer.Age aged)) }
{
    let name = Blob::from_slice(alloc, name.as_bytes())?;
    Ok(Logged {
        call: Call::Age { name },
        answer: Answer::Age(aged),
    })
}

pub(crate) fn slept_entry(seconds: u64) -> Logged
    ensures { result ≡ logged (Call.Sleep seconds) Answer.Slept }
{
    Logged {
        call: Call::Sleep { seconds },
        answer: Answer::Slept,
    }
}

pub(crate) fn started_entry(
    alloc: Global,
    command: &Command,
    want: bool,
    started: Started,
) -> Result<Logged, Memory>
    ensures { IfOk result (λ entry. entry ≡ logged (Call.Start command.now want) (Answer.Start started)) }
{
    let command = command.copy(alloc)?;
    Ok(Logged {
        call: Call::Start { command, want },
        answer: Answer::Start(started),
    })
}

pub(crate) fn fed_entry(alloc: Global, piece: &[u8], fed: Fed) -> Result<Logged, Memory>
    ensures { IfOk result (λ entry. entry ≡ logged (Call.Feed piece.now) (Answer.Feed fed)) }
{
    let piece = Blob::from_slice(alloc, piece)?;
    Ok(Logged {
        call: Call::Feed { piece },
        answer: Answer::Feed(fed),
    })
}

/// The bytes that came stand at the front of the room.
pub(crate) fn taken_entry(alloc: Global, room: &[u8], got: Got) -> Result<Logged, Memory>
    requires { IsWithin got (length room.now) }
    ensures { IfOk result (λ entry. entry ≡ logged (Call.Take (length room.now)) (take_answer got room.now)) }
{
    let answer = match got {
        Got::Got(count) => Answer::Take(Blob::from_slice(alloc, &room[..count])?),
        Got::Failed => Answer::Failed,
    };
    Ok(Logged {
        call: Call::Take {
            room: room.len() as u64,
        },
        answer,
    })
}

pub(crate) fn finished_entry(finished: Finished) -> Logged
    ensures { result ≡ logged Call.Finish (Answer.Finish finished) }
{
    Logged {
        call: Call::Finish,
        answer: Answer::Finish(finished),
    }
}
