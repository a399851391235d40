//! The entries of a run, as lines.
use crate::plan::Plan;
use cases::Told;
use pm_bytes::{Blob, Memory, Name};
use pm_host::Command;
use pm_journal::{Act, Entry, FolderKind, Reply};
use std::alloc::Global;

/// Tells an entry: its act and its reply.
pub fn push_entry(
    alloc: Global,
    told: &mut Told,
    plan: &Plan,
    entry: &Entry,
) -> Result<(), Memory> {
    if let Act::SayErr { text } = &entry.act {
        told.begin("says")?;
        told.add(text.as_slice())?;
        if !matches!(entry.reply, Reply::Wrote) {
            push_plain(alloc, told, &entry.reply)?;
        }
        return Ok(());
    }
    told.begin("entry")?;
    push_act(alloc, told, &entry.act)?;
    push_reply(alloc, told, plan, entry)
}

fn push_act(alloc: Global, told: &mut Told, act: &Act) -> Result<(), Memory> {
    match act {
        Act::ReadFile { name } => push_named(told, "ReadFile", name),
        Act::Probe { name } => push_named(told, "Probe", name),
        Act::Unlock { name } => push_named(told, "Unlock", name),
        Act::Append { name, piece } => {
            push_named(told, "Append", name)?;
            told.add(piece.as_slice())
        }
        Act::SayFile { name, text } => {
            push_named(told, "SayFile", name)?;
            told.add(text.as_slice())
        }
        Act::Lock {
            name,
            sleep,
            limit,
            suspend,
            tries,
        } => {
            push_named(told, "Lock", name)?;
            let rule = format!(in alloc; "{sleep},{limit},{suspend},{tries}")?;
            told.add(rule.as_str().as_bytes())
        }
        Act::WriteOut { piece } => {
            told.add(b"WriteOut")?;
            told.add(piece.as_slice())
        }
        Act::Moment => told.add(b"Moment"),
        _ => push_long_act(told, act),
    }
}

fn push_named(told: &mut Told, act: &str, name: &Name) -> Result<(), Memory> {
    told.add(act.as_bytes())?;
    told.add(name.as_str().as_bytes())
}

// The stamp of a filing is seen in the name of its file.
fn push_long_act(told: &mut Told, act: &Act) -> Result<(), Memory> {
    match act {
        Act::Place {
            kind,
            folder,
            prefix,
            piece,
            ..
        } => {
            push_folder(told, *kind, folder, prefix)?;
            told.add(piece.as_slice())
        }
        Act::Run {
            command,
            input,
            want,
        } => {
            push_command(told, command)?;
            told.add(b"<")?;
            told.add(input.as_slice())?;
            if *want {
                told.add(b">")?;
            }
            Ok(())
        }
        _ => Ok(()),
    }
}

// The prefix counts in a plain folder alone.
fn push_folder(
    told: &mut Told,
    kind: FolderKind,
    folder: &Name,
    prefix: &Name,
) -> Result<(), Memory> {
    told.add(b"Place")?;
    match kind {
        FolderKind::Maildir => push_named(told, "maildir", folder),
        FolderKind::Mh => push_named(told, "mh", folder),
        FolderKind::Plain => {
            push_named(told, "plain", folder)?;
            told.add(prefix.as_str().as_bytes())
        }
    }
}

// The folder from which the program runs, the program and its words.
fn push_command(told: &mut Told, command: &Command) -> Result<(), Memory> {
    push_named(told, "Run", &command.folder)?;
    told.add(command.program.as_str().as_bytes())?;
    for word in command.args.as_slice() {
        told.add(word.as_str().as_bytes())?;
    }
    Ok(())
}

fn push_reply(alloc: Global, told: &mut Told, plan: &Plan, entry: &Entry) -> Result<(), Memory> {
    match &entry.reply {
        Reply::Content(bytes) => push_content(told, plan, &entry.act, bytes),
        Reply::Held { sleeps, forced } => {
            let text = format!(in alloc; "Held({sleeps},{forced})")?;
            told.add(text.as_str().as_bytes())
        }
        Reply::Placed(name) => push_named(told, "Placed", name),
        Reply::TornAt { name, taken } => {
            let text = format!(in alloc; "TornAt({taken})")?;
            push_named(told, text.as_str(), name)
        }
        Reply::Ended { code, took, output } => {
            let text = format!(in alloc; "Ended({code},{took})")?;
            told.add(text.as_str().as_bytes())?;
            push_output(told, &entry.act, output)
        }
        Reply::Broken { took } => {
            let text = format!(in alloc; "Broken({took})")?;
            told.add(text.as_str().as_bytes())
        }
        reply => push_plain(alloc, told, reply),
    }
}

// The output of a program, where it was wanted.
fn push_output(told: &mut Told, act: &Act, output: &Blob) -> Result<(), Memory> {
    match act {
        Act::Run { want: true, .. } => told.add(output.as_slice()),
        _ => Ok(()),
    }
}

// The bytes that were read are left out where they are those that the file began with.
fn push_content(told: &mut Told, plan: &Plan, act: &Act, bytes: &Blob) -> Result<(), Memory> {
    told.add(b"Content")?;
    if let Act::ReadFile { name } = act {
        if let Some(given) = plan.outside.file(name.as_str().as_bytes()) {
            if given == bytes.as_slice() {
                return Ok(());
            }
        }
    }
    told.add(bytes.as_slice())
}

// A reply that is a name, or a name and a number.
fn push_plain(alloc: Global, told: &mut Told, reply: &Reply) -> Result<(), Memory> {
    let text = match reply {
        Reply::TooLong(came) => format!(in alloc; "TooLong({came})")?,
        Reply::Found(found) => format!(in alloc; "Found({found:?})")?,
        Reply::Torn(left) => format!(in alloc; "Torn({left})")?,
        Reply::Short(taken) => format!(in alloc; "Short({taken})")?,
        Reply::Now(seconds) => format!(in alloc; "Now({seconds})")?,
        _ => return told.add(name_of(reply)),
    };
    told.add(text.as_str().as_bytes())
}

fn name_of(reply: &Reply) -> &'static [u8] {
    match reply {
        Reply::Missing => b"Missing",
        Reply::NotPlain => b"NotPlain",
        Reply::Faulted => b"Faulted",
        Reply::Done => b"Done",
        Reply::Undone => b"Undone",
        Reply::IsFolder => b"IsFolder",
        Reply::Raced => b"Raced",
        Reply::NamesOut => b"NamesOut",
        Reply::Busy => b"Busy",
        Reply::Removed => b"Removed",
        Reply::Gone => b"Gone",
        Reply::NotStarted => b"NotStarted",
        Reply::Wrote => b"Wrote",
        _ => b"another reply",
    }
}
