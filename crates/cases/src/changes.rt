//! What a host in memory has at the end of a run that it hadn't before, as lines: files, folders, and the calls.
use crate::Told;
use crate::outside::{Other, Outside};
use pm_bytes::Memory;
use pm_host::{Answer, Call, Logged, Made};
use pm_memory::MemoryHost;
use std::alloc::Global;

/// Tells the files that changed, the folders that were made, and the calls.
pub fn push_changes(
    alloc: Global,
    told: &mut Told,
    outside: &Outside,
    host: &MemoryHost,
) -> Result<(), Memory> {
    push_files(alloc, told, outside, host)?;
    push_folders(told, host.calls())?;
    push_calls(alloc, told, host.calls())
}

// The files that were there, those that calls made, wrote to or moved, and those that others change.
fn push_files(
    alloc: Global,
    told: &mut Told,
    outside: &Outside,
    host: &MemoryHost,
) -> Result<(), Memory> {
    let mut names = Vec::new(alloc);
    push_names(alloc, &mut names, outside, host.calls())?;
    push_named(told, outside, host, &names)
}

fn push_names(
    alloc: Global,
    names: &mut Vec<Vec<u8>>,
    outside: &Outside,
    calls: &[Logged],
) -> Result<(), Memory> {
    for stands in &outside.stands {
        push_new(alloc, names, stands.name.as_str().as_bytes())?;
    }
    for logged in calls {
        push_name(alloc, names, &logged.call)?;
    }
    for batch in &outside.batches {
        push_others(alloc, names, batch)?;
    }
    Ok(())
}

fn push_name(alloc: Global, names: &mut Vec<Vec<u8>>, call: &Call) -> Result<(), Memory> {
    match call {
        Call::Create { name } => push_new(alloc, names, name.as_slice()),
        Call::Append { name, .. } => push_new(alloc, names, name.as_slice()),
        Call::Rename { to, .. } => push_new(alloc, names, to.as_slice()),
        _ => Ok(()),
    }
}

fn push_others(alloc: Global, names: &mut Vec<Vec<u8>>, batch: &[Other]) -> Result<(), Memory> {
    for other in batch {
        push_new(alloc, names, &other.name)?;
    }
    Ok(())
}

fn push_named(
    told: &mut Told,
    outside: &Outside,
    host: &MemoryHost,
    names: &[Vec<u8>],
) -> Result<(), Memory> {
    for name in names {
        push_file(told, outside, host, name)?;
    }
    Ok(())
}

fn push_new(alloc: Global, names: &mut Vec<Vec<u8>>, name: &[u8]) -> Result<(), Memory> {
    if names.iter().all(|known| known.as_slice() != name) {
        names.push(name.to_vec(alloc)?)?;
    }
    Ok(())
}

// Tells a file that isn't as it was.
fn push_file(
    told: &mut Told,
    outside: &Outside,
    host: &MemoryHost,
    name: &[u8],
) -> Result<(), Memory> {
    match (outside.file(name), file_of(host, name)) {
        (Some(before), Some(after)) => push_changed(told, name, before, after),
        (None, Some(after)) => push_left(told, name, after),
        (Some(_), None) => push_gone(told, name),
        (None, None) => Ok(()),
    }
}

fn file_of<'a>(host: &'a MemoryHost, name: &[u8]) -> Option<&'a [u8]> {
    match std::str::from_utf8(name) {
        Ok(text) => host.file(text),
        Err(_) => None,
    }
}

fn push_changed(told: &mut Told, name: &[u8], before: &[u8], after: &[u8]) -> Result<(), Memory> {
    if before == after {
        return Ok(());
    }
    push_left(told, name, after)
}

fn push_left(told: &mut Told, name: &[u8], after: &[u8]) -> Result<(), Memory> {
    told.begin("left")?;
    told.add(name)?;
    told.add(after)
}

fn push_gone(told: &mut Told, name: &[u8]) -> Result<(), Memory> {
    told.begin("gone")?;
    told.add(name)
}

// The folders that the calls made.
fn push_folders(told: &mut Told, calls: &[Logged]) -> Result<(), Memory> {
    for logged in calls {
        if let Call::MakeFolder { name } = &logged.call {
            if matches!(logged.answer, Answer::MakeFolder(Made::Made)) {
                told.begin("made")?;
                told.add(name.as_slice())?;
            }
        }
    }
    Ok(())
}

fn push_calls(alloc: Global, told: &mut Told, calls: &[Logged]) -> Result<(), Memory> {
    let mut text = String::new(alloc);
    push_texts(&mut text, calls)?;
    tell_calls(told, text.as_str())
}

fn push_texts(text: &mut String, calls: &[Logged]) -> Result<(), Memory> {
    for logged in calls {
        if !text.is_empty() {
            text.push(' ')?;
        }
        text.push_str(call_text(&logged.call))?;
    }
    Ok(())
}

fn tell_calls(told: &mut Told, text: &str) -> Result<(), Memory> {
    told.begin("calls")?;
    told.add(text.as_bytes())
}

fn call_text(call: &Call) -> &'static str {
    match call {
        Call::Look { .. } => "look",
        Call::Read { .. } => "read",
        Call::Create { .. } => "create",
        Call::Append { .. } => "append",
        Call::Sync { .. } => "sync",
        Call::Cut { .. } => "cut",
        Call::Remove { .. } => "remove",
        Call::Rename { .. } => "rename",
        Call::MakeFolder { .. } => "make_folder",
        Call::Names { .. } => "names",
        Call::Age { .. } => "age",
        Call::Sleep { .. } => "sleep",
        Call::Now => "now",
        Call::Start { .. } => "start",
        Call::Feed { .. } => "feed",
        Call::Take { .. } => "take",
        Call::Finish => "finish",
    }
}
