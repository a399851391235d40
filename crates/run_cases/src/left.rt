//! What a run left, as lines: its status, its entries, what the sinks took, the files that changed, and the
//! calls.
use crate::entries::push_entry;
use crate::plan::Plan;
use crate::running::Ran;
use cases::{Told, push_changes};
use pm_bytes::Memory;
use pm_host::{Got, Source};
use pm_journal::{Act, Entry, Reply};
use pm_memory::{MemorySink, MemorySource};
use std::alloc::Global;

/// Tells all that a run left.
pub fn push_left(alloc: Global, told: &mut Told, plan: &Plan, ran: &mut Ran) -> Result<(), Memory> {
    push_status(alloc, told, ran.status)?;
    for entry in ran.journal.entries() {
        push_entry(alloc, told, plan, entry)?;
    }
    push_err(alloc, told, ran)?;
    push_written(told, "out", &ran.streams.out)?;
    push_changes(alloc, told, &plan.outside, &ran.host)?;
    push_unread(told, plan.mail_fails, &mut ran.streams.source)
}

/// Tells the exit status.
pub fn push_status(alloc: Global, told: &mut Told, status: u8) -> Result<(), Memory> {
    told.begin("status")?;
    told.add(format!(in alloc; "{status}")?.as_str().as_bytes())
}

/// Tells what a sink took, if it took something.
pub fn push_written(told: &mut Told, key: &str, sink: &MemorySink) -> Result<(), Memory> {
    if !sink.written().is_empty() {
        told.begin(key)?;
        told.add(sink.written())?;
    }
    Ok(())
}

// What `err` took after the texts that the entries say it took.
fn push_err(alloc: Global, told: &mut Told, ran: &Ran) -> Result<(), Memory> {
    let said = said_by(alloc, ran.journal.entries())?;
    let written = ran.streams.err.written();
    match written.strip_prefix(said.as_slice()) {
        Some([]) => Ok(()),
        Some(rest) => push_line(told, "last", rest),
        None => push_line(told, "err", written),
    }
}

fn push_line(told: &mut Told, key: &str, word: &[u8]) -> Result<(), Memory> {
    told.begin(key)?;
    told.add(word)
}

fn said_by(alloc: Global, entries: &[Entry]) -> Result<Vec<u8>, Memory> {
    let mut said = Vec::new(alloc);
    for entry in entries {
        if let Act::SayErr { text } = &entry.act {
            said.extend_from_slice(taken_of(text.as_slice(), &entry.reply))?;
        }
    }
    Ok(said)
}

fn taken_of<'a>(text: &'a [u8], reply: &Reply) -> &'a [u8] {
    match reply {
        Reply::Wrote => text,
        Reply::Short(count) => {
            let count = (*count).min(text.len() as u64) as usize;
            text.get(..count).unwrap_or(text)
        }
        _ => b"",
    }
}

/// Tells where the read of the mail that was to fail is still to come as the next one.
pub fn push_unread(
    told: &mut Told,
    mail_fails: Option<u64>,
    source: &mut MemorySource,
) -> Result<(), Memory> {
    if mail_fails.is_none() || source.faults() > 0 {
        return Ok(());
    }
    let mut room = [0u8; 1];
    if source.read(&mut room) == Got::Failed {
        told.begin("unread")?;
    }
    Ok(())
}
