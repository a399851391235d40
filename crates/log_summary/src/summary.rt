//! The sums over a log.
ghost use Rattle.std.specs.Prelude.{◌≡◌, [], OnOk, map};
ghost use Rattle.bstr.specs.Text.{lines_of, without_terminator};
ghost use Rattle.log_summary.specs.Tallies.{deliveries, messages, with_delivery, with_message};
ghost use Rattle.log_summary.specs.LogLines.{delivery_in, message_in};
ghost use Rattle.log_summary.specs.Days.{from_day, is_before, awaited_after, day_of_line};

use crate::date::{Day, day_of_line};
use crate::folder::folder_of;
use crate::line::{delivery_of, message_of};
use crate::message::kind_of;
use crate::table::Table;
use bstr::ByteSlice;
use pm_bytes::Memory;
use std::alloc::Global;

/// What logs say.
#[derive(Drop)]
pub struct Summary {
    /// The mails and bytes of each folder.
    pub folders: Table,
    /// How often each kind of message stands in them, without bytes.
    pub messages: Table,
}

impl Summary {
    /// Of no log.
    pub fn new(alloc: Global) -> Summary
        ensures folders { result.folders ≡ [] }
        ensures messages { result.messages ≡ [] }
    {
        Summary {
            folders: Table::new(alloc),
            messages: Table::new(alloc),
        }
    }

    /// Puts both tables in the order of their names.
    pub fn sort(&mut self) -> Result<(), Memory> {
        self.folders.sort()?;
        self.messages.sort()
    }
}

/// Adds what the lines of a log say, from the first line `From ` of this day or a later one on, where a day is given.
/// Lines of no known form count for nothing. `Memory` is the only error.
pub fn add_log(
    alloc: Global,
    sums: &mut Summary,
    log: &[u8],
    first: Option<Day>,
) -> Result<(), Memory>
    ensures folders { OnOk result (sums.new.folders
        ≡ deliveries sums.old.folders (from_day first (map without_terminator (lines_of log.now)))) }
    ensures messages { OnOk result (sums.new.messages
        ≡ messages sums.old.messages (from_day first (map without_terminator (lines_of log.now)))) }
{
    let mut awaited = first;
    for line in log.lines() {
        awaited = after_line(awaited, line);
        match awaited {
            None => add_line(alloc, sums, line)?,
            Some(_) => {}
        }
    }
    Ok(())
}

// The day that is waited for after this line: none once its first line has come.
fn after_line(awaited: Option<Day>, line: &[u8]) -> Option<Day>
    ensures { result ≡ awaited_after awaited (day_of_line line.now) }
{
    match awaited {
        None => None,
        Some(first) => if is_before(first, day_of_line(line)) {
            Some(first)
        } else {
            None
        },
    }
}

fn is_before(first: Day, day: Option<Day>) -> bool
    ensures { result ≡ is_before first day }
{
    match day {
        None => true,
        Some(day) => day.is_earlier(first),
    }
}

fn add_line(alloc: Global, sums: &mut Summary, line: &[u8]) -> Result<(), Memory>
    ensures folders { OnOk result (sums.new.folders ≡ with_delivery (delivery_in line.now) sums.old.folders) }
    ensures messages { OnOk result (sums.new.messages ≡ with_message (message_in line.now) sums.old.messages) }
{
    if let Some(delivery) = delivery_of(line) {
        let name = folder_of(alloc, delivery.folder)?;
        sums.folders.add(name, delivery.size)?;
    }
    if let Some(text) = message_of(line) {
        let kind = kind_of(alloc, text)?;
        sums.messages.add(kind, 0)?;
    }
    Ok(())
}
