//! The sums as text and as JSON.
use bstr::ByteSlice;
use json::Writer;
use log_summary::{Summary, Table, Tally};
use std::alloc::{AllocError, Global};
use std::io::{self, Write};

/// The widest bar, in characters.
const WIDEST: u64 = 20;

/// A table of folders as mailstat(1) prints it, and one of messages where there are some. With `bars` each folder has a
/// bar in proportion to its mails.
pub fn write_text<W: Write>(out: &mut W, sums: &Summary, bars: bool) -> io::Result<()> {
    let all = total(&sums.folders);
    out.write_all(b"\n  Total  Number Folder\n  -----  ------ ------\n")?;
    let most = greatest(&sums.folders);
    for (name, tally) in sums.folders.rows() {
        write!(out, "{:>7} {:>7} ", tally.bytes, tally.count)?;
        if bars {
            write_bar(out, tally.count, most)?;
        }
        out.write_all(name.as_slice())?;
        out.write_all(b"\n")?;
    }
    write!(out, "  -----  ------\n{:>7} {:>7}\n", all.bytes, all.count)?;
    write_messages(out, &sums.messages)
}

fn write_messages<W: Write>(out: &mut W, messages: &Table) -> io::Result<()> {
    if messages.len() == 0 {
        return Ok(());
    }
    out.write_all(b"\n Number Message\n ------ -------\n")?;
    for (text, tally) in messages.rows() {
        write!(out, "{:>7} ", tally.count)?;
        out.write_all(text.as_slice())?;
        out.write_all(b"\n")?;
    }
    Ok(())
}

fn write_bar<W: Write>(out: &mut W, count: u64, most: u64) -> io::Result<()> {
    let length = bar_length(count, most);
    for place in 0..WIDEST {
        out.write_all(if place < length { b"#" } else { b" " })?;
    }
    out.write_all(b" ")
}

// A folder that got a mail has a bar of one character at least.
fn bar_length(count: u64, most: u64) -> u64 {
    count.saturating_mul(WIDEST).div_ceil(most.max(1))
}

/// The sums as one JSON object on one line. Names that aren't UTF-8 have U+FFFD for each byte that is none.
pub fn json_line(alloc: Global, sums: &Summary) -> Result<Vec<u8>, AllocError> {
    let all = total(&sums.folders);
    let mut writer = Writer::new(Vec::new(alloc));
    writer.begin_object()?;
    put_number(&mut writer, "bytes", all.bytes)?;
    writer.key("folders")?;
    put_folders(alloc, &mut writer, &sums.folders)?;
    put_number(&mut writer, "mails", all.count)?;
    writer.key("messages")?;
    put_messages(alloc, &mut writer, &sums.messages)?;
    writer.end_object()?;
    let mut line = writer.into_inner();
    line.push(b'\n')?;
    Ok(line)
}

fn put_folders(alloc: Global, writer: &mut Writer, folders: &Table) -> Result<(), AllocError> {
    writer.begin_array()?;
    for (name, tally) in folders.rows() {
        writer.begin_object()?;
        put_number(writer, "bytes", tally.bytes)?;
        put_text(alloc, writer, "folder", name.as_slice())?;
        put_number(writer, "mails", tally.count)?;
        writer.end_object()?;
    }
    writer.end_array()
}

fn put_messages(alloc: Global, writer: &mut Writer, messages: &Table) -> Result<(), AllocError> {
    writer.begin_array()?;
    for (text, tally) in messages.rows() {
        writer.begin_object()?;
        put_number(writer, "count", tally.count)?;
        put_text(alloc, writer, "message", text.as_slice())?;
        writer.end_object()?;
    }
    writer.end_array()
}

fn put_number(writer: &mut Writer, name: &str, number: u64) -> Result<(), AllocError> {
    writer.key(name)?;
    writer.u64(number)
}

fn put_text(alloc: Global, writer: &mut Writer, name: &str, text: &[u8]) -> Result<(), AllocError> {
    let text = text.to_str_lossy(alloc)?;
    writer.key(name)?;
    writer.string(text.as_str())
}

/// The mails and bytes of all folders together.
pub fn total(table: &Table) -> Tally {
    let mut all = Tally { count: 0, bytes: 0 };
    for (_, tally) in table.rows() {
        all.count = all.count.saturating_add(tally.count);
        all.bytes = all.bytes.saturating_add(tally.bytes);
    }
    all
}

fn greatest(table: &Table) -> u64 {
    let mut most = 0;
    for (_, tally) in table.rows() {
        most = most.max(tally.count);
    }
    most
}
