//! The log files are read and the sums of all of them printed.
use crate::Status;
use crate::options::{Format, Options};
use crate::written::{json_line, total, write_text};
use log_summary::{Summary, add_log};
use pm_bytes::Memory;
use std::alloc::Global;
use std::fs;
use std::io::{self, BufWriter, IsTerminal, Write};

/// Prints what the log files say; the number of the exit status.
pub fn report_on(rt: &HostRuntime, options: &Options<'_>) -> io::Result<u8> {
    let alloc = rt.alloc();
    let mut sums = Summary::new(alloc);
    for name in options.logs.as_slice() {
        let name = if options.old {
            format!(in alloc; "{name}.old")?
        } else {
            format!(in alloc; "{name}")?
        };
        let Ok(log) = fs::read(rt, name.as_str()) else {
            rt.eprintln(format!(in alloc; "procmail-stat: can't read {name}")?)?;
            return Ok(Status::NoInput.number());
        };
        enough(add_log(alloc, &mut sums, log.as_slice(), options.first))?;
    }
    enough(sums.sort())?;
    print(rt, &sums, options.format)?;
    let status = if total(&sums.folders).count == 0 {
        Status::NoMail
    } else {
        Status::Delivered
    };
    Ok(status.number())
}

// Want of memory as an error of input and output, as std gives it.
fn enough<T>(made: Result<T, Memory>) -> io::Result<T> {
    match made {
        Ok(value) => Ok(value),
        Err(Memory) => Err(io::Error::from(io::ErrorKind::OutOfMemory)),
    }
}

fn print(rt: &HostRuntime, sums: &Summary, format: Format) -> io::Result<()> {
    let alloc = rt.alloc();
    match format {
        Format::Text => {
            let mut out = BufWriter::new(alloc, io::writer(rt))?;
            write_text(&mut out, sums, rt.stdout().is_terminal())?;
            out.flush()
        }
        Format::Json => io::writer(rt).write_all(json_line(alloc, sums)?.as_slice()),
    }
}
