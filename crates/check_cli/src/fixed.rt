//! Rcfiles of the command line are written anew, and what is left to do by hand is reported.
use crate::disk::{Disk, RealDisk, is_memory};
use crate::findings::found_in;
use crate::options::Options;
use crate::remarks::{Checked, Remark, Source, severity_of};
use crate::replacing::replace;
use crate::report::{add_kept, lines_of, unread};
use crate::status::{Status, status_of};
use check_find::{Line, Severity, lines_text};
use check_fix::{FixRefused, Outcome, bring_over};
use pm_bytes::{Blob, Memory};
use std::alloc::Global;
use std::io::{self, Write};
use std::path::Path;

// A text is looked at again after each change that another one may hide, at most so often.
const MOST_PASSES: usize = 100;

/// Writes each rcfile anew, on standard output or in its place, and prints on standard error what is left.
pub fn fix_all(rt: &HostRuntime, options: &Options<'_>, names: &[String]) -> io::Result<Status> {
    let mut files = Vec::new(rt.alloc());
    match fix_each(rt, options, names, &mut files) {
        Ok(()) => print_left(rt, options, files.as_slice()),
        Err(status) => Ok(status),
    }
}

fn fix_each(
    rt: &HostRuntime,
    options: &Options<'_>,
    names: &[String],
    files: &mut Vec<Checked>,
) -> Result<(), Status> {
    for name in names {
        fix_one(rt, options, name.as_str(), files)?;
    }
    Ok(())
}

fn fix_one(
    rt: &HostRuntime,
    options: &Options<'_>,
    name: &str,
    files: &mut Vec<Checked>,
) -> Result<(), Status> {
    match read(rt, name) {
        Ok(old) => fix_text(rt, options, name, old.as_slice(), files),
        Err(error) if is_memory(&error) => Err(Status::SystemError),
        Err(_) => Err(unread(rt, name)),
    }
}

fn fix_text(
    rt: &HostRuntime,
    options: &Options<'_>,
    name: &str,
    old: &[u8],
    files: &mut Vec<Checked>,
) -> Result<(), Status> {
    let Ok(new) = brought_over(rt.alloc(), old) else {
        return Err(Status::SystemError);
    };
    write_fixed(rt, options, name, old, new.as_slice())?;
    match add_left(rt.alloc(), options, name, new, files) {
        Ok(()) => Ok(()),
        Err(Memory) => Err(Status::SystemError),
    }
}

fn write_fixed(
    rt: &HostRuntime,
    options: &Options<'_>,
    name: &str,
    old: &[u8],
    new: &[u8],
) -> Result<(), Status> {
    if options.in_place {
        write_in_place(rt, name, old, new)
    } else {
        write_out(rt, new)
    }
}

fn write_out(rt: &HostRuntime, text: &[u8]) -> Result<(), Status> {
    match io::writer(rt).write_all(text) {
        Ok(()) => Ok(()),
        Err(_) => Err(Status::SystemError),
    }
}

fn write_in_place(rt: &HostRuntime, name: &str, old: &[u8], new: &[u8]) -> Result<(), Status> {
    match put_in_place(rt, name, old, new) {
        Ok(()) => Ok(()),
        Err(error) => Err(unwritten(rt, name, &error)),
    }
}

fn unwritten(rt: &HostRuntime, name: &str, error: &io::Error) -> Status {
    match tell_unwritten(rt, name, error) {
        Ok(()) => Status::NoOutput,
        Err(_) => Status::SystemError,
    }
}

fn tell_unwritten(rt: &HostRuntime, name: &str, error: &io::Error) -> io::Result<()> {
    rt.eprintln(format!(in rt.alloc(); "procmail-check: can't write {name}: {error}")?)
}

fn read(rt: &HostRuntime, name: &str) -> io::Result<Vec<u8>> {
    let disk = RealDisk { rt };
    if name == "-" {
        disk.read_input()
    } else {
        disk.read(name)
    }
}

// The text after all changes; of one that is too long it is as far as it can be.
fn brought_over(alloc: Global, text: &[u8]) -> Result<Blob, Memory> {
    let mut new = Blob::from_slice(alloc, text)?;
    for _ in 0..MOST_PASSES {
        if !bring_further(alloc, &mut new)? {
            break;
        }
    }
    Ok(new)
}

// Whether there is more to change after it.
fn bring_further(alloc: Global, text: &mut Blob) -> Result<bool, Memory> {
    match bring_over(alloc, text.as_slice()) {
        Ok(fixed) => {
            *text = fixed.text;
            Ok(matches!(fixed.outcome, Outcome::More))
        }
        Err(FixRefused::Memory) => Err(Memory),
        Err(_) => Ok(false),
    }
}

// The name of an rcfile may be a link to it.
fn put_in_place(rt: &HostRuntime, name: &str, old: &[u8], new: &[u8]) -> io::Result<()> {
    if old == new {
        return Ok(());
    }
    let path = Path::new(name).canonicalize(rt)?;
    replace(rt.alloc(), &RealDisk { rt }, path.as_str(), old, new)
}

// The forms of procmail 3.22 in the new text, and its errors.
fn add_left(
    alloc: Global,
    options: &Options<'_>,
    name: &str,
    new: Blob,
    files: &mut Vec<Checked>,
) -> Result<(), Memory> {
    let file = left_in(alloc, name, new)?;
    add_kept(alloc, options.allowed.as_slice(), file, files)
}

fn left_in(alloc: Global, name: &str, new: Blob) -> Result<Checked, Memory> {
    let text = new.into_vec(alloc)?;
    let name = String::from_str(alloc, name)?;
    let remarks = remarks_left(alloc, text.as_slice())?;
    Ok(Checked {
        name,
        text,
        remarks,
    })
}

fn remarks_left(alloc: Global, text: &[u8]) -> Result<Vec<Remark>, Memory> {
    let mut remarks = found_in(alloc, true, text)?;
    remarks.retain(|remark| match remark.source {
        Source::Moving(_) => true,
        source => matches!(severity_of(source), Severity::Error),
    });
    Ok(remarks)
}

fn print_left(rt: &HostRuntime, options: &Options<'_>, files: &[Checked]) -> io::Result<Status> {
    let lines = lines_of(rt.alloc(), files)?;
    print_lines(rt, options, lines.as_slice())
}

fn print_lines(rt: &HostRuntime, options: &Options<'_>, lines: &[Line<'_>]) -> io::Result<Status> {
    if !options.quiet {
        let text = lines_text(rt.alloc(), lines)?;
        rt.stderr().write_all(text.as_slice())?;
    }
    Ok(status_of(lines))
}
