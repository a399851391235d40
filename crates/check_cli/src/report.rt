//! The rcfiles of the command line are checked, and what was found is printed.
use crate::allowed::keep_reported;
use crate::arguments::{Argument, argument_of};
use crate::checking::{Checking, Stopped};
use crate::disk::RealDisk;
use crate::fixed::fix_all;
use crate::options::{Format, Options, VERSION};
use crate::remarks::{Checked, Remark, code_of, is_code, severity_of};
use crate::status::{Status, status_of};
use check_find::{Line, json_text, lines_text, sarif_text};
use pm_bytes::Memory;
use std::alloc::{AllocError, Global};
use std::env;
use std::io::{self, Write};

/// Checks what the options name, and prints it.
pub fn report_on(rt: &HostRuntime, options: &Options<'_>) -> io::Result<Status> {
    match refusal_of(rt.alloc(), options)? {
        Some(refusal) => refuse(rt, refusal.as_str()),
        None => report_at_home(rt, options),
    }
}

fn refuse(rt: &HostRuntime, text: &str) -> io::Result<Status> {
    rt.eprintln(text)?;
    Ok(Status::Usage)
}

fn report_at_home(rt: &HostRuntime, options: &Options<'_>) -> io::Result<Status> {
    let home = env::var(rt, "HOME").ok();
    report_from(rt, options, home.as_ref().map(|home| home.as_str()))
}

fn report_from(rt: &HostRuntime, options: &Options<'_>, home: Option<&str>) -> io::Result<Status> {
    let names = rcfiles(rt.alloc(), options, home)?;
    report_names(rt, options, home, names.as_slice())
}

fn report_names(
    rt: &HostRuntime,
    options: &Options<'_>,
    home: Option<&str>,
    names: &[String],
) -> io::Result<Status> {
    if names.is_empty() {
        return refuse(rt, "procmail-check: HOME isn't set, so name an rcfile");
    }
    if options.fix {
        return fix_all(rt, options, names);
    }
    let mut files = Vec::new(rt.alloc());
    match add_all(rt, options, home, names, &mut files) {
        Ok(()) => print(rt, options, files.as_slice()),
        Err(status) => Ok(status),
    }
}

fn add_all(
    rt: &HostRuntime,
    options: &Options<'_>,
    home: Option<&str>,
    names: &[String],
    files: &mut Vec<Checked>,
) -> Result<(), Status> {
    for name in names {
        match add_checked(rt, options, home, name.as_str(), files) {
            Ok(()) => {}
            Err(Stopped::Memory) => return Err(Status::SystemError),
            Err(Stopped::Unreadable) => return Err(unread(rt, name.as_str())),
        }
    }
    Ok(())
}

/// It is told that the rcfile can't be read.
pub fn unread(rt: &HostRuntime, name: &str) -> Status {
    match tell_unread(rt, name) {
        Ok(()) => Status::NoInput,
        Err(_) => Status::SystemError,
    }
}

fn tell_unread(rt: &HostRuntime, name: &str) -> io::Result<()> {
    rt.eprintln(format!(in rt.alloc(); "procmail-check: can't read {name}")?)
}

// What is wrong with the arguments, if anything is.
fn refusal_of(alloc: Global, options: &Options<'_>) -> Result<Option<String>, AllocError> {
    for code in options.allowed.as_slice() {
        if !is_code(*code) {
            return Ok(Some(format!(in alloc; "procmail-check: there is no code {code}")?));
        }
    }
    for word in options.words.as_slice() {
        if matches!(argument_of(*word), Argument::NoName) {
            return Ok(Some(format!(in alloc;
                "procmail-check: no name of a variable is before the = of {word}"
            )?));
        }
    }
    match fix_refusal(options) {
        Some(text) => Ok(Some(String::from_str(alloc, text)?)),
        None => Ok(None),
    }
}

// Of several rcfiles it isn't said where one ends, and standard input has no name.
fn fix_refusal(options: &Options<'_>) -> Option<&'static str> {
    let mut count: usize = 0;
    let mut is_input = false;
    for word in options.words.as_slice() {
        if let Argument::Rcfile(name) = argument_of(*word) {
            count = count.saturating_add(1);
            is_input = is_input || name == "-";
        }
    }
    if options.in_place && !options.fix {
        return Some("procmail-check: --in-place needs --fix");
    }
    if options.in_place && is_input {
        return Some("procmail-check: --in-place needs the name of an rcfile");
    }
    if options.fix && !options.in_place && count > 1 {
        return Some("procmail-check: --fix without --in-place takes one rcfile");
    }
    None
}

// The rcfiles that are named, or else the user's own.
fn rcfiles(
    alloc: Global,
    options: &Options<'_>,
    home: Option<&str>,
) -> Result<Vec<String>, AllocError> {
    let mut names = Vec::new(alloc);
    for word in options.words.as_slice() {
        if let Argument::Rcfile(name) = argument_of(*word) {
            names.push(String::from_str(alloc, name)?)?;
        }
    }
    if let Some(home) = home
        && names.is_empty()
    {
        names.push(format!(in alloc; "{home}/.procmailrc")?)?;
    }
    Ok(names)
}

// One rcfile and all that it names, without what isn't reported.
fn add_checked(
    rt: &HostRuntime,
    options: &Options<'_>,
    home: Option<&str>,
    name: &str,
    files: &mut Vec<Checked>,
) -> Result<(), Stopped> {
    let mut checking = Checking::new(rt.alloc(), !options.no_disk, options.from_old);
    check(rt, &mut checking, options, home, name)?;
    Ok(add_reported(rt.alloc(), options.allowed.as_slice(), checking, files)?)
}

fn check(
    rt: &HostRuntime,
    checking: &mut Checking,
    options: &Options<'_>,
    home: Option<&str>,
    name: &str,
) -> Result<(), Stopped> {
    begin(rt, checking, options, home, name)?;
    checking.check(&RealDisk { rt }, name)
}

fn add_reported(
    alloc: Global,
    allowed: &[&str],
    checking: Checking,
    files: &mut Vec<Checked>,
) -> Result<(), Memory> {
    for file in checking.into_files() {
        add_kept(alloc, allowed, file, files)?;
    }
    Ok(())
}

/// Adds an rcfile without what isn't reported.
pub fn add_kept(
    alloc: Global,
    allowed: &[&str],
    file: Checked,
    files: &mut Vec<Checked>,
) -> Result<(), Memory> {
    let mut file = file;
    keep_reported(alloc, allowed, &mut file)?;
    Ok(files.push(file)?)
}

// What is known before the first line, as procmail(1) has it.
fn begin(
    rt: &HostRuntime,
    checking: &mut Checking,
    options: &Options<'_>,
    home: Option<&str>,
    name: &str,
) -> Result<(), Memory> {
    if options.filter || name.as_bytes().starts_with(b"./") {
        checking.begin_in(".")?;
    } else if let Some(home) = home {
        checking.begin_in(home)?;
    }
    checking.begin_with(b"PATH", b"/usr/bin:/bin")?;
    if let Some(home) = home {
        checking.begin_with(b"HOME", home.as_bytes())?;
    }
    if let Ok(user) = env::var(rt, "LOGNAME") {
        checking.begin_with(b"LOGNAME", user.as_bytes())?;
    }
    for word in options.words.as_slice() {
        if let Argument::Assignment { name, value } = argument_of(*word) {
            checking.start_with(name, value)?;
        }
    }
    Ok(())
}

fn print(rt: &HostRuntime, options: &Options<'_>, files: &[Checked]) -> io::Result<Status> {
    let lines = lines_of(rt.alloc(), files)?;
    print_lines(rt, options, lines.as_slice())
}

fn print_lines(rt: &HostRuntime, options: &Options<'_>, lines: &[Line<'_>]) -> io::Result<Status> {
    if !options.quiet {
        match options.format {
            Format::Text => print_text(rt, lines)?,
            Format::Json => rt.println(json_text(rt.alloc(), lines)?)?,
            Format::Sarif => rt.println(sarif_text(rt.alloc(), VERSION, lines)?)?,
        }
    }
    Ok(status_of(lines))
}

fn print_text(rt: &HostRuntime, lines: &[Line<'_>]) -> io::Result<()> {
    let text = lines_text(rt.alloc(), lines)?;
    io::writer(rt).write_all(text.as_slice())
}

/// The lines of rcfiles.
pub fn lines_of<'a>(alloc: Global, files: &'a [Checked]) -> Result<Vec<Line<'a>>, AllocError> {
    let mut lines = Vec::new(alloc);
    for file in files {
        add_lines(&mut lines, file)?;
    }
    Ok(lines)
}

fn add_lines<'a>(lines: &mut Vec<Line<'a>>, file: &'a Checked) -> Result<(), AllocError> {
    for remark in file.remarks.as_slice() {
        lines.push(line_of(file.name.as_str(), remark))?;
    }
    Ok(())
}

fn line_of<'a>(file: &'a str, remark: &'a Remark) -> Line<'a> {
    Line {
        file,
        line: remark.line,
        column: remark.column,
        severity: severity_of(remark.source),
        text: remark.text.as_str(),
        code: code_of(remark.source),
    }
}
