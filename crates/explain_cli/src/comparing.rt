//! The mails by two rcfiles.
use crate::options::{Format, Options};
use crate::output::{Progress, complain, write_out};
use crate::running::Runs;
use crate::status::{Status, Stopped};
use crate::words::{telling, telling_with};
use explain_mails::{Compared, comparison, comparison_object, subject_of};
use pm_bytes::{Blob, Memory};
use pm_meaning::CommandLine;
use std::fs;

/// The words of both runs.
#[derive(Drop)]
struct Both {
    old: Vec<String>,
    new: Vec<String>,
}

/// Prints which mails go elsewhere by another rcfile.
pub fn compare(
    rt: &HostRuntime,
    options: &Options<'_>,
    runs: &Runs,
    line: &CommandLine,
    rcfile: &str,
    mails: &[Blob],
) -> Result<(), Stopped> {
    check_rcfile(rt, rcfile)?;
    let both = both_of(rt, line, rcfile)?;
    let progress = Progress::new(rt, mails.len(), options.is_mailbox);
    let compared = compare_all(rt, runs, &both, mails, progress)?;
    progress.end(rt);
    print(rt, options, compared.as_slice())
}

fn both_of(rt: &HostRuntime, line: &CommandLine, rcfile: &str) -> Result<Both, Stopped> {
    let old = telling(rt.alloc(), line)?;
    let new = telling_with(rt, line, rcfile)?;
    Ok(Both { old, new })
}

// A name that is mistyped would put all mails elsewhere.
fn check_rcfile(rt: &HostRuntime, rcfile: &str) -> Result<(), Stopped> {
    if fs::read(rt, rcfile).is_ok() {
        return Ok(());
    }
    complain(rt, "can't read ", rcfile)?;
    Err(Stopped(Status::NoInput))
}

fn compare_all(
    rt: &HostRuntime,
    runs: &Runs,
    both: &Both,
    mails: &[Blob],
    progress: Progress,
) -> Result<Vec<Compared>, Memory> {
    let mut compared = Vec::new(rt.alloc());
    for (index, mail) in mails.iter().enumerate() {
        progress.show(rt, index);
        compared.push(compare_one(rt, runs, both, index as u64 + 1, mail)?)?;
    }
    Ok(compared)
}

fn compare_one(
    rt: &HostRuntime,
    runs: &Runs,
    both: &Both,
    number: u64,
    mail: &Blob,
) -> Result<Compared, Memory> {
    let subject = subject_of(rt.alloc(), mail.as_slice())?;
    let old = runs.outcome(rt, both.old.as_slice(), mail)?;
    let new = runs.outcome(rt, both.new.as_slice(), mail)?;
    Ok(Compared {
        number,
        subject,
        old,
        new,
    })
}

fn print(rt: &HostRuntime, options: &Options<'_>, mails: &[Compared]) -> Result<(), Stopped> {
    let text = match options.format {
        Format::Text => comparison(rt.alloc(), options.quiet, mails)?,
        Format::Json => comparison_object(rt.alloc(), options.quiet, mails)?,
    };
    write_out(rt, &text)
}
