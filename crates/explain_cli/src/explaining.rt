//! What becomes of each mail.
use crate::answers::answers_of;
use crate::comparing::compare;
use crate::input::read_mails;
use crate::options::{Format, Options};
use crate::output::{Progress, complain, write_out};
use crate::running::{Ran, Runs};
use crate::status::{Status, Stopped};
use crate::words::{line_of, owned, telling};
use explain_host::Machine;
use explain_mails::{
    Outcome, mail_heading, mail_line, mail_object, outcome_object, run_object, subject_of,
};
use explain_notes::explain as run_text;
use explain_run::with_started;
use explain_text::{result_line, steps_of};
use pm_bytes::{Blob, Memory};
use pm_meaning::CommandLine;
use std::alloc::Global;

/// Prints what procmail would do with the mail on standard input, or with each mail of the mailbox there.
pub fn explain(rt: &HostRuntime, options: &Options<'_>) -> Result<Status, Stopped> {
    let words = owned(rt.alloc(), options.words.as_slice())?;
    explain_words(rt, options, words.as_slice())?;
    Ok(Status::Explained)
}

fn explain_words(rt: &HostRuntime, options: &Options<'_>, words: &[String]) -> Result<(), Stopped> {
    let line = line_of(rt, words)?;
    explain_line(rt, options, words, &line)
}

fn explain_line(
    rt: &HostRuntime,
    options: &Options<'_>,
    words: &[String],
    line: &CommandLine,
) -> Result<(), Stopped> {
    let runs = runs_of(rt, options)?;
    explain_by(rt, options, &runs, words, line)
}

fn runs_of(rt: &HostRuntime, options: &Options<'_>) -> Result<Runs, Stopped> {
    let given = answers_of(rt, options.answers.as_slice())?;
    let machine = Machine::new(rt)?;
    Ok(Runs {
        machine,
        given,
        starts: options.starts,
    })
}

fn explain_by(
    rt: &HostRuntime,
    options: &Options<'_>,
    runs: &Runs,
    words: &[String],
    line: &CommandLine,
) -> Result<(), Stopped> {
    let mails = read_mails(rt, options.is_mailbox)?;
    let mails = mails.as_slice();
    match options.rcfile {
        Some(rcfile) => compare(rt, options, runs, line, rcfile, mails),
        None if options.is_mailbox && options.quiet => explain_told(rt, options, runs, line, mails),
        None => explain_all(rt, options, runs, words, mails),
    }
}

// By the words by which the journal tells each delivery.
fn explain_told(
    rt: &HostRuntime,
    options: &Options<'_>,
    runs: &Runs,
    line: &CommandLine,
    mails: &[Blob],
) -> Result<(), Stopped> {
    let words = telling(rt.alloc(), line)?;
    explain_all(rt, options, runs, words.as_slice(), mails)
}

fn explain_all(
    rt: &HostRuntime,
    options: &Options<'_>,
    runs: &Runs,
    words: &[String],
    mails: &[Blob],
) -> Result<(), Stopped> {
    let progress = Progress::new(rt, mails.len(), options.is_mailbox);
    for (index, mail) in mails.iter().enumerate() {
        progress.show(rt, index);
        explain_one(rt, options, runs, words, index as u64 + 1, mail)?;
    }
    progress.end(rt);
    Ok(())
}

fn explain_one(
    rt: &HostRuntime,
    options: &Options<'_>,
    runs: &Runs,
    words: &[String],
    number: u64,
    mail: &Blob,
) -> Result<(), Stopped> {
    let text = if !options.is_mailbox {
        one_text(rt, options, runs, words, mail)?
    } else if options.quiet {
        outcome_text(rt, options.format, runs, words, number, mail)?
    } else {
        mail_text(rt, options.format, runs, words, number, mail)?
    };
    write_out(rt, &text)
}

fn one_text(
    rt: &HostRuntime,
    options: &Options<'_>,
    runs: &Runs,
    words: &[String],
    mail: &Blob,
) -> Result<Blob, Stopped> {
    let ran = runs.run(rt, words, mail)?;
    run_told(rt, options, &ran)
}

// A run that did nothing at all was refused before it began.
fn run_told(rt: &HostRuntime, options: &Options<'_>, ran: &Ran) -> Result<Blob, Stopped> {
    if ran.journal.entries().is_empty() {
        complain_of(rt, ran.status)?;
    }
    Ok(text_of(rt.alloc(), options, ran)?)
}

fn complain_of(rt: &HostRuntime, status: u8) -> Result<(), Stopped> {
    let what = format!(in rt.alloc(); "procmail would end with status {status} before it begins")?;
    complain(rt, what.as_str(), "")
}

fn text_of(alloc: Global, options: &Options<'_>, ran: &Ran) -> Result<Blob, Memory> {
    match options.format {
        Format::Json => run_object(
            alloc,
            options.quiet,
            ran.journal.entries(),
            ran.notes.as_slice(),
            ran.status,
        ),
        Format::Text if options.quiet => told(alloc, result_of(alloc, ran)?, ran),
        Format::Text => lines_of(alloc, ran),
    }
}

fn result_of(alloc: Global, ran: &Ran) -> Result<Blob, Memory> {
    let steps = steps_of(alloc, ran.journal.entries())?;
    result_line(alloc, steps.as_slice(), ran.status)
}

fn lines_of(alloc: Global, ran: &Ran) -> Result<Blob, Memory> {
    let entries = ran.journal.entries();
    let text = run_text(alloc, entries, ran.notes.as_slice(), ran.status)?;
    told(alloc, text, ran)
}

// The text of a run, with the programs that were started.
fn told(alloc: Global, text: Blob, ran: &Ran) -> Result<Blob, Memory> {
    match ran.started.as_slice() {
        [] => Ok(text),
        started => with_started(alloc, text.as_slice(), started),
    }
}

// Where a mail of a mailbox goes.
fn outcome_text(
    rt: &HostRuntime,
    format: Format,
    runs: &Runs,
    words: &[String],
    number: u64,
    mail: &Blob,
) -> Result<Blob, Memory> {
    let subject = subject_of(rt.alloc(), mail.as_slice())?;
    let outcome = runs.outcome(rt, words, mail)?;
    outcome_told(rt.alloc(), format, number, &subject, &outcome)
}

fn outcome_told(
    alloc: Global,
    format: Format,
    number: u64,
    subject: &Option<Blob>,
    outcome: &Outcome,
) -> Result<Blob, Memory> {
    match format {
        Format::Text => mail_line(alloc, number, subject, outcome),
        Format::Json => outcome_object(alloc, number, subject, outcome),
    }
}

// What is done with a mail of a mailbox.
fn mail_text(
    rt: &HostRuntime,
    format: Format,
    runs: &Runs,
    words: &[String],
    number: u64,
    mail: &Blob,
) -> Result<Blob, Memory> {
    let subject = subject_of(rt.alloc(), mail.as_slice())?;
    let ran = runs.run(rt, words, mail)?;
    mail_told(rt.alloc(), format, number, &subject, &ran)
}

fn mail_told(
    alloc: Global,
    format: Format,
    number: u64,
    subject: &Option<Blob>,
    ran: &Ran,
) -> Result<Blob, Memory> {
    match format {
        Format::Json => mail_object(
            alloc,
            number,
            subject,
            ran.journal.entries(),
            ran.notes.as_slice(),
            ran.status,
        ),
        Format::Text => mail_lines(alloc, number, subject, ran),
    }
}

fn mail_lines(
    alloc: Global,
    number: u64,
    subject: &Option<Blob>,
    ran: &Ran,
) -> Result<Blob, Memory> {
    let lines = lines_of(alloc, ran)?;
    let mut text = mail_heading(alloc, number, subject)?;
    text.push_slice(lines.as_slice())?;
    Ok(text)
}
