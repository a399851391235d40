//! What is reported of an rcfile.
use crate::forms::is_form_code;
use crate::places::column_of;
use check_find::{
    Code, DiskMistake, Fault, Finding, Hint, Mistake, Severity, disk_message, disk_name,
    disk_severity, is_disk_code, message, name_of, severity_of as severity_in,
};
use check_moving::{Finding as FoundForm, Form, form_code, form_message};
use std::alloc::{AllocError, Global};

/// Where it comes from.
#[derive(Clone, Copy)]
pub enum Source {
    Text(Code),
    Moving(Form),
    Disk(DiskMistake),
}

/// A remark, with its message.
#[derive(Drop)]
pub struct Remark {
    pub source: Source,
    pub line: u64,
    pub column: u64,
    pub text: String,
}

/// An rcfile that was read, and what was found in it.
#[derive(Drop)]
pub struct Checked {
    pub name: String,
    pub text: Vec<u8>,
    pub remarks: Vec<Remark>,
}

// One of each name.
const CODES: [Code; 23] = [
    Code::Defect(Hint::Other),
    Code::Condition(Fault::Weight),
    Code::Condition(Fault::Size),
    Code::Condition(Fault::Expression),
    Code::Mistake(Mistake::NoStar),
    Code::Mistake(Mistake::ColonVariable),
    Code::Mistake(Mistake::NoLock),
    Code::Mistake(Mistake::Words),
    Code::Mistake(Mistake::Dot),
    Code::Mistake(Mistake::Unanchored),
    Code::Mistake(Mistake::Plus),
    Code::Mistake(Mistake::Tag),
    Code::Mistake(Mistake::Pcre),
    Code::Mistake(Mistake::Comment),
    Code::Mistake(Mistake::FilterW),
    Code::Mistake(Mistake::PipeF),
    Code::Mistake(Mistake::Loop),
    Code::Mistake(Mistake::LostPart),
    Code::Mistake(Mistake::FormailLock),
    Code::Mistake(Mistake::Tilde),
    Code::Mistake(Mistake::BareWord),
    Code::Mistake(Mistake::Dev),
    Code::Mistake(Mistake::Unreachable),
];

/// Whether the word is the name of a code.
pub fn is_code(word: &str) -> bool {
    is_disk_code(word) || is_form_code(word) || CODES.iter().any(|code| name_of(*code) == word)
}

/// The name of the code.
pub fn code_of(source: Source) -> &'static str {
    match source {
        Source::Text(code) => name_of(code),
        Source::Moving(form) => form_code(form),
        Source::Disk(mistake) => disk_name(mistake),
    }
}

/// How grave it is.
pub fn severity_of(source: Source) -> Severity {
    match source {
        Source::Text(code) => severity_in(code),
        Source::Moving(_) => Severity::Warning,
        Source::Disk(mistake) => disk_severity(mistake),
    }
}

/// A finding as a remark. The message of a bare word ends with it.
pub fn of_finding(alloc: Global, text: &[u8], finding: &Finding) -> Result<Remark, AllocError> {
    Ok(Remark {
        source: Source::Text(finding.code),
        line: finding.line,
        column: finding.column,
        text: finding_text(alloc, text, finding)?,
    })
}

fn finding_text(alloc: Global, text: &[u8], finding: &Finding) -> Result<String, AllocError> {
    let about = String::from_utf8_lossy(alloc, about_of(text, finding))?;
    with_about(alloc, message(finding.code), about.as_str())
}

fn about_of<'a>(text: &'a [u8], finding: &Finding) -> &'a [u8] {
    match finding.code {
        Code::Mistake(Mistake::BareWord) => part(text, finding),
        _ => &[],
    }
}

/// A form of procmail 3.22 as a remark.
pub fn of_form(alloc: Global, text: &[u8], found: &FoundForm) -> Result<Remark, AllocError> {
    Ok(Remark {
        source: Source::Moving(found.form),
        line: found.line,
        column: column_of(text, found.first),
        text: String::from_str(alloc, form_message(found.form))?,
    })
}

/// What the disk shows as a remark.
pub fn of_disk(
    alloc: Global,
    mistake: DiskMistake,
    line: u64,
    column: u64,
    about: &str,
) -> Result<Remark, AllocError> {
    Ok(Remark {
        source: Source::Disk(mistake),
        line,
        column,
        text: with_about(alloc, disk_message(mistake), about)?,
    })
}

// The bytes that a finding is about.
fn part<'a>(text: &'a [u8], finding: &Finding) -> &'a [u8] {
    match text.get(finding.first..finding.last) {
        Some(part) => part,
        None => &[],
    }
}

// The message, and after a colon what it is about.
fn with_about(alloc: Global, message: &str, about: &str) -> Result<String, AllocError> {
    let mut text = String::from_str(alloc, message)?;
    if !about.is_empty() {
        text.push_str(": ")?;
        text.push_str(about)?;
    }
    Ok(text)
}
