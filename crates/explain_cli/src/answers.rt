//! What programs answer that aren't started: `LINE=CODE[:FILE]`.
use crate::output::complain;
use crate::status::{Status, Stopped};
use memchr::{memchr, memrchr};
use pm_bytes::{Blob, Memory, read_count};
use pm_overlay::Given;
use std::alloc::Global;
use std::fs;

/// An answer, or why there is none.
#[derive(Drop)]
enum Answer {
    Given(Given),
    /// The text has another form, or its code is above 255.
    Unread,
    /// The file of the output can't be read.
    NoFile,
}

/// Reads the answers, in their order.
pub fn answers_of(rt: &HostRuntime, texts: &[&str]) -> Result<Vec<Given>, Stopped> {
    let mut given = Vec::new(rt.alloc());
    for text in texts {
        given.push(answer_of(rt, text)?)?;
    }
    Ok(given)
}

fn answer_of(rt: &HostRuntime, text: &str) -> Result<Given, Stopped> {
    match read_answer(rt, text)? {
        Answer::Given(given) => Ok(given),
        Answer::Unread => {
            complain(rt, "no answer of the form LINE=CODE[:FILE]: ", text)?;
            Err(Stopped(Status::Usage))
        }
        Answer::NoFile => {
            complain(rt, "can't read the file of ", text)?;
            Err(Stopped(Status::NoInput))
        }
    }
}

// Reads one answer. The last equals sign ends the line.
fn read_answer(rt: &HostRuntime, text: &str) -> Result<Answer, Memory> {
    let Some((line, end)) = cut_last(text.as_bytes(), b'=') else {
        return Ok(Answer::Unread);
    };
    match cut_first(end, b':') {
        None => given(rt.alloc(), line, end, None),
        Some((code, name)) => match read_output(rt, name) {
            Some(output) => given(rt.alloc(), line, code, Some(output)),
            None => Ok(Answer::NoFile),
        },
    }
}

fn given(alloc: Global, line: &[u8], code: &[u8], output: Option<Blob>) -> Result<Answer, Memory> {
    match read_count(code) {
        Some(code) if code <= 255 => Ok(Answer::Given(Given {
            line: Blob::from_slice(alloc, line)?,
            code: code as u8,
            output,
        })),
        _ => Ok(Answer::Unread),
    }
}

fn read_output(rt: &HostRuntime, name: &[u8]) -> Option<Blob> {
    let Ok(name) = std::str::from_utf8(name) else {
        return None;
    };
    match fs::read(rt, name) {
        Ok(bytes) => Some(Blob::from_vec(bytes)),
        Err(_) => None,
    }
}

// What stands before and after the last such byte.
fn cut_last(text: &[u8], byte: u8) -> Option<(&[u8], &[u8])> {
    let at = memrchr(byte, text)?;
    Some((&text[..at], &text[at + 1..]))
}

// What stands before and after the first such byte.
fn cut_first(text: &[u8], byte: u8) -> Option<(&[u8], &[u8])> {
    let at = memchr(byte, text)?;
    Some((&text[..at], &text[at + 1..]))
}
