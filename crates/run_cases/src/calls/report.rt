//! The lines that are printed.
use crate::calls::failed::Failed;
use pm_bytes::{Blob, Memory};
use std::alloc::Global;
use std::fmt::{Debug, Write};

/// A line for each answer so far, and whether one was lost because memory was wanting.
#[derive(Drop)]
pub struct Report {
    text: String,
    lost: bool,
}

impl Report {
    pub fn new(alloc: Global) -> Report {
        Report {
            text: String::new(alloc),
            lost: false,
        }
    }

    /// A call that answered with this word.
    pub fn word(&mut self, call: &str, word: &str) {
        let written = writeln!(self.text, "{call}: {word}");
        self.lost |= written.is_err();
    }

    /// One that answered so.
    pub fn answer<D: Debug + Drop>(&mut self, call: &str, answer: D) {
        let written = writeln!(self.text, "{call}: {answer:?}");
        self.lost |= written.is_err();
    }

    /// One that answered with these bytes.
    pub fn bytes(&mut self, call: &str, bytes: &[u8]) {
        self.answer(call, std::str::from_utf8(bytes).unwrap_or("?"));
    }

    /// One that answered with these bytes, or with none.
    pub fn file(&mut self, call: &str, answer: Option<&[u8]>) {
        match answer {
            Some(bytes) => self.bytes(call, bytes),
            None => self.word(call, "None"),
        }
    }

    /// One that answered with bytes, or has no answer for want of memory.
    pub fn blob(&mut self, call: &str, answer: Result<Blob, Memory>) {
        match answer {
            Ok(blob) => self.bytes(call, blob.as_slice()),
            Err(Memory) => self.lost = true,
        }
    }

    /// Some lines, of which each is there or one has no answer.
    pub fn lines(&mut self, made: Result<(), Failed>) {
        self.lost |= made.is_err();
    }

    pub fn is_lost(&self) -> bool {
        self.lost
    }

    pub fn text(&self) -> &str {
        self.text.as_str()
    }
}
