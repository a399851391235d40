//! The lines of a file of cases, each with the text that stands below it.
use crate::Refused;
use crate::words::{Texts, read_words};
use std::alloc::Global;

/// A line with its number, from 1, and its words. A text below the line is its last word.
#[derive(Drop)]
pub struct Line {
    pub number: u64,
    pub words: Vec<Vec<u8>>,
}

impl Line {
    /// The first word as text, or nothing.
    pub fn key(&self) -> &str {
        match self.words.first() {
            Some(word) => std::str::from_utf8(word).unwrap_or(""),
            None => "",
        }
    }

    /// The words after the first.
    pub fn arguments(&self) -> &[Vec<u8>] {
        match self.words.split_first() {
            Some((_, rest)) => rest,
            None => &[],
        }
    }
}

#[derive(Drop)]
struct LineReader {
    alloc: Global,
    texts: Texts,
    lines: Vec<Line>,
    current: Option<Line>,
    // Whether the current line's last word is a text that goes on.
    in_text: bool,
}

/// The lines of a file. A line of its own begins with a word; the lines of a text below it begin with `|`,
/// `"` or `@`.
pub fn read_lines(alloc: Global, file: &str) -> Result<Vec<Line>, Refused> {
    let mut reader = LineReader {
        alloc,
        texts: Texts::new(alloc),
        lines: Vec::new(alloc),
        current: None,
        in_text: false,
    };
    let mut number = 0u64;
    for line in file.lines() {
        number = number.saturating_add(1);
        if let Err(refused) = reader.take(number, line.trim_start()) {
            return Err(refused.at(number));
        }
    }
    reader.end_line()?;
    Ok(reader.lines)
}

fn push_words(known: &mut Vec<Vec<u8>>, words: Vec<Vec<u8>>) -> Result<(), Refused> {
    let has_arrow = known.iter().any(|word| is_arrow(word));
    for word in words {
        if !has_arrow || !is_arrow(&word) {
            known.push(word)?;
        }
    }
    Ok(())
}

fn is_arrow(word: &[u8]) -> bool {
    word == b"->".as_slice()
}

impl LineReader {
    fn take(&mut self, number: u64, line: &str) -> Result<(), Refused> {
        if line.is_empty() || line.starts_with('#') {
            return Ok(());
        }
        if let Some(text) = line.strip_prefix('|') {
            return self.add_line(text.strip_prefix(' ').unwrap_or(text));
        }
        if line.starts_with('"') || line.starts_with('@') {
            return self.add_pieces(line);
        }
        if line.starts_with("->") {
            return self.go_on(line);
        }
        self.begin_line(number, line)
    }

    fn begin_line(&mut self, number: u64, line: &str) -> Result<(), Refused> {
        self.end_line()?;
        let words = read_words(self.alloc, line, &self.texts)?;
        self.current = Some(Line { number, words });
        Ok(())
    }

    // Adds a line to the text below the current line.
    fn add_line(&mut self, line: &str) -> Result<(), Refused> {
        self.add_text(line.as_bytes())?;
        self.add_text(b"\n")
    }

    // Adds bytes to the text below the current line.
    fn add_text(&mut self, bytes: &[u8]) -> Result<(), Refused> {
        let Some(line) = &mut self.current else {
            return Err(Refused::Misread("a text stands below a line"));
        };
        if !self.in_text {
            line.words.push(Vec::new(self.alloc))?;
            self.in_text = true;
        }
        if let Some(text) = line.words.last_mut() {
            text.extend_from_slice(bytes)?;
        }
        Ok(())
    }

    fn add_pieces(&mut self, line: &str) -> Result<(), Refused> {
        for piece in read_words(self.alloc, line, &self.texts)? {
            self.add_text(&piece)?;
        }
        Ok(())
    }

    // Adds the words after an arrow to the current line, and the arrow itself where the line has none yet.
    fn go_on(&mut self, line: &str) -> Result<(), Refused> {
        let words = read_words(self.alloc, line, &self.texts)?;
        self.in_text = false;
        match &mut self.current {
            Some(current) => push_words(&mut current.words, words),
            None => Err(Refused::Misread("an arrow stands behind a line")),
        }
    }

    // Ends the current line. One that begins with `text` names a text.
    fn end_line(&mut self) -> Result<(), Refused> {
        self.in_text = false;
        let Some(line) = self.current.take() else {
            return Ok(());
        };
        if line.key() != "text" {
            self.lines.push(line)?;
            return Ok(());
        }
        self.define(line)
    }

    fn define(&mut self, line: Line) -> Result<(), Refused> {
        let Line { number, words } = line;
        let [_, name, text] = words.as_slice() else {
            return Err(Refused::Misread("a text has a name and its bytes").at(number));
        };
        let name = name.as_slice().to_vec(self.alloc)?;
        let text = text.as_slice().to_vec(self.alloc)?;
        self.texts.insert(name, text)?;
        Ok(())
    }
}
