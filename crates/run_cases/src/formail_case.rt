//! A case of formail: its words, its input and its outside, and what is wanted.
use cases::{Line, Outside, Refused, Tries, Words, copy_of, read_u64, text_of};
use pm_bytes::Memory;
use std::alloc::Global;

/// What formail is started with, and what is wanted of it.
#[derive(Drop)]
pub struct FormailCase {
    pub alloc: Global,
    /// The line that began it.
    pub line: u64,
    pub words: Words,
    pub arguments: Vec<String>,
    pub mail: Vec<u8>,
    /// The read of the mail with this number, from 1, fails.
    pub mail_fails: Option<u64>,
    /// The write of the output with this number fails.
    pub out_lost: Option<u64>,
    pub outside: Outside,
    pub tries: Tries,
}

const NO_COMMAND: Refused = Refused::Misread(
    "a case is: formail WORD .. < MAIL, and the status and the output behind an arrow",
);

impl FormailCase {
    /// Reads the line that begins a case.
    pub fn new(alloc: Global, line: &Line) -> Result<FormailCase, Refused> {
        let words = line.arguments();
        let (command, wanted) = parts_at(words, b"->");
        let (arguments, input) = parts_at(command, b"<");
        let [mail] = input else {
            return Err(NO_COMMAND);
        };
        let mut case = FormailCase {
            alloc,
            line: line.number,
            words: copy_of(alloc, arguments)?,
            arguments: strings_of(alloc, arguments)?,
            mail: mail.as_slice().to_vec(alloc)?,
            mail_fails: None,
            out_lost: None,
            outside: Outside::new(alloc),
            tries: Tries::new(alloc),
        };
        case.want_all(wanted)?;
        Ok(case)
    }

    fn want_all(&mut self, wanted: &[Vec<u8>]) -> Result<(), Refused> {
        match wanted {
            [] => Ok(()),
            [status] => self.want("status", status),
            [status, out] => {
                self.want("status", status)?;
                self.want("out", out)
            }
            _ => Err(NO_COMMAND),
        }
    }

    fn want(&mut self, key: &str, word: &[u8]) -> Result<(), Refused> {
        let told = self.tries.last()?;
        told.begin(key)?;
        told.add(word)?;
        Ok(())
    }

    fn want_calls(&mut self, words: &[Vec<u8>]) -> Result<(), Refused> {
        let names = joined(self.alloc, words)?;
        self.want("calls", &names)
    }

    /// Reads a line of the case.
    pub fn take(&mut self, line: &Line) -> Result<(), Refused> {
        if self.outside.take(line)? || self.tries.take(line)? {
            return Ok(());
        }
        match line.key() {
            "mail-fails" => self.mail_fails = Some(only_number(line)?),
            "lost-out" => self.out_lost = Some(only_number(line)?),
            "status" | "out" | "left" | "gone" | "got" | "unread" => {
                self.tries.last()?.tell(&line.words)?;
            }
            "calls" => return self.want_calls(line.arguments()),
            _ => return Err(Refused::Misread("no case of formail has such a line")),
        }
        Ok(())
    }
}

// The words before the mark, and those after it.
fn parts_at<'a>(words: &'a [Vec<u8>], mark: &[u8]) -> (&'a [Vec<u8>], &'a [Vec<u8>]) {
    let Some(at) = words.iter().position(|word| word.as_slice() == mark) else {
        return (words, &[]);
    };
    let front = words.get(..at).unwrap_or(words);
    let behind = words.get(at.saturating_add(1)..).unwrap_or(words);
    (front, behind)
}

fn only_number(line: &Line) -> Result<u64, Refused> {
    match line.arguments() {
        [word] => read_u64(word),
        _ => Err(Refused::Misread("one number is wanted")),
    }
}

fn strings_of(alloc: Global, words: &[Vec<u8>]) -> Result<Vec<String>, Memory> {
    let mut strings = Vec::new(alloc);
    for word in words {
        strings.push(String::from_str(alloc, text_of(word))?)?;
    }
    Ok(strings)
}

// The words with a blank between them.
fn joined(alloc: Global, words: &[Vec<u8>]) -> Result<Vec<u8>, Memory> {
    let mut text = Vec::new(alloc);
    for word in words {
        if !text.is_empty() {
            text.push(b' ')?;
        }
        text.extend_from_slice(word)?;
    }
    Ok(text)
}
