//! What a run of the program begins with, and what is wanted of it.
use cases::{Line, Outside, Refused, Tries, Words, copy_of, read_u64, text_of};
use pm_bytes::Memory;
use std::alloc::Global;

/// What fails in one try besides what the plan names: two calls of the host, of which the number 0 is none, and
/// a write to `err`.
#[derive(Clone, Copy)]
pub struct Choice {
    pub failing: [u64; 2],
    pub lost: Option<u64>,
}

/// A run of the program.
#[derive(Drop)]
pub struct Plan {
    pub alloc: Global,
    /// The line that began it.
    pub line: u64,
    pub name: Words,
    pub words: Vec<String>,
    pub variables: Vec<(String, String)>,
    pub mail: Vec<u8>,
    /// The read of the mail with this number, from 1, fails.
    pub mail_fails: Option<u64>,
    /// The write to `out` with this number fails.
    pub out_lost: Option<u64>,
    /// The write to `err` with this number fails.
    pub lost: Option<u64>,
    /// Each of the first so many writes to `err` is lost, one at a time, and none.
    pub each_lost: u64,
    pub outside: Outside,
    pub tries: Tries,
}

const TOO_FEW: Refused = Refused::Misread("the line has too few or too many words");

impl Plan {
    /// The words are `-m rc`, the mail is of 9 bytes, and LOGNAME is `joe` and HOME `/home/joe`; nothing
    /// stands at any name, and no call fails.
    pub fn new(alloc: Global, line: &Line) -> Result<Plan, Refused> {
        let mut plan = Plan {
            alloc,
            line: line.number,
            name: copy_of(alloc, line.arguments())?,
            words: Vec::new(alloc),
            variables: Vec::new(alloc),
            mail: b"A: b\n\nhi\n".to_vec(alloc)?,
            mail_fails: None,
            out_lost: None,
            lost: None,
            each_lost: 0,
            outside: Outside::new(alloc),
            tries: Tries::new(alloc),
        };
        plan.begin()?;
        Ok(plan)
    }

    fn begin(&mut self) -> Result<(), Refused> {
        self.words.push(string_of(self.alloc, b"-m")?)?;
        self.words.push(string_of(self.alloc, b"rc")?)?;
        self.add_variable(b"LOGNAME", b"joe")?;
        self.add_variable(b"HOME", b"/home/joe")
    }

    /// Reads a line of the case.
    pub fn take(&mut self, line: &Line) -> Result<(), Refused> {
        if self.outside.take(line)? || self.tries.take(line)? {
            return Ok(());
        }
        let words = line.arguments();
        match line.key() {
            "words" => self.words = strings_of(self.alloc, words)?,
            "no-env" => self.variables = Vec::new(self.alloc),
            "env" => return self.take_variable(words),
            "mail" => self.mail = only(words)?.to_vec(self.alloc)?,
            "mail-fails" => self.mail_fails = Some(read_u64(only(words)?)?),
            "lost-out" => self.out_lost = Some(read_u64(only(words)?)?),
            "lost" => self.lost = Some(read_u64(only(words)?)?),
            "each-lost" => self.each_lost = read_u64(only(words)?)?,
            _ => return self.take_wanted(line),
        }
        Ok(())
    }

    // The words of `calls` stand in one word, with blanks between them.
    fn take_wanted(&mut self, line: &Line) -> Result<(), Refused> {
        match line.key() {
            "calls" => self.want_calls(line.arguments())?,
            "status"
            | "entry"
            | "says"
            | "last"
            | "err"
            | "out"
            | "left"
            | "gone"
            | "made"
            | "unread" => {
                self.tries.last()?.tell(&line.words)?;
            }
            _ => return Err(Refused::Misread("no run has such a line")),
        }
        Ok(())
    }

    fn want_calls(&mut self, words: &[Vec<u8>]) -> Result<(), Refused> {
        let names = joined(self.alloc, words)?;
        let wanted = self.tries.last()?;
        wanted.begin("calls")?;
        Ok(wanted.add(&names)?)
    }

    fn take_variable(&mut self, words: &[Vec<u8>]) -> Result<(), Refused> {
        match words {
            [name, value] => self.add_variable(name, value),
            _ => Err(TOO_FEW),
        }
    }

    fn add_variable(&mut self, name: &[u8], value: &[u8]) -> Result<(), Refused> {
        let name = string_of(self.alloc, name)?;
        let value = string_of(self.alloc, value)?;
        self.variables.push((name, value))?;
        Ok(())
    }
}

fn only(words: &[Vec<u8>]) -> Result<&[u8], Refused> {
    match words {
        [word] => Ok(word.as_slice()),
        _ => Err(TOO_FEW),
    }
}

fn string_of(alloc: Global, word: &[u8]) -> Result<String, Memory> {
    Ok(String::from_str(alloc, text_of(word))?)
}

fn strings_of(alloc: Global, words: &[Vec<u8>]) -> Result<Vec<String>, Memory> {
    let mut strings = Vec::new(alloc);
    for word in words {
        strings.push(string_of(alloc, word)?)?;
    }
    Ok(strings)
}

fn joined(alloc: Global, words: &[Vec<u8>]) -> Result<Vec<u8>, Memory> {
    let mut text = Vec::new(alloc);
    for word in words {
        if !text.is_empty() {
            text.push(b' ')?;
        }
        text.extend_from_slice(word)?;
    }
    Ok(text)
}
