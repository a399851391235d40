//! The variables of the rows: the lines that set them, and rows that ask for them.
use crate::told::{pair_words, push_number};
use crate::{
    Line, Refused, Words, number_word, one_number, only_word, read_i64, read_u64, word_of,
};
use pm_bytes::{Blob, Memory, Name};
use pm_vars::Vars;
use std::alloc::Global;

/// The variables, and a copy of them that was laid aside.
#[derive(Drop)]
pub struct State {
    alloc: Global,
    pub vars: Vars,
    aside: Option<Vars>,
}

// The number of the process.
const PID: u32 = 4242;

const NO_LINE: Refused = Refused::Misread("no case has such a line");

impl State {
    pub fn new(alloc: Global) -> State {
        State {
            alloc,
            vars: Vars::new(alloc, PID),
            aside: None,
        }
    }

    /// Reads a line that sets something.
    pub fn take(&mut self, line: &Line) -> Result<(), Refused> {
        match (line.key(), line.arguments()) {
            ("vars", []) => self.begin_anew(),
            ("set", [name, value]) => self.set(name, value),
            ("unset", [name]) => self.unset(name),
            ("argument", [value]) => self.add_argument(value),
            ("shift", [count]) => self.shift(count),
            ("set-each", [count, name, value]) => self.set_each(count, name, value),
            ("argument-each", [count, value]) => self.add_each(count, value),
            _ => self.take_mark(line),
        }
    }

    fn take_mark(&mut self, line: &Line) -> Result<(), Refused> {
        match (line.key(), line.arguments()) {
            ("code", [code]) => self.set_code(code),
            ("score", [score]) => self.set_score(score),
            ("rcname", [name]) => self.set_rcname(name),
            ("copy", []) => self.copy(),
            ("swap", []) => self.swap(),
            _ => Err(NO_LINE),
        }
    }

    fn begin_anew(&mut self) -> Result<(), Refused> {
        *self = State::new(self.alloc);
        Ok(())
    }

    fn set(&mut self, name: &[u8], value: &[u8]) -> Result<(), Refused> {
        let value = Blob::from_slice(self.alloc, value)?;
        Ok(self.vars.set(name, value)?)
    }

    fn unset(&mut self, name: &[u8]) -> Result<(), Refused> {
        self.vars.unset(name);
        Ok(())
    }

    fn add_argument(&mut self, value: &[u8]) -> Result<(), Refused> {
        let value = Blob::from_slice(self.alloc, value)?;
        Ok(self.vars.add_argument(value)?)
    }

    fn shift(&mut self, count: &[u8]) -> Result<(), Refused> {
        self.vars.shift(read_u64(count)?);
        Ok(())
    }

    fn set_code(&mut self, code: &[u8]) -> Result<(), Refused> {
        self.vars.set_code(read_u64(code)?.min(255) as u8);
        Ok(())
    }

    fn set_score(&mut self, score: &[u8]) -> Result<(), Refused> {
        self.vars.set_score(score_of(read_i64(score)?));
        Ok(())
    }

    fn set_rcname(&mut self, name: &[u8]) -> Result<(), Refused> {
        let name = Name::read(self.alloc, name)?;
        Ok(self.vars.set_rcfile(&name)?)
    }

    // Lays a copy aside.
    fn copy(&mut self) -> Result<(), Refused> {
        self.aside = Some(self.vars.copy(self.alloc)?);
        Ok(())
    }

    // Sets so many variables: a number from 1 on stands after the name and after the value.
    fn set_each(&mut self, count: &[u8], name: &[u8], value: &[u8]) -> Result<(), Refused> {
        for number in 1..=read_u64(count)? {
            let name = numbered(self.alloc, name, number)?;
            let value = numbered(self.alloc, value, number)?;
            self.set(&name, &value)?;
        }
        Ok(())
    }

    fn add_each(&mut self, count: &[u8], value: &[u8]) -> Result<(), Refused> {
        for number in 1..=read_u64(count)? {
            let value = numbered(self.alloc, value, number)?;
            self.add_argument(&value)?;
        }
        Ok(())
    }

    // The copy that was laid aside becomes the variables, and they are laid aside.
    fn swap(&mut self) -> Result<(), Refused> {
        let Some(aside) = self.aside.take() else {
            return Err(Refused::Misread("no copy was made"));
        };
        let vars = std::mem::replace(&mut self.vars, aside);
        self.aside = Some(vars);
        Ok(())
    }

    /// The value of a variable.
    pub fn value(&self, name: &[u8]) -> Result<Words, Memory> {
        value_words(self.alloc, self.vars.get(name))
    }

    /// The argument with a number.
    pub fn argument(&self, number: usize) -> Result<Words, Memory> {
        value_words(self.alloc, self.vars.argument(number))
    }

    /// How many arguments there are.
    pub fn arguments(&self) -> Result<Words, Memory> {
        one_number(self.alloc, self.vars.arguments() as u64)
    }

    /// The number of the process, the exit status, the score and the rcfile's name.
    pub fn marks(&self) -> Result<Words, Memory> {
        let mut words = Vec::new(self.alloc);
        self.push_marks(&mut words)?;
        Ok(words)
    }

    fn push_marks(&self, words: &mut Words) -> Result<(), Memory> {
        let marks = self.vars.marks();
        push_number(self.alloc, words, u64::from(marks.pid))?;
        push_number(self.alloc, words, u64::from(marks.code))?;
        words.push(score_word(self.alloc, marks.score)?)?;
        words.push(marks.rcfile.as_slice().to_vec(self.alloc)?)?;
        Ok(())
    }

    /// What programs get, each variable as `NAME=VALUE`.
    pub fn exported(&self) -> Result<Words, Memory> {
        let pairs = self.vars.export(self.alloc)?;
        pair_words(self.alloc, &pairs)
    }

    /// How many variables programs get.
    pub fn export_count(&self) -> Result<Words, Memory> {
        let count = self.vars.export(self.alloc)?.len();
        one_number(self.alloc, count as u64)
    }
}

fn value_words(alloc: Global, value: Option<&Blob>) -> Result<Words, Memory> {
    match value {
        Some(value) => only_word(alloc, value.as_slice().to_vec(alloc)?),
        None => Ok(Vec::new(alloc)),
    }
}

fn numbered(alloc: Global, text: &[u8], number: u64) -> Result<Vec<u8>, Memory> {
    let mut word = text.to_vec(alloc)?;
    word.extend_from_slice(&number_word(alloc, number)?)?;
    Ok(word)
}

fn score_word(alloc: Global, score: i32) -> Result<Vec<u8>, Memory> {
    let text = format!(in alloc; "{score}")?;
    word_of(alloc, text.as_str())
}

fn score_of(number: i64) -> i32 {
    number.clamp(i64::from(i32::MIN), i64::from(i32::MAX)) as i32
}
