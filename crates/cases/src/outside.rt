//! What stands before a run, what others do meanwhile, and which calls fail.
use crate::{Line, Refused, read_i64, read_u64, read_usize, text_of};
use pm_bytes::Memory;
use pm_host::Finished;
use std::alloc::Global;

/// What stands at a name before the run: the bytes of a file, or a folder.
#[derive(Drop)]
pub struct Stands {
    pub name: String,
    pub bytes: Option<Vec<u8>>,
}

/// An `append` with this number takes at most so many bytes.
#[derive(Clone, Copy)]
pub struct Limit {
    pub call: u64,
    pub most: usize,
}

/// What a program does that the run starts: it ends with the code, takes at most so many bytes, and gives the output.
#[derive(Drop)]
pub struct Program {
    pub code: Finished,
    pub output: Vec<u8>,
    pub closes_after: Option<u64>,
}

/// What others do to a file while the run sleeps or waits for a program.
#[derive(Clone, Copy)]
pub enum Deed {
    Append,
    Create,
    Remove,
}

/// One change that others make, with the bytes that they add.
#[derive(Drop)]
pub struct Other {
    pub deed: Deed,
    pub name: Vec<u8>,
    pub bytes: Vec<u8>,
}

/// The outside of a run.
#[derive(Drop)]
pub struct Outside {
    pub alloc: Global,
    pub moment: i64,
    pub stands: Vec<Stands>,
    pub fails: Vec<u64>,
    pub limits: Vec<Limit>,
    pub batches: Vec<Vec<Other>>,
    pub programs: Vec<Program>,
}

const TOO_FEW: Refused = Refused::Misread("the line has too few or too many words");

impl Outside {
    /// Nothing stands at any name, and no call fails.
    pub fn new(alloc: Global) -> Outside {
        Outside {
            alloc,
            moment: 0,
            stands: Vec::new(alloc),
            fails: Vec::new(alloc),
            limits: Vec::new(alloc),
            batches: Vec::new(alloc),
            programs: Vec::new(alloc),
        }
    }

    /// Reads a line on the outside; `false` where it is one of another kind.
    pub fn take(&mut self, line: &Line) -> Result<bool, Refused> {
        let words = line.arguments();
        match line.key() {
            "moment" => taken(self.set_moment(words)),
            "file" => taken(self.add_file(words)),
            "folder" => taken(self.add_folder(words)),
            "fail" => taken(self.set_fails(words)),
            "limit" => taken(self.add_limit(words)),
            "batch" => taken(self.begin_batch()),
            "others" => taken(self.add_other(words)),
            "child" => taken(self.add_program(words)),
            _ => Ok(false),
        }
    }

    fn set_moment(&mut self, words: &[Vec<u8>]) -> Result<(), Refused> {
        self.moment = read_i64(only(words)?)?;
        Ok(())
    }

    fn add_folder(&mut self, words: &[Vec<u8>]) -> Result<(), Refused> {
        self.add_stands(only(words)?, None)
    }

    fn set_fails(&mut self, words: &[Vec<u8>]) -> Result<(), Refused> {
        self.fails = numbers_of(self.alloc, words)?;
        Ok(())
    }

    fn begin_batch(&mut self) -> Result<(), Refused> {
        self.batches.push(Vec::new(self.alloc))?;
        Ok(())
    }

    fn add_limit(&mut self, words: &[Vec<u8>]) -> Result<(), Refused> {
        let [call, most] = words else {
            return Err(TOO_FEW);
        };
        let (call, most) = (read_u64(call)?, read_usize(most)?);
        self.limits.push(Limit { call, most })?;
        Ok(())
    }

    fn add_file(&mut self, words: &[Vec<u8>]) -> Result<(), Refused> {
        match words {
            [name] => self.add_stands(name, Some(Vec::new(self.alloc))),
            [name, bytes] => {
                let bytes = bytes.as_slice().to_vec(self.alloc)?;
                self.add_stands(name, Some(bytes))
            }
            _ => Err(TOO_FEW),
        }
    }

    fn add_stands(&mut self, name: &[u8], bytes: Option<Vec<u8>>) -> Result<(), Refused> {
        let name = string_of(self.alloc, name)?;
        self.stands.push(Stands { name, bytes })?;
        Ok(())
    }

    // The changes of others go to the batch that was begun last.
    fn add_other(&mut self, words: &[Vec<u8>]) -> Result<(), Refused> {
        match words {
            [deed, name] => self.push_other(deed, name, &[]),
            [deed, name, bytes] => self.push_other(deed, name, bytes),
            _ => Err(TOO_FEW),
        }
    }

    fn push_other(&mut self, deed: &[u8], name: &[u8], bytes: &[u8]) -> Result<(), Refused> {
        let other = other_of(self.alloc, deed_of(deed)?, name, bytes)?;
        match self.batches.last_mut() {
            Some(batch) => Ok(batch.push(other)?),
            None => Err(Refused::Misread("no batch was begun")),
        }
    }

    // A program after those that were given before.
    fn add_program(&mut self, words: &[Vec<u8>]) -> Result<(), Refused> {
        match words {
            [code] => self.push_program(code, &[], None),
            [code, output] => self.push_program(code, output, None),
            [code, output, most] => self.push_program(code, output, Some(read_u64(most)?)),
            _ => Err(TOO_FEW),
        }
    }

    fn push_program(
        &mut self,
        code: &[u8],
        output: &[u8],
        closes_after: Option<u64>,
    ) -> Result<(), Refused> {
        let code = finished_of(code)?;
        let output = output.to_vec(self.alloc)?;
        self.programs.push(Program {
            code,
            output,
            closes_after,
        })?;
        Ok(())
    }

    /// What stands at the name before the run, where it is a file.
    pub fn file(&self, name: &[u8]) -> Option<&[u8]> {
        for stands in &self.stands {
            if stands.name.as_str().as_bytes() == name {
                return match &stands.bytes {
                    Some(bytes) => Some(bytes.as_slice()),
                    None => None,
                };
            }
        }
        None
    }
}

// The answer to a line that was read.
fn taken(done: Result<(), Refused>) -> Result<bool, Refused> {
    match done {
        Ok(()) => Ok(true),
        Err(refused) => Err(refused),
    }
}

fn other_of(alloc: Global, deed: Deed, name: &[u8], bytes: &[u8]) -> Result<Other, Memory> {
    let bytes = bytes.to_vec(alloc)?;
    let name = name.to_vec(alloc)?;
    Ok(Other { deed, name, bytes })
}

fn deed_of(word: &[u8]) -> Result<Deed, Refused> {
    match text_of(word) {
        "append" => Ok(Deed::Append),
        "create" => Ok(Deed::Create),
        "remove" => Ok(Deed::Remove),
        _ => Err(Refused::Misread("others append, create or remove")),
    }
}

// A number is a code, and `signal-9` a signal.
fn finished_of(word: &[u8]) -> Result<Finished, Refused> {
    match text_of(word).strip_prefix("signal-") {
        Some(signal) => Ok(Finished::Signal(read_byte(signal.as_bytes())?)),
        None => Ok(Finished::Code(read_byte(word)?)),
    }
}

fn read_byte(word: &[u8]) -> Result<u8, Refused> {
    match u8::try_from(read_u64(word)?) {
        Ok(number) => Ok(number),
        Err(_) => Err(Refused::Misread("a code or a signal is at most 255")),
    }
}

fn only(words: &[Vec<u8>]) -> Result<&[u8], Refused> {
    match words {
        [word] => Ok(word.as_slice()),
        _ => Err(TOO_FEW),
    }
}

fn string_of(alloc: Global, word: &[u8]) -> Result<String, Memory> {
    Ok(String::from_str(alloc, text_of(word))?)
}

fn numbers_of(alloc: Global, words: &[Vec<u8>]) -> Result<Vec<u64>, Refused> {
    let mut numbers = Vec::new(alloc);
    for word in words {
        numbers.push(read_u64(word)?)?;
    }
    Ok(numbers)
}
