//! Which calls fail in each try of a case, and what is wanted of it.
use crate::{Line, Refused, Told, read_u64};
use pm_bytes::Memory;
use std::alloc::Global;

// Which calls of the host fail besides those that are named one by one.
#[derive(Clone, Copy)]
enum Failing {
    None,
    Each(u64),
    Pairs(u64),
}

// What is wanted where the calls with these numbers are among those that fail.
#[derive(Drop)]
struct Outcome {
    failing: Vec<u64>,
    wanted: Told,
}

/// The tries of a case.
#[derive(Drop)]
pub struct Tries {
    alloc: Global,
    failing: Failing,
    outcomes: Vec<Outcome>,
}

impl Tries {
    /// One try, in which no call fails but those that are named one by one.
    pub fn new(alloc: Global) -> Tries {
        Tries {
            alloc,
            failing: Failing::None,
            outcomes: Vec::new(alloc),
        }
    }

    /// Reads a line on the calls that fail; `false` where it is one of another kind.
    pub fn take(&mut self, line: &Line) -> Result<bool, Refused> {
        let words = line.arguments();
        match line.key() {
            "failing-each" => self.failing = Failing::Each(only_number(words)?),
            "failing-pairs" => self.failing = Failing::Pairs(only_number(words)?),
            "when" => self.add_outcome(words)?,
            "otherwise" => self.add_outcome(&[])?,
            _ => return Ok(false),
        }
        Ok(true)
    }

    /// The lines that are wanted by the last `when` or `otherwise`, or always.
    pub fn last(&mut self) -> Result<&mut Told, Refused> {
        if self.outcomes.is_empty() {
            self.add_outcome(&[])?;
        }
        match self.outcomes.last_mut() {
            Some(outcome) => Ok(&mut outcome.wanted),
            None => Err(Refused::Memory),
        }
    }

    fn add_outcome(&mut self, words: &[Vec<u8>]) -> Result<(), Refused> {
        let mut failing = Vec::new(self.alloc);
        for word in words {
            failing.push(read_u64(word)?)?;
        }
        let wanted = Told::new(self.alloc);
        self.outcomes.push(Outcome { failing, wanted })?;
        Ok(())
    }

    /// The two calls that fail in each try. The number 0 is no call's.
    pub fn all(&self) -> Result<Vec<[u64; 2]>, Memory> {
        let mut tries = Vec::new(self.alloc);
        match self.failing {
            Failing::None => tries.push([0, 0])?,
            Failing::Each(last) => {
                for call in 0..=last {
                    tries.push([call, call])?;
                }
            }
            Failing::Pairs(last) => push_pairs(&mut tries, last)?,
        }
        Ok(tries)
    }

    /// Which calls fail in a try, where that isn't the same in all.
    pub fn choice(&self, failing: [u64; 2]) -> Result<String, Memory> {
        let [one, other] = failing;
        Ok(match self.failing {
            Failing::None => String::new(self.alloc),
            Failing::Each(_) => format!(in self.alloc; ", call {one} failing")?,
            Failing::Pairs(_) => format!(in self.alloc; ", calls {one} and {other} failing")?,
        })
    }

    /// What is wanted where these calls fail, and those that always do: the first outcome whose calls are among them.
    pub fn wanted(&self, failing: [u64; 2], always: &[u64]) -> Result<&Told, Refused> {
        for outcome in &self.outcomes {
            let fits = outcome
                .failing
                .iter()
                .all(|call| failing.contains(call) || always.contains(call));
            if fits {
                return Ok(&outcome.wanted);
            }
        }
        Err(Refused::Misread("no outcome is wanted for some calls"))
    }
}

fn push_pairs(tries: &mut Vec<[u64; 2]>, last: u64) -> Result<(), Memory> {
    for one in 0..=last {
        for other in one..=last {
            tries.push([one, other])?;
        }
    }
    Ok(())
}

fn only_number(words: &[Vec<u8>]) -> Result<u64, Refused> {
    match words {
        [word] => read_u64(word),
        _ => Err(Refused::Misread("one number is wanted")),
    }
}
