//! Lines of calls of the real host, one after the other.
use crate::calls::host_calls::answer;
use crate::calls::{children, others};
use crate::tally::Tally;
use cases::{Line, Refused, Words, show_words, text_of};
use pm_real::{RealHost, Setup};
use std::alloc::Global;
use std::fmt::Write;
use std::fs::File;
use std::process;

/// The host, and what was found so far.
#[derive(Drop)]
pub struct HostSession<'a> {
    rt: &'a HostRuntime,
    alloc: Global,
    setup: &'a Setup<File>,
    host: RealHost<HostRuntime>,
    report: String,
    tally: Tally,
}

impl<'a> HostSession<'a> {
    pub fn new(
        rt: &'a HostRuntime,
        alloc: Global,
        setup: &'a Setup<File>,
    ) -> Result<HostSession<'a>, Refused> {
        Ok(HostSession {
            rt,
            alloc,
            setup,
            host: RealHost::new(rt, alloc, process::id(rt.process()), setup)?,
            report: String::new(alloc),
            tally: Tally::new(),
        })
    }

    /// Makes the call of a line. `fresh` goes on with another host.
    pub fn take(&mut self, line: &Line) -> Result<(), Refused> {
        if line.key() == "fresh" {
            let pid = process::id(self.rt.process());
            self.host = RealHost::new(self.rt, self.alloc, pid, self.setup)?;
            return Ok(());
        }
        let (call, wanted) = parts_at_arrow(&line.words);
        match self.answer_to(call) {
            Ok(came) => self.compare(line.number, call, &came, wanted),
            Err(refused) => Err(refused.at(line.number)),
        }
    }

    fn answer_to(&mut self, call: &[Vec<u8>]) -> Result<Words, Refused> {
        let Some((verb, arguments)) = call.split_first() else {
            return Err(Refused::Misread("a call is wanted"));
        };
        let verb = text_of(verb);
        if verb == "child" {
            return children::run(self.alloc, &mut self.host, arguments);
        }
        match others::act(self.rt, self.alloc, verb, arguments)? {
            Some(came) => Ok(came),
            None => answer(self.alloc, &mut self.host, verb, arguments),
        }
    }

    fn compare(
        &mut self,
        number: u64,
        call: &[Vec<u8>],
        came: &[Vec<u8>],
        wanted: &[Vec<u8>],
    ) -> Result<(), Refused> {
        let passed = came == wanted;
        self.tally.count(passed);
        if passed {
            return Ok(());
        }
        let call = show_words(self.alloc, call)?;
        let came = show_words(self.alloc, came)?;
        let wanted = show_words(self.alloc, wanted)?;
        writeln!(
            self.report,
            "line {number}: {call} -> {came}, and not {wanted}"
        )?;
        Ok(())
    }

    /// What differed, a line each, and the line of the numbers.
    pub fn finish(mut self) -> Result<(String, Tally), Refused> {
        let Tally { passed, failed, .. } = self.tally;
        writeln!(self.report, "{passed} passed, {failed} failed")?;
        Ok((self.report, self.tally))
    }
}

// The words before the arrow, and those after it.
fn parts_at_arrow(words: &[Vec<u8>]) -> (&[Vec<u8>], &[Vec<u8>]) {
    let Some(at) = words
        .iter()
        .position(|word| word.as_slice() == b"->".as_slice())
    else {
        return (words, &[]);
    };
    let front = words.get(..at).unwrap_or(words);
    let behind = words.get(at.saturating_add(1)..).unwrap_or(words);
    (front, behind)
}
