//! A file of tests.
ghost use Rattle.std.specs.Prelude.{◌≡◌, [], IfOk, OnOk, None, option_map};
ghost use Rattle.bstr.specs.Text.{lines_of, without_terminator};
ghost use Rattle.test_text.specs.Readings.{read_tests, finished, counted, fault_at, draft_after, fault_on, with_tests};
ghost use Rattle.test_text.specs.Said.{Draft};

use crate::statement::{Rcfile, Reason, Statement, statement_of};
use crate::test::Test;
use bstr::ByteSlice;
use pm_bytes::Memory;
use std::alloc::Global;
use std::marker::Model;

/// Why a file isn't understood, and on which line, from 1; what a file lacks is named by its last line.
#[derive(Clone, Copy)]
pub struct Fault {
    pub line: u64,
    pub reason: Reason,
}

/// The tests of a file, and the rcfile that they are for.
#[derive(Drop)]
pub struct Tests {
    rcfile: Rcfile,
    tests: Vec<Test>,
}

impl Model for Tests {
    ghost use Rattle.test_text.specs.Said.{File};

    ghost Value = { File };

    ghost view = { λ t. record { rcfile = t.rcfile; tests = t.tests.items } };
}

impl Tests {
    pub(crate) fn new(rcfile: Rcfile, tests: Vec<Test>) -> Tests
        ensures { result ≡ record { rcfile = rcfile; tests = tests.items } }
    {
        Tests { rcfile, tests }
    }

    pub fn rcfile(&self) -> &Rcfile
        ensures { result.now ≡ self.now.rcfile }
    {
        &self.rcfile
    }

    pub fn tests(&self) -> &[Test]
        ensures { result.now ≡ self.now.tests }
    {
        self.tests.as_slice()
    }
}

/// What a file says.
#[derive(Drop)]
pub enum Reading {
    Tests(Tests),
    Fault(Fault),
}

// The lines before this one.
#[derive(Drop)]
struct Lines {
    rcfile: Option<Rcfile>,
    tests: Vec<Test>,
}

impl Model for Lines {
    ghost use Rattle.test_text.specs.Said.{Draft};

    ghost Value = { Draft };

    ghost view = { λ l. record { rcfile = l.rcfile; tests = l.tests.items } };
}

impl Lines {
    fn new(alloc: Global) -> Lines
        ensures { result ≡ record { rcfile = None; tests = [] } }
    {
        Lines {
            rcfile: None,
            tests: Vec::new(alloc),
        }
    }

    fn fault_at(&self, statement: &Statement) -> Option<Reason>
        ensures { result ≡ fault_at self.now statement.now }
    {
        match statement {
            Statement::Wrong(reason) => Some(*reason),
            Statement::Rcfile(_) if self.rcfile.is_some() => Some(Reason::SecondRcfile),
            _ => None,
        }
    }

    fn take(&mut self, statement: Statement) -> Result<(), Memory>
        ensures { OnOk result (self.new ≡ draft_after self.old statement) }
    {
        match statement {
            Statement::Rcfile(rcfile) => self.rcfile = Some(rcfile),
            Statement::Mail(test) => self.tests.push(test)?,
            Statement::Nothing | Statement::Wrong(_) => {}
        }
        Ok(())
    }

    fn finish(self, number: u64) -> Reading
        ensures { result ≡ finished number self }
    {
        let Lines { rcfile, tests } = self;
        match rcfile {
            None => fault_on(number, Reason::NoRcfile),
            Some(rcfile) => with_tests(number, rcfile, tests),
        }
    }
}

fn with_tests(number: u64, rcfile: Rcfile, tests: Vec<Test>) -> Reading
    ensures { result ≡ with_tests number rcfile tests.items }
{
    if tests.is_empty() {
        return fault_on(number, Reason::NoTest);
    }
    Reading::Tests(Tests::new(rcfile, tests))
}

fn fault_on(line: u64, reason: Reason) -> Reading
    ensures { result ≡ fault_on line reason }
{
    Reading::Fault(Fault { line, reason })
}

/// Reads a file of tests. Lines may end with CR LF.
pub fn read_tests(alloc: Global, bytes: &[u8]) -> Result<Reading, Memory>
    ensures { IfOk result (λ reading. reading ≡ read_tests bytes.now) }
{
    let mut number: u64 = 0;
    let mut before = Lines::new(alloc);
    for line in bytes.lines() {
        number = number.saturating_add(1);
        let statement = statement_of(alloc, number, line)?;
        if let Some(reason) = before.fault_at(&statement) {
            return Ok(fault_on(number, reason));
        }
        before.take(statement)?;
    }
    Ok(before.finish(number))
}
