//! The variables of a process, in the order in which their names came.
ghost use Rattle.std.specs.Prelude.{◌≡◌, [], ◌∷◌, ◌++◌, IfOk, OnOk, OnErr, drop, length, option_copied, pos, filter};
ghost use Rattle.std.specs.Prelude.{map, codes};
ghost use Rattle.pm_vars.specs.Variables.{value_of, with_value, without, argument_of, is_exported, variable_of};

use crate::Marks;
use crate::values::Values;
use pm_bytes::{Blob, Memory, Name, Pair};
use std::alloc::Global;
use std::collections::VecDeque;
use std::marker::Model;

/// The variables, the arguments and the marks of a process.
#[derive(Drop)]
pub struct Vars {
    alloc: Global,
    variables: Values,
    arguments: VecDeque<Blob>,
    marks: Marks,
}

impl Model for Vars {
    ghost use Rattle.pm_vars.specs.Table.{Table};

    ghost Value = { Table };

    ghost use Rattle.pm_vars.specs.View.{table_of};

    ghost view = { table_of };
}

impl Vars {
    /// No variable and no argument; the code and the score are 0 and the rcfile's name is empty.
    pub fn new(alloc: Global, pid: u32) -> Vars
        ensures { result
            ≡ record {
              variables = [];
              arguments = [];
              marks = record { pid = pid; code = 0; score = pos 0; rcfile = [] };
            } }
    {
        Vars {
            alloc,
            variables: Values::new(alloc),
            arguments: VecDeque::new(alloc),
            marks: Marks {
                pid,
                code: 0,
                score: 0,
                rcfile: Blob::empty(alloc),
            },
        }
    }

    pub fn get(&self, name: &[u8]) -> Option<&Blob>
        ensures { option_copied result ≡ value_of name.now self.now.variables }
    {
        self.variables.get(name)
    }

    pub fn set(&mut self, name: &[u8], value: Blob) -> Result<(), Memory>
        ensures ok { OnOk result
            (self.new ≡ record self.old { variables = with_value name.now value self.old.variables }) }
        ensures err { OnErr result (self.new ≡ self.old) }
    {
        self.variables.set(name, value)
    }

    /// Sets LASTFOLDER, and takes no memory.
    pub fn set_last_folder(&mut self, value: Blob)
        ensures { self.new ≡ record self.old { variables = with_value (codes "LASTFOLDER") value self.old.variables } }
    {
        self.variables.set_last_folder(value);
    }

    pub fn unset(&mut self, name: &[u8])
        ensures { self.new ≡ record self.old { variables = without name.now self.old.variables } }
    {
        self.variables.unset(name);
    }

    /// The argument `$number`, from 1 on.
    pub fn argument(&self, number: usize) -> Option<&Blob>
        ensures { option_copied result ≡ argument_of number self.now.arguments }
    {
        if number == 0 {
            return None;
        }
        self.arguments.get(number - 1)
    }

    /// How many arguments there are.
    pub fn arguments(&self) -> usize
        ensures { result ≡ length self.now.arguments }
    {
        self.arguments.len()
    }

    pub fn add_argument(&mut self, value: Blob) -> Result<(), Memory>
        ensures ok { OnOk result (self.new ≡ record self.old { arguments = self.old.arguments ++ value ∷ [] }) }
        ensures err { OnErr result (self.new ≡ self.old) }
    {
        self.arguments.push_back(value)?;
        Ok(())
    }

    /// Drops so many arguments from the front, all where there are fewer.
    pub fn shift(&mut self, count: u64)
        ensures { self.new ≡ record self.old { arguments = drop count self.old.arguments } }
    {
        let most = self.arguments.len();
        let count = if count < most as u64 {
            count as usize
        } else {
            most
        };
        self.arguments.drain(..count);
    }

    pub fn marks(&self) -> &Marks
        ensures { result.now ≡ self.now.marks }
    {
        &self.marks
    }

    pub fn set_code(&mut self, code: u8)
        ensures { self.new ≡ record self.old { marks = record self.old.marks { code = code } } }
    {
        self.marks.code = code;
    }

    pub fn set_score(&mut self, score: i32)
        ensures { self.new ≡ record self.old { marks = record self.old.marks { score = score } } }
    {
        self.marks.score = score;
    }

    pub fn set_rcfile(&mut self, name: &Name) -> Result<(), Memory>
        ensures ok { OnOk result (self.new ≡ record self.old { marks = record self.old.marks { rcfile = name.now } }) }
        ensures err { OnErr result (self.new ≡ self.old) }
    {
        let rcfile = Blob::from_slice(self.alloc, name.as_str().as_bytes())?;
        self.marks.rcfile = rcfile;
        Ok(())
    }

    pub fn copy(&self, alloc: Global) -> Result<Vars, Memory>
        ensures { IfOk result (λ copy. copy ≡ self.now) }
    {
        let variables = self.variables.copy()?;
        let arguments = copy_all(alloc, &self.arguments)?;
        let marks = self.marks.copy(alloc)?;
        Ok(Vars {
            alloc,
            variables,
            arguments,
            marks,
        })
    }

    /// The environment of a program: the variables in order whose name and value are each a `Name`.
    pub fn export(&self, alloc: Global) -> Result<Vec<Pair>, Memory>
        ensures { IfOk result (λ pairs. map variable_of pairs.items ≡ filter is_exported self.now.variables) }
    {
        self.variables.export(alloc)
    }
}

fn copy_all(alloc: Global, blobs: &VecDeque<Blob>) -> Result<VecDeque<Blob>, Memory>
    ensures { IfOk result (λ copies. copies.items ≡ blobs.now.items) }
{
    let mut copies = VecDeque::new(alloc);
    for blob in blobs {
        copies.push_back(blob.copy(alloc)?)?;
    }
    Ok(copies)
}
