//! Which values of variables are fixed before any mail comes, and what a text comes to by them.
ghost use Rattle.std.specs.Prelude.{◌≡◌, ◌≤◌, [], length};
ghost use Rattle.pm_subst.specs.Commands.{commands_in};
ghost use Rattle.pm_subst.specs.declared.kinds.Mode.TheVariants.{One};

use pm_bytes::{Blob, Memory, continues_name};
use pm_subst::{ExpandRefused, Mode, commands, expand};
use pm_vars::Vars;
use std::alloc::Global;
use std::collections::BTreeSet;

// No file has a longer name, in bytes, so a longer value is no part of one.
const LONGEST: usize = 4096;

/// Variables with fixed values.
#[derive(Drop)]
pub struct Known {
    alloc: Global,
    vars: Vars,
    // Those whose value was fixed and isn't any more.
    lost: BTreeSet<Vec<u8>>,
}

impl Known {
    /// None yet.
    pub fn new(alloc: Global) -> Known {
        Known {
            alloc,
            vars: Vars::new(alloc, 0),
            lost: BTreeSet::new(alloc),
        }
    }

    /// From here on the variable has this value.
    pub fn set(&mut self, name: &[u8], value: &[u8]) -> Result<(), Memory> {
        let value = Blob::from_slice(self.alloc, value)?;
        self.vars.set(name, value)?;
        self.lost.remove(name);
        Ok(())
    }

    /// From here on the variable's value isn't known.
    pub fn lose(&mut self, name: &[u8]) -> Result<(), Memory> {
        self.lost.insert(name.to_vec(self.alloc)?)?;
        Ok(())
    }

    /// The variable's value, if it is fixed.
    pub fn get(&self, name: &[u8]) -> Option<&[u8]> {
        if self.lost.contains(name) {
            return None;
        }
        match self.vars.get(name) {
            Some(value) => Some(value.as_slice()),
            None => None,
        }
    }

    /// What an assigned text comes to, if it names only variables with fixed values and has no command.
    pub fn value_of(&self, text: &[u8]) -> Result<Option<Blob>, Memory> {
        if !self.is_fixed(text) {
            return Ok(None);
        }
        let commands = commands(self.alloc, text, Mode::One)?;
        if !commands.is_empty() {
            return Ok(None);
        }
        match expanded(self.alloc, text, &self.vars)? {
            Some(value) if value.len() <= LONGEST => Ok(Some(value)),
            _ => Ok(None),
        }
    }

    // A backslash or a form other than $NAME and ${NAME} is left to procmail.
    fn is_fixed(&self, text: &[u8]) -> bool {
        for (place, byte) in text.iter().enumerate() {
            let is_known = match *byte {
                b'`' | b'\\' => false,
                b'$' => self.get(name_at(&text[place + 1..])).is_some(),
                _ => true,
            };
            if !is_known {
                return false;
            }
        }
        true
    }
}

// The name after a dollar sign, with braces around it or without; none is empty.
fn name_at(text: &[u8]) -> &[u8] {
    match text.split_first() {
        Some((b'{', rest)) => {
            let end = name_end(rest);
            if rest[end..].starts_with(b"}") {
                &rest[..end]
            } else {
                &[]
            }
        }
        _ => &text[..name_end(text)],
    }
}

// How many bytes of a name the text begins with.
fn name_end(text: &[u8]) -> usize
    ensures { result ≤ length text.now }
{
    match text.iter().position(|byte| !continues_name(*byte)) {
        Some(end) => end,
        None => text.len(),
    }
}

fn expanded(alloc: Global, text: &[u8], vars: &Vars) -> Result<Option<Blob>, Memory>
    requires { commands_in One text.now ≡ [] }
{
    match expand(alloc, text, Mode::One, vars, &[]) {
        Ok(mut words) => Ok(words.pop()),
        Err(ExpandRefused::Overflow { .. }) => Ok(None),
        Err(ExpandRefused::Memory) => Err(Memory),
    }
}
