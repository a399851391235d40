//! The names in a folder: those of the base without what is gone, and those of the run.
ghost use Rattle.std.specs.Prelude.{◌≡◌};
ghost use Rattle.pm_overlay.specs.Steps.{layer, IsSame};

use crate::Base;
use crate::changed::Changed;
use crate::tree::Tree;
use pm_bytes::{Memory, Name, NameRefused, Names};
use pm_host::{Listed, Looked};
use std::alloc::Global;
use std::collections::BTreeMap;

impl<B: Base + Drop> Tree<B> {
    /// The last parts of the names directly in the folder, in the order of their bytes.
    pub(crate) fn names(&mut self, alloc: Global, folder: &str) -> Listed
        ensures { IsSame
            (layer (B.told self.old.base) self.old.changes self.old.slept)
            (layer (B.told self.new.base) self.new.changes self.new.slept) }
    {
        if self.look(folder) != Looked::Folder {
            return Listed::Failed;
        }
        if self.changes.contains_key(folder) {
            return listed(names_over(alloc, &self.changes, folder, Vec::new(alloc)));
        }
        match self.base.names(alloc, folder) {
            Listed::Names(names) => listed(names_over(
                alloc,
                &self.changes,
                folder,
                names.into_vec(),
            )),
            other => other,
        }
    }
}

fn listed(names: Result<Names, Memory>) -> Listed {
    match names {
        Ok(names) => Listed::Names(names),
        Err(Memory) => Listed::Memory,
    }
}

// These parts without those that are gone, and those that the run made.
fn names_over(
    alloc: Global,
    changes: &BTreeMap<String, Changed>,
    folder: &str,
    parts: Vec<Name>,
) -> Result<Names, Memory> {
    let mut names = untouched(alloc, changes, folder, parts)?;
    add_made(alloc, changes, folder, &mut names)?;
    names.sort_unstable_by(|one, other| one.as_str().cmp(other.as_str()));
    Ok(Names::from_vec(names))
}

// The parts that the run didn't change.
fn untouched(
    alloc: Global,
    changes: &BTreeMap<String, Changed>,
    folder: &str,
    parts: Vec<Name>,
) -> Result<Vec<Name>, Memory> {
    let mut names = Vec::new(alloc);
    for part in parts {
        let mut whole = String::from_str(alloc, folder)?;
        whole.push_str("/")?;
        whole.push_str(part.as_str())?;
        if !changes.contains_key(whole.as_str()) {
            names.push(part)?;
        }
    }
    Ok(names)
}

// The parts of what the run made or changed directly in the folder.
fn add_made(
    alloc: Global,
    changes: &BTreeMap<String, Changed>,
    folder: &str,
    names: &mut Vec<Name>,
) -> Result<(), Memory> {
    for (name, change) in changes.iter() {
        match (part_in(folder, name.as_str()), change) {
            (_, Changed::Gone) | (None, _) => {}
            (Some(part), _) => match Name::read(alloc, part) {
                Ok(part) => names.push(part)?,
                Err(NameRefused::Unusable) => {}
                Err(NameRefused::Memory) => return Err(Memory),
            },
        }
    }
    Ok(())
}

// The last part of the name of something directly in the folder.
fn part_in<'a>(folder: &str, name: &'a str) -> Option<&'a [u8]> {
    let rest = name.as_bytes().strip_prefix(folder.as_bytes())?;
    let part = rest.strip_prefix(b"/")?;
    if part.contains(&b'/') {
        None
    } else {
        Some(part)
    }
}
