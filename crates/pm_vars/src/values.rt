//! The variables themselves, in the order in which their names came. The map holds them, except for a value that
//! LASTFOLDER got after a delivery, when no memory may be asked for: that is held apart until another one is set.
//! An entry stays in the map when its variable is unset, as a gone one, so that the entries behind it needn't move.
//! Once half of them may be gone all of those leave.
ghost use Rattle.std.specs.Prelude.{◌≡◌, [], List, None, IfOk, OnOk, OnErr, IfSome, IsSome, is_some, bytes_eq, codes};
ghost use Rattle.std.specs.Prelude.{map, filter, option_copied};
ghost use Rattle.std.specs.Map.{lookup};
ghost use Rattle.pm_vars.specs.Held.{live};
ghost use Rattle.pm_vars.specs.Values.{with_last};
ghost use Rattle.pm_vars.specs.Variables.{Variable, value_of, with_value, without, is_exported, variable_of};

use crate::environment::push_exported;
use crate::held::Held;
use indexmap::IndexMap;
use pm_bytes::{Blob, Memory, Pair};
use std::alloc::Global;
use std::marker::Model;

const LAST_FOLDER: &[u8] = b"LASTFOLDER";

#[derive(Drop)]
pub(crate) struct Values {
    alloc: Global,
    held: IndexMap<Vec<u8>, Held>,
    // At least as many as the gone entries: an unset of a name that has no value counts too.
    gone: usize,
    last_folder: Option<Blob>,
}

impl Model for Values {
    ghost use Rattle.std.specs.Prelude.{List};
    ghost use Rattle.pm_vars.specs.Variables.{Variable};

    ghost Value = { List Variable };

    ghost use Rattle.pm_vars.specs.Values.{values_of};

    ghost view = { values_of };
}

impl Values {
    pub fn new(alloc: Global) -> Values
        ensures { result ≡ [] }
    {
        Values {
            alloc,
            held: IndexMap::new(alloc),
            gone: 0,
            last_folder: None,
        }
    }

    pub fn get(&self, name: &[u8]) -> Option<&Blob>
        ensures { option_copied result ≡ value_of name.now self.now }
    {
        match &self.last_folder {
            None => find(&self.held, name),
            Some(value) => {
                if name == LAST_FOLDER {
                    Some(value)
                } else {
                    find(&self.held, name)
                }
            }
        }
    }

    pub fn set(&mut self, name: &[u8], value: Blob) -> Result<(), Memory>
        ensures ok { OnOk result (self.new ≡ with_value name.now value self.old) }
        ensures err { OnErr result (self.new ≡ self.old) }
    {
        settle(self.alloc, &mut self.held, &mut self.last_folder)?;
        put(self.alloc, &mut self.held, name, value)
    }

    /// Sets LASTFOLDER, and takes no memory.
    pub fn set_last_folder(&mut self, value: Blob)
        ensures { self.new ≡ with_value (codes "LASTFOLDER") value self.old }
    {
        self.last_folder = Some(value);
    }

    pub fn unset(&mut self, name: &[u8])
        ensures { self.new ≡ without name.now self.old }
    {
        forget(&mut self.last_folder, name);
        remove(&mut self.held, name);
        self.gone = self.gone.saturating_add(1);
        if self.gone > self.held.len() / 2 {
            drop_gone(&mut self.held);
            self.gone = 0;
        }
    }

    pub fn copy(&self) -> Result<Values, Memory>
        ensures { IfOk result (λ copy. copy ≡ self.now) }
    {
        let held = copy_held(&self.held)?;
        let last_folder = copy_last(self.alloc, &self.last_folder)?;
        Ok(Values {
            alloc: self.alloc,
            held,
            gone: self.gone,
            last_folder,
        })
    }

    /// The variables in order whose name and value are each a `Name`.
    pub fn export(&self, alloc: Global) -> Result<Vec<Pair>, Memory>
        ensures { IfOk result (λ pairs. map variable_of pairs.items ≡ filter is_exported self.now) }
    {
        if self.last_folder.is_none() {
            return export_held(alloc, &self.held);
        }
        let mut held = copy_held(&self.held)?;
        let mut last_folder = copy_last(alloc, &self.last_folder)?;
        settle(alloc, &mut held, &mut last_folder)?;
        export_held(alloc, &held)
    }
}

fn find<'a>(held: &'a IndexMap<Vec<u8>, Held>, name: &[u8]) -> Option<&'a Blob>
    ensures { option_copied result ≡ value_of name.now (live held.now.entries) }
{
    let index = held.get_index_of(name)?;
    held[index].value.as_ref()
}

fn put(
    alloc: Global,
    held: &mut IndexMap<Vec<u8>, Held>,
    name: &[u8],
    value: Blob,
) -> Result<(), Memory>
    ensures ok { OnOk result (live held.new.entries
        ≡ with_value name.now value (live held.old.entries)) }
    ensures err { OnErr result (live held.new.entries ≡ live held.old.entries) }
{
    let owned = owned_name(alloc, name)?;
    clear_place(held, name);
    let value = Some(value);
    held.insert(owned, Held { alloc, value })?;
    Ok(())
}

// A gone entry leaves, since the name comes last when it is set again.
fn clear_place(held: &mut IndexMap<Vec<u8>, Held>, name: &[u8])
    ensures same { live held.new.entries ≡ live held.old.entries }
    ensures clear { IfSome (lookup (λ k. bytes_eq name.now k.items) held.new.entries) (λ found. IsSome found.value) }
{
    let Some(found) = held.get(name) else {
        return;
    };
    if found.value.is_none() {
        let _ = held.shift_remove(name);
    }
}

fn owned_name(alloc: Global, name: &[u8]) -> Result<Vec<u8>, Memory>
    ensures { IfOk result (λ owned. owned.items ≡ name.now) }
{
    let owned = name.to_vec(alloc)?;
    Ok(owned)
}

fn remove(held: &mut IndexMap<Vec<u8>, Held>, name: &[u8])
    ensures { live held.new.entries ≡ without name.now (live held.old.entries) }
{
    if let Some(found) = held.get_mut(name) {
        found.value = None;
    }
}

fn drop_gone(held: &mut IndexMap<Vec<u8>, Held>)
    ensures { live held.new.entries ≡ live held.old.entries }
{
    held.retain(
        |_name: &Vec<u8>, found: &mut Held| -> bool
            ensures { (result ≡ is_some found.old.value) × (found.new ≡ found.old) }
        { found.value.is_some() },
    );
}

// The value that is held apart goes, if it is that of this name.
fn forget(last_folder: &mut Option<Blob>, name: &[u8])
    ensures { (vs : List Variable) → with_last last_folder.new (without name.now vs)
        ≡ without name.now (with_last last_folder.old vs) }
{
    if name != LAST_FOLDER {
        return;
    }
    *last_folder = None;
}

// The map gets the value that was held apart.
fn settle(
    alloc: Global,
    held: &mut IndexMap<Vec<u8>, Held>,
    last_folder: &mut Option<Blob>,
) -> Result<(), Memory>
    ensures same { with_last last_folder.new (live held.new.entries)
        ≡ with_last last_folder.old (live held.old.entries) }
    ensures settled { OnOk result (last_folder.new ≡ None) }
{
    if let Some(value) = last_folder {
        let value = value.copy(alloc)?;
        put(alloc, held, LAST_FOLDER, value)?;
    }
    *last_folder = None;
    Ok(())
}

fn copy_held(held: &IndexMap<Vec<u8>, Held>) -> Result<IndexMap<Vec<u8>, Held>, Memory>
    ensures { IfOk result (λ copy. live copy.entries ≡ live held.now.entries) }
{
    let copy = held.clone()?;
    Ok(copy)
}

fn copy_last(alloc: Global, last_folder: &Option<Blob>) -> Result<Option<Blob>, Memory>
    ensures { IfOk result (λ copy. copy ≡ last_folder.now) }
{
    match last_folder {
        None => Ok(None),
        Some(value) => Ok(Some(value.copy(alloc)?)),
    }
}

fn export_held(alloc: Global, held: &IndexMap<Vec<u8>, Held>) -> Result<Vec<Pair>, Memory>
    ensures { IfOk result (λ pairs. map variable_of pairs.items
        ≡ filter is_exported (live held.now.entries)) }
{
    let mut pairs = Vec::new(alloc);
    for (name, found) in held {
        if let Some(value) = &found.value {
            push_exported(alloc, &mut pairs, name, value.as_slice())?;
        }
    }
    Ok(pairs)
}
