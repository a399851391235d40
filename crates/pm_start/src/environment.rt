//! The environment that the program is started with.
ghost use Rattle.std.specs.Prelude.{◌≡◌, ◌≤◌, ◌⊎◌, ◌++◌, ℕ, List, Option, None, true, false, codes, slice_get};
ghost use Rattle.std.specs.Prelude.{option_to_list, vec_len, IfOk, IfSome};
ghost use Rattle.pm_bytes.specs.Name.{is_usable};
ghost use Rattle.pm_start.specs.Variables.{IsEntryAt, front_if, pair_of, pairs_of};
ghost use Rattle.pm_start.specs.Entry.{Lacks, IsEntry, HasUnusable, IsMachineName, name_in};

use crate::{before_sign, first_line};
use pm_bytes::{Memory, Name, NameRefused, Pair, Pairs};
use std::alloc::Global;
use std::env::{Env, FillError};

/// Most entries fit into this room.
const FIRST_ROOM: usize = 1024;

/// The entries of an environment, as `NAME=value`. Clauses on them hold if it shows them.
pub trait Entries {
    /// What it shows of them.
    ghost shown: { Self → Option (List (List ℕ)) };

    /// Copies the entry of this index to the front of the room, and answers its length.
    fn entry(&self, index: usize, room: &mut [u8]) -> Result<usize, FillError>
        ensures { IsEntryAt (shown self.now) index result room.new };
}

// The environment of the machine, of which the system shows nothing.
#[derive(Drop)]
struct SystemEntries<'a, R: Env> {
    env: &'a R,
}

impl<'a, R: Env> Entries for SystemEntries<'a, R> {
    ghost shown = { λ _. None };

    fn entry(&self, index: usize, room: &mut [u8]) -> Result<usize, FillError> {
        self.env.var_at(index, room)
    }
}

/// Reads the variables whose name and value can each be a `Name`, in order.
pub fn read_environment<R: Env>(alloc: Global, env: &R) -> Result<Pairs, Memory> {
    read_entries(alloc, &SystemEntries { env })
}

/// The variables of these entries, in order.
pub fn read_entries<E: Entries>(alloc: Global, entries: &E) -> Result<Pairs, Memory>
    ensures { IfOk result (λ pairs. IfSome (E.shown entries.now) (λ shown. pairs ≡ pairs_of shown)) }
{
    let mut vars = Vec::new(alloc);
    let mut room = vec![in alloc; 0u8; FIRST_ROOM]?;
    for index in 0..usize::MAX {
        match read_entry(alloc, entries, index, &mut room)? {
            Some(length) => push_pair(alloc, &mut vars, &room.as_slice()[..length])?,
            None => return Ok(Pairs::from_vec(vars)),
        }
    }
    Err(Memory)
}

#[tactic(auto, using(crate::proofs::Variables::pushed, crate::proofs::Variables::not_pushed))]
fn push_pair(alloc: Global, vars: &mut Vec<Pair>, entry: &[u8]) -> Result<(), Memory>
    ensures { IfOk result (λ _. vars.new.items ≡ vars.old.items ++ option_to_list (pair_of entry.now)) }
{
    if let Some(pair) = read_pair(alloc, entry)? {
        vars.push(pair)?;
    }
    Ok(())
}

// How many bytes at the front of the room are the entry; None after the last one. The room grows until the entry fits.
fn read_entry<E: Entries>(
    alloc: Global,
    entries: &E,
    index: usize,
    room: &mut Vec<u8>,
) -> Result<Option<usize>, Memory>
    ensures within { IfOk result (λ found. IfSome found (λ length. length ≤ vec_len room.new)) }
    ensures entry { IfOk result (λ found. IfSome (E.shown entries.now)
        (λ shown. slice_get shown index ≡ front_if found room.new.items)) }
{
    for _ in 0..usize::BITS {
        match entries.entry(index, room.as_mut_slice()) {
            Ok(length) => return Ok(Some(length)),
            Err(FillError::NotPresent) => return Ok(None),
            Err(FillError::TooLong) => *room = vec![in alloc; 0u8; room.len().saturating_mul(2)]?,
        }
    }
    Err(Memory)
}

/// The name before the first equals sign and the value after it, where each can be a `Name`.
#[tactic(auto, using(crate::proofs::Machine::unusable_name, crate::proofs::Machine::unusable_value))]
pub fn read_pair(alloc: Global, entry: &[u8]) -> Result<Option<Pair>, Memory>
    ensures pair { IfOk result (λ found. IfSome found (λ pair. IsEntry entry.now pair.name pair.value)) }
    ensures none { IfOk result (λ found. found ≡ None → Lacks 61 entry.now ⊎ HasUnusable entry.now) }
    ensures computed { IfOk result (λ found. found ≡ pair_of entry.now) }
{
    let Some((name, value)) = before_sign(entry, b'=') else {
        return Ok(None);
    };
    let Some(name) = usable(alloc, name)? else {
        return Ok(None);
    };
    let Some(value) = usable(alloc, value)? else {
        return Ok(None);
    };
    Ok(Some(Pair { name, value }))
}

fn usable(alloc: Global, bytes: &[u8]) -> Result<Option<Name>, Memory>
    ensures name { IfOk result (λ found. IfSome found (λ name. (name ≡ bytes.now) × (is_usable bytes.now ≡ true))) }
    ensures none { IfOk result (λ found. found ≡ None → is_usable bytes.now ≡ false) }
{
    match Name::read(alloc, bytes) {
        Ok(name) => Ok(Some(name)),
        Err(NameRefused::Unusable) => Ok(None),
        Err(NameRefused::Memory) => Err(Memory),
    }
}

/// The machine's name, by the text of `/etc/hostname`: its first line, where it can be a name and isn't empty, else
/// `localhost`.
#[tactic(auto, using(crate::proofs::Machine::is_machine_name))]
pub fn machine_name(alloc: Global, text: &[u8]) -> Result<Name, Memory>
    ensures { IfOk result (λ name. IsMachineName text.now name) }
{
    name_or_local(alloc, first_line(text))
}

#[tactic(auto, using(crate::proofs::Machine::name_in_line, crate::proofs::Machine::name_in_other))]
fn name_or_local(alloc: Global, line: &[u8]) -> Result<Name, Memory>
    ensures { IfOk result (λ name. name ≡ name_in line.now) }
{
    if line.is_empty() {
        return local(alloc);
    }
    match usable(alloc, line)? {
        Some(name) => Ok(name),
        None => local(alloc),
    }
}

fn local(alloc: Global) -> Result<Name, Memory>
    ensures { IfOk result (λ name. name ≡ codes "localhost") }
{
    match usable(alloc, b"localhost")? {
        Some(name) => Ok(name),
        None => Err(Memory),
    }
}
