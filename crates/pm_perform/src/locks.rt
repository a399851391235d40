//! Lock files of deliveries (procmailrc(5), "Local lockfile", and LOCKEXT, LOCKSLEEP, LOCKTIMEOUT and SUSPEND).
ghost use Rattle.std.specs.Prelude.{◌≡◌, [], codes, map, bytes_eq, IfOk};
ghost use Rattle.std.specs.List.{list_any};
ghost use Rattle.pm_bytes.specs.Path.{full_name};
ghost use Rattle.pm_meaning.specs.Destinations.{full_of};
ghost use Rattle.pm_meaning.specs.Locks.{rule_of, value_or, text_or};
ghost use Rattle.pm_meaning.specs.Locks;
ghost use Rattle.pm_meaning.specs.Minds.{mind_of};
ghost use Rattle.pm_perform.specs.LockNames.{IsLockName};

use pm_bytes::{Blob, Memory, Name, NameRefused, full, read_count};
use pm_journal::{HeldLocks, LockRule};
use pm_meaning::{Destination, Process, file_name, without_ending};
use pm_vars::Vars;
use std::alloc::Global;

/// How lock files are asked for, in seconds.
pub fn lock_rule(vars: &Vars) -> LockRule
    ensures { result ≡ rule_of vars.now }
{
    LockRule {
        sleep: number_or(8, b"LOCKSLEEP", vars),
        limit: number_or(1024, b"LOCKTIMEOUT", vars),
        suspend: number_or(16, b"SUSPEND", vars),
        tries: 1000,
    }
}

// The number in a variable's value.
fn number_or(otherwise: u64, name: &[u8], vars: &Vars) -> u64
    ensures { result ≡ Locks.number_or otherwise name.now vars.now }
{
    match vars.get(name) {
        None => otherwise,
        Some(value) => match read_count(value.as_slice()) {
            Some(count) => count,
            None => otherwise,
        },
    }
}

/// The text after the second colon of a recipe, empty where there is none.
pub fn lock_text(lock: &Option<Blob>) -> &[u8]
    ensures { result.now ≡ text_or [] lock.now }
{
    match lock {
        None => b"",
        Some(text) => text.as_slice(),
    }
}

/// The word of the lock file that a recipe asks for, by its text, what that expands to, and the destinations.
pub fn lock_word(
    alloc: Global,
    lock: &Option<Blob>,
    value: Blob,
    words: &[Blob],
    process: &Process,
) -> Result<Option<Blob>, Memory>
    ensures { IfOk result (λ word. word ≡ Locks.lock_word lock.now value words.now (mind_of process.now)) }
{
    match lock {
        None => Ok(None),
        Some(text) => {
            if text.len() == 0 {
                automatic_lock(alloc, words, process)
            } else {
                Ok(Some(value))
            }
        }
    }
}

// The first destination's name, without a folder's ending, with LOCKEXT.
fn automatic_lock(alloc: Global, words: &[Blob], process: &Process) -> Result<Option<Blob>, Memory>
    ensures { IfOk result (λ word. word ≡ Locks.automatic_lock words.now (mind_of process.now)) }
{
    match words.first() {
        None => Ok(None),
        Some(word) => {
            let name = full_bytes(alloc, &process.base, word.as_slice())?;
            if name.as_slice() == b"/dev/null".as_slice() {
                return Ok(None);
            }
            let mut lock = Blob::from_slice(alloc, without_ending(word.as_slice()))?;
            lock.push_slice(lock_extension(&process.vars))?;
            Ok(Some(lock))
        }
    }
}

// A text that may be no name, seen from the folder.
fn full_bytes(alloc: Global, base: &Name, word: &[u8]) -> Result<Blob, Memory>
    ensures { IfOk result (λ name. name ≡ full_name base.now word.now) }
{
    let folder = base.as_str();
    if word.starts_with(b"/") || folder == "." {
        return Blob::from_slice(alloc, word);
    }
    let mut name = Blob::from_slice(alloc, folder.as_bytes())?;
    if !folder.as_bytes().ends_with(b"/") {
        name.push_slice(b"/")?;
    }
    name.push_slice(word)?;
    Ok(name)
}

// LOCKEXT, as it stands.
pub fn lock_extension(vars: &Vars) -> &[u8]
    ensures { result.now ≡ value_or (codes ".lock") (codes "LOCKEXT") vars.now }
{
    match vars.get(b"LOCKEXT") {
        None => b".lock",
        Some(value) => value.as_slice(),
    }
}

/// The word as a file's name, where one is asked for. It is refused as unusable where it can't be one.
pub fn lock_name(alloc: Global, word: Option<Blob>) -> Result<Option<Name>, NameRefused>
    ensures { IsLockName word result }
{
    match word {
        None => Ok(None),
        Some(word) => match file_name(alloc, word.as_slice()) {
            Ok(Some(name)) => Ok(Some(name)),
            Ok(None) => Err(NameRefused::Unusable),
            Err(Memory) => Err(NameRefused::Memory),
        },
    }
}

/// The text that is told where the lock file's name can't be used.
pub fn blamed_text<'a>(lock: &'a Option<Blob>, text: &'a [u8]) -> &'a [u8]
    ensures { result.now ≡ Locks.blamed_text lock.now text.now }
{
    match lock {
        None => text,
        Some(own) => { if own.len() == 0 { text } else { own.as_slice() } }
    }
}

/// The lock file as seen from where the run began.
pub fn full_lock(alloc: Global, base: &Name, lock: Option<Name>) -> Result<Option<Name>, Memory>
    ensures { IfOk result (λ full. full ≡ Locks.full_lock base.now lock) }
{
    match lock {
        None => Ok(None),
        Some(name) => Ok(Some(full(alloc, base, &name)?)),
    }
}

/// The names of the destinations as seen from where the run began.
pub fn full_names(
    alloc: Global,
    base: &Name,
    destinations: &[Destination],
) -> Result<Vec<Name>, Memory>
    ensures { IfOk result (λ all. all.items ≡ map (full_of base.now) destinations.now) }
{
    let mut all = Vec::new(alloc);
    for destination in destinations {
        all.push(full(alloc, base, &destination.name)?)?;
    }
    Ok(all)
}

/// Whether the lock file is a destination, or is held already.
pub fn is_taken(lock: &Option<Name>, names: &[Name], held: &HeldLocks) -> bool
    ensures { result ≡ Locks.is_taken lock.now names.now held.now.names }
{
    match lock {
        None => false,
        Some(lock) => is_among(lock, names) || held.holds(lock),
    }
}

fn is_among(lock: &Name, names: &[Name]) -> bool
    ensures { result ≡ list_any (λ name. bytes_eq name lock.now) names.now }
{
    names.iter().any(|name| name.as_str() == lock.as_str())
}

/// Whether a destination is a lock file that is held.
pub fn any_held(names: &[Name], held: &HeldLocks) -> bool
    ensures { result ≡ Locks.any_held names.now held.now.names }
{
    names.iter().any(|name| held.holds(name))
}
