//! Words as destinations, and how names in a folder begin.
ghost use Rattle.std.specs.Prelude.{◌≡◌, IfOk, codes};
ghost use Rattle.pm_meaning.specs.Destinations;
ghost use Rattle.pm_meaning.specs.Locks.{value_or};
ghost use Rattle.pm_meaning.specs.DestinationTexts.{AreDestinations, usable_destination, prefix_of};

use crate::names::file_name;
use crate::process::Destination;
use pm_bytes::{Blob, Memory, Name, NameRefused};
use pm_journal::FolderKind;
use pm_vars::Vars;
use std::alloc::Global;

/// The words as destinations, if there is one and each can be the name of a file or a folder.
pub fn destinations(alloc: Global, words: &[Blob]) -> Result<Option<Vec<Destination>>, Memory>
    ensures { IfOk result (λ all. AreDestinations words.now all) }
{
    let mut all = Vec::new(alloc);
    if words.len() == 0 {
        return Ok(None);
    }
    for word in words {
        match destination(alloc, word.as_slice())? {
            Some(destination) => all.push(destination)?,
            None => return Ok(None),
        }
    }
    Ok(Some(all))
}

// What a word asks for, where its name can be used.
fn destination(alloc: Global, word: &[u8]) -> Result<Option<Destination>, Memory>
    ensures { IfOk result (λ destination. destination ≡ usable_destination word.now) }
{
    match file_name(alloc, without_ending(word))? {
        Some(name) => Ok(Some(Destination {
            kind: folder_kind(word),
            name,
        })),
        None => Ok(None),
    }
}

// The kind of folder that a word's ending asks for (procmailrc(5), "Recipe action line").
fn folder_kind(word: &[u8]) -> Option<FolderKind>
    ensures { result ≡ Destinations.folder_kind word.now }
{
    if word.ends_with(b"/.") {
        Some(FolderKind::Mh)
    } else if word.ends_with(b"/") {
        Some(FolderKind::Maildir)
    } else {
        None
    }
}

/// A word without a folder's ending.
pub fn without_ending(word: &[u8]) -> &[u8]
    ensures { result.now ≡ Destinations.without_ending word.now }
{
    if word.ends_with(b"/.") {
        &word[..word.len() - 2]
    } else if word.ends_with(b"/") {
        &word[..word.len() - 1]
    } else {
        word
    }
}

/// How names in a plain folder begin (MSGPREFIX, procmailrc(5)), where they can begin so.
pub fn plain_prefix(alloc: Global, vars: &Vars) -> Result<Option<Name>, Memory>
    ensures { IfOk result (λ prefix. prefix ≡ prefix_of (value_or (codes "msg.") (codes "MSGPREFIX") vars.now)) }
{
    match Name::read(alloc, prefix_text(vars)) {
        Ok(name) => Ok(Some(name)),
        Err(NameRefused::Unusable) => Ok(None),
        Err(NameRefused::Memory) => Err(Memory),
    }
}

fn prefix_text(vars: &Vars) -> &[u8]
    ensures { result.now ≡ value_or (codes "msg.") (codes "MSGPREFIX") vars.now }
{
    match vars.get(b"MSGPREFIX") {
        None => b"msg.",
        Some(value) => value.as_slice(),
    }
}
