//! What an option of the command line asks for, with its texts (formail(1)).
ghost use Rattle.std.specs.Prelude.{◌≡◌, IfOk};
ghost use Rattle.std.specs.List.{list_all};
ghost use Rattle.pm_message.specs.Field.{is_name_byte, is_named};
ghost use Rattle.formail_top.specs.Words.{is_folded, is_bare_name, may_be_bare, is_put, put_for, take_for, unique_for};
ghost use Rattle.formail_top.specs.Words.{setting_for, rename_for, bound_in, bound_for, cache_named};
ghost use Rattle.formail_top.specs.Words.{cache_for, setting_for_both, setting_of};
ghost use Rattle.formail_top.specs.Words.{usable_name};

use crate::{Cache, Setting};
use formail_edit::{Put, PutKind, Rename, Take, Unique};
use pm_bytes::{Blob, Memory, Name, NameRefused, is_blank, read_count};
use pm_message::{FieldKind, read_key};
use std::alloc::Global;

// Whether each newline is followed by a blank.
fn all_folded(text: &[u8]) -> bool
    ensures { result ≡ is_folded text.now }
{
    let mut rest = text;
    loop {
        match rest {
            [] => return true,
            [only] => return *only != b'\n',
            [b'\n', next, ..] if !is_blank(*next) => return false,
            [_, more @ ..] => rest = more,
        }
    }
}

fn all_in_names(text: &[u8]) -> bool
    ensures { result ≡ list_all is_name_byte text.now }
{
    text.iter()
        .all(|byte| (b'!'..=b'~').contains(byte) && *byte != b':')
}

// Whether the text is a name without its colon, or that of the line `From `.
fn is_bare(text: &[u8]) -> bool
    ensures { result ≡ is_bare_name text.now }
{
    if text == b"From ".as_slice() {
        return true;
    }
    text.len() > 0 && all_in_names(text)
}

fn begins_named(text: &[u8]) -> bool
    ensures { result ≡ is_named text.now }
{
    match read_key(text, false).kind {
        FieldKind::Named => true,
        _ => false,
    }
}

fn allows_bare(kind: PutKind) -> bool
    ensures { result ≡ may_be_bare kind }
{
    match kind {
        PutKind::Old => true,
        PutKind::Replace => true,
        PutKind::IfNone => false,
        PutKind::Always => false,
    }
}

fn may_be_put(kind: PutKind, text: &[u8]) -> bool
    ensures { result ≡ is_put kind text.now }
{
    if !all_folded(text) {
        return false;
    }
    if begins_named(text) {
        return true;
    }
    allows_bare(kind) && is_bare(text)
}

fn put(alloc: Global, kind: PutKind, text: &[u8]) -> Result<Option<Setting>, Memory>
    ensures { IfOk result (λ setting. setting ≡ put_for kind text.now) }
{
    if !may_be_put(kind, text) {
        return Ok(None);
    }
    let text = Blob::from_slice(alloc, text)?;
    Ok(Some(Setting::Put(Put { kind, text })))
}

fn take(alloc: Global, whole: bool, name: &[u8]) -> Result<Option<Setting>, Memory>
    ensures { IfOk result (λ setting. setting ≡ take_for whole name.now) }
{
    if name.len() == 0 {
        return Ok(None);
    }
    let name = Blob::from_slice(alloc, name)?;
    Ok(Some(Setting::Take(Take { whole, name })))
}

fn unique(alloc: Global, last: bool, name: &[u8]) -> Result<Option<Setting>, Memory>
    ensures { IfOk result (λ setting. setting ≡ unique_for last name.now) }
{
    if name.len() == 0 {
        return Ok(None);
    }
    let name = Blob::from_slice(alloc, name)?;
    Ok(Some(Setting::Unique(Unique { last, name })))
}

// What a letter with its text asks for.
pub fn with_one(alloc: Global, letter: u8, text: &[u8]) -> Result<Option<Setting>, Memory>
    ensures { IfOk result (λ setting. setting ≡ setting_for letter text.now) }
{
    match letter {
        b'p' => Ok(Some(Setting::Prefix(Blob::from_slice(alloc, text)?))),
        b'x' => take(alloc, false, text),
        b'X' => take(alloc, true, text),
        b'i' => put(alloc, PutKind::Old, text),
        b'I' => put(alloc, PutKind::Replace, text),
        b'a' => put(alloc, PutKind::IfNone, text),
        b'A' => put(alloc, PutKind::Always, text),
        b'u' => unique(alloc, false, text),
        b'U' => unique(alloc, true, text),
        _ => Ok(None),
    }
}

// What `-R` asks for.
fn rename(alloc: Global, old: Blob, new: &[u8]) -> Result<Option<Setting>, Memory>
    ensures { IfOk result (λ setting. setting ≡ rename_for old new.now) }
{
    if old.len() == 0 || new.len() == 0 {
        return Ok(None);
    }
    if !all_folded(new) {
        return Ok(None);
    }
    let new = Blob::from_slice(alloc, new)?;
    Ok(Some(Setting::Rename(Rename { old, new })))
}

fn within_bounds(most: u64) -> Option<u64>
    ensures { result ≡ bound_in most }
{
    if 1 <= most && most <= 1_048_576 {
        Some(most)
    } else {
        None
    }
}

// After how many bytes a cache begins anew.
fn bound(text: &[u8]) -> Option<u64>
    ensures { result ≡ bound_for text.now }
{
    if text.len() > 7 {
        return None;
    }
    match read_count(text) {
        None => None,
        Some(most) => within_bounds(most),
    }
}

// A cache whose name isn't empty.
fn named_cache(alloc: Global, most: u64, word: &[u8]) -> Result<Option<Setting>, Memory>
    ensures { IfOk result (λ setting. setting ≡ cache_named most word.now) }
{
    if word.len() == 0 {
        return Ok(None);
    }
    let Some(name) = name(alloc, word)? else {
        return Ok(None);
    };
    Ok(Some(Setting::Cache(Cache { most, name })))
}

// What `-D` asks for.
fn cache(alloc: Global, most: &[u8], word: &[u8]) -> Result<Option<Setting>, Memory>
    ensures { IfOk result (λ setting. setting ≡ cache_for most.now word.now) }
{
    let Some(most) = bound(most) else {
        return Ok(None);
    };
    named_cache(alloc, most, word)
}

// What a letter that takes two texts asks for.
pub fn with_both(
    alloc: Global,
    letter: u8,
    old: Blob,
    new: &[u8],
) -> Result<Option<Setting>, Memory>
    ensures { IfOk result (λ setting. setting ≡ setting_for_both letter old new.now) }
{
    match letter {
        b'R' => rename(alloc, old, new),
        b'D' => cache(alloc, old.as_slice(), new),
        _ => Ok(None),
    }
}

// What a letter that stands alone asks for.
pub fn alone(letter: u8) -> Option<Setting>
    ensures { result ≡ setting_of letter }
{
    match letter {
        b'c' => Some(Setting::Join),
        b'z' => Some(Setting::Zap),
        b'f' => Some(Setting::KeepFrom),
        b'b' => Some(Setting::KeepBody),
        b'k' => Some(Setting::WithBody),
        b'r' => Some(Setting::Reply),
        b't' => Some(Setting::Trust),
        _ => None,
    }
}

pub fn name(alloc: Global, word: &[u8]) -> Result<Option<Name>, Memory>
    ensures { IfOk result (λ name. name ≡ usable_name word.now) }
{
    match Name::read(alloc, word) {
        Ok(name) => Ok(Some(name)),
        Err(NameRefused::Unusable) => Ok(None),
        Err(NameRefused::Memory) => Err(Memory),
    }
}
