//! Names of destinations in a file of tests, and as a run has them.
ghost use Rattle.std.specs.Prelude.{◌≡◌, ◌++◌, IfOk, option_map};
ghost use Rattle.test_text.specs.Names.{name_of, seen_from, without_ending, is_word, behind, shown_name, home_front};

use pm_bytes::{Blob, Memory};
use std::alloc::Global;

/// What names in a file of tests mean in a run.
#[derive(Clone, Copy)]
pub struct Places<'a> {
    /// The home directory.
    pub home: &'a [u8],
    /// The mailbox that `default` names.
    pub default: &'a [u8],
}

/// The destination that a text names, as a run has it. A name is as seen from the home directory, `~/` is that as well,
/// an ending that makes it a directory counts for nothing, and `default` is the default mailbox. Programs, addresses
/// and standard output are as they stand.
pub fn name_of(alloc: Global, text: &[u8], places: Places<'_>) -> Result<Blob, Memory>
    ensures { IfOk result (λ name. name ≡ name_of text.now places.entry.home.now places.entry.default.now) }
{
    if text == b"default".as_slice() {
        return Blob::from_slice(alloc, places.default);
    }
    if is_word(text) {
        return Blob::from_slice(alloc, text);
    }
    seen_from(alloc, places.home, behind(without_ending(text), b"~/"))
}

// `| program`, `forward addresses` or `standard output`.
fn is_word(text: &[u8]) -> bool
    ensures { result ≡ is_word text.now }
{
    text.starts_with(b"|") || text.starts_with(b"forward ") || text == b"standard output".as_slice()
}

fn behind<'a>(text: &'a [u8], front: &[u8]) -> &'a [u8]
    ensures { result.now ≡ behind front.now text.now }
{
    if text.starts_with(front) {
        &text[front.len()..]
    } else {
        text
    }
}

fn without_ending(text: &[u8]) -> &[u8]
    ensures { result.now ≡ without_ending text.now }
{
    if text.ends_with(b"/.") {
        return &text[..text.len() - 2];
    }
    if text.ends_with(b"/") {
        return &text[..text.len() - 1];
    }
    text
}

/// The mailbox that a value names, such as that of DEFAULT, as seen from this folder.
pub fn mailbox_name(alloc: Global, value: &[u8], folder: &[u8]) -> Result<Blob, Memory>
    ensures { IfOk result (λ name. name ≡ seen_from folder.now (without_ending value.now)) }
{
    seen_from(alloc, folder, without_ending(value))
}

fn seen_from(alloc: Global, home: &[u8], name: &[u8]) -> Result<Blob, Memory>
    ensures { IfOk result (λ full. full ≡ seen_from home.now name.now) }
{
    if name.starts_with(b"/") {
        return Blob::from_slice(alloc, name);
    }
    let mut full = home_front(alloc, home)?;
    full.push_slice(name)?;
    Ok(full)
}

fn home_front(alloc: Global, home: &[u8]) -> Result<Blob, Memory>
    ensures { IfOk result (λ front. front ≡ home_front home.now) }
{
    let mut front = Blob::from_slice(alloc, home)?;
    if !home.ends_with(b"/") {
        front.push_slice(b"/")?;
    }
    Ok(front)
}

/// A destination's name as it can stand in a file of tests: as seen from the home directory, where it is in there.
pub fn shown_name(alloc: Global, name: &[u8], home: &[u8]) -> Result<Blob, Memory>
    ensures { IfOk result (λ shown. shown ≡ shown_name name.now home.now) }
{
    let front = home_front(alloc, home)?;
    Blob::from_slice(alloc, behind(name, front.as_slice()))
}
