//! The names of destinations.
ghost use Rattle.std.specs.Prelude.{◌≡◌, ◌++◌, IfOk, map};
ghost use Rattle.explain_mails.specs.Names.{destination_name, destination_names};

use explain_text::{Destination, destinations_of};
use pm_bytes::{Blob, Memory};
use pm_journal::Entry;
use std::alloc::Global;

/// The destinations of a run, in order, as people are told them: mailboxes and directories by name, `| line`,
/// `forward addresses`, and `standard output`.
pub fn destination_names(alloc: Global, entries: &[Entry]) -> Result<Vec<Blob>, Memory>
    ensures { IfOk result (λ names. names.items ≡ destination_names entries.now) }
{
    let destinations = destinations_of(alloc, entries)?;
    names_of(alloc, destinations.as_slice())
}

fn names_of(alloc: Global, destinations: &[Destination]) -> Result<Vec<Blob>, Memory>
    ensures { IfOk result (λ names. names.items ≡ map destination_name destinations.now) }
{
    let mut names = Vec::new(alloc);
    for destination in destinations {
        names.push(destination_name(alloc, destination)?)?;
    }
    Ok(names)
}

fn destination_name(alloc: Global, destination: &Destination) -> Result<Blob, Memory>
    ensures { IfOk result (λ name. name ≡ destination_name destination.now) }
{
    match destination {
        Destination::File(name) => name.copy(alloc),
        Destination::Folder(name) => name.copy(alloc),
        Destination::Program(line) => behind(alloc, b"| ", line),
        Destination::Forward(addresses) => behind(alloc, b"forward ", addresses),
        Destination::Output => Blob::from_slice(alloc, b"standard output"),
    }
}

fn behind(alloc: Global, front: &[u8], name: &Blob) -> Result<Blob, Memory>
    ensures { IfOk result (λ text. text ≡ front.now ++ name.now) }
{
    let mut text = Blob::from_slice(alloc, front)?;
    text.push_slice(name.as_slice())?;
    Ok(text)
}
