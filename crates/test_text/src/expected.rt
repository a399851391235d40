//! What stands behind the arrow of a test: destinations, and an exit status.
ghost use Rattle.std.specs.Prelude.{◌≡◌, IfOk, map};
ghost use Rattle.test_text.specs.Cuts.{pieces_at, trimmed};
ghost use Rattle.test_text.specs.Expected.{part_of, status_part, parts_of, wanted_in, status_in, fault_in};
ghost use Rattle.pm_bytes.specs.Number.{count_of};

use crate::Reason;
use crate::cut::after_word;
use bstr::ByteSlice;
use pm_bytes::{Blob, Memory, read_count};
use std::alloc::Global;

/// One of the parts that commas part.
#[derive(Drop)]
pub(crate) enum Part {
    Blank,
    Status(u8),
    /// A status that is no number up to 255.
    NoStatus,
    Destination(Blob),
}

pub(crate) fn parts_of(alloc: Global, text: &[u8]) -> Result<Vec<Part>, Memory>
    ensures { IfOk result (λ parts. parts.items ≡ parts_of text.now) }
{
    let mut parts = Vec::new(alloc);
    for piece in text.split_str(b",") {
        parts.push(part_of(alloc, piece.trim())?)?;
    }
    Ok(parts)
}

fn part_of(alloc: Global, text: &[u8]) -> Result<Part, Memory>
    ensures { IfOk result (λ part. part ≡ part_of text.now) }
{
    if text.is_empty() {
        return Ok(Part::Blank);
    }
    match after_word(text, b"status") {
        Some(number) => Ok(status_part(number)),
        None => Ok(Part::Destination(Blob::from_slice(alloc, text)?)),
    }
}

fn status_part(number: &[u8]) -> Part
    ensures { result ≡ status_part (count_of number.now) }
{
    match read_count(number) {
        Some(status) if status <= 255 => Part::Status(status as u8),
        _ => Part::NoStatus,
    }
}

pub(crate) fn wanted_in(alloc: Global, parts: &[Part]) -> Result<Vec<Blob>, Memory>
    ensures { IfOk result (λ wanted. wanted.items ≡ wanted_in parts.now) }
{
    let mut wanted = Vec::new(alloc);
    for part in parts {
        if let Part::Destination(name) = part {
            wanted.push(name.copy(alloc)?)?;
        }
    }
    Ok(wanted)
}

pub(crate) fn status_in(parts: &[Part]) -> Option<u8>
    ensures { result ≡ status_in parts.now }
{
    for part in parts {
        if let Part::Status(status) = part {
            return Some(*status);
        }
    }
    None
}

pub(crate) fn fault_in(parts: &[Part]) -> Option<Reason>
    ensures { result ≡ fault_in parts.now }
{
    for part in parts {
        match part {
            Part::Blank => return Some(Reason::NoDestination),
            Part::NoStatus => return Some(Reason::NoStatus),
            Part::Status(_) | Part::Destination(_) => {}
        }
    }
    None
}
