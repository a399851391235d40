//! The mails of a mailbox: each begins with a line `From ` after an empty line.
ghost use Rattle.std.specs.Prelude.{◌≡◌, ◌≤◌, ◌<◌, ◌∷◌, ◌++◌, IfOk, length, take, drop};
ghost use Rattle.std.specs.List.{concat};
ghost use Rattle.formail_split.specs.Parts.{parts_of};

use memchr::memmem;
use pm_bytes::{Blob, Memory};
use std::alloc::Global;

/// How many bytes the first mail of a mailbox has.
pub fn first_length(bytes: &[u8]) -> usize
    requires { 0 < length bytes.now }
    ensures more { 0 < result }
    ensures within { result ≤ length bytes.now }
    ensures first { parts_of bytes.now ≡ take result bytes.now ∷ parts_of (drop result bytes.now) }
{
    if bytes.starts_with(b"\nFrom ") {
        return 1;
    }
    match memmem::find(bytes, b"\n\nFrom ") {
        None => bytes.len(),
        Some(place) => place + 2,
    }
}

/// The mails of a mailbox in their order (formail(1), option -s), each in the memory of the mailbox where that has
/// several owners. `Memory` is the only error.
pub fn parts_of_blob(alloc: Global, mailbox: &Blob) -> Result<Vec<Blob>, Memory>
    ensures cut { IfOk result (λ parts. parts.items ≡ parts_of mailbox.now) }
    ensures whole { IfOk result (λ parts. concat parts.items ≡ mailbox.now) }
{
    let bytes = mailbox.as_slice();
    let mut parts = Vec::new(alloc);
    let mut start = 0;
    while start < bytes.len() {
        let end = start + first_length(&bytes[start..]);
        parts.push(mailbox.part(alloc, start, end)?)?;
        start = end;
    }
    Ok(parts)
}

/// The mails of a mailbox in their order (formail(1), option -s). `Memory` is the only error.
pub fn parts(alloc: Global, bytes: &[u8]) -> Result<Vec<Blob>, Memory>
    ensures cut { IfOk result (λ parts. parts.items ≡ parts_of bytes.now) }
    ensures whole { IfOk result (λ parts. concat parts.items ≡ bytes.now) }
{
    let mut mailbox = Blob::from_slice(alloc, bytes)?;
    mailbox.share()?;
    parts_of_blob(alloc, &mailbox)
}
