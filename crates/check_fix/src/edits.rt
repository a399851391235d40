//! Edits of a span: bytes in the place of others.
ghost use Rattle.std.specs.Prelude.{◌≡◌, ◌++◌, OnOk};
ghost use Rattle.check_fix.specs.Edits.{edit_at};

use pm_bytes::{Blob, Memory};
use pm_recipe::Span;
use std::alloc::Global;

/// Bytes in the place of others.
#[derive(Drop)]
pub struct Edit {
    /// The place of the span's first byte in the text.
    pub first: usize,
    /// The place in the span.
    pub place: usize,
    /// How many bytes are replaced.
    pub count: usize,
    pub bytes: Blob,
}

/// Puts bytes in the place of so many at a rest of a span's bytes, unless there is none.
pub fn put(
    alloc: Global,
    span: &Span<'_>,
    rest: &[u8],
    count: usize,
    bytes: &[u8],
    edits: &mut Vec<Edit>,
) -> Result<(), Memory>
    ensures { OnOk result (edits.new.items ≡ edits.old.items
        ++ edit_at span.now.first span.now.bytes.now rest.now count bytes.now) }
{
    match rest {
        [] => Ok(()),
        [_, ..] => {
            edits.push(Edit {
                first: span.first,
                place: span.bytes.len().saturating_sub(rest.len()),
                count,
                bytes: Blob::from_slice(alloc, bytes)?,
            })?;
            Ok(())
        }
    }
}
