//! What a run made of a name.
ghost use Rattle.std.specs.Prelude.{◌≡◌, IfOk, OnOk, OnErr, take};

use pm_bytes::{Blob, Memory};
use pm_host::File;
use std::alloc::Global;

/// A file of the base with its first bytes alone, and more bytes after them.
#[derive(Drop)]
pub(crate) struct Grown {
    /// The file's name in the base.
    pub(crate) from: String,
    /// How many of its bytes are left.
    pub(crate) kept: u64,
    pub(crate) more: Blob,
}

/// What a run made of a name.
#[derive(Drop)]
pub(crate) enum Changed {
    Gone,
    Folder,
    /// A file of the run.
    New(File),
    Grown(Grown),
}

impl Changed {
    ghost use Rattle.pm_overlay.specs.Changes.{AsChanged, Lengthens, Shortens, IsGrownFrom};

    /// The file of the base with its first bytes alone.
    pub(crate) fn front(alloc: Global, name: &str, kept: u64) -> Result<Changed, Memory>
        ensures { IfOk result (IsGrownFrom name.now kept) }
    {
        Ok(Changed::Grown(Grown {
            from: String::from_str(alloc, name)?,
            kept,
            more: Blob::empty(alloc),
        }))
    }

    pub(crate) fn copy(&self, alloc: Global) -> Result<Changed, Memory>
        ensures { IfOk result (λ copy. AsChanged copy self.now) }
    {
        Ok(match self {
            Changed::Gone => Changed::Gone,
            Changed::Folder => Changed::Folder,
            Changed::New(file) => Changed::New(File {
                bytes: file.bytes.copy(alloc)?,
                made: file.made,
            }),
            Changed::Grown(grown) => Changed::Grown(Grown {
                from: String::from_str(alloc, grown.from.as_str())?,
                kept: grown.kept,
                more: grown.more.copy(alloc)?,
            }),
        })
    }

    /// Adds the piece to a file; anything else stays as it is.
    pub(crate) fn lengthen(&mut self, piece: &[u8]) -> Result<(), Memory>
        ensures ok { OnOk result (Lengthens piece.now self.old self.new) }
        ensures err { OnErr result (self.new ≡ self.old) }
    {
        match self {
            Changed::New(file) => file.bytes.push_slice(piece),
            Changed::Grown(grown) => grown.more.push_slice(piece),
            Changed::Gone | Changed::Folder => Ok(()),
        }
    }

    /// Keeps the first bytes of a file, of which the base has so many; anything else stays as it is.
    pub(crate) fn shorten(&mut self, front: u64, len: u64)
        ensures { Shortens front len self.old self.new }
    {
        match self {
            Changed::New(file) => keep_front(&mut file.bytes, len),
            Changed::Grown(grown) => {
                grown.kept = front.min(len);
                keep_front(&mut grown.more, len.saturating_sub(front));
            }
            Changed::Gone | Changed::Folder => {}
        }
    }
}

fn keep_front(bytes: &mut Blob, len: u64)
    ensures { bytes.new ≡ take len bytes.old }
{
    if len < bytes.len() as u64 {
        bytes.truncate(len as usize);
    }
}
