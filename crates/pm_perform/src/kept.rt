//! What a process remembers of a delivery (procmailrc(5), LASTFOLDER and LOGABSTRACT).
ghost use Rattle.std.specs.Prelude.{◌≡◌, IfOk};
ghost use Rattle.pm_meaning.specs.Minds.{mind_of};
ghost use Rattle.pm_perform.specs.Copies.{remembered, with_kept};

use pm_bytes::{Blob, Memory};
use pm_meaning::{Process, Stored};
use std::alloc::Global;

/// The value of LASTFOLDER once the mail is at a destination, and what the abstract tells of that.
#[derive(Drop)]
pub struct Kept {
    pub last_folder: Blob,
    pub stored: Stored,
}

/// What a process remembers once so many bytes of the mail are at this destination.
pub fn remembering(alloc: Global, folder: &[u8], size: u64) -> Result<Kept, Memory>
    ensures { IfOk result (λ kept. kept ≡ remembered folder.now size) }
{
    let last_folder = Blob::from_slice(alloc, folder)?;
    let folder = Blob::from_slice(alloc, folder)?;
    Ok(Kept {
        last_folder,
        stored: Stored { folder, size },
    })
}

/// The process remembers so. It takes no memory.
pub fn keep(kept: Kept, process: &mut Process)
    ensures mind { mind_of process.new ≡ with_kept kept (mind_of process.old) }
    ensures locks { process.new.locks ≡ process.old.locks }
{
    let Kept {
        last_folder,
        stored,
    } = kept;
    process.vars.set_last_folder(last_folder);
    process.stored = stored;
}
