//! Texts as names of files.
ghost use Rattle.std.specs.Prelude.{◌≡◌, IfOk};
ghost use Rattle.pm_meaning.specs.Locks;
ghost use Rattle.pm_meaning.specs.UsableNames.{file_name_of};

use pm_bytes::{Memory, Name, NameRefused};
use std::alloc::Global;

/// The text as a file's name, where it is not empty and can be one.
pub fn file_name(alloc: Global, text: &[u8]) -> Result<Option<Name>, Memory>
    ensures { IfOk result (λ name. name ≡ file_name_of text.now) }
{
    if text.is_empty() {
        return Ok(None);
    }
    match Name::read(alloc, text) {
        Ok(name) => Ok(Some(name)),
        Err(NameRefused::Unusable) => Ok(None),
        Err(NameRefused::Memory) => Err(Memory),
    }
}

/// Whether it is `/dev/null`, which takes everything and is no file.
pub fn is_nothing(name: &Name) -> bool
    ensures { result ≡ Locks.is_nothing name.now }
{
    name.as_str() == "/dev/null"
}
