//! What stands directly in a folder.
ghost use Rattle.std.specs.Prelude.{◌≡◌, ◌∷◌, ◌++◌, [], IfErr, OnOk, option_copied, false};
ghost use Rattle.pm_bytes.specs.Name.{is_usable};
ghost use Rattle.pm_memory.specs.Folders.{IsPartIn};
ghost use Rattle.pm_memory.specs.Node.{Explains};

use crate::tree::Denied;
use pm_bytes::{Name, NameRefused};
use std::alloc::Global;

/// The last part of a name, where it is that of something directly in the folder.
pub(crate) fn part_in<'a>(folder: &[u8], name: &'a [u8]) -> Option<&'a [u8]>
    ensures { IsPartIn folder.now name.now (option_copied result) }
{
    let Some(rest) = name.strip_prefix(folder) else {
        return None;
    };
    let Some(part) = rest.strip_prefix(b"/") else {
        return None;
    };
    if part.contains(&b'/') {
        None
    } else {
        Some(part)
    }
}

/// Adds a name to the list.
pub(crate) fn add_name(alloc: Global, names: &mut Vec<Name>, part: &[u8]) -> Result<(), Denied>
    ensures ok { OnOk result (names.new.items ≡ names.old.items ++ part.now ∷ []) }
    ensures err { IfErr result (Explains ⊥ (is_usable part.now ≡ false) (Unit {0})) }
{
    let name = match Name::read(alloc, part) {
        Ok(name) => name,
        Err(NameRefused::Unusable) => return Err(Denied::WrongKind),
        Err(NameRefused::Memory) => return Err(Denied::Memory),
    };
    match names.push(name) {
        Ok(()) => Ok(()),
        Err(_) => Err(Denied::Memory),
    }
}
