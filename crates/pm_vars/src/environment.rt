//! What of the variables is the environment of a program.
ghost use Rattle.std.specs.Prelude.{◌≡◌, ◌++◌, ◌∷◌, [], IfOk, Some, None, filter, map, if◌then◌else◌};
ghost use Rattle.pm_bytes.specs.Name.{is_usable};
ghost use Rattle.pm_vars.specs.Variables.{is_exported, variable_of};

use pm_bytes::{Memory, Name, NameRefused, Pair};
use std::alloc::Global;

/// Adds the pair of a variable, where programs get it.
pub fn push_exported(
    alloc: Global,
    pairs: &mut Vec<Pair>,
    name: &[u8],
    value: &[u8],
) -> Result<(), Memory>
    ensures { IfOk result (λ _. map variable_of pairs.new.items
        ≡ map variable_of pairs.old.items ++ filter is_exported (record { name = name.now; value = value.now } ∷ [])) }
{
    let Some(name) = usable(alloc, name)? else {
        return Ok(());
    };
    let Some(value) = usable(alloc, value)? else {
        return Ok(());
    };
    pairs.push(Pair { name, value })?;
    Ok(())
}

fn usable(alloc: Global, bytes: &[u8]) -> Result<Option<Name>, Memory>
    ensures { IfOk result (λ name. name ≡ (if is_usable bytes.now then Some bytes.now else None)) }
{
    match Name::read(alloc, bytes) {
        Ok(name) => Ok(Some(name)),
        Err(NameRefused::Unusable) => Ok(None),
        Err(NameRefused::Memory) => Err(Memory),
    }
}
