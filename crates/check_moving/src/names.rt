//! The variables whose last value begins with an anchor.
ghost use Rattle.std.specs.Prelude.{◌≡◌, ◌++◌, IfOk, OnOk};
ghost use Rattle.check_moving.specs.Names;

use crate::anchors::is_anchored;
use crate::text::is;
use pm_bytes::{Blob, Memory};
use pm_recipe::{Kind, Span};
use std::alloc::Global;

// So few that it costs little to look for a name.
const MOST_NAMES: usize = 32;

/// Their names after a span.
pub fn names_after(alloc: Global, span: &Span<'_>, names: Vec<Blob>) -> Result<Vec<Blob>, Memory>
    ensures { IfOk result (λ next. next.items ≡ Names.names_after span.now names.items) }
{
    match span.kind {
        Kind::Assign => with_value(alloc, span.name, span.text, names.as_slice()),
        Kind::Unset | Kind::Capture => others(alloc, span.name, names.as_slice()),
        _ => Ok(names),
    }
}

fn others(alloc: Global, name: &[u8], names: &[Blob]) -> Result<Vec<Blob>, Memory>
    ensures { IfOk result (λ left. left.items ≡ Names.others name.now names.now) }
{
    let mut left = Vec::new(alloc);
    let mut rest = names;
    while let Some((other, later)) = rest.split_first() {
        if !is(other.as_slice(), name) {
            left.push(other.copy(alloc)?)?;
        }
        rest = later;
    }
    Ok(left)
}

fn with_value(alloc: Global, name: &[u8], value: &[u8], names: &[Blob]) -> Result<Vec<Blob>, Memory>
    ensures { IfOk result (λ next. next.items ≡ Names.with_value name.now value.now names.now) }
{
    let mut next = others(alloc, name, names)?;
    put_name(alloc, is_anchored(names, value), name, &mut next)?;
    Ok(next)
}

fn put_name(alloc: Global, anchored: bool, name: &[u8], names: &mut Vec<Blob>) -> Result<(), Memory>
    ensures { OnOk result (names.new.items ≡ Names.with_name anchored name.now names.old.items) }
{
    if anchored && names.len() < MOST_NAMES {
        names.push(Blob::from_slice(alloc, name)?)?;
    }
    Ok(())
}
