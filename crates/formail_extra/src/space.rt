//! The memory of a step with a cache, which is taken before its first call.
ghost use Rattle.std.specs.Prelude.{IfOk};
ghost use Rattle.formail_extra.specs.Space.{IsReserved};

use crate::reading::MOST;
use crate::room::{Room, make_room};
use pm_bytes::{Blob, Memory};
use std::alloc::Global;

/// Room for what is read of a cache, and for what is made of that.
#[derive(Drop)]
pub struct Space {
    pub read: Vec<u8>,
    pub marking: Room,
}

/// Takes the memory of a step for mails with these identifiers.
pub fn reserve(alloc: Global, ids: &[Option<Blob>]) -> Result<Space, Memory>
    ensures { IfOk result (IsReserved ids.now) }
{
    let read = Vec::with_capacity(alloc, MOST)?;
    let marking = make_room(alloc, MOST, ids)?;
    Ok(Space { read, marking })
}
