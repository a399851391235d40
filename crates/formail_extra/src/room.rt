//! The memory in which mails are marked, which is taken before anything is asked of the outside.
ghost use Rattle.std.specs.Prelude.{◌≡◌, ◌≤◌, ◌+◌, IfOk, IfSome, sum_by};
ghost use Rattle.formail_extra.specs.Room.{space_for, HasRoom};

use crate::known::Known;
use crate::marks::Marks;
use pm_bytes::{Blob, Memory};
use std::alloc::Global;

/// Room for the bytes of a cache with marks on identifiers, and for what is found of some mails.
#[derive(Drop)]
pub struct Room {
    pub known: Known,
    pub kept: Vec<bool>,
}

// How many bytes an identifier takes in a cache at most.
fn space(id: &Option<Blob>) -> Option<usize>
    ensures { IfSome result (λ n. n ≡ space_for id.now) }
{
    match id {
        None => Some(0),
        Some(id) => id.len().checked_add(2),
    }
}

fn space_of(bytes: usize, ids: &[Option<Blob>]) -> Option<usize>
    ensures { IfSome result (λ n. n ≡ bytes + sum_by space_for ids.now) }
{
    let mut all = bytes;
    for id in ids {
        all = all.checked_add(space(id)?)?;
    }
    Some(all)
}

/// Takes the memory in which mails with these identifiers are marked by a cache of at most so many bytes.
pub fn make_room(alloc: Global, bytes: usize, ids: &[Option<Blob>]) -> Result<Room, Memory>
    ensures { IfOk result (λ room. HasRoom bytes ids.now room) }
{
    let size = space_of(bytes, ids).ok_or(Memory)?;
    let cache = Vec::with_capacity(alloc, size)?;
    let marks = Marks::of(alloc, ids)?;
    let kept = Vec::with_capacity(alloc, ids.len())?;
    let known = Known::new(cache, marks);
    Ok(Room { known, kept })
}
