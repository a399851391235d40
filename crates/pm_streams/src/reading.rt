//! The whole message from a source.
ghost use Rattle.std.specs.Prelude.{◌<◌, ◌≤◌, length, IfOk, OnOk};
ghost use Rattle.pm_streams.specs.Reading.{PartCame, Drains};

use pm_bytes::{Blob, Memory};
use pm_host::{Got, Source};
use std::alloc::Global;

/// How the reading of a message ended.
#[derive(Drop)]
pub enum Mail {
    Bytes(Blob),
    /// More bytes came than a message may have.
    TooMany,
    Failed,
}

// What one `read` brought.
#[derive(Clone, Copy)]
enum Part {
    More,
    End,
    Failed,
}

/// The most bytes that a message may have.
pub const MOST_LENGTH: usize = 67_108_864;

/// Reads the source to its end, to its first failed read, or one byte past the limit.
pub fn read_mail<S: Source>(alloc: Global, source: &mut S) -> Result<Mail, Memory>
    ensures { IfOk result (λ mail. Drains mail (S.told source.old) (S.told source.new)) }
{
    let mut bytes = Blob::empty(alloc);
    let mut room = Vec::new(alloc);
    while bytes.len() <= MOST_LENGTH {
        widen(&mut room, bytes.len())?;
        let most = (MOST_LENGTH + 1 - bytes.len()).min(room.len());
        match read_part(source, &mut bytes, &mut room[..most])? {
            Part::More => {}
            Part::End => return Ok(Mail::Bytes(bytes)),
            Part::Failed => return Ok(Mail::Failed),
        }
    }
    Ok(Mail::TooMany)
}

// Makes the room that the next read wants after so many bytes. To clear a large one costs more than a short message
// does else, and it is cleared once.
fn widen(room: &mut Vec<u8>, len: usize) -> Result<(), Memory>
    ensures { OnOk result (1 ≤ length room.new.items) }
{
    let wanted = if len < 16_384 { 4_096 } else { 65_536 };
    if room.len() < wanted {
        room.resize(wanted, 0)?;
    }
    Ok(())
}

fn read_part<S: Source>(source: &mut S, bytes: &mut Blob, room: &mut [u8]) -> Result<Part, Memory>
    requires { 0 < length room.old }
    ensures { IfOk result (λ part. PartCame part (length room.old) bytes.old bytes.new
        (S.told source.old) (S.told source.new)) }
{
    match source.read(room) {
        Got::Failed => Ok(Part::Failed),
        Got::Got(0) => Ok(Part::End),
        Got::Got(n) => {
            bytes.push_slice(&room[..n])?;
            Ok(Part::More)
        }
    }
}
