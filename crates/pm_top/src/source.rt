//! A message as a source.
ghost use Rattle.std.specs.Prelude.{◌≡◌, ◌≤◌, length, min, take, vec_len};

use pm_host::{Got, Source};

/// Bytes that come, as many at a time as the room holds. It tells what is left, and no read of it fails.
#[derive(Drop)]
pub struct MessageSource {
    bytes: Vec<u8>,
    at: usize,
    ghost within: { at ≤ vec_len bytes },
}

impl MessageSource {
    ghost use Rattle.pm_top.specs.Sources.{source_view, telling};

    /// A source that has these bytes left. It takes no memory.
    pub fn new(bytes: Vec<u8>) -> MessageSource
        ensures { source_view result ≡ telling bytes.items }
    {
        MessageSource { bytes, at: 0 }
    }
}

impl Source for MessageSource {
    ghost use Rattle.pm_top.specs.Sources.{source_view};

    ghost told = { source_view };

    fn faults(&self) -> u64 {
        0
    }

    fn read(&mut self, room: &mut [u8]) -> Got {
        let count = copy_front(&self.bytes[self.at..], room);
        self.at += count;
        Got::Got(count)
    }
}

// Copies as many bytes as the room holds to its front, and says how many.
fn copy_front(bytes: &[u8], room: &mut [u8]) -> usize
    ensures copied { take result room.new ≡ take (length room.old) bytes.now }
    ensures count { result ≡ min (length room.old) (length bytes.now) }
{
    let count = bytes.len().min(room.len());
    room[..count].copy_from_slice(&bytes[..count]);
    count
}
