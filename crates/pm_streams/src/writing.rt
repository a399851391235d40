//! A text is written to a sink.
ghost use Rattle.std.specs.Prelude.{◌≡◌, ◌≤◌, ◌<◌, ◌+◌, ◌++◌, length, take, IfSome, IsNone};
ghost use Rattle.pm_streams.specs.Writing.{WritesText, WritesTexts, TakesUpTo, CutsShort};

use pm_bytes::Blob;
use pm_host::{Sink, Took};

/// How the writing of a text ended: `Short` has the count of bytes that were taken before a write failed.
#[derive(Clone, Copy)]
pub enum WriteEnd {
    Wrote,
    Short(u64),
}

/// Writes the text until it is taken or a write fails. It takes no memory.
pub fn write_text<E: Sink>(sink: &mut E, text: &[u8]) -> WriteEnd
    ensures { WritesText text.now result (E.told sink.old) (E.told sink.new) }
{
    let mut taken: usize = 0;
    while taken < text.len() {
        let end = text.len().min(taken.saturating_add(65_536));
        match sink.write(&text[taken..end]) {
            Took::Took(n) => taken += n,
            Took::Failed => return WriteEnd::Short(taken as u64),
        }
    }
    WriteEnd::Wrote
}

// Puts the text after the bytes that the room holds, and gives their new count.
fn fill(room: &mut [u8], held: usize, text: &[u8]) -> usize
    requires { held + length text.now ≤ length room.old }
    ensures within { result ≤ length room.new }
    ensures bytes { take result room.new ≡ take held room.old ++ text.now }
{
    let end = held + text.len();
    room[held..end].copy_from_slice(text);
    end
}

// Puts the text after the bytes that the room holds. Where it doesn't fit, what is held is written first, and a text
// that is longer than the room is written itself. `None` says that a write failed.
fn gather<E: Sink>(sink: &mut E, room: &mut [u8], held: usize, text: &[u8]) -> Option<usize>
    requires { held ≤ length room.old }
    ensures within { IfSome result (λ held. held ≤ length room.new) }
    ensures some { IfSome result (λ left. TakesUpTo (take left room.new) (take held room.old ++ text.now)
        (E.told sink.old) (E.told sink.new)) }
    ensures none { IsNone result → CutsShort (take held room.old ++ text.now) (E.told sink.old) (E.told sink.new) }
{
    if text.len() <= room.len() - held {
        return Some(fill(room, held, text));
    }
    let WriteEnd::Wrote = write_text(sink, &room[..held]) else {
        return None;
    };
    if text.len() <= room.len() {
        return Some(fill(room, 0, text));
    }
    let WriteEnd::Wrote = write_text(sink, text) else {
        return None;
    };
    Some(0)
}

/// Writes texts one after the other until all are taken or a write fails, and says whether all are. Those that are
/// shorter than the room are gathered there, so that many of them cost one write. It takes no memory.
pub fn write_texts<E: Sink>(sink: &mut E, texts: &[Blob], room: &mut [u8]) -> bool
    ensures { WritesTexts texts.now result (E.told sink.old) (E.told sink.new) }
{
    let mut held: usize = 0;
    for text in texts {
        match gather(sink, room, held, text.as_slice()) {
            Some(left) => held = left,
            None => return false,
        }
    }
    match write_text(sink, &room[..held]) {
        WriteEnd::Wrote => true,
        WriteEnd::Short(_) => false,
    }
}
