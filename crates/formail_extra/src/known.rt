//! The bytes of a cache, with marks on the identifiers that stand in them.
ghost use Rattle.std.specs.Prelude.{◌≡◌, ◌≤◌, ◌+◌, ◌++◌, [], length, take, vec_capacity};
ghost use Rattle.formail_extra.specs.Cache.{is_seen, is_kept, addition_to};
ghost use Rattle.formail_extra.specs.Marks.{IsClear, MarksSeen};

use crate::cache::{front, line_end, put_line, was_seen};
use crate::marks::Marks;
use crate::reading::MOST;
use pm_bytes::Blob;

/// The bytes of a cache, and which identifiers of some mails were seen in them.
#[derive(Drop)]
pub struct Known {
    pub bytes: Vec<u8>,
    marks: Marks,
    ghost marks_seen: { MarksSeen marks bytes.items },
}

// Brings marks by a cache up to this place to all of its bytes. Only what is new is looked through, unless it
// ends a line that was open, or goes beyond the bytes that are looked through.
fn follow(marks: &mut Marks, bytes: &[u8], at: usize)
    requires within { at ≤ length bytes.now }
    requires seen { MarksSeen marks.old (take at bytes.now) }
    ensures { MarksSeen marks.new bytes.now }
{
    let (before, added) = bytes.split_at(at);
    if bytes.len() <= MOST && line_end(before).is_empty() {
        marks.mark_lines(added);
        return;
    }
    marks.clear();
    marks.mark_lines(front(bytes, MOST));
}

impl Known {
    /// An empty cache, in this memory.
    pub fn new(bytes: Vec<u8>, marks: Marks) -> Known
        requires empty { bytes.items ≡ [] }
        requires clear { IsClear marks }
        ensures { result.bytes ≡ bytes }
    {
        Known { bytes, marks }
    }

    /// Puts what was read of a cache into an empty one.
    pub fn fill(&mut self, read: &[u8])
        requires empty { self.old.bytes.items ≡ [] }
        requires space { length read.now ≤ vec_capacity self.old.bytes }
        ensures items { self.new.bytes.items ≡ read.now }
        ensures space { vec_capacity self.old.bytes ≤ vec_capacity self.new.bytes }
    {
        let _ = self.bytes.extend_from_slice(read);
        follow(&mut self.marks, self.bytes.as_slice(), 0);
    }

    // Whether an identifier was seen.
    fn has(&self, id: &[u8]) -> bool
        ensures { result ≡ is_seen self.now.bytes.items id.now }
    {
        match self.marks.mark_on(id) {
            Some(marked) => marked,
            None => was_seen(self.bytes.as_slice(), id),
        }
    }

    /// Whether a mail with this identifier is kept (formail(1), option -D).
    pub fn keeps(&self, id: &Option<Blob>) -> bool
        ensures { result ≡ is_kept self.now.bytes.items id.now }
    {
        match id {
            None => true,
            Some(id) => !self.has(id.as_slice()),
        }
    }

    /// Adds the line of an identifier, for which there is room. The last line is ended before.
    pub fn put_line(&mut self, id: &[u8])
        requires { length self.old.bytes.items + (length id.now + 2) ≤ vec_capacity self.old.bytes }
        ensures items { self.new.bytes.items ≡ self.old.bytes.items ++ addition_to self.old.bytes.items id.now }
        ensures few { length self.new.bytes.items ≤ length self.old.bytes.items + (length id.now + 2) }
        ensures space { vec_capacity self.old.bytes ≤ vec_capacity self.new.bytes }
    {
        let at = self.bytes.len();
        put_line(&mut self.bytes, id);
        follow(&mut self.marks, self.bytes.as_slice(), at);
    }

    /// Takes all bytes away, and keeps their memory.
    pub fn clear(&mut self)
        ensures items { self.new.bytes.items ≡ [] }
        ensures space { vec_capacity self.old.bytes ≤ vec_capacity self.new.bytes }
    {
        self.bytes.clear();
        self.marks.clear();
    }
}
