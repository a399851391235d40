//! A name that is written anew for each try, in memory that was taken beforehand.
ghost use Rattle.std.specs.Prelude.{◌≡◌, ◌≤◌, ◌+◌, ◌++◌, length, IfOk, false};
ghost use Rattle.std.specs.Prelude.{string_bytes, string_len, string_capacity};
ghost use Rattle.pm_bytes.specs.Name.{has_zero};

use crate::path::Path;
use pm_bytes::{Memory, Name};
use std::alloc::Global;
use std::marker::Model;

// How long the mark of a try is at most: a hyphen and the digits of a number of 64 bits.
const MARK: usize = 21;

/// A name with a front, a mark that changes, and a back.
#[derive(Drop)]
pub struct Slot {
    front: Path,
    back: Path,
    text: String,
}

impl Model for Slot {
    ghost use Rattle.std.specs.Prelude.{◌≡◌, ◌≤◌, ◌+◌, length, false, string_bytes, string_capacity};
    ghost use Rattle.pm_bytes.specs.Name.{has_zero};
    ghost use Rattle.pm_folders.specs.Trying.{Written};

    ghost Value = { Written };

    ghost view = { λ s. record { front = s.front; back = s.back; text = string_bytes s.text } };

    ghost invariant = { λ s. (length s.front + 21 + length s.back ≤ string_capacity s.text)
        × (has_zero (string_bytes s.text) ≡ false) };
}

impl Slot {
    /// Takes the memory for each name with this front and this back.
    pub fn new(alloc: Global, front: Path, back: Path) -> Result<Slot, Memory>
        ensures { IfOk result (λ slot. (slot.front ≡ front) × (slot.back ≡ back)) }
    {
        let room = room_for(front.as_str().len(), back.as_str().len())?;
        let text = String::with_capacity(alloc, room)?;
        Ok(Slot { front, back, text })
    }

    /// Writes the name with this mark. It takes no memory.
    pub fn write(&mut self, sign: &str, digits: &str)
        requires short { length sign.now + length digits.now ≤ 21 }
        requires plain { (has_zero sign.now ≡ false) × (has_zero digits.now ≡ false) }
        ensures text { self.new.text ≡ self.old.front ++ (sign.now ++ digits.now) ++ self.old.back }
        ensures front { self.new.front ≡ self.old.front }
        ensures back { self.new.back ≡ self.old.back }
    {
        self.text.clear();
        push_within(&mut self.text, self.front.as_str());
        push_within(&mut self.text, sign);
        push_within(&mut self.text, digits);
        push_within(&mut self.text, self.back.as_str());
    }

    /// What was written last.
    pub fn as_str(&self) -> &str
        ensures { result.now ≡ self.now.text }
    {
        self.text.as_str()
    }

    /// What was written last, as a name. It allocates nothing.
    pub fn into_name(self) -> Name
        ensures { result ≡ self.text }
    {
        Name::from_text(self.text)
    }
}

fn room_for(front: usize, back: usize) -> Result<usize, Memory>
    ensures { IfOk result (λ room. room ≡ front + 21 + back) }
{
    let Some(marked) = front.checked_add(MARK) else {
        return Err(Memory);
    };
    marked.checked_add(back).ok_or(Memory)
}

fn push_within(text: &mut String, more: &str)
    requires fits { string_len text.old + length more.now ≤ string_capacity text.old }
    ensures bytes { string_bytes text.new ≡ string_bytes text.old ++ more.now }
    ensures len { string_len text.new ≡ string_len text.old + length more.now }
    ensures capacity { string_capacity text.old ≤ string_capacity text.new }
{
    let Ok(()) = text.push_str(more) else {
        unreachable!();
    };
}
