//! The words of an expansion, of which no more is kept than may be answered. The length is counted to its end.
ghost use Rattle.std.specs.Prelude.{◌≡◌, ◌<◌, ◌≤◌, ◌+◌, ◌-◌, ◌^◌, ◌++◌, IfOk, [], None, IsTrue, false};
ghost use Rattle.std.specs.Prelude.{length, map, flat_map, min, if◌then◌else◌};
ghost use Rattle.pm_subst.specs.Buffer.{Holds, Changes, Gathers};
ghost use Rattle.pm_subst.specs.Fields.{with_byte, begun, ended, with_element, most_length, Blank, Byte};
ghost use Rattle.pm_subst.specs.Values.{value_element, value_elements, escaped_operator};

use crate::bytes::{is_operator_byte, operators};
use pm_bytes::{BACKSLASH, Blob, Memory, is_space};
use std::alloc::Global;
use std::mem;

/// The greatest length of an expansion, in bytes and, where words are split, words.
pub const MOST_LENGTH: u64 = 1_048_576;

#[derive(Drop)]
pub struct Buffer {
    pub done: Vec<Blob>,
    pub current: Vec<u8>,
    pub begun: bool,
    pub splits: bool,
    pub length: u64,
}

impl Buffer {
    pub fn new(alloc: Global, splits: bool) -> Buffer
        ensures splits { result.splits ≡ splits }
        ensures empty { Holds result (record { done = []; current = None }) }
    {
        Buffer {
            done: Vec::new(alloc),
            current: Vec::new(alloc),
            begun: false,
            splits,
            length: 0,
        }
    }

    /// Begins a word, if none has begun.
    pub fn begin(&mut self)
        ensures splits { self.new.splits ≡ self.old.splits }
        ensures holds { Changes self.old self.new begun }
    {
        if !self.begun {
            self.begun = true;
            if self.splits {
                self.length = self.length.saturating_add(1);
            }
        }
    }

    fn push(&mut self, byte: u8) -> Result<(), Memory>
        ensures splits { self.new.splits ≡ self.old.splits }
        ensures holds { IfOk result (λ _. Changes self.old self.new (λ fields. with_byte fields byte)) }
    {
        self.begin();
        if self.length < MOST_LENGTH {
            self.current.push(byte)?;
        }
        self.length = self.length.saturating_add(1);
        Ok(())
    }

    // A blank or a newline outside quotes.
    fn space(&mut self, byte: u8) -> Result<(), Memory>
        ensures splits { self.new.splits ≡ self.old.splits }
        ensures holds { IfOk result (λ _. Changes self.old self.new
            (λ fields. with_element self.old.splits fields (Blank byte))) }
    {
        if self.splits {
            self.end_word()
        } else {
            self.push(byte)
        }
    }

    fn end_word(&mut self) -> Result<(), Memory>
        ensures splits { self.new.splits ≡ self.old.splits }
        ensures holds { IfOk result (λ _. IsTrue self.old.splits → Changes self.old self.new ended) }
    {
        if self.begun {
            self.begun = false;
            if self.length <= MOST_LENGTH {
                let alloc = *self.done.allocator();
                let word = mem::replace(&mut self.current, Vec::new(alloc));
                self.done.push(Blob::from_vec(word))?;
            }
        }
        Ok(())
    }

    /// Adds bytes that no blank among them can split.
    pub fn push_text(&mut self, bytes: &[u8]) -> Result<(), Memory>
        ensures splits { self.new.splits ≡ self.old.splits }
        ensures holds { IfOk result (λ _. Gathers self.old self.new (map Byte bytes.now)) }
    {
        if bytes.len() == 0 {
            return Ok(());
        }
        self.begin();
        self.add(bytes)?;
        Ok(())
    }

    // Adds bytes to a word that has begun. Where they don't fit they are only counted, all in one step.
    fn add(&mut self, bytes: &[u8]) -> Result<(), Memory>
        ensures same { (self.new.splits ≡ self.old.splits) × (self.new.begun ≡ self.old.begun) }
        ensures length { IfOk result (λ _. self.new.length ≡ min (self.old.length + length bytes.now) (2 ^ 64 - 1)) }
        ensures done { self.new.done.items ≡ self.old.done.items }
        ensures current { IfOk result (λ _. self.new.length ≤ most_length
            → self.new.current.items ≡ self.old.current.items ++ bytes.now) }
    {
        let length = self.length.saturating_add(bytes.len() as u64);
        if length <= MOST_LENGTH {
            self.current.extend_from_slice(bytes)?;
        }
        self.length = length;
        Ok(())
    }

    /// Adds blanks and newlines that stand in the text itself, outside quotes.
    pub fn push_spaces(&mut self, bytes: &[u8]) -> Result<(), Memory>
        ensures splits { self.new.splits ≡ self.old.splits }
        ensures holds { IfOk result (λ _. Gathers self.old self.new (map Blank bytes.now)) }
    {
        for byte in bytes {
            self.space(*byte)?;
        }
        Ok(())
    }

    /// Adds a value, which outside quotes may be split.
    #[tactic(auto, using(crate::proofs::Length::gathered_whole))]
    pub fn push_value(&mut self, quoted: bool, bytes: &[u8]) -> Result<(), Memory>
        ensures splits { self.new.splits ≡ self.old.splits }
        ensures holds { IfOk result (λ _. Gathers self.old self.new (value_elements quoted bytes.now)) }
    {
        if quoted || !self.splits {
            self.push_text(bytes)
        } else if self.length > MOST_LENGTH {
            self.count_split(bytes);
            Ok(())
        } else {
            self.push_split(bytes)
        }
    }

    fn push_split(&mut self, bytes: &[u8]) -> Result<(), Memory>
        ensures splits { self.new.splits ≡ self.old.splits }
        ensures holds { IfOk result (λ _. Gathers self.old self.new (value_elements false bytes.now)) }
    {
        for byte in bytes {
            self.push_of_value(false, *byte)?;
        }
        Ok(())
    }

    // The same where the limit is passed and nothing is kept any more: one look at each byte.
    fn count_split(&mut self, bytes: &[u8])
        requires splits { IsTrue self.now.splits }
        requires over { most_length < self.now.length }
        ensures splits { self.new.splits ≡ self.old.splits }
        ensures holds { Gathers self.old self.new (value_elements false bytes.now) }
    {
        let mut begun = self.begun;
        let mut length = 0u64;
        for byte in bytes {
            let inside = !is_space(*byte);
            length += growth(begun, inside);
            begun = inside;
        }
        self.begun = begun;
        self.length = self.length.saturating_add(length);
    }

    fn push_of_value(&mut self, quoted: bool, byte: u8) -> Result<(), Memory>
        ensures splits { self.new.splits ≡ self.old.splits }
        ensures holds { IfOk result (λ _. Changes self.old self.new
            (λ fields. with_element self.old.splits fields (value_element quoted byte))) }
    {
        if !quoted && is_space(byte) {
            self.space(byte)
        } else {
            self.push(byte)
        }
    }

    /// Adds a value with a backslash before each operator of expressions.
    pub fn push_escaped(&mut self, quoted: bool, bytes: &[u8]) -> Result<(), Memory>
        ensures splits { self.new.splits ≡ self.old.splits }
        ensures holds { IfOk result (λ _. Gathers self.old self.new
            (value_elements quoted (flat_map escaped_operator bytes.now))) }
    {
        if self.length > MOST_LENGTH {
            self.count_escaped(quoted, bytes)
        } else {
            self.push_operators(quoted, bytes)
        }
    }

    fn push_operators(&mut self, quoted: bool, bytes: &[u8]) -> Result<(), Memory>
        ensures splits { self.new.splits ≡ self.old.splits }
        ensures holds { IfOk result (λ _. Gathers self.old self.new
            (value_elements quoted (flat_map escaped_operator bytes.now))) }
    {
        for byte in bytes {
            self.push_operator(quoted, *byte)?;
        }
        Ok(())
    }

    // The same where the limit is passed: the value's length, and a backslash for each operator.
    fn count_escaped(&mut self, quoted: bool, bytes: &[u8]) -> Result<(), Memory>
        requires over { most_length < self.now.length }
        ensures splits { self.new.splits ≡ self.old.splits }
        ensures holds { IfOk result (λ _. Gathers self.old self.new
            (value_elements quoted (flat_map escaped_operator bytes.now))) }
    {
        self.push_value(quoted, bytes)?;
        self.length = self.length.saturating_add(operators(bytes) as u64);
        Ok(())
    }

    fn push_operator(&mut self, quoted: bool, byte: u8) -> Result<(), Memory>
        ensures splits { self.new.splits ≡ self.old.splits }
        ensures holds { IfOk result (λ _. Gathers self.old self.new (value_elements quoted (escaped_operator byte))) }
    {
        if is_operator_byte(byte) {
            self.push_of_value(quoted, BACKSLASH)?;
        }
        self.push_of_value(quoted, byte)
    }
}

// How much longer the words become by a byte that is inside a word or not: by itself, and by a word that it begins.
fn growth(begun: bool, inside: bool) -> u64
    ensures growth { result ≡ (if inside then 1 + (if begun then 0 else 1) else 0) }
    ensures bound { result ≤ 2 }
{
    u64::from(inside) + u64::from(inside && !begun)
}
