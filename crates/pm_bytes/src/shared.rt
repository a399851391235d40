//! Bytes with several owners.
ghost use Rattle.std.specs.Prelude.{◌≡◌, ◌≤◌, ◌-◌, ◌++◌, true, false, IfOk, IfErr, length, take, drop};

use crate::Memory;
use std::alloc::{AllocFailed, Global};
use std::marker::Model;
use std::rc::Rc;

/// Some of the bytes of a vector that may have other owners.
#[derive(Drop)]
pub struct Shared {
    bytes: Rc<Vec<u8>>,
    start: usize,
    end: usize,
}

impl Model for Shared {
    ghost use Rattle.std.specs.Prelude.{◌≤◌, ◌-◌, List, ℕ, length, take, drop};

    ghost Value = { List ℕ };

    ghost view = { λ s. take (s.end - s.start) (drop s.start s.bytes.value.items) };

    ghost invariant = { λ s. (s.start ≤ s.end) × (s.end ≤ length s.bytes.value.items) };
}

impl Shared {
    /// All bytes of the vector, which comes back where memory is wanting.
    pub fn new(alloc: Global, bytes: Vec<u8>) -> Result<Shared, Vec<u8>>
        ensures ok { IfOk result (λ shared. shared ≡ bytes.items) }
        ensures err { IfErr result (λ back. back.items ≡ bytes.items) }
    {
        let end = bytes.len();
        match Rc::new(alloc, bytes) {
            Ok(bytes) => Ok(Shared {
                bytes,
                start: 0,
                end,
            }),
            Err(AllocFailed { value }) => Err(value),
        }
    }

    pub fn as_slice(&self) -> &[u8]
        ensures { result.now ≡ self.now }
    {
        &self.bytes.as_slice()[self.start..self.end]
    }

    /// Another owner of the bytes from one place to another.
    pub fn part(&self, from: usize, to: usize) -> Result<Shared, Memory>
        requires order { from ≤ to }
        requires within { to ≤ length self.now }
        ensures { IfOk result (λ part. part ≡ take (to - from) (drop from self.now)) }
    {
        Ok(Shared {
            bytes: self.bytes.clone()?,
            start: self.start + from,
            end: self.start + to,
        })
    }

    /// These bytes and others after them, in a vector of their own.
    pub fn followed_by(&self, more: &[u8]) -> Result<Vec<u8>, Memory>
        ensures { IfOk result (λ both. both.items ≡ self.now ++ more.now) }
    {
        let bytes = self.as_slice();
        let mut both = Vec::with_capacity(*self.bytes.allocator(), bytes.len() + more.len())?;
        both.extend_from_slice(bytes)?;
        both.extend_from_slice(more)?;
        Ok(both)
    }

    /// Takes in the bytes that follow these in the vector, if they are `more`, and answers whether they are.
    pub fn widen(&mut self, more: &[u8]) -> bool
        ensures yes { result ≡ true → self.new ≡ self.old ++ more.now }
        ensures no { result ≡ false → self.new ≡ self.old }
    {
        let stored = self.bytes.as_slice();
        if more.len() > stored.len() - self.end {
            return false;
        }
        let end = self.end + more.len();
        let found = &stored[self.end..end] == more;
        if found {
            self.end = end;
        }
        found
    }

    /// Keeps so many of the bytes.
    pub fn truncate(&mut self, n: usize)
        ensures { self.new ≡ take n self.old }
    {
        if n < self.end - self.start {
            self.end = self.start + n;
        }
    }
}
