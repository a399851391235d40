//! The locks that a process holds.
ghost use Rattle.std.specs.Prelude.{◌≡◌, ◌+◌, ◌<◌, ◌≤◌, [], ◌∷◌, length, OnOk, OnErr, IfSome, IsNone, is_some};
ghost use Rattle.std.specs.Prelude.{bytes_eq};
ghost use Rattle.pm_journal.specs.Held.{holds_name, without};

use pm_bytes::{Memory, Name};
use std::alloc::Global;
use std::marker::Model;

/// The names of held locks in the order of taking. Contracts see them in the order of giving back, the last taken
/// first.
#[derive(Drop)]
pub struct HeldLocks {
    names: Vec<Name>,
}

impl Model for HeldLocks {
    ghost use Rattle.std.specs.Prelude.{◌-◌, reverse, vec_len, vec_capacity};
    ghost use Rattle.pm_journal.specs.Held.{Names};

    ghost Value = { Names };

    ghost view = { λ h. record { names = reverse h.names.items; room = vec_capacity h.names - vec_len h.names } };
}

impl HeldLocks {
    /// It takes no memory.
    pub fn new(alloc: Global) -> HeldLocks
        ensures { result.names ≡ [] }
    {
        HeldLocks {
            names: Vec::new(alloc),
        }
    }

    pub fn len(&self) -> usize
        ensures len { result ≡ length self.now.names }
        ensures few { result ≤ 9223372036854775807 }
    {
        self.names.len()
    }

    /// Whether this lock is held.
    pub fn holds(&self, name: &Name) -> bool
        ensures { result ≡ holds_name self.now.names name.now }
    {
        let mut index = 0;
        while index < self.names.len() {
            if is_same(self.names[index].as_str(), name.as_str()) {
                return true;
            }
            index += 1;
        }
        false
    }

    /// Makes room for one more name. It takes memory only where there is none.
    pub fn reserve(&mut self) -> Result<(), Memory>
        ensures same { self.new.names ≡ self.old.names }
        ensures ok { OnOk result (1 ≤ self.new.room) }
        ensures full { OnErr result (self.old.room ≡ 0) }
        ensures err { OnErr result (self.new ≡ self.old) }
    {
        self.names.try_reserve_exact(1)?;
        Ok(())
    }

    /// Adds the lock that was taken now. It takes no memory.
    pub fn add(&mut self, name: Name)
        requires { 0 < self.old.room }
        ensures names { self.new.names ≡ name ∷ self.old.names }
        ensures room { self.new.room + 1 ≡ self.old.room }
    {
        self.names.push_reserved(name);
    }

    /// Takes out the lock of this name, where it is held.
    pub fn give(&mut self, name: &Name) -> Option<Name>
        ensures some { IfSome result (λ given. given ≡ name.now) }
        ensures held { is_some result ≡ holds_name self.old.names name.now }
        ensures names { self.new.names ≡ without self.old.names name.now }
    {
        let mut left = self.names.len();
        while left > 0 {
            left -= 1;
            if self.names[left].as_str() == name.as_str() {
                return Some(self.names.remove(left));
            }
        }
        None
    }

    /// Takes out the lock that was taken last.
    pub fn give_last(&mut self) -> Option<Name>
        ensures some { IfSome result (λ name. self.old.names ≡ name ∷ self.new.names) }
        ensures none { IsNone result → self.old.names ≡ [] }
        ensures same { IsNone result → self.new ≡ self.old }
    {
        self.names.pop()
    }
}

// The names of locks mostly begin alike, so their last bytes are compared first.
fn is_same(held: &str, name: &str) -> bool
    ensures { result ≡ bytes_eq held.now name.now }
{
    held.as_bytes().last() == name.as_bytes().last() && held == name
}
