//! What is known of an open file, and how the calls of a host change that.
ghost use Rattle.std.specs.Prelude.{◌≡◌, true, false, Some, None, string_bytes};
ghost use Rattle.pm_real.specs.Kept.{just_opened, same_mode, is_use, is_target_of, made_target, appended, read_past};
ghost use Rattle.pm_real.specs.Kept.{left_of, cut_to};

use crate::mode::Mode;
use std::marker::Model;

/// What is known of an open file.
#[derive(Drop)]
pub struct FileState {
    name: String,
    mode: Mode,
    /// How many of the bytes that were appended to it are there still, if any were.
    added: Option<u64>,
    /// How many bytes were read in sequence.
    passed: u64,
    /// It was made as the target of a symbolic link of its name.
    is_target: bool,
}

impl Model for FileState {
    ghost use Rattle.std.specs.Prelude.{string_bytes};
    ghost use Rattle.pm_real.specs.View.{FileView};

    ghost Value = { FileView };

    ghost view = { λ s. record {
      name = string_bytes s.name;
      mode = s.mode;
      added = s.added;
      passed = s.passed;
      is_target = s.is_target;
    } };
}

impl FileState {
    /// A file that was just opened.
    pub fn new(name: String, mode: Mode) -> FileState
        ensures { result ≡ just_opened (string_bytes name) mode }
    {
        FileState {
            name,
            mode,
            added: None,
            passed: 0,
            is_target: false,
        }
    }

    /// Whether it was opened by that name for that.
    pub fn serves(&self, name: &str, mode: Mode) -> bool
        ensures { result ≡ is_use name.now mode self.now }
    {
        is_same_mode(self.mode, mode) && self.name.as_str().as_bytes() == name.as_bytes()
    }

    /// Whether it was made as the target of a symbolic link of that name.
    pub fn is_target(&self, name: &str) -> bool
        ensures { result ≡ is_target_of name.now self.now }
    {
        self.is_target && self.name.as_str().as_bytes() == name.as_bytes()
    }

    /// It is from now on as one that was just opened by its name.
    pub fn renew(&mut self)
        ensures { self.new ≡ just_opened self.old.name self.old.mode }
    {
        self.added = None;
        self.passed = 0;
        self.is_target = false;
    }

    /// It was made as the target of a symbolic link, so that all of its bytes may be cut off again.
    pub fn make_target(&mut self)
        ensures { self.new ≡ made_target self.old }
    {
        self.added = Some(0);
        self.is_target = true;
    }

    /// So many bytes were appended to it.
    pub fn append(&mut self, count: usize)
        ensures { self.new ≡ appended count self.old }
    {
        let added = self.added.unwrap_or(0).saturating_add(count as u64);
        self.added = Some(added);
    }

    /// How many bytes were read in sequence.
    pub fn passed(&self) -> u64
        ensures { result ≡ self.now.passed }
    {
        self.passed
    }

    /// So many bytes more were read in sequence.
    pub fn pass(&mut self, count: usize)
        ensures { self.new ≡ read_past count self.old }
    {
        self.passed = self.passed.saturating_add(count as u64);
    }

    /// Whether it may be cut from this size to a length; then it is about to be. A file that has fewer bytes isn't
    /// filled up with zeros, and from one that was appended to no more is cut off than was added.
    pub fn cut(&mut self, size: u64, len: u64) -> bool
        ensures cut { result ≡ true → cut_to size len self.old ≡ Some self.new }
        ensures kept { result ≡ false → cut_to size len self.old ≡ None }
        ensures same { result ≡ false → self.new ≡ self.old }
    {
        let Some(off) = size.checked_sub(len) else {
            return false;
        };
        let Some(left) = left_after(off, self.added) else {
            return false;
        };
        self.added = left;
        true
    }
}

fn is_same_mode(one: Mode, other: Mode) -> bool
    ensures { result ≡ same_mode one other }
{
    match (one, other) {
        (Mode::Reading, Mode::Reading) | (Mode::Appending, Mode::Appending) => true,
        (Mode::Reading, Mode::Appending) | (Mode::Appending, Mode::Reading) => false,
    }
}

// How many of the bytes that were added are left once so many are cut off; None if fewer were added.
fn left_after(off: u64, added: Option<u64>) -> Option<Option<u64>>
    ensures { result ≡ left_of off added }
{
    match added {
        None => Some(None),
        Some(added) => match added.checked_sub(off) {
            None => None,
            Some(left) => Some(Some(left)),
        },
    }
}
