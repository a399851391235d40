//! An open file, and what the calls of a host do with it.
ghost use Rattle.std.specs.Prelude.{◌≡◌, ◌≤◌, ◌<◌, true, false, Some};
ghost use Rattle.std.specs.Prelude.{length, take, IfSome, IfOk, IfErr, IsNone, string_bytes};
ghost use Rattle.std.specs.Io.KnownBytes.{Appends, Keeps};
ghost use Rattle.pm_real.specs.Kept.{just_opened, is_use, is_target_of, made_target};
ghost use Rattle.pm_real.specs.Calls.{IsAfterRead, IsAfterAppend, IsAfterCut};

use crate::again;
use crate::inode::Inode;
use crate::limit::SizeLimit;
use crate::mode::Mode;
use crate::state::FileState;
use std::fs::OpenFile;
use std::io;
use std::io::{ErrorKind, Read, Write};
use std::os::unix::fs::FileExt;

/// An open file, and what is known of it.
#[derive(Drop)]
pub struct Opened<F: Drop> {
    state: FileState,
    file: F,
    /// Which file it is, once that was asked for.
    inode: Option<Inode>,
}

impl<F: Read + Write + OpenFile + FileExt + Drop> Opened<F> {
    /// A file that was just opened.
    pub fn new(name: String, mode: Mode, file: F) -> Opened<F>
        ensures { result.state ≡ just_opened (string_bytes name) mode }
    {
        Opened {
            state: FileState::new(name, mode),
            file,
            inode: None,
        }
    }

    /// Whether it was opened by that name for that.
    pub fn serves(&self, name: &str, mode: Mode) -> bool
        ensures { result ≡ is_use name.now mode self.now.state }
    {
        self.state.serves(name, mode)
    }

    /// Whether it was made as the target of a symbolic link of that name.
    pub fn is_target(&self, name: &str) -> bool
        ensures { result ≡ is_target_of name.now self.now.state }
    {
        self.state.is_target(name)
    }

    // The open file itself is asked, and only once: another one may have been put at its name.
    fn inode(&mut self) -> Option<Inode>
        ensures inode { result ≡ self.new.inode }
        ensures file { self.new.file ≡ self.old.file }
        ensures state { self.new.state ≡ self.old.state }
    {
        if self.inode.is_none() {
            self.inode = match self.file.metadata() {
                Ok(found) => Inode::of(&found),
                Err(_) => None,
            };
        }
        self.inode
    }

    /// Whether it is that very file. Then it is from now on as one that was just opened by its name.
    pub fn is_found(&mut self, found: Inode) -> bool
        ensures file { self.new.file ≡ self.old.file }
        ensures inode { result ≡ true → self.new.inode ≡ Some found }
        ensures renewed { result ≡ true → self.new.state ≡ just_opened self.old.state.name self.old.state.mode }
        ensures same { result ≡ false → self.new.state ≡ self.old.state }
    {
        if self.inode() != Some(found) {
            return false;
        }
        self.state.renew();
        true
    }

    /// Takes a file that was opened through a link for a made one. One that has bytes is another's.
    pub fn take_as_target(&mut self) -> io::Result<()>
        ensures { IfOk result (λ _. self.new.state ≡ made_target self.old.state) }
    {
        let found = self.file.metadata()?;
        if !found.is_file() || found.len() != 0 {
            return Err(io::Error::from(ErrorKind::AlreadyExists));
        }
        self.state.make_target();
        Ok(())
    }

    fn is_regular(&self) -> bool {
        match self.file.metadata() {
            Ok(found) => found.is_file(),
            Err(_) => true,
        }
    }

    // A write to a regular file begins at its end.
    fn may_grow(&self, limit: SizeLimit) -> bool {
        if !limit.is_set() {
            return true;
        }
        match self.file.metadata() {
            Ok(found) => !found.is_file() || limit.allows(found.len()),
            Err(_) => false,
        }
    }

    /// How many bytes came into the room, from the offset `at` on; None is an error. What has no offsets, as a pipe, is
    /// read in sequence.
    pub fn read(&mut self, room: &mut [u8], at: u64) -> Option<usize>
        ensures within { IfSome result (λ count. count ≤ length room.new) }
        ensures state { IsAfterRead result self.old.state self.new.state }
    {
        match again::read_at(&self.file, room, at) {
            Some(count) => Some(count),
            None => self.read_on(room, at),
        }
    }

    fn read_on(&mut self, room: &mut [u8], at: u64) -> Option<usize>
        ensures within { IfSome result (λ count. count ≤ length room.new) }
        ensures state { IsAfterRead result self.old.state self.new.state }
    {
        if at != self.state.passed() || self.is_regular() {
            return None;
        }
        let count = again::read(&mut self.file, room)?;
        self.state.pass(count);
        Some(count)
    }

    /// How many bytes were added at the end, at least one; None is an error.
    pub fn append(&mut self, piece: &[u8], limit: SizeLimit) -> Option<usize>
        ensures some { IfSome result (λ count. 0 < count) }
        ensures within { IfSome result (λ count. count ≤ length piece.now) }
        ensures state { IsAfterAppend result self.old.state self.new.state }
        ensures file { IfSome result (λ count. Appends (F.contents self.old.file) (F.contents self.new.file)
            (take count piece.now)) }
        ensures keeps { IsNone result → Keeps (F.contents self.old.file) (F.contents self.new.file) }
    {
        if !self.may_grow(limit) {
            return None;
        }
        let count = again::write(&mut self.file, piece)?;
        self.state.append(count);
        Some(count)
    }

    /// Syncs it to disk. A pipe, a terminal and other special files have nothing that can be synced.
    pub fn sync(&self) -> io::Result<()> {
        match self.file.sync_all() {
            Err(error) if is_unfit(error.kind()) && !self.is_regular() => Ok(()),
            answer => answer,
        }
    }

    /// Keeps the first bytes. A file that has fewer isn't filled up with zeros, and from one that was appended to no
    /// more is cut off than was added: both are errors.
    pub fn cut(&mut self, len: u64) -> io::Result<()>
        ensures { IsAfterCut len result self.old.state self.new.state }
    {
        let size = self.file.metadata()?.len();
        if !self.state.cut(size, len) {
            return Err(io::Error::from(ErrorKind::InvalidInput));
        }
        self.file.set_len(len)
    }
}

// Whether a call failed since it isn't made for such a file.
fn is_unfit(kind: ErrorKind) -> bool {
    kind == ErrorKind::InvalidInput || kind == ErrorKind::Unsupported
}
