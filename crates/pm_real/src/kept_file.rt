//! The file that was opened last. It is kept open for the calls that follow on the same name, so that all of an append
//! goes to one file, also where another one is put at its name meanwhile.
ghost use Rattle.std.specs.Prelude.{◌≡◌, ◌≤◌, ◌<◌, ◌⊎◌, true, None, Some, length, take};
ghost use Rattle.std.specs.Prelude.{IfSome, IfOk, IsOk, IsErr, IsSome, MatchResult};
ghost use Rattle.pm_real.specs.declared.mode.Mode.TheVariants.{Reading, Appending};
ghost use Rattle.pm_real.specs.Kept.{just_opened, is_open, in_use, is_open_target, made_target};
ghost use Rattle.pm_real.specs.Calls.{state_of, IsAfterRead, IsAfterCut, IsEmptied, IsMade, IsUsed};
ghost use Rattle.pm_real.specs.Calls.{Adds, AddedTo, Stays, StaysOpen, IsThatFile};

use crate::again;
use crate::inode::Inode;
use crate::limit::SizeLimit;
use crate::mode::Mode;
use crate::opened::Opened;
use pm_host::Removed;
use std::alloc::Global;
use std::fs::{OpenFile, OpenOptions};
use std::io::{ErrorKind, Read, Write};
use std::os::unix::fs::{FileExt, OpenOptionsExt};
use std::rt::Files;
use std::{fs, io};

/// A made file is read and written by its owner only, as with procmail's UMASK of 077 (procmailrc(5), Environment
/// variable defaults).
pub const OWNER_ONLY: u32 = 0o600;

/// What the last look or create of a name said.
#[derive(Clone, Copy, PartialEq, Eq)]
enum Seen {
    Missing,
    Taken,
}

/// The file that was opened last, if it wasn't closed, and the name that was last found missing or taken.
#[derive(Drop)]
pub struct KeptFile<F: Drop> {
    opened: Option<Opened<F>>,
    seen: Option<(String, Seen)>,
}

fn is_link<R: Files>(rt: &R, name: &str) -> bool {
    match fs::symlink_metadata(rt, name) {
        Ok(found) => found.is_symlink(),
        Err(_) => false,
    }
}

impl<F: Read + Write + OpenFile + FileExt + Drop> KeptFile<F> {
    pub fn new() -> KeptFile<F> {
        KeptFile {
            opened: None,
            seen: None,
        }
    }

    pub fn close(&mut self)
        ensures closed { self.new.opened ≡ None }
        ensures seen { self.new.seen ≡ self.old.seen }
    {
        self.opened = None;
    }

    fn has_open(&self, name: &str, mode: Mode) -> bool
        ensures { result ≡ is_open name.now mode (state_of self.now.opened) }
    {
        match &self.opened {
            Some(opened) => opened.serves(name, mode),
            None => false,
        }
    }

    /// A look found a file at the name, and which one if it is a regular one. The file that was opened by that name for
    /// appending stays open if it is that very one, so that a log isn't opened for each of its lines. Any other is
    /// closed.
    pub fn close_unless_found(&mut self, name: &str, found: Option<Inode>)
        ensures opened { (self.new.opened ≡ None) ⊎ StaysOpen name.now self.old.opened self.new.opened }
        ensures same { IsThatFile found self.new.opened }
        ensures seen { self.new.seen ≡ self.old.seen }
    {
        if !self.has_open(name, Mode::Appending) {
            return self.close();
        }
        let stays = match (&mut self.opened, found) {
            (Some(opened), Some(found)) => opened.is_found(found),
            _ => false,
        };
        if !stays {
            self.close();
        }
    }

    fn was_seen(&self, name: &str, seen: Seen) -> bool {
        match &self.seen {
            Some((of, kept)) => *kept == seen && of.as_str() == name,
            None => false,
        }
    }

    // Without memory for the name nothing is known of it.
    fn note(&mut self, alloc: Global, name: &str, seen: Seen)
        ensures { self.new.opened ≡ self.old.opened }
    {
        self.seen = match String::from_str(alloc, name) {
            Ok(name) => Some((name, seen)),
            Err(_) => None,
        };
    }

    /// A look found nothing. A name that couldn't be made before the look, as that of a lock file, stays taken.
    pub fn note_missing(&mut self, alloc: Global, name: &str)
        ensures { self.new.opened ≡ self.old.opened }
    {
        if !self.was_seen(name, Seen::Taken) {
            self.note(alloc, name, Seen::Missing);
        }
    }

    /// Whether the open file was made here as the target of a symbolic link of this name.
    pub fn is_target(&self, name: &str) -> bool
        ensures { result ≡ is_open_target name.now (state_of self.now.opened) }
    {
        match &self.opened {
            Some(opened) => opened.is_target(name),
            None => false,
        }
    }

    // Opens the file in place of the one that was kept. There is a name for it before anything is made.
    fn open<R: Files<File = F>>(
        &mut self,
        rt: &R,
        alloc: Global,
        name: &str,
        how: &OpenOptions,
        mode: Mode,
    ) -> io::Result<()>
        ensures { MatchResult result (λ _. state_of self.new.opened ≡ Some (just_opened name.now mode))
            (λ _. self.new.opened ≡ None) }
    {
        self.close();
        let kept_name = String::from_str(alloc, name)?;
        self.opened = Some(Opened::new(kept_name, mode, again::open(rt, how, name)?));
        Ok(())
    }

    // Sees that the file of a call is open: it opens one unless it was opened by that name for that.
    fn use_file<R: Files<File = F>>(
        &mut self,
        rt: &R,
        alloc: Global,
        name: &str,
        mode: Mode,
    ) -> io::Result<()>
        ensures used { MatchResult result (λ _. state_of self.new.opened ≡ Some
            (in_use name.now mode (state_of self.old.opened))) (λ _. self.new.opened ≡ None) }
        ensures same { is_open name.now mode (state_of self.old.opened) ≡ true → IsOk result ×
            (self.new.opened ≡ self.old.opened) }
    {
        if self.has_open(name, mode) {
            return Ok(());
        }
        let mut how = OpenOptions::new();
        match mode {
            Mode::Reading => how.read(true),
            Mode::Appending => how.append(true),
        };
        self.open(rt, alloc, name, &how, mode)
    }

    /// Makes an empty file, only if nothing has the name. If a look just found nothing though a symbolic link has the
    /// name, it makes the link's target.
    pub fn create<R: Files<File = F>>(
        &mut self,
        rt: &R,
        alloc: Global,
        name: &str,
    ) -> io::Result<()>
        ensures { MatchResult result (λ _. IsMade name.now (state_of self.new.opened)) (λ _. self.new.opened ≡ None) }
    {
        let mut how = OpenOptions::new();
        how.append(true);
        how.create_new(true);
        how.mode(OWNER_ONLY);
        match self.open(rt, alloc, name, &how, Mode::Appending) {
            Err(error) if error.kind() == ErrorKind::AlreadyExists => {
                if self.was_seen(name, Seen::Missing) && is_link(rt, name) {
                    return self.create_target(rt, alloc, name);
                }
                self.note(alloc, name, Seen::Taken);
                Err(error)
            }
            answer => answer,
        }
    }

    // The system follows the link, so that its own rules for links hold. A target that has bytes is another's.
    fn create_target<R: Files<File = F>>(
        &mut self,
        rt: &R,
        alloc: Global,
        name: &str,
    ) -> io::Result<()>
        ensures { MatchResult result (λ _. state_of self.new.opened ≡ Some
            (made_target (just_opened name.now Appending))) (λ _. self.new.opened ≡ None) }
    {
        let mut how = OpenOptions::new();
        how.append(true);
        how.create(true);
        how.mode(OWNER_ONLY);
        self.open(rt, alloc, name, &how, Mode::Appending)?;
        let taken = match &mut self.opened {
            Some(opened) => opened.take_as_target(),
            None => Err(io::Error::from(ErrorKind::NotFound)),
        };
        if taken.is_err() {
            self.close();
        }
        taken
    }

    /// Takes back what was appended to the target of a link, which stays as an empty file.
    pub fn empty(&mut self) -> Removed
        ensures { IsEmptied result (state_of self.old.opened) (state_of self.new.opened) }
    {
        match &mut self.opened {
            Some(opened) => match opened.cut(0) {
                Ok(()) => Removed::Removed,
                Err(_) => Removed::Failed,
            },
            None => Removed::Failed,
        }
    }

    /// How many bytes of the file came into the room, from the offset `at` on; None is an error.
    pub fn read<R: Files<File = F>>(
        &mut self,
        rt: &R,
        alloc: Global,
        name: &str,
        at: u64,
        room: &mut [u8],
    ) -> Option<usize>
        ensures within { IfSome result (λ count. count ≤ length room.new) }
        ensures kept { IsUsed name.now Reading (IsAfterRead result) (state_of self.old.opened)
            (state_of self.new.opened) }
        ensures open { IsSome result → IsSome self.new.opened }
    {
        if self.use_file(rt, alloc, name, Mode::Reading).is_err() {
            return None;
        }
        match &mut self.opened {
            Some(opened) => opened.read(room, at),
            None => None,
        }
    }

    /// How many bytes were added at the end of the file, at least one; None is an error. The file isn't made where it
    /// isn't there.
    pub fn append<R: Files<File = F>>(
        &mut self,
        rt: &R,
        alloc: Global,
        name: &str,
        piece: &[u8],
        limit: SizeLimit,
    ) -> Option<usize>
        ensures some { IfSome result (λ count. 0 < count) }
        ensures within { IfSome result (λ count. count ≤ length piece.now) }
        ensures kept { Adds name.now result (state_of self.old.opened) (state_of self.new.opened) }
        ensures file { is_open name.now Appending (state_of self.old.opened) ≡ true → IfSome result
            (λ count. AddedTo F.contents (take count piece.now) self.old.opened self.new.opened) }
    {
        if self.use_file(rt, alloc, name, Mode::Appending).is_err() {
            return None;
        }
        match &mut self.opened {
            Some(opened) => opened.append(piece, limit),
            None => None,
        }
    }

    /// Syncs the file to disk.
    pub fn sync<R: Files<File = F>>(&mut self, rt: &R, alloc: Global, name: &str) -> io::Result<()>
        ensures kept { IsUsed name.now Appending Stays (state_of self.old.opened) (state_of self.new.opened) }
        ensures open { IsOk result → IsSome self.new.opened }
    {
        self.use_file(rt, alloc, name, Mode::Appending)?;
        match &self.opened {
            Some(opened) => opened.sync(),
            None => Err(io::Error::from(ErrorKind::NotFound)),
        }
    }

    /// Keeps the first bytes of the file. One that has fewer isn't filled up with zeros, and from one that was appended
    /// to no more is cut off than was added: both are errors.
    pub fn cut<R: Files<File = F>>(
        &mut self,
        rt: &R,
        alloc: Global,
        name: &str,
        len: u64,
    ) -> io::Result<()>
        ensures { IsUsed name.now Appending (IsAfterCut len result) (state_of self.old.opened)
            (state_of self.new.opened) }
    {
        self.use_file(rt, alloc, name, Mode::Appending)?;
        match &mut self.opened {
            Some(opened) => opened.cut(len),
            None => Err(io::Error::from(ErrorKind::NotFound)),
        }
    }
}
