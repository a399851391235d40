//! A tree that is only read, with what a run made of its names over it.
ghost use Rattle.std.specs.Prelude.{◌≡◌, ◌<◌, OnOk, OnErr, OnSome, IfNone, IsSome, length};
ghost use Rattle.std.specs.BTreeMap.{get_by_text};
ghost use Rattle.pm_host.specs.Answers.{IsWithin, read_answer};
ghost use Rattle.pm_host.specs.World.{grown, kept, TookAtMost};
ghost use Rattle.pm_overlay.specs.Changes.{Puts};
ghost use Rattle.pm_overlay.specs.Steps.{layer, IsStep, IsSame, Has, HoldsFile, Becomes, Grows, Copies, IsFree};
ghost use Rattle.pm_overlay.specs.Steps.{IsFileAt};

use crate::Base;
use crate::changed::Changed;
use crate::finding::{age_at, front_of, look_at, read_at};
use crate::moment::moment_after;
use pm_bytes::{Blob, Memory};
use pm_host::{Aged, Answer, Call, Cut, File, Got, Looked, Made, Moved, Removed, Synced, Took};
use std::alloc::Global;
use std::collections::BTreeMap;

/// What the run made of names, over the base, and for how many seconds it slept.
#[derive(Drop)]
pub struct Tree<B: Base + Drop> {
    pub(crate) alloc: Global,
    pub(crate) base: B,
    pub(crate) changes: BTreeMap<String, Changed>,
    pub(crate) slept: u64,
}

impl<B: Base + Drop> Tree<B> {
    pub(crate) fn new(alloc: Global, base: B) -> Tree<B>
        ensures base { result.base ≡ base }
        ensures awake { result.slept ≡ 0 }
    {
        Tree {
            alloc,
            base,
            changes: BTreeMap::new(alloc),
            slept: 0,
        }
    }

    pub(crate) fn look(&mut self, name: &str) -> Looked
        ensures { IsStep (Call.Look name.now) (Answer.Look result)
            (layer (B.told self.old.base) self.old.changes self.old.slept)
            (layer (B.told self.new.base) self.new.changes self.new.slept) }
    {
        look_at(&mut self.base, self.changes.get(name), name)
    }

    pub(crate) fn read(&mut self, name: &str, at: u64, room: &mut [u8]) -> Got
        requires { 0 < length room.old }
        ensures step { IsStep (Call.Read name.now at (length room.old)) (read_answer result room.new)
            (layer (B.told self.old.base) self.old.changes self.old.slept)
            (layer (B.told self.new.base) self.new.changes self.new.slept) }
        ensures within { IsWithin result (length room.old) }
    {
        read_at(&mut self.base, self.changes.get(name), name, at, room)
    }

    pub(crate) fn now(&mut self) -> i64
        ensures { IsStep Call.Now (Answer.Now result)
            (layer (B.told self.old.base) self.old.changes self.old.slept)
            (layer (B.told self.new.base) self.new.changes self.new.slept) }
    {
        moment_after(self.base.now(), self.slept)
    }

    pub(crate) fn age(&mut self, name: &str) -> Aged
        ensures { IsStep (Call.Age name.now) (Answer.Age result)
            (layer (B.told self.old.base) self.old.changes self.old.slept)
            (layer (B.told self.new.base) self.new.changes self.new.slept) }
    {
        age_at(&mut self.base, self.changes.get(name), name, self.slept)
    }

    pub(crate) fn sync(&mut self, name: &str) -> Synced
        ensures { IsStep (Call.Sync name.now) (Answer.Sync result)
            (layer (B.told self.old.base) self.old.changes self.old.slept)
            (layer (B.told self.new.base) self.new.changes self.new.slept) }
    {
        match self.look(name) {
            Looked::File(_) => Synced::Synced,
            _ => Synced::Failed,
        }
    }

    // A name without a slash is in the folder where the run began, and one with its first byte alone in the root.
    fn has_place(&mut self, name: &str) -> bool
        ensures { IsSame
            (layer (B.told self.old.base) self.old.changes self.old.slept)
            (layer (B.told self.new.base) self.new.changes self.new.slept) }
    {
        match folder_of(name) {
            None => true,
            Some(folder) => self.look(folder) == Looked::Folder,
        }
    }

    // The name has this change, whatever it had.
    fn put(&mut self, name: &str, this: Changed) -> Result<(), Memory>
        ensures ok { OnOk result (Has name.now this
            (layer (B.told self.old.base) self.old.changes self.old.slept)
            (layer (B.told self.new.base) self.new.changes self.new.slept)) }
        ensures puts { OnOk result (Puts name.now this self.old.changes self.new.changes) }
        ensures err { OnErr result (IsSame
            (layer (B.told self.old.base) self.old.changes self.old.slept)
            (layer (B.told self.new.base) self.new.changes self.new.slept)) }
    {
        let key = String::from_str(self.alloc, name)?;
        self.changes.insert(key, this)?;
        Ok(())
    }

    // A file of the base counts among the changes, with all of its bytes.
    fn hold(&mut self, name: &str, len: u64) -> Result<(), Memory>
        ensures ok { OnOk result (HoldsFile name.now len
            (layer (B.told self.old.base) self.old.changes self.old.slept)
            (layer (B.told self.new.base) self.new.changes self.new.slept)) }
        ensures holds { OnOk result (IsSome (get_by_text self.new.changes name.now)) }
        ensures err { OnErr result (IsSame
            (layer (B.told self.old.base) self.old.changes self.old.slept)
            (layer (B.told self.new.base) self.new.changes self.new.slept)) }
    {
        if self.changes.contains_key(name) {
            return Ok(());
        }
        let front = Changed::front(self.alloc, name, len)?;
        self.put(name, front)
    }

    /// Makes an empty file where nothing stands, in a folder.
    pub(crate) fn create(&mut self, name: &str) -> Made
        ensures { IsStep (Call.Create name.now) (Answer.Create result)
            (layer (B.told self.old.base) self.old.changes self.old.slept)
            (layer (B.told self.new.base) self.new.changes self.new.slept) }
    {
        match self.look(name) {
            Looked::Nothing => self.create_there(name),
            Looked::File(_) | Looked::Folder => Made::Exists,
            Looked::Failed => Made::Failed,
        }
    }

    fn create_there(&mut self, name: &str) -> Made
        requires { IsFree name.now (layer (B.told self.old.base) self.old.changes self.old.slept) }
        ensures { IsStep (Call.Create name.now) (Answer.Create result)
            (layer (B.told self.old.base) self.old.changes self.old.slept)
            (layer (B.told self.new.base) self.new.changes self.new.slept) }
    {
        if !self.has_place(name) {
            return Made::Failed;
        }
        let made = self.now();
        let bytes = Blob::empty(self.alloc);
        match self.put(name, Changed::New(File { bytes, made })) {
            Ok(()) => Made::Made,
            Err(Memory) => Made::Failed,
        }
    }

    /// Adds the piece at the end of the file.
    pub(crate) fn append(&mut self, name: &str, piece: &[u8]) -> Took
        requires { 0 < length piece.now }
        ensures fits { TookAtMost (length piece.now) result }
        ensures step { IsStep (Call.Append name.now piece.now) (Answer.Append result)
            (layer (B.told self.old.base) self.old.changes self.old.slept)
            (layer (B.told self.new.base) self.new.changes self.new.slept) }
    {
        let Looked::File(len) = self.look(name) else {
            return Took::Failed;
        };
        match self.lengthen(name, len, piece) {
            Ok(()) => Took::Took(piece.len()),
            Err(Memory) => Took::Failed,
        }
    }

    // The file of this length has the piece at its end.
    fn lengthen(&mut self, name: &str, len: u64, piece: &[u8]) -> Result<(), Memory>
        ensures ok { OnOk result (Grows name.now len piece.now
            (layer (B.told self.old.base) self.old.changes self.old.slept)
            (layer (B.told self.new.base) self.new.changes self.new.slept)) }
        ensures err { OnErr result (HoldsFile name.now len
            (layer (B.told self.old.base) self.old.changes self.old.slept)
            (layer (B.told self.new.base) self.new.changes self.new.slept)) }
    {
        self.hold(name, len)?;
        self.lengthen_held(name, piece)
    }

    fn lengthen_held(&mut self, name: &str, piece: &[u8]) -> Result<(), Memory>
        ensures ok { OnOk result (Becomes name.now (λ here. grown here piece.now)
            (layer (B.told self.old.base) self.old.changes self.old.slept)
            (layer (B.told self.new.base) self.new.changes self.new.slept)) }
        ensures err { OnErr result (IsSame
            (layer (B.told self.old.base) self.old.changes self.old.slept)
            (layer (B.told self.new.base) self.new.changes self.new.slept)) }
    {
        match self.changes.get_mut(name) {
            Some(change) => change.lengthen(piece),
            None => Err(Memory),
        }
    }

    /// Keeps the first bytes of the file.
    pub(crate) fn cut(&mut self, name: &str, len: u64) -> Cut
        ensures { IsStep (Call.Cut name.now len) (Answer.Cut result)
            (layer (B.told self.old.base) self.old.changes self.old.slept)
            (layer (B.told self.new.base) self.new.changes self.new.slept) }
    {
        let Looked::File(had) = self.look(name) else {
            return Cut::Failed;
        };
        if let Err(Memory) = self.hold(name, had) {
            return Cut::Failed;
        }
        match self.shorten_held(name, len) {
            Some(()) => Cut::Cut,
            None => Cut::Failed,
        }
    }

    fn shorten_held(&mut self, name: &str, len: u64) -> Option<()>
        ensures some { OnSome result (Becomes name.now (λ here. kept here len)
            (layer (B.told self.old.base) self.old.changes self.old.slept)
            (layer (B.told self.new.base) self.new.changes self.new.slept)) }
        ensures none { IfNone result (IsSame
            (layer (B.told self.old.base) self.old.changes self.old.slept)
            (layer (B.told self.new.base) self.new.changes self.new.slept)) }
    {
        let front = front_of(&mut self.base, self.changes.get(name)?)?;
        self.changes.get_mut(name)?.shorten(front, len);
        Some(())
    }

    /// Removes the file.
    pub(crate) fn remove(&mut self, name: &str) -> Removed
        ensures { IsStep (Call.Remove name.now) (Answer.Remove result)
            (layer (B.told self.old.base) self.old.changes self.old.slept)
            (layer (B.told self.new.base) self.new.changes self.new.slept) }
    {
        match self.look(name) {
            Looked::File(_) => match self.put(name, Changed::Gone) {
                Ok(()) => Removed::Removed,
                Err(Memory) => Removed::Failed,
            },
            Looked::Nothing => Removed::Absent,
            Looked::Folder | Looked::Failed => Removed::Failed,
        }
    }

    /// Makes a folder where nothing stands, in a folder.
    pub(crate) fn make_folder(&mut self, name: &str) -> Made
        ensures { IsStep (Call.MakeFolder name.now) (Answer.MakeFolder result)
            (layer (B.told self.old.base) self.old.changes self.old.slept)
            (layer (B.told self.new.base) self.new.changes self.new.slept) }
    {
        match self.look(name) {
            Looked::Nothing => self.make_folder_there(name),
            Looked::Folder => Made::Exists,
            Looked::File(_) | Looked::Failed => Made::Failed,
        }
    }

    fn make_folder_there(&mut self, name: &str) -> Made
        requires { IsFree name.now (layer (B.told self.old.base) self.old.changes self.old.slept) }
        ensures { IsStep (Call.MakeFolder name.now) (Answer.MakeFolder result)
            (layer (B.told self.old.base) self.old.changes self.old.slept)
            (layer (B.told self.new.base) self.new.changes self.new.slept) }
    {
        if !self.has_place(name) {
            return Made::Failed;
        }
        match self.put(name, Changed::Folder) {
            Ok(()) => Made::Made,
            Err(Memory) => Made::Failed,
        }
    }

    /// Moves the file to a name where nothing stands, in a folder.
    pub(crate) fn rename(&mut self, from: &str, to: &str) -> Moved
        ensures { IsStep (Call.Rename from.now to.now) (Answer.Rename result)
            (layer (B.told self.old.base) self.old.changes self.old.slept)
            (layer (B.told self.new.base) self.new.changes self.new.slept) }
    {
        let Looked::File(len) = self.look(from) else {
            return Moved::Failed;
        };
        match self.look(to) {
            Looked::Nothing => self.rename_there(from, len, to),
            Looked::File(_) | Looked::Folder => Moved::Taken,
            Looked::Failed => Moved::Failed,
        }
    }

    fn rename_there(&mut self, from: &str, len: u64, to: &str) -> Moved
        requires file { IsFileAt from.now len (layer (B.told self.old.base) self.old.changes self.old.slept) }
        requires free { IsFree to.now (layer (B.told self.old.base) self.old.changes self.old.slept) }
        ensures { IsStep (Call.Rename from.now to.now) (Answer.Rename result)
            (layer (B.told self.old.base) self.old.changes self.old.slept)
            (layer (B.told self.new.base) self.new.changes self.new.slept) }
    {
        if !self.has_place(to) {
            return Moved::Failed;
        }
        if let Err(Memory) = self.hold(from, len) {
            return Moved::Failed;
        }
        match self.copy_held(from, to) {
            Ok(()) => {
                self.leave(from);
                Moved::Moved
            }
            Err(Memory) => Moved::Failed,
        }
    }

    // The other name has what this one has.
    fn copy_held(&mut self, from: &str, to: &str) -> Result<(), Memory>
        requires { IsSome (get_by_text self.old.changes from.now) }
        ensures ok { OnOk result (Copies from.now to.now
            (layer (B.told self.old.base) self.old.changes self.old.slept)
            (layer (B.told self.new.base) self.new.changes self.new.slept)) }
        ensures holds { OnOk result (IsSome (get_by_text self.new.changes from.now)) }
        ensures err { OnErr result (IsSame
            (layer (B.told self.old.base) self.old.changes self.old.slept)
            (layer (B.told self.new.base) self.new.changes self.new.slept)) }
    {
        let Some(change) = self.changes.get(from) else {
            unreachable!()
        };
        let copy = change.copy(self.alloc)?;
        self.put(to, copy)
    }

    // Nothing stands at the name any more. It takes no memory.
    fn leave(&mut self, name: &str)
        requires { IsSome (get_by_text self.old.changes name.now) }
        ensures { Has name.now Changed.Gone
            (layer (B.told self.old.base) self.old.changes self.old.slept)
            (layer (B.told self.new.base) self.new.changes self.new.slept) }
    {
        let Some(change) = self.changes.get_mut(name) else {
            unreachable!()
        };
        *change = Changed::Gone;
    }
}

// The folder of a name that names one.
fn folder_of(name: &str) -> Option<&str> {
    let slash = name.rfind('/')?;
    if slash == 0 {
        None
    } else {
        Some(&name[..slash])
    }
}
