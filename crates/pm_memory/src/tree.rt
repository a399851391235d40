//! A tree of files, by the whole name of each node: a name's parents aren't looked at.
ghost use Rattle.std.specs.Prelude.{◌≡◌, ◌≢◌, ◌≤◌, ◌<◌, IfOk, IfErr, OnOk, OnErr, Some, None, length, take, drop};
ghost use Rattle.std.specs.Prelude.{option_copied, bytes_eq, false};
ghost use Rattle.pm_host.specs.World.{FedAtMost, IsFile, IsThere, world_with, grown, kept, age_at};
ghost use Rattle.pm_memory.specs.Folders.{CantList};
ghost use Rattle.pm_memory.specs.Node.{file_bytes, Explains, NoFile, IsFolder};

use crate::folders::{add_name, part_in};
use crate::part::copy_part;
use crate::programs::Programs;
use pm_bytes::{Blob, Memory, Names};
use pm_host::{
    Aged, Answer, Call, Change, Child, Command, Cut, Fed, File, Looked, Made, Moved, Node, Removed,
    Started, Synced, Took,
};
use std::alloc::Global;
use std::collections::{BTreeMap, VecDeque};

/// Why a call is refused: its number was given to `fail`, no node of its kind stands at the name, or memory was
/// wanting.
#[derive(Clone, Copy, Debug, PartialEq, Eq)]
pub(crate) enum Denied {
    ToFail,
    WrongKind,
    Memory,
}

/// The files, the moment that stands, the batches of changes that others will make, and the children.
#[derive(Drop)]
pub(crate) struct Tree {
    pub(crate) alloc: Global,
    pub(crate) nodes: BTreeMap<String, Node>,
    pub(crate) moment: i64,
    pub(crate) others: VecDeque<Vec<Change>>,
    pub(crate) programs: Programs,
}

impl Tree {
    ghost use Rattle.pm_memory.specs.Tree.{world_in, no_files, node_at, part_at, child_at, IsStep};

    pub(crate) fn new(alloc: Global, moment: i64) -> Tree
        ensures world { world_in result ≡ no_files moment }
        ensures child { child_at result ≡ Child.NoChild }
    {
        Tree {
            alloc,
            nodes: BTreeMap::new(alloc),
            moment,
            others: VecDeque::new(alloc),
            programs: Programs::new(alloc),
        }
    }

    /// Puts the node at the name, whatever stands there.
    pub(crate) fn put(&mut self, name: &str, node: Node) -> Result<(), Memory>
        ensures ok { OnOk result (world_in self.new ≡ world_with (world_in self.old) name.now (Some node)) }
        ensures err { OnErr result (world_in self.new ≡ world_in self.old) }
        ensures child { child_at self.new ≡ child_at self.old }
    {
        let key = String::from_str(self.alloc, name)?;
        self.nodes.insert(key, node)?;
        Ok(())
    }

    pub(crate) fn moment(&self) -> i64
        ensures { result ≡ (world_in self.now).moment }
    {
        self.moment
    }

    pub(crate) fn file(&self, name: &str) -> Option<&[u8]>
        ensures { option_copied result ≡ file_bytes (node_at self.now name.now) }
    {
        match self.nodes.get(name) {
            Some(Node::File(file)) => Some(file.bytes.as_slice()),
            _ => None,
        }
    }

    pub(crate) fn look(&self, name: &str) -> Looked
        ensures right { IsStep (Call.Look name.now) (Answer.Look result) self.now self.now }
        ensures found { result ≢ Looked.Failed }
    {
        match self.nodes.get(name) {
            Some(Node::File(file)) => Looked::File(file.bytes.len() as u64),
            Some(Node::Folder) => Looked::Folder,
            None => Looked::Nothing,
        }
    }

    /// How many bytes of the file from the offset on came into the front of the room: as many as are there and as
    /// it holds.
    pub(crate) fn read(&self, name: &str, at: u64, room: &mut [u8]) -> Result<usize, Denied>
        ensures ok { IfOk result (λ count. take count room.new ≡ part_at self.now name.now at (length room.old)) }
        ensures within { IfOk result (λ count. count ≤ length room.old) }
        ensures there { OnOk result (IsFile (node_at self.now name.now)) }
        ensures err { IfErr result (Explains ⊥ (NoFile (node_at self.now name.now)) ⊥) }
    {
        match self.file(name) {
            Some(bytes) => Ok(copy_part(bytes, at, room)),
            None => Err(Denied::WrongKind),
        }
    }

    /// Makes an empty file where nothing stands.
    pub(crate) fn create(&mut self, name: &str) -> Result<Made, Denied>
        ensures ok { IfOk result (λ made. IsStep (Call.Create name.now) (Answer.Create made) self.old self.new) }
        ensures found { IfOk result (λ made. made ≢ Made.Failed) }
        ensures err { IfErr result (Explains ⊥ ⊥ (Unit {0})) }
        ensures same { OnErr result (world_in self.new ≡ world_in self.old) }
        ensures child { child_at self.new ≡ child_at self.old }
    {
        if self.nodes.contains_key(name) {
            return Ok(Made::Exists);
        }
        let file = File {
            bytes: Blob::empty(self.alloc),
            made: self.moment,
        };
        match self.put(name, Node::File(file)) {
            Ok(()) => Ok(Made::Made),
            Err(Memory) => Err(Denied::Memory),
        }
    }

    /// Adds the first bytes of the piece, so many, at the end of the file.
    pub(crate) fn append(&mut self, name: &str, piece: &[u8], count: usize) -> Result<(), Denied>
        requires { count ≤ length piece.now }
        ensures ok { OnOk result (IsStep (Call.Append name.now piece.now) (Answer.Append
            (Took.Took count)) self.old self.new) }
        ensures err { IfErr result (Explains ⊥ (NoFile (node_at self.old name.now)) (Unit {0})) }
        ensures same { OnErr result (world_in self.new ≡ world_in self.old) }
        ensures child { child_at self.new ≡ child_at self.old }
    {
        match self.nodes.get_mut(name) {
            Some(node) => grow(node, &piece[..count]),
            None => Err(Denied::WrongKind),
        }
    }

    /// Keeps the first bytes of the file.
    pub(crate) fn cut(&mut self, name: &str, len: u64) -> Result<(), Denied>
        ensures ok { OnOk result (IsStep (Call.Cut name.now len) (Answer.Cut Cut.Cut) self.old self.new) }
        ensures err { IfErr result (Explains ⊥ (NoFile (node_at self.old name.now)) ⊥) }
        ensures same { OnErr result (world_in self.new ≡ world_in self.old) }
        ensures child { child_at self.new ≡ child_at self.old }
    {
        match self.nodes.get_mut(name) {
            Some(node) => shorten(node, len),
            None => Err(Denied::WrongKind),
        }
    }

    /// Removes the file.
    pub(crate) fn remove(&mut self, name: &str) -> Result<Removed, Denied>
        ensures ok { IfOk result (λ removed. IsStep (Call.Remove name.now) (Answer.Remove removed) self.old self.new) }
        ensures found { IfOk result (λ removed. removed ≢ Removed.Failed) }
        ensures err { IfErr result (Explains ⊥ (IsFolder (node_at self.old name.now)) ⊥) }
        ensures same { OnErr result (world_in self.new ≡ world_in self.old) }
        ensures child { child_at self.new ≡ child_at self.old }
    {
        match self.nodes.get(name) {
            Some(Node::Folder) => return Err(Denied::WrongKind),
            Some(Node::File(_)) => {}
            None => return Ok(Removed::Absent),
        }
        self.take_out(name);
        Ok(Removed::Removed)
    }

    // Takes away what stands at the name.
    pub(crate) fn take_out(&mut self, name: &str)
        ensures world { world_in self.new ≡ world_with (world_in self.old) name.now None }
        ensures child { child_at self.new ≡ child_at self.old }
    {
        let _ = self.nodes.remove(name);
    }

    /// Brings the file to the store, which changes nothing here.
    pub(crate) fn sync(&self, name: &str) -> Result<(), Denied>
        ensures ok { OnOk result (IsStep (Call.Sync name.now) (Answer.Sync Synced.Synced) self.now self.now) }
        ensures err { IfErr result (Explains ⊥ (NoFile (node_at self.now name.now)) ⊥) }
    {
        match self.nodes.get(name) {
            Some(Node::File(_)) => Ok(()),
            _ => Err(Denied::WrongKind),
        }
    }

    /// Moves the file to a name where nothing stands.
    pub(crate) fn rename(&mut self, from: &str, to: &str) -> Result<Moved, Denied>
        ensures ok { IfOk result (λ moved. IsStep (Call.Rename from.now to.now)
            (Answer.Rename moved) self.old self.new) }
        ensures found { IfOk result (λ moved. moved ≢ Moved.Failed) }
        ensures err { IfErr result (Explains ⊥ (NoFile (node_at self.old from.now)) (Unit {0})) }
        ensures same { OnErr result (world_in self.new ≡ world_in self.old) }
        ensures child { child_at self.new ≡ child_at self.old }
    {
        match self.nodes.get(from) {
            Some(Node::File(_)) => self.move_where_free(from, to),
            _ => Err(Denied::WrongKind),
        }
    }

    fn move_where_free(&mut self, from: &str, to: &str) -> Result<Moved, Denied>
        requires { IsFile (node_at self.old from.now) }
        ensures ok { IfOk result (λ moved. IsStep (Call.Rename from.now to.now)
            (Answer.Rename moved) self.old self.new) }
        ensures found { IfOk result (λ moved. moved ≢ Moved.Failed) }
        ensures err { IfErr result (Explains ⊥ ⊥ (Unit {0})) }
        ensures same { OnErr result (world_in self.new ≡ world_in self.old) }
        ensures child { child_at self.new ≡ child_at self.old }
    {
        match self.nodes.get(to) {
            Some(_) => Ok(Moved::Taken),
            None => match self.move_file(from, to) {
                Ok(()) => Ok(Moved::Moved),
                Err(Memory) => Err(Denied::Memory),
            },
        }
    }

    // The new name is made first, since nothing may fail once the file was taken out.
    fn move_file(&mut self, from: &str, to: &str) -> Result<(), Memory>
        requires file { IsFile (node_at self.old from.now) }
        requires free { None ≡ node_at self.old to.now }
        ensures ok { OnOk result (IsStep (Call.Rename from.now to.now) (Answer.Rename Moved.Moved) self.old self.new) }
        ensures same { OnErr result (world_in self.new ≡ world_in self.old) }
        ensures child { child_at self.new ≡ child_at self.old }
    {
        self.put(to, Node::Folder)?;
        self.carry(from, to);
        Ok(())
    }

    // What stands at the name goes to the other one, in place of what stands there.
    fn carry(&mut self, from: &str, to: &str)
        requires there { IsThere (node_at self.old from.now) }
        requires place { IsThere (node_at self.old to.now) }
        requires apart { bytes_eq from.now to.now ≡ false }
        ensures world { world_in self.new
            ≡ world_with (world_with (world_in self.old) from.now None) to.now (node_at self.old from.now) }
        ensures child { child_at self.new ≡ child_at self.old }
    {
        let Some(node) = self.nodes.remove(from) else {
            unreachable!()
        };
        let Some(place) = self.nodes.get_mut(to) else {
            unreachable!()
        };
        *place = node;
    }

    /// Makes a folder where nothing stands.
    pub(crate) fn make_folder(&mut self, name: &str) -> Result<Made, Denied>
        ensures ok { IfOk result (λ made. IsStep (Call.MakeFolder name.now)
            (Answer.MakeFolder made) self.old self.new) }
        ensures found { IfOk result (λ made. made ≢ Made.Failed) }
        ensures err { IfErr result (Explains ⊥ (IsFile (node_at self.old name.now)) (Unit {0})) }
        ensures same { OnErr result (world_in self.new ≡ world_in self.old) }
        ensures child { child_at self.new ≡ child_at self.old }
    {
        match self.nodes.get(name) {
            Some(Node::Folder) => return Ok(Made::Exists),
            Some(Node::File(_)) => return Err(Denied::WrongKind),
            None => {}
        }
        match self.put(name, Node::Folder) {
            Ok(()) => Ok(Made::Made),
            Err(Memory) => Err(Denied::Memory),
        }
    }

    /// The last parts of the names directly in the folder.
    pub(crate) fn names(&self, alloc: Global, folder: &str) -> Result<Names, Denied>
        ensures ok { IfOk result (λ names. IsStep (Call.Names folder.now) (Answer.Names names) self.now self.now) }
        ensures err { IfErr result (Explains ⊥ (CantList (world_in self.now).nodes folder.now) (Unit {0})) }
    {
        match self.nodes.get(folder) {
            Some(Node::Folder) => {}
            _ => return Err(Denied::WrongKind),
        }
        let mut names = Vec::new(alloc);
        for name in self.nodes.keys() {
            if let Some(part) = part_in(folder.as_bytes(), name.as_bytes()) {
                if let Err(refused) = add_name(alloc, &mut names, part) {
                    return Err(refused);
                }
            }
        }
        Ok(Names::from_vec(names))
    }

    /// Seconds since the file was made.
    pub(crate) fn age(&self, name: &str) -> Result<Aged, Denied>
        ensures ok { IfOk result (λ aged. IsStep (Call.Age name.now) (Answer.Age aged) self.now self.now) }
        ensures found { IfOk result (λ aged. aged ≢ Aged.Failed) }
        ensures err { IfErr result (Explains ⊥ (IsFolder (node_at self.now name.now)) ⊥) }
    {
        match self.nodes.get(name) {
            Some(Node::File(file)) => Ok(Aged::Age(seconds_since(file.made, self.moment))),
            Some(Node::Folder) => Err(Denied::WrongKind),
            None => Ok(Aged::Absent),
        }
    }

    /// Starts a child.
    pub(crate) fn start(&mut self, command: &Command, want: bool) -> Result<(), Denied>
        ensures ok { OnOk result (IsStep (Call.Start command.now want)
            (Answer.Start Started.Started) self.old self.new) }
        ensures running { OnOk result (child_at self.new ≡ Child.Feeding) }
        ensures err { IfErr result (Explains ⊥ ⊥ (Unit {0})) }
        ensures same { OnErr result (world_in self.new ≡ world_in self.old) }
        ensures child { OnErr result (child_at self.new ≡ child_at self.old) }
    {
        match self.programs.start(self.alloc, command, want) {
            Ok(()) => Ok(()),
            Err(Memory) => Err(Denied::Memory),
        }
    }

    /// The child takes a front of the piece, of at most so many bytes.
    pub(crate) fn feed(&mut self, piece: &[u8], most: usize) -> Result<Fed, Denied>
        requires some { 1 ≤ most }
        requires within { most ≤ length piece.now }
        ensures ok { IfOk result (λ fed. IsStep (Call.Feed piece.now) (Answer.Feed fed) self.old self.new) }
        ensures fits { IfOk result (λ fed. FedAtMost (length piece.now) fed) }
        ensures found { IfOk result (λ fed. fed ≢ Fed.Failed) }
        ensures err { IfErr result (Explains ⊥ ⊥ (Unit {0})) }
        ensures same { OnErr result (world_in self.new ≡ world_in self.old) }
        ensures child { child_at self.new ≡ child_at self.old }
    {
        let Some(count) = self.programs.room(most) else {
            return Ok(Fed::Closed);
        };
        match self.programs.feed(&piece[..count]) {
            Ok(()) => Ok(Fed::Took(count)),
            Err(Memory) => Err(Denied::Memory),
        }
    }
}

// Seconds from the moment at which a file was made; none where it is a later one.
fn seconds_since(made: i64, moment: i64) -> u64
    ensures { result ≡ age_at moment made }
{
    if made <= moment {
        moment.abs_diff(made)
    } else {
        0
    }
}

// Adds the piece to a file.
fn grow(node: &mut Node, piece: &[u8]) -> Result<(), Denied>
    ensures ok { OnOk result (Some node.new ≡ grown (Some node.old) piece.now) }
    ensures there { OnOk result (IsFile (Some node.old)) }
    ensures err { IfErr result (Explains ⊥ (NoFile (Some node.old)) (Unit {0})) }
    ensures same { OnErr result (node.new ≡ node.old) }
{
    match node {
        Node::File(file) => match file.bytes.push_slice(piece) {
            Ok(()) => Ok(()),
            Err(Memory) => Err(Denied::Memory),
        },
        Node::Folder => Err(Denied::WrongKind),
    }
}

// Keeps the first bytes of a file.
fn shorten(node: &mut Node, len: u64) -> Result<(), Denied>
    ensures ok { OnOk result (Some node.new ≡ kept (Some node.old) len) }
    ensures there { OnOk result (IsFile (Some node.old)) }
    ensures err { IfErr result (Explains ⊥ (NoFile (Some node.old)) ⊥) }
    ensures same { OnErr result (node.new ≡ node.old) }
{
    match node {
        Node::File(file) => {
            if len < file.bytes.len() as u64 {
                file.bytes.truncate(len as usize);
            }
            Ok(())
        }
        Node::Folder => Err(Denied::WrongKind),
    }
}
