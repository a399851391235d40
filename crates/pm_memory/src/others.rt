//! Time passes in a tree of files, and others change it.
ghost use Rattle.std.specs.Prelude.{◌≡◌, ◌++◌, ◌∷◌, [], OnOk, OnErr};
ghost use Rattle.pm_host.specs.World.{after_change, after_changes, after_others, after_sleep, later_moment};
ghost use Rattle.pm_memory.specs.Node.{a_file};
ghost use Rattle.pm_memory.specs.Tree.{world_in, child_at, others_in, with_others, node_at, moved_on};

use crate::tree::Tree;
use pm_bytes::{Blob, Memory};
use pm_host::{Change, File, Node};

impl Tree {
    ghost use Rattle.pm_host.specs.World.{world_with, longer, made_there, taken_away};

    /// A batch after those that are there.
    pub(crate) fn add_batch(&mut self, changes: Vec<Change>) -> Result<(), Memory>
        ensures ok { OnOk result (others_in self.new ≡ others_in self.old ++ changes.items ∷ []) }
        ensures err { OnErr result (others_in self.new ≡ others_in self.old) }
        ensures rest { world_in self.new ≡ with_others (others_in self.new) (world_in self.old) }
        ensures child { child_at self.new ≡ child_at self.old }
    {
        self.others.push_back(changes)?;
        Ok(())
    }

    /// The moment moves on, and others act.
    pub(crate) fn sleep(&mut self, seconds: u64) -> Result<(), Memory>
        ensures ok { OnOk result (world_in self.new ≡ after_sleep seconds (world_in self.old)) }
        ensures child { child_at self.new ≡ child_at self.old }
    {
        self.pass(seconds);
        self.let_others_act()
    }

    // The moment moves on.
    fn pass(&mut self, seconds: u64)
        ensures world { world_in self.new ≡ moved_on seconds (world_in self.old) }
        ensures child { child_at self.new ≡ child_at self.old }
    {
        self.moment = moment_after(self.moment, seconds);
    }

    /// Others make the changes of their next batch, as far as memory lasts.
    pub(crate) fn let_others_act(&mut self) -> Result<(), Memory>
        ensures ok { OnOk result (world_in self.new ≡ after_others (world_in self.old)) }
        ensures child { child_at self.new ≡ child_at self.old }
    {
        match self.others.pop_front() {
            Some(changes) => self.make(&changes),
            None => Ok(()),
        }
    }

    fn make(&mut self, changes: &[Change]) -> Result<(), Memory>
        ensures ok { OnOk result (world_in self.new ≡ after_changes changes.now (world_in self.old)) }
        ensures child { child_at self.new ≡ child_at self.old }
    {
        for change in changes {
            self.make_one(change)?;
        }
        Ok(())
    }

    fn make_one(&mut self, change: &Change) -> Result<(), Memory>
        ensures ok { OnOk result (world_in self.new ≡ after_change change.now (world_in self.old)) }
        ensures child { child_at self.new ≡ child_at self.old }
    {
        match change {
            Change::Append { name, bytes } => self.lengthen(name.as_str(), bytes.as_slice()),
            Change::Create { name, bytes } => self.make_file(name.as_str(), bytes.as_slice()),
            Change::Remove { name } => {
                self.remove_file(name.as_str());
                Ok(())
            }
        }
    }

    // Adds the bytes to a file, or makes one of them where nothing stands.
    fn lengthen(&mut self, name: &str, bytes: &[u8]) -> Result<(), Memory>
        ensures ok { OnOk result (world_in self.new
            ≡ world_with (world_in self.old) name.now
            (longer (node_at self.old name.now) (world_in self.old).moment bytes.now)) }
        ensures child { child_at self.new ≡ child_at self.old }
    {
        match self.nodes.get(name) {
            Some(Node::File(_)) => match self.append(name, bytes, bytes.len()) {
                Ok(()) => Ok(()),
                Err(_) => Err(Memory),
            },
            Some(Node::Folder) => Ok(()),
            None => self.put_new(name, bytes),
        }
    }

    // Makes a file of these bytes where nothing stands.
    fn make_file(&mut self, name: &str, bytes: &[u8]) -> Result<(), Memory>
        ensures ok { OnOk result (world_in self.new
            ≡ world_with (world_in self.old) name.now
            (made_there (node_at self.old name.now) (world_in self.old).moment bytes.now)) }
        ensures child { child_at self.new ≡ child_at self.old }
    {
        match self.nodes.get(name) {
            Some(_) => Ok(()),
            None => self.put_new(name, bytes),
        }
    }

    // Puts a file of these bytes, made at this moment.
    fn put_new(&mut self, name: &str, bytes: &[u8]) -> Result<(), Memory>
        ensures ok { OnOk result (world_in self.new
            ≡ world_with (world_in self.old) name.now (a_file bytes.now (world_in self.old).moment)) }
        ensures child { child_at self.new ≡ child_at self.old }
    {
        let file = File {
            bytes: Blob::from_slice(self.alloc, bytes)?,
            made: self.moment,
        };
        self.put(name, Node::File(file))
    }

    // Removes a file.
    fn remove_file(&mut self, name: &str)
        ensures world { world_in self.new
            ≡ world_with (world_in self.old) name.now (taken_away (node_at self.old name.now)) }
        ensures child { child_at self.new ≡ child_at self.old }
    {
        match self.nodes.get(name) {
            Some(Node::File(_)) => self.take_out(name),
            Some(Node::Folder) => {}
            None => {}
        }
    }
}

// The moment so many seconds later; it stays at the greatest number.
fn moment_after(moment: i64, seconds: u64) -> i64
    ensures { result ≡ later_moment moment seconds }
{
    let sum = moment as i128 + seconds as i128;
    if sum <= i64::MAX as i128 {
        sum as i64
    } else {
        i64::MAX
    }
}
