//! The names that are tried in a folder.
ghost use Rattle.std.specs.Prelude.{◌≡◌, ◌≤◌, ◌<◌, ◌+◌, ◌^◌, ◌++◌, IfOk, OnOk, MatchOption, None, Some};
ghost use Rattle.std.specs.Prelude.{codes, decimal, map, false, unwrap_or, ℕ, List, length};
ghost use Rattle.std.specs.Fmt.{signed_decimal};
ghost use Rattle.pm_bytes.specs.Name.{has_zero};
ghost use Rattle.pm_host.specs.World.{inside};
ghost use Rattle.pm_journal.specs.Naming.{stem, plain_candidate, mh_candidate, maildir_candidate, unslashed};
ghost use Rattle.pm_journal.specs.Naming;
ghost use Rattle.pm_folders.specs.Trying.{names_with, nth_try, tried_last};

use crate::path::Path;
use crate::slot::Slot;
use itoa::Buffer;
use pm_bytes::{Memory, Name};
use pm_journal::Stamp;
use std::alloc::Global;
use std::marker::Model;

/// What tells the tries in a folder apart.
#[derive(Clone, Copy)]
pub enum Mark {
    /// The first has no mark, each other a hyphen and its number.
    Again,
    /// Each has its own number, from this one on.
    Number(u64),
}

/// The names of one try in a folder.
#[derive(Drop)]
pub struct Names {
    at: Slot,
    to: Option<Slot>,
    mark: Mark,
}

impl Model for Names {
    ghost use Rattle.pm_folders.specs.Trying.{Trying, IsSmall};

    ghost Value = { Trying };

    ghost view = { λ n. record { at = n.at; to = n.to; mark = n.mark } };

    ghost invariant = { λ n. IsSmall n.mark };
}

impl Names {
    /// Writes the names of this try. It takes no memory.
    pub fn write(&mut self, k: u32)
        requires { k < 100 }
        ensures written { tried_last self.new ≡ nth_try self.old k }
        ensures others { (j : ℕ) → nth_try self.new j ≡ nth_try self.old j }
    {
        let mut buffer = Buffer::new();
        match self.mark {
            Mark::Again if k == 0 => self.write_with("", ""),
            Mark::Again => self.write_with("-", buffer.format(k)),
            Mark::Number(first) => self.write_with("", buffer.format(first + k as u64)),
        }
    }

    fn write_with(&mut self, sign: &str, digits: &str)
        requires short { length sign.now + length digits.now ≤ 21 }
        requires plain { (has_zero sign.now ≡ false) × (has_zero digits.now ≡ false) }
        ensures written { tried_last self.new ≡ names_with (sign.now ++ digits.now) self.old }
        ensures others { (text : List ℕ) → names_with text self.new ≡ names_with text self.old }
        ensures mark { self.new.mark ≡ self.old.mark }
    {
        self.at.write(sign, digits);
        if let Some(to) = &mut self.to {
            to.write(sign, digits);
        }
    }

    /// The name at which a file is made.
    pub fn at(&self) -> &str
        ensures { result.now ≡ (tried_last self.now).at }
    {
        self.at.as_str()
    }

    /// The name to which it is moved, where there is one.
    pub fn to(&self) -> Option<&str>
        ensures { MatchOption result ((tried_last self.now).to ≡ None) (λ to. (tried_last self.now).to ≡ Some to.now) }
    {
        match &self.to {
            Some(to) => Some(to.as_str()),
            None => None,
        }
    }

    /// The name at which a file was made. It allocates nothing.
    pub fn into_made(self) -> Name
        ensures { result ≡ (tried_last self).at }
    {
        self.at.into_name()
    }

    /// The name of a file that was filed. It allocates nothing.
    pub fn into_filed(self) -> Name
        ensures { result ≡ unwrap_or (tried_last self).to (tried_last self).at }
    {
        let Names { at, to, .. } = self;
        match to {
            Some(to) => to.into_name(),
            None => at.into_name(),
        }
    }
}

/// The names in a plain folder.
pub fn plain_names(
    alloc: Global,
    folder: &Name,
    prefix: &Name,
    stamp: &Stamp,
) -> Result<Names, Memory>
    ensures { IfOk result (λ names. (k : ℕ) → nth_try names k ≡ plain_candidate folder.now prefix.now stamp.now k) }
{
    let front = plain_front(alloc, folder, prefix, stamp)?;
    let back = Path::begin(alloc, "")?;
    Ok(Names {
        at: Slot::new(alloc, front, back)?,
        to: None,
        mark: Mark::Again,
    })
}

/// The names in a maildir: a file is made in its `tmp` and moved to its `new`.
pub fn maildir_names(alloc: Global, folder: &Name, stamp: &Stamp) -> Result<Names, Memory>
    ensures { IfOk result (λ names. (k : ℕ) → nth_try names k ≡ maildir_candidate folder.now stamp.now k) }
{
    let at = maildir_slot(alloc, folder, "tmp", stamp)?;
    let to = maildir_slot(alloc, folder, "new", stamp)?;
    Ok(Names {
        at,
        to: Some(to),
        mark: Mark::Again,
    })
}

/// The names in an MH folder, from this number on.
pub fn mh_names(alloc: Global, folder: &Name, first: u64) -> Result<Names, Memory>
    requires { first ≤ 10 ^ 18 }
    ensures { IfOk result (λ names. (k : ℕ) → nth_try names k ≡ mh_candidate folder.now first k) }
{
    let front = Path::inside(alloc, folder)?;
    let back = Path::begin(alloc, "")?;
    Ok(Names {
        at: Slot::new(alloc, front, back)?,
        to: None,
        mark: Mark::Number(first),
    })
}

/// The folders of a maildir.
pub fn maildir_folders(alloc: Global, folder: &Name) -> Result<Vec<Name>, Memory>
    ensures { IfOk result (λ all. all.items ≡ Naming.maildir_folders folder.now) }
{
    let mut all = Vec::new(alloc);
    all.push(folder.copy(alloc)?)?;
    all.push(part_of(alloc, folder, "tmp")?.into_name())?;
    all.push(part_of(alloc, folder, "new")?.into_name())?;
    all.push(part_of(alloc, folder, "cur")?.into_name())?;
    Ok(all)
}

// What the names in a plain folder begin with.
fn plain_front(alloc: Global, folder: &Name, prefix: &Name, stamp: &Stamp) -> Result<Path, Memory>
    ensures { IfOk result (λ path. path ≡ inside folder.now (prefix.now ++ stem stamp.now)) }
{
    let mut path = Path::inside(alloc, folder)?;
    path.push(prefix.as_str())?;
    push_stem(&mut path, stamp)?;
    Ok(path)
}

// The names in this folder of a maildir.
fn maildir_slot(alloc: Global, folder: &Name, place: &str, stamp: &Stamp) -> Result<Slot, Memory>
    requires { has_zero place.now ≡ false }
    ensures front { IfOk result (λ slot. slot.front ≡ inside (inside folder.now place.now) (stem stamp.now)) }
    ensures back { IfOk result (λ slot. slot.back ≡ codes "." ++ map unslashed stamp.now.host_name) }
{
    let front = maildir_front(alloc, folder, place, stamp)?;
    let back = maildir_back(alloc, stamp)?;
    Slot::new(alloc, front, back)
}

// What the names in this folder of a maildir begin with.
fn maildir_front(alloc: Global, folder: &Name, place: &str, stamp: &Stamp) -> Result<Path, Memory>
    requires { has_zero place.now ≡ false }
    ensures { IfOk result (λ path. path ≡ inside (inside folder.now place.now) (stem stamp.now)) }
{
    let mut path = part_of(alloc, folder, place)?;
    path.push("/")?;
    push_stem(&mut path, stamp)?;
    Ok(path)
}

// What the names in a maildir end with.
fn maildir_back(alloc: Global, stamp: &Stamp) -> Result<Path, Memory>
    ensures { IfOk result (λ path. path ≡ codes "." ++ map unslashed stamp.now.host_name) }
{
    let mut path = Path::begin(alloc, ".")?;
    push_unslashed(&mut path, stamp.host_name.as_str())?;
    Ok(path)
}

// The text with `_` in place of each slash.
fn push_unslashed(path: &mut Path, text: &str) -> Result<(), Memory>
    requires { has_zero text.now ≡ false }
    ensures { OnOk result (path.new ≡ path.old ++ map unslashed text.now) }
{
    match text.split_once('/') {
        Some((before, after)) => {
            path.push(before)?;
            path.push("_")?;
            push_unslashed(path, after)
        }
        None => path.push(text),
    }
}

// What stands in the folder under this name.
fn part_of(alloc: Global, folder: &Name, part: &str) -> Result<Path, Memory>
    requires { has_zero part.now ≡ false }
    ensures { IfOk result (λ path. path ≡ inside folder.now part.now) }
{
    let mut path = Path::inside(alloc, folder)?;
    path.push(part)?;
    Ok(path)
}

fn push_stem(path: &mut Path, stamp: &Stamp) -> Result<(), Memory>
    ensures { OnOk result (path.new ≡ path.old ++ stem stamp.now) }
{
    push_moment(path, stamp.moment)?;
    path.push(".")?;
    push_count(path, stamp.pid as u64)?;
    path.push("_")?;
    push_count(path, stamp.serial)
}

fn push_count(path: &mut Path, count: u64) -> Result<(), Memory>
    ensures { OnOk result (path.new ≡ path.old ++ decimal count) }
{
    let mut buffer = Buffer::new();
    path.push(buffer.format(count))
}

fn push_moment(path: &mut Path, moment: i64) -> Result<(), Memory>
    ensures { OnOk result (path.new ≡ path.old ++ signed_decimal moment) }
{
    let mut buffer = Buffer::new();
    path.push(buffer.format(moment))
}
