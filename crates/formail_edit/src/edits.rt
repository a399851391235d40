//! What formail is asked to do (formail(1)).
ghost use Rattle.std.specs.Prelude.{◌≡◌, [], ◌∷◌, ◌++◌, OnOk, OnErr};

use pm_bytes::{Blob, Memory};
use std::alloc::Global;
use std::marker::Model;

/// A list of edits of one kind, in the order in which they were asked for.
#[derive(Drop)]
pub struct Listed<T> {
    items: Vec<T>,
}

impl<T> Model for Listed<T> {
    ghost use Rattle.std.specs.Prelude.{List};

    ghost Value = { List T };

    ghost view = { λ l. l.items.items };
}

impl<T> Listed<T> {
    /// No edits. It takes no memory.
    pub fn empty(alloc: Global) -> Listed<T>
        ensures { result ≡ [] }
    {
        Listed {
            items: Vec::new(alloc),
        }
    }

    pub fn as_slice(&self) -> &[T]
        ensures { result.now ≡ self.now }
    {
        self.items.as_slice()
    }
}

impl<T: Drop> Listed<T> {
    pub fn push(&mut self, item: T) -> Result<(), Memory>
        ensures ok { OnOk result (self.new ≡ self.old ++ item ∷ []) }
        ensures err { OnErr result (self.new ≡ self.old) }
    {
        self.items.push(item)?;
        Ok(())
    }
}

/// `-R`: the fields meant by `old` are named `new`.
#[derive(Drop)]
pub struct Rename {
    pub old: Blob,
    pub new: Blob,
}

/// What becomes of the fields that a new one's name means, and when the new one is added.
#[derive(Clone, Copy)]
pub enum PutKind {
    /// `-i`: they get `Old-` before their names.
    Old,
    /// `-I`: they go.
    Replace,
    /// `-a`: they stay, and the new one is added only where there are none.
    IfNone,
    /// `-A`: they stay.
    Always,
}

/// A new field, or for `-i` and `-I` perhaps the bare name of fields that are there.
#[derive(Drop)]
pub struct Put {
    pub kind: PutKind,
    pub text: Blob,
}

/// `-u` and `-U`: of the fields meant by the name only the first, or the last, stays.
#[derive(Drop)]
pub struct Unique {
    pub last: bool,
    pub name: Blob,
}

/// `-x` and `-X`: the contents of the fields meant by the name are wanted, or the whole fields.
#[derive(Drop)]
pub struct Take {
    pub whole: bool,
    pub name: Blob,
}

/// All that is asked for.
#[derive(Drop)]
pub struct Edits {
    pub renames: Listed<Rename>,
    pub puts: Listed<Put>,
    pub uniques: Listed<Unique>,
    pub takes: Listed<Take>,
    /// `-p`: what is put before a line `From ` of the body.
    pub prefix: Blob,
    /// `-f`: no line `From ` is made, and the end stays as it is.
    pub keep_from: bool,
    /// `-b`: lines `From ` of the body stay as they are.
    pub keep_body: bool,
    /// `-z`: empty fields go, and the others have a blank after their names.
    pub zap: bool,
    /// `-c`: folded lines are joined.
    pub join: bool,
    /// `-k`: the body follows what `-x` and `-X` take.
    pub with_body: bool,
}
