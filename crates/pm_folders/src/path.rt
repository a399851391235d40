//! A name that is put together part by part.
ghost use Rattle.std.specs.Prelude.{◌≡◌, ◌++◌, IfOk, OnOk, OnErr, codes, false, string_bytes};
ghost use Rattle.pm_bytes.specs.Name.{has_zero};

use pm_bytes::{Memory, Name};
use std::alloc::Global;
use std::marker::Model;

/// The front of a name.
#[derive(Drop)]
pub struct Path {
    text: String,
}

impl Model for Path {
    ghost use Rattle.std.specs.Prelude.{◌≡◌, List, ℕ, false, string_bytes};
    ghost use Rattle.pm_bytes.specs.Name.{has_zero};

    ghost Value = { List ℕ };

    ghost view = { λ p. string_bytes p.text };

    ghost invariant = { λ p. has_zero (string_bytes p.text) ≡ false };
}

impl Path {
    /// This text.
    pub fn begin(alloc: Global, text: &str) -> Result<Path, Memory>
        requires { has_zero text.now ≡ false }
        ensures { IfOk result (λ path. path ≡ text.now) }
    {
        Ok(Path {
            text: String::from_str(alloc, text)?,
        })
    }

    pub fn as_str(&self) -> &str
        ensures same { result.now ≡ self.now }
        ensures plain { has_zero result.now ≡ false }
    {
        self.text.as_str()
    }

    /// The folder's name and a slash.
    pub fn inside(alloc: Global, folder: &Name) -> Result<Path, Memory>
        ensures { IfOk result (λ path. path ≡ folder.now ++ codes "/") }
    {
        let mut path = Path {
            text: String::from_str(alloc, folder.as_str())?,
        };
        path.push("/")?;
        Ok(path)
    }

    /// Adds the text at the end.
    pub fn push(&mut self, more: &str) -> Result<(), Memory>
        requires { has_zero more.now ≡ false }
        ensures ok { OnOk result (self.new ≡ self.old ++ more.now) }
        ensures err { OnErr result (self.new ≡ self.old) }
    {
        self.text.push_str(more)?;
        Ok(())
    }

    /// The path as a name. It allocates nothing.
    pub fn into_name(self) -> Name
        ensures { result ≡ self }
    {
        Name::from_text(self.text)
    }
}
