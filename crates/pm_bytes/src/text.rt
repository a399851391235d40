//! A text that can name a file or a program.
ghost use Rattle.std.specs.Prelude.{◌≡◌, IfOk, true, false, string_bytes};
ghost use Rattle.pm_bytes.specs.Name.{is_usable, has_zero};

use crate::{Memory, NameRefused};
use std::alloc::Global;
use std::marker::Model;

/// A text of UTF-8 without the byte 0.
#[derive(Drop)]
pub struct Name {
    text: String,
}

impl Model for Name {
    ghost use Rattle.std.specs.Prelude.{◌≡◌, List, ℕ, false, string_bytes};
    ghost use Rattle.pm_bytes.specs.Name.{has_zero};

    ghost Value = { List ℕ };

    ghost view = { λ n. string_bytes n.text };

    ghost invariant = { λ n. has_zero (string_bytes n.text) ≡ false };
}

impl Name {
    pub fn read(alloc: Global, bytes: &[u8]) -> Result<Name, NameRefused>
        ensures ok { IfOk result (λ name. (name ≡ bytes.now) × (is_usable bytes.now ≡ true)) }
        ensures unusable { result ≡ Err NameRefused.Unusable → is_usable bytes.now ≡ false }
        ensures refused { is_usable bytes.now ≡ false → result ≡ Err NameRefused.Unusable }
    {
        let Ok(text) = std::str::from_utf8(bytes) else {
            return Err(NameRefused::Unusable);
        };
        if bytes.contains(&0) {
            return Err(NameRefused::Unusable);
        }
        match String::from_str(alloc, text) {
            Ok(text) => Ok(Name { text }),
            Err(_) => Err(NameRefused::Memory),
        }
    }

    /// The name with this text. It allocates nothing.
    pub fn from_text(text: String) -> Name
        requires { has_zero (string_bytes text) ≡ false }
        ensures { result ≡ string_bytes text }
    {
        Name { text }
    }

    pub fn as_str(&self) -> &str
        ensures same { result.now ≡ self.now }
        ensures usable { is_usable self.now ≡ true }
    {
        self.text.as_str()
    }

    pub fn copy(&self, alloc: Global) -> Result<Name, Memory>
        ensures { IfOk result (λ name. name ≡ self.now) }
    {
        Ok(Name {
            text: String::from_str(alloc, self.as_str())?,
        })
    }
}
