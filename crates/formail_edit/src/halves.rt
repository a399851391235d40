//! A text in two parts, so that a mail's body need not be copied.
ghost use Rattle.std.specs.Prelude.{◌≡◌, ◌++◌, IfOk};

use pm_bytes::{Blob, Memory};
use std::alloc::Global;
use std::marker::Model;

/// What is written of a mail: the front, and what stands after it.
#[derive(Drop)]
pub struct Edited {
    front: Blob,
    rest: Blob,
}

impl Model for Edited {
    ghost use Rattle.std.specs.Prelude.{List, ℕ, ◌++◌};

    ghost Value = { List ℕ };

    ghost view = { λ e. e.front ++ e.rest };
}

impl Edited {
    /// The two parts. It takes no memory.
    pub fn new(front: Blob, rest: Blob) -> Edited
        ensures { result ≡ front ++ rest }
    {
        Edited { front, rest }
    }

    /// A text in one part. It takes no memory.
    pub fn whole(alloc: Global, text: Blob) -> Edited
        ensures { result ≡ text }
    {
        Edited::new(text, Blob::empty(alloc))
    }

    /// The two parts, one to be put after the other. It takes no memory.
    pub fn into_parts(self) -> (Blob, Blob)
        ensures { result.0 ++ result.1 ≡ self }
    {
        (self.front, self.rest)
    }

    /// The text in one part.
    pub fn join(self) -> Result<Blob, Memory>
        ensures { IfOk result (λ text. text ≡ self) }
    {
        let mut text = self.front;
        if self.rest.as_slice().is_empty() {
            return Ok(text);
        }
        text.push_slice(self.rest.as_slice())?;
        Ok(text)
    }
}
