//! A value as the map holds it, so that the map can be cloned.
use pm_bytes::Blob;
use std::alloc::{AllocError, Global};

#[derive(Drop)]
pub(crate) struct Held {
    pub alloc: Global,
    /// None where the variable is gone.
    pub value: Option<Blob>,
}

impl Clone for Held {
    ghost use Rattle.std.specs.Prelude.{◌≡◌};

    ghost is_clone = { λ held clone. clone.value ≡ held.value };

    fn clone(&self) -> Result<Held, AllocError> {
        let value = match &self.value {
            None => None,
            Some(value) => match value.copy(self.alloc) {
                Ok(value) => Some(value),
                Err(_) => return Err(AllocError),
            },
        };
        Ok(Held {
            alloc: self.alloc,
            value,
        })
    }
}
