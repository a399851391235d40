//! Why a text was not read.
use pm_bytes::Memory;
use std::alloc::{AllocError, AllocFailed};

/// Why there is no expression: the text is none by the grammar, or memory was wanting.
#[derive(Clone, Copy)]
pub enum ReadRefused {
    Defect,
    Memory,
}

impl From<Memory> for ReadRefused {
    ghost use Rattle.std.specs.Prelude.{◌≡◌};
    ghost use Rattle.pm_regex.specs.declared.error.ReadRefused.TheVariants as refused;

    ghost from_gives = { λ _ e. e ≡ refused.Memory };

    fn from(_: Memory) -> Self {
        ReadRefused::Memory
    }
}

impl From<AllocError> for ReadRefused {
    ghost use Rattle.std.specs.Prelude.{◌≡◌};
    ghost use Rattle.pm_regex.specs.declared.error.ReadRefused.TheVariants as refused;

    ghost from_gives = { λ _ e. e ≡ refused.Memory };

    fn from(_: AllocError) -> Self {
        ReadRefused::Memory
    }
}

impl<T: Drop> From<AllocFailed<T>> for ReadRefused {
    ghost use Rattle.std.specs.Prelude.{◌≡◌};
    ghost use Rattle.pm_regex.specs.declared.error.ReadRefused.TheVariants as refused;

    ghost from_gives = { λ _ e. e ≡ refused.Memory };

    fn from(_: AllocFailed<T>) -> Self {
        ReadRefused::Memory
    }
}
