//! Runs of bytes of one kind, and texts up to a byte.
ghost use Rattle.std.specs.Prelude.{◌≡◌};
ghost use Rattle.pm_recipe.specs.Runs.{in_run, end_of};

use crate::bytes::is_flag;
use crate::places::Place;
use pm_bytes::{DOLLAR, NEWLINE, continues_name, is_blank};

/// A run of these bytes and of joins of two lines.
#[derive(Clone, Copy)]
pub enum Run {
    /// Joins alone.
    Joins,
    Blanks,
    /// Bytes of a name.
    Name,
    /// Up to a newline that isn't joined.
    Line,
    /// Letters of flags, and blanks.
    Letters,
}

impl Run {
    fn has(self, byte: u8) -> bool
        ensures { result ≡ in_run self byte }
    {
        match self {
            Run::Joins => false,
            Run::Blanks => is_blank(byte),
            Run::Name => continues_name(byte),
            Run::Line => byte != NEWLINE,
            Run::Letters => is_blank(byte) || is_flag(byte),
        }
    }
}

impl Place for Run {
    ghost use Rattle.pm_recipe.specs.Runs.{run_places};

    ghost places = { run_places };

    fn joins(self) -> bool {
        true
    }

    fn ends(self, byte: u8) -> bool {
        !self.has(byte)
    }

    fn after(self, _: u8) -> Run {
        self
    }
}

/// Up to this byte; no lines are joined.
#[derive(Clone, Copy)]
pub enum UpTo {
    Newline,
    Dollar,
}

impl UpTo {
    fn end(self) -> u8
        ensures { result ≡ end_of self }
    {
        match self {
            UpTo::Newline => NEWLINE,
            UpTo::Dollar => DOLLAR,
        }
    }
}

impl Place for UpTo {
    ghost use Rattle.pm_recipe.specs.Runs.{up_to_places};

    ghost places = { up_to_places };

    fn joins(self) -> bool {
        false
    }

    fn ends(self, byte: u8) -> bool {
        byte == self.end()
    }

    fn after(self, _: u8) -> UpTo {
        self
    }
}
