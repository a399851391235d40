//! A sink that takes what nobody reads: the program writes nothing to standard output.
ghost use Rattle.lockfile_top.specs.Nowhere.{nowhere};

use pm_host::{Sink, Took};

/// A sink that tells nothing and never fails.
#[derive(Clone, Copy)]
pub struct Nowhere;

impl Sink for Nowhere {
    ghost told = { λ sink. nowhere };

    fn faults(&self) -> u64 {
        0
    }

    fn write(&mut self, piece: &[u8]) -> Took {
        Took::Took(piece.len())
    }
}
