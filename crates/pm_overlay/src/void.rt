//! What a run writes to standard output and standard error is in its journal: it needn't go anywhere.
ghost use Rattle.std.specs.Prelude.{None};

use pm_host::{Sink, Took};

/// Takes all bytes, and keeps none.
#[derive(Drop)]
pub struct Void {
    faults: u64,
}

impl Void {
    pub fn new() -> Void {
        Void { faults: 0 }
    }
}

impl Sink for Void {
    ghost told = { λ sink. record { bytes = None; faults = sink.faults } };

    fn faults(&self) -> u64 {
        self.faults
    }

    fn write(&mut self, piece: &[u8]) -> Took {
        Took::Took(piece.len())
    }
}
