//! A host and the sink for errors, lent for what conditions ask.
ghost use Rattle.pm_conds.specs.Asked.{silent};

use pm_append::say;
use pm_bytes::{Blob, Memory, Name};
use pm_host::{Command, Host, Sink};
use pm_journal::{AllEntries, Asks, Journal, RunEnd};
use pm_pipe::{SinkFaults, run_noted};
use std::alloc::Global;

/// A host and the sink `err` of a run. `out` is the count of faults of the run's standard output, which isn't touched.
#[derive(Drop)]
pub struct Asked<'a, H: Host, E: Sink> {
    pub host: &'a mut H,
    pub err: &'a mut E,
    pub out: u64,
}

impl<'a, H: Host, E: Sink> Asks for Asked<'a, H, E> {
    type Kept = AllEntries;

    ghost use Rattle.std.specs.Prelude.{[], ◌∷◌};
    ghost use Rattle.pm_journal.specs.Entries.{seen_by};

    ghost told = { λ o. seen_by (o.out ∷ o.host.ghost_name ∷ o.err.ghost_name ∷ [])
        (H.told o.host.now) (silent o.out) (E.told o.err.now) };

    fn say(&mut self, journal: &mut Journal, to: Option<Name>, text: Blob) {
        say(&mut *self.host, &mut *self.err, journal, to, text, self.out);
    }

    fn run(
        &mut self,
        alloc: Global,
        journal: &mut Journal,
        command: Command,
        input: Blob,
        want: bool,
    ) -> Result<RunEnd, Memory> {
        let sinks = SinkFaults {
            out: self.out,
            err: self.err.faults(),
        };
        run_noted(alloc, &mut *self.host, journal, command, input, want, sinks)
    }
}
