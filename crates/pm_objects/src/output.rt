//! What a run has for its standard output: a sink that is lent, or the count of faults of one that it doesn't touch.
ghost use Rattle.std.specs.Prelude.{◌≡◌, ℕ};
ghost use Rattle.pm_append.specs.Writing.{WritesText};
ghost use Rattle.pm_host.specs.Streams.{StreamView};
ghost use Rattle.pm_objects.specs.Untouched.{silent};

use pm_append::{WriteEnd, write_text};
use pm_host::Sink;

/// The standard output of a run, which is told like a sink and is the same one after each call.
pub trait Output {
    ghost told: { Self → StreamView };

    ghost held: { Self → ℕ };

    /// The count of its faults.
    fn faults(&self) -> u64
        ensures { result ≡ (told self.now).faults };

    /// Writes the text to it, up to the first write that fails.
    fn write_text(&mut self, text: &[u8]) -> WriteEnd
        ensures written { WritesText text.now result (told self.old) (told self.new) }
        ensures same { held self.new ≡ held self.old };
}

impl<'a, O: Sink> Output for &'a mut O {
    ghost told = { λ sink. O.told sink.now };

    ghost held = { λ sink. sink.ghost_name };

    fn faults(&self) -> u64 {
        Sink::faults(&**self)
    }

    fn write_text(&mut self, text: &[u8]) -> WriteEnd {
        write_text(&mut **self, text)
    }
}

/// A sink that a run doesn't touch: of its standard output it knows this count of faults. What is written to it is
/// lost.
#[derive(Clone, Copy)]
pub struct Untouched {
    pub faults: u64,
}

impl Output for Untouched {
    ghost told = { λ untouched. silent untouched.faults };

    ghost held = { λ untouched. untouched.faults };

    fn faults(&self) -> u64 {
        self.faults
    }

    fn write_text(&mut self, text: &[u8]) -> WriteEnd {
        WriteEnd::Wrote
    }
}
