//! One log act, done and noted.
ghost use Rattle.std.specs.Prelude.{◌≡◌, ◌<◌};
ghost use Rattle.pm_host.specs.Streams.{StreamView};
ghost use Rattle.pm_journal.specs.Entries.{view_of};
ghost use Rattle.pm_append.specs.Saying.{counts_beside};
ghost use Rattle.pm_journal.specs.Sayings.{NotesSaid};

use crate::append::append_by;
use crate::{append_reply_of, say_reply_of, write_text};
use pm_bytes::{Blob, Name};
use pm_host::{Host, Sink};
use pm_journal::{Act, Counts, Entry, Journal};

/// Adds the text at the end of the file `to`, or writes it to `err` where there is none, and notes it. `out` is the
/// count of faults of the run's standard output, which isn't touched. A text that can't be said changes nothing else.
/// It takes no memory.
pub fn say<H: Host, E: Sink>(
    host: &mut H,
    err: &mut E,
    journal: &mut Journal,
    to: Option<Name>,
    text: Blob,
    out: u64,
)
    requires { 0 < journal.old.room }
    ensures { (told : StreamView) → told.faults ≡ out → NotesSaid to text journal.old journal.new
        (view_of (H.told host.old) told (E.told err.old)) (view_of (H.told host.new) told (E.told err.new)) }
{
    let before = counts(host, err, out);
    match to {
        Some(name) => {
            let end = append_by(host, &name, text.as_slice(), false);
            let after = counts(host, err, out);
            journal.note(Entry {
                act: Act::SayFile { name, text },
                reply: append_reply_of(end),
                before,
                after,
            });
        }
        None => {
            let end = write_text(err, text.as_slice());
            let after = counts(host, err, out);
            journal.note(Entry {
                act: Act::SayErr { text },
                reply: say_reply_of(end),
                before,
                after,
            });
        }
    }
}

fn counts<H: Host, E: Sink>(host: &H, err: &E, out: u64) -> Counts
    ensures { result ≡ counts_beside out (H.told host.now) (E.told err.now) }
{
    Counts {
        host: host.faults(),
        out,
        err: err.faults(),
    }
}
