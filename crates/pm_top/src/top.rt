//! The whole run of the program, from its words to its exit status.
ghost use Rattle.std.specs.Prelude.{◌≡◌, [], IfOk, IfErr};
ghost use Rattle.pm_journal.specs.Entries.{view_of};
ghost use Rattle.pm_meaning.specs.Status.{status_number};
ghost use Rattle.pm_top.specs.Outcome.{SaysLine, LastLine, status_line};
ghost use Rattle.pm_top.specs.Promise.{Promise};
ghost use Rattle.pm_top.specs.Traced.{Arrives, IsUnbegun, RunsMail};

use crate::words::read_words;
use pm_append::write_text;
use pm_bytes::{Environ, Memory};
use pm_conds::{NoObserver, Observer};
use pm_host::{Child, Host, Sink, Source};
use pm_journal::{Entries, Journal};
use pm_meaning::{End, Ending, Idle, Status};
use pm_objects::{Objects, lend};
use pm_run::{Arrival, run_processes};
use pm_streams::{Mail, read_mail};
use std::alloc::Global;
use std::mem;

/// Reads the words and the message, carries out the recipes, notes each act in the journal, and answers the
/// exit status (procmail(1)). The words leave out the program's name.
pub fn deliver_mail<S: Source, H: Host, O: Sink, E: Sink>(
    alloc: Global,
    words: &[String],
    env: &Environ,
    source: &mut S,
    host: &mut H,
    out: &mut O,
    err: &mut E,
    journal: &mut Journal,
) -> u8
    requires empty { journal.old.entries ≡ [] }
    requires no_child { (H.told host.old).child ≡ Child.NoChild }
    ensures promise { Promise (record {
      words = words.now;
      env = env.now;
      status = result;
      source = S.told source.old;
      rest = S.told source.new;
      entries = journal.new.entries;
      before = view_of (H.told host.old) (O.told out.old) (E.told err.old);
      after = view_of (H.told host.new) (O.told out.new) (E.told err.new);
    }) }
{
    deliver_observed(
        alloc,
        words,
        env,
        source,
        host,
        out,
        err,
        journal,
        &mut NoObserver,
    )
}

/// The same as [`deliver_mail`]. The observer hears of the recipes that the run comes to, and of the conditions that
/// are judged.
pub fn deliver_observed<S: Source, H: Host, O: Sink, E: Sink, K: Entries, N: Observer>(
    alloc: Global,
    words: &[String],
    env: &Environ,
    source: &mut S,
    host: &mut H,
    out: &mut O,
    err: &mut E,
    journal: &mut Journal<K>,
    observer: &mut N,
) -> u8
    requires empty { journal.old.entries ≡ [] }
    requires no_child { (H.told host.old).child ≡ Child.NoChild }
    ensures promise { Promise (record {
      words = words.now;
      env = env.now;
      status = result;
      source = S.told source.old;
      rest = S.told source.new;
      entries = journal.new.entries;
      before = view_of (H.told host.old) (O.told out.old) (E.told err.old);
      after = view_of (H.told host.new) (O.told out.new) (E.told err.new);
    }) }
{
    match read_arrival(alloc, words, env, source) {
        Ok(arrival) => {
            let mut objects = lend(host, out, err);
            let mut idle = Idle {
                journal: mem::replace(journal, Journal::empty(alloc)),
            };
            let status = run_mail(alloc, arrival, &mut objects, &mut idle, observer);
            *journal = idle.journal;
            status
        }
        Err(status) => refuse(err, status),
    }
}

// What the words ask for, and the mail of the source. Where either is wanting, no process begins, and the run has this
// status.
fn read_arrival<'a, S: Source>(
    alloc: Global,
    words: &[String],
    env: &'a Environ,
    source: &mut S,
) -> Result<Arrival<'a>, Status>
    ensures ok { IfOk result (λ arrival.
        Arrives words.now env.now arrival (S.told source.old) (S.told source.new)) }
    ensures err { IfErr result (λ status. IsUnbegun status words.now (S.told source.old) (S.told source.new)) }
{
    let line = match read_words(alloc, words) {
        Ok(Some(line)) => line,
        Ok(None) => return Err(Status::Usage),
        Err(Memory) => return Err(Status::SystemError),
    };
    match read_mail(alloc, source) {
        Ok(Mail::Bytes(bytes)) => Ok(Arrival { line, env, bytes }),
        Ok(Mail::TooMany) => Err(Status::DataError),
        Ok(Mail::Failed) => Err(Status::InputOutput),
        Err(Memory) => Err(Status::SystemError),
    }
}

// The processes, after which the objects are the same ones, and the status.
fn run_mail<'a, H: Host, O: Sink, E: Sink, K: Entries, N: Observer>(
    alloc: Global,
    arrival: Arrival<'_>,
    objects: &mut Objects<'a, H, &'a mut O, E, K>,
    idle: &mut Idle<K>,
    observer: &mut N,
) -> u8
    requires empty { idle.old.journal.entries ≡ [] }
    ensures run { RunsMail arrival.entry.line arrival.entry.bytes (λ words source rest. record {
      words = words;
      env = arrival.entry.env.now;
      status = result;
      source = source;
      rest = rest;
      entries = idle.new.journal.entries;
      before = view_of (H.told objects.old.host.now) (O.told objects.old.out.now)
          (E.told objects.old.err.now);
      after = view_of (H.told objects.new.host.now) (O.told objects.new.out.now)
          (E.told objects.new.err.now);
    }) }
    ensures host { objects.new.host.ghost_name ≡ objects.old.host.ghost_name }
    ensures out { objects.new.out.ghost_name ≡ objects.old.out.ghost_name }
    ensures err { objects.new.err.ghost_name ≡ objects.old.err.ghost_name }
{
    match run_processes(alloc, arrival, objects, idle, observer) {
        Ok(ending) => finish(&mut *objects.err, ending),
        Err(Memory) => refuse(&mut *objects.err, Status::SystemError),
    }
}

// The status of a run that ended so; a mail filter without its rcfile says so.
fn finish<E: Sink>(err: &mut E, ending: Ending) -> u8
    ensures status { result ≡ ending.status }
    ensures last { LastLine ending.end (E.told err.old) (E.told err.new) }
{
    if ending.end == End::NoRc {
        write_text(err, line_of(Status::NoInput));
    }
    ending.status
}

/// Says the line of this status, if it has one, and answers its number. It takes no memory.
pub fn refuse<E: Sink>(err: &mut E, status: Status) -> u8
    ensures same { result ≡ status_number status }
    ensures said { SaysLine (status_line status) (E.told err.old) (E.told err.new) }
{
    write_text(err, line_of(status));
    status.number()
}

fn line_of(status: Status) -> &'static [u8]
    ensures { result.now ≡ status_line status }
{
    match status {
        Status::Usage => b"procmail: Bad words\n",
        Status::DataError => b"procmail: Message too long\n",
        Status::NoInput => b"procmail: No rcfile\n",
        Status::SystemError => b"procmail: Out of memory\n",
        Status::InputOutput => b"procmail: Couldn't read the message\n",
        Status::Success => b"",
        Status::CannotCreate => b"",
        Status::TemporaryFailure => b"",
    }
}
