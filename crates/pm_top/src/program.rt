//! The whole program, from its words to its exit status.
ghost use Rattle.std.specs.Prelude.{◌≡◌, ◌≤◌, []};
ghost use Rattle.pm_host.specs.declared.answers.Child.{Child};
ghost use Rattle.pm_journal.specs.Entries.{view_of};
ghost use Rattle.pm_top.specs.Trials.{Tried, WritesReport};
ghost use Rattle.pm_top.specs.ProgramPromise.{Promise};

use crate::delivering::{TrialEnd, deliver_all};
use crate::top::{deliver_observed, refuse};
use crate::trial_words::read_trial;
use pm_append::{WriteEnd, write_text};
use pm_bytes::{Environ, Memory};
use pm_conds::{NoObserver, Observer};
use pm_host::{Host, Sink, Source};
use pm_journal::{Entries, Journal};
use pm_meaning::Status;
use std::alloc::Global;

/// Does what the words ask for and answers the exit status (procmail(1)): a trial for `--trial N`, and for all other
/// words the run of one message, which is noted in the journal. The words leave out the program's name.
pub fn procmail<S: Source, H: Host, O: Sink, E: Sink>(
    alloc: Global,
    words: &[String],
    env: &Environ,
    source: &mut S,
    host: &mut H,
    out: &mut O,
    err: &mut E,
    journal: &mut Journal,
) -> u8
    requires empty { journal.old.entries ≡ [] }
    requires no_child { (H.told host.old).child ≡ Child.NoChild }
    ensures promise { Promise (record {
      words = words.now;
      env = env.now;
      status = result;
      source = S.told source.old;
      rest = S.told source.new;
      entries = journal.new.entries;
      before = view_of (H.told host.old) (O.told out.old) (E.told err.old);
      after = view_of (H.told host.new) (O.told out.new) (E.told err.new);
    }) }
{
    procmail_observed(
        alloc,
        words,
        env,
        source,
        host,
        out,
        err,
        journal,
        &mut NoObserver,
    )
}

/// The same as [`procmail`]. In the run of one message the observer hears of the recipes that it comes to, and of the
/// conditions that are judged; of a trial it hears nothing.
pub fn procmail_observed<S: Source, H: Host, O: Sink, E: Sink, K: Entries, N: Observer>(
    alloc: Global,
    words: &[String],
    env: &Environ,
    source: &mut S,
    host: &mut H,
    out: &mut O,
    err: &mut E,
    journal: &mut Journal<K>,
    observer: &mut N,
) -> u8
    requires empty { journal.old.entries ≡ [] }
    requires no_child { (H.told host.old).child ≡ Child.NoChild }
    ensures promise { Promise (record {
      words = words.now;
      env = env.now;
      status = result;
      source = S.told source.old;
      rest = S.told source.new;
      entries = journal.new.entries;
      before = view_of (H.told host.old) (O.told out.old) (E.told err.old);
      after = view_of (H.told host.new) (O.told out.new) (E.told err.new);
    }) }
{
    match read_trial(words) {
        Some(count) => try_rcfile(alloc, count, env, host, out, err),
        None => deliver_observed(alloc, words, env, source, host, out, err, journal, observer),
    }
}

// The trial of so many messages.
fn try_rcfile<H: Host, O: Sink, E: Sink>(
    alloc: Global,
    count: u64,
    env: &Environ,
    host: &mut H,
    out: &mut O,
    err: &mut E,
) -> u8
    requires few { count ≤ 2000 }
    requires no_child { (H.told host.old).child ≡ Child.NoChild }
    ensures tried { Tried (record {
      count = count;
      env = env.now;
      status = result;
      before = view_of (H.told host.old) (O.told out.old) (E.told err.old);
      after = view_of (H.told host.new) (O.told out.new) (E.told err.new);
    }) }
    ensures no_child { (H.told host.new).child ≡ Child.NoChild }
{
    match deliver_all(alloc, count, env, host, out, err) {
        Ok(TrialEnd::Delivered(report)) => say_report(out, report.as_slice()),
        Ok(TrialEnd::Failed(status)) => status,
        Err(Memory) => refuse(err, Status::SystemError),
    }
}

// Says the report, and answers 0 where all of it was taken. It takes no memory.
fn say_report<O: Sink>(out: &mut O, report: &[u8]) -> u8
    ensures { WritesReport report.now result (O.told out.old) (O.told out.new) }
{
    match write_text(out, report) {
        WriteEnd::Wrote => Status::Success.number(),
        WriteEnd::Short(_) => Status::InputOutput.number(),
    }
}
