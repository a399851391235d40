//! The runs of a trial, one after the other.
ghost use Rattle.std.specs.Prelude.{◌≡◌, ◌≤◌, IfOk, OnErr};
ghost use Rattle.pm_host.specs.declared.answers.Child.{Child};
ghost use Rattle.pm_journal.specs.Entries.{view_of};
ghost use Rattle.pm_top.specs.Words.{all_bytes};
ghost use Rattle.pm_top.specs.Runs.{run_words};
ghost use Rattle.pm_top.specs.Trials.{EndsSo, GivesUp};

use crate::messages::make_message;
use crate::report::make_report;
use crate::source::MessageSource;
use crate::top::deliver_mail;
use crate::totals::Totals;
use pm_bytes::{Blob, Environ, Memory};
use pm_host::{Host, Sink};
use pm_journal::Journal;
use std::alloc::Global;

/// How the runs of a trial ended.
#[derive(Drop)]
pub enum TrialEnd {
    /// All with status 0; this is to be said of them.
    Delivered(Blob),
    /// The last one with this other status.
    Failed(u8),
}

/// Runs over the messages with the numbers below `count`, in order, by the words `-m rc`, up to the first run whose
/// status isn't 0. Each run begins with a journal of its own.
pub fn deliver_all<H: Host, O: Sink, E: Sink>(
    alloc: Global,
    count: u64,
    env: &Environ,
    host: &mut H,
    out: &mut O,
    err: &mut E,
) -> Result<TrialEnd, Memory>
    requires few { count ≤ 2000 }
    requires no_child { (H.told host.old).child ≡ Child.NoChild }
    ensures ok { IfOk result (λ end. EndsSo count env.now end
        (view_of (H.told host.old) (O.told out.old) (E.told err.old))
        (view_of (H.told host.new) (O.told out.new) (E.told err.new))) }
    ensures memory { OnErr result (GivesUp count env.now
        (view_of (H.told host.old) (O.told out.old) (E.told err.old))
        (view_of (H.told host.new) (O.told out.new) (E.told err.new))) }
    ensures no_child { (H.told host.new).child ≡ Child.NoChild }
{
    let words = make_words(alloc)?;
    let mut totals = Totals::none();
    for number in 0..count {
        let mut source = MessageSource::new(make_message(alloc, number)?);
        let mut journal = Journal::new(alloc);
        let status = deliver_mail(
            alloc,
            words.as_slice(),
            env,
            &mut source,
            host,
            out,
            err,
            &mut journal,
        );
        if status != 0 {
            return Ok(TrialEnd::Failed(status));
        }
        totals.add(journal.entries())?;
    }
    Ok(TrialEnd::Delivered(make_report(alloc, count, totals)?))
}

// The words of each run.
fn make_words(alloc: Global) -> Result<Vec<String>, Memory>
    ensures { IfOk result (λ words. all_bytes words.items ≡ run_words) }
{
    let mut words = Vec::new(alloc);
    words.push(String::from_str(alloc, "-m")?)?;
    words.push(String::from_str(alloc, "rc")?)?;
    Ok(words)
}
