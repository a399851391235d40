//! The host and the sinks of a run, lent for its acts.
ghost use Rattle.std.specs.Prelude.{◌≡◌, IfOk};
ghost use Rattle.pm_journal.specs.Appending.{append_reply};
ghost use Rattle.pm_journal.specs.Entries.{counts_of, view_of, unlock_reply};
ghost use Rattle.pm_journal.specs.Locking.{lock_reply};
ghost use Rattle.pm_journal.specs.Contents.{read_reply, content_of};
ghost use Rattle.pm_journal.specs.Sayings.{say_reply};
ghost use Rattle.pm_journal.specs.Outcomes.{folder_end};
ghost use Rattle.pm_folders.specs.Filing.{place_reply};
ghost use Rattle.pm_pipe.specs.Replied.{AreReply};

use crate::output::Output;
use pm_append::{AppendEnd, ReadEnd, WriteEnd, append_by, read_file, write_text};
use pm_bytes::{Blob, Memory, Name};
use pm_folders::{PlaceEnd, place};
use pm_host::{Command, Host, Looked, Removed, Sink};
use pm_journal::{
    Act, AllEntries, Asks, Counts, Effects, Entries, Entry, Filing, FolderEnd, Journal, LockEnd,
    LockRule, Reply, RunEnd,
};
use pm_locks::take_lock;
use pm_pipe::{SinkFaults, run_noted};
use std::alloc::Global;
use std::marker::PhantomData;

/// A host, what a run has for its standard output, and the sink for errors. The acts are noted in a journal that keeps
/// `K` of its entries.
#[derive(Drop)]
pub struct Objects<'a, H: Host, O: Output, E: Sink, K: Entries = AllEntries> {
    pub host: &'a mut H,
    pub out: O,
    pub err: &'a mut E,
    pub kept: PhantomData<K>,
}

/// Lends a host and two sinks to the acts of a run. The caller gets the three objects back.
pub fn lend<'a, H: Host, O: Sink, E: Sink, K: Entries>(
    host: &'a mut H,
    out: &'a mut O,
    err: &'a mut E,
) -> Objects<'a, H, &'a mut O, E, K>
    ensures host { (result.host.ghost_name ≡ host.entry.ghost_name) × (result.host.now ≡ host.old) }
    ensures out { (result.out.ghost_name ≡ out.entry.ghost_name) × (result.out.now ≡ out.old) }
    ensures err { (result.err.ghost_name ≡ err.entry.ghost_name) × (result.err.now ≡ err.old) }
{
    Objects {
        host,
        out,
        err,
        kept: PhantomData,
    }
}

impl<'a, H: Host, O: Output, E: Sink, K: Entries> Objects<'a, H, O, E, K> {
    // The counts of faults at this moment.
    fn counts(&self) -> Counts
        ensures { result ≡ counts_of (view_of
            (H.told self.now.host.now) (O.told self.now.out) (E.told self.now.err.now)) }
    {
        Counts {
            host: self.host.faults(),
            out: self.out.faults(),
            err: self.err.faults(),
        }
    }
}

impl<'a, H: Host, O: Output, E: Sink, K: Entries> Asks for Objects<'a, H, O, E, K> {
    type Kept = K;

    ghost use Rattle.std.specs.Prelude.{[], ◌∷◌};
    ghost use Rattle.pm_journal.specs.Entries.{seen_by};

    ghost told = { λ o. seen_by (o.host.ghost_name ∷ O.held o.out ∷ o.err.ghost_name ∷ [])
        (H.told o.host.now) (O.told o.out) (E.told o.err.now) };

    fn say(&mut self, journal: &mut Journal<K>, to: Option<Name>, text: Blob) {
        let before = self.counts();
        match to {
            Some(name) => {
                let end = append_by(&mut *self.host, &name, text.as_slice(), false);
                let after = self.counts();
                journal.note(Entry {
                    act: Act::SayFile { name, text },
                    reply: append_reply_of(end),
                    before,
                    after,
                });
            }
            None => {
                let end = write_text(&mut *self.err, text.as_slice());
                let after = self.counts();
                journal.note(Entry {
                    act: Act::SayErr { text },
                    reply: say_reply_of(end),
                    before,
                    after,
                });
            }
        }
    }

    fn run(
        &mut self,
        alloc: Global,
        journal: &mut Journal<K>,
        command: Command,
        input: Blob,
        want: bool,
    ) -> Result<RunEnd, Memory> {
        let sinks = SinkFaults {
            out: self.out.faults(),
            err: self.err.faults(),
        };
        run_noted(alloc, &mut *self.host, journal, command, input, want, sinks)
    }
}

impl<'a, H: Host, O: Output, E: Sink, K: Entries> Effects for Objects<'a, H, O, E, K> {
    fn append(&mut self, journal: &mut Journal<K>, name: Name, piece: Blob) -> AppendEnd {
        let before = self.counts();
        let end = append_by(&mut *self.host, &name, piece.as_slice(), true);
        let after = self.counts();
        journal.note(Entry {
            act: Act::Append { name, piece },
            reply: append_reply_of(end),
            before,
            after,
        });
        end
    }

    fn place(
        &mut self,
        alloc: Global,
        journal: &mut Journal<K>,
        filing: Filing,
    ) -> Result<FolderEnd, Memory> {
        let before = self.counts();
        let Filing {
            kind,
            folder,
            prefix,
            piece,
            stamp,
        } = filing;
        let end = place(
            alloc,
            &mut *self.host,
            kind,
            &folder,
            &prefix,
            piece.as_slice(),
            &stamp,
        );
        let reply = place_reply_of(end)?;
        let end = folder_end_of(&reply);
        let after = self.counts();
        journal.note(Entry {
            act: Act::Place {
                kind,
                folder,
                prefix,
                piece,
                stamp,
            },
            reply,
            before,
            after,
        });
        Ok(end)
    }

    fn write_out(&mut self, journal: &mut Journal<K>, piece: Blob) -> WriteEnd {
        let before = self.counts();
        let end = self.out.write_text(piece.as_slice());
        let after = self.counts();
        journal.note(Entry {
            act: Act::WriteOut { piece },
            reply: say_reply_of(end),
            before,
            after,
        });
        end
    }

    fn read(
        &mut self,
        alloc: Global,
        journal: &mut Journal<K>,
        name: Name,
    ) -> Result<Option<Blob>, Memory> {
        let before = self.counts();
        let end = read_file(alloc, &mut *self.host, &name)?;
        let content = content(alloc, &end)?;
        let after = self.counts();
        journal.note(Entry {
            act: Act::ReadFile { name },
            reply: read_reply_of(end),
            before,
            after,
        });
        Ok(content)
    }

    fn probe(&mut self, journal: &mut Journal<K>, name: Name) -> Looked {
        let before = self.counts();
        let looked = self.host.look(name.as_str());
        let after = self.counts();
        journal.note(Entry {
            act: Act::Probe { name },
            reply: Reply::Found(looked),
            before,
            after,
        });
        looked
    }

    fn moment(&mut self, journal: &mut Journal<K>) -> i64 {
        let before = self.counts();
        let moment = self.host.now();
        let after = self.counts();
        journal.note(Entry {
            act: Act::Moment,
            reply: Reply::Now(moment),
            before,
            after,
        });
        moment
    }

    fn lock(&mut self, journal: &mut Journal<K>, name: Name, rule: LockRule) -> LockEnd {
        let before = self.counts();
        let end = take_lock(
            &mut *self.host,
            &name,
            rule.sleep,
            rule.limit,
            rule.suspend,
            rule.tries,
        );
        let after = self.counts();
        journal.note(Entry {
            act: Act::Lock {
                name,
                sleep: rule.sleep,
                limit: rule.limit,
                suspend: rule.suspend,
                tries: rule.tries,
            },
            reply: lock_reply_of(end),
            before,
            after,
        });
        end
    }

    fn unlock(&mut self, journal: &mut Journal<K>, name: Name) -> Removed {
        let before = self.counts();
        let removed = self.host.remove(name.as_str());
        let after = self.counts();
        journal.note(Entry {
            act: Act::Unlock { name },
            reply: unlock_reply_of(removed),
            before,
            after,
        });
        removed
    }
}

// The bytes of a file that was read.
fn content(alloc: Global, end: &ReadEnd) -> Result<Option<Blob>, Memory>
    ensures { IfOk result (λ content. content ≡ content_of (read_reply end.now)) }
{
    match end {
        ReadEnd::Content(bytes) => Ok(Some(bytes.copy(alloc)?)),
        _ => Ok(None),
    }
}

fn append_reply_of(end: AppendEnd) -> Reply
    ensures { result ≡ append_reply end }
{
    match end {
        AppendEnd::Done => Reply::Done,
        AppendEnd::Undone => Reply::Undone,
        AppendEnd::Torn(taken) => Reply::Torn(taken),
        AppendEnd::IsFolder => Reply::IsFolder,
        AppendEnd::Raced => Reply::Raced,
    }
}

fn say_reply_of(end: WriteEnd) -> Reply
    ensures { result ≡ say_reply end }
{
    match end {
        WriteEnd::Wrote => Reply::Wrote,
        WriteEnd::Short(taken) => Reply::Short(taken),
    }
}

fn read_reply_of(end: ReadEnd) -> Reply
    ensures { result ≡ read_reply end }
{
    match end {
        ReadEnd::Content(bytes) => Reply::Content(bytes),
        ReadEnd::Missing => Reply::Missing,
        ReadEnd::NotPlain => Reply::NotPlain,
        ReadEnd::TooLong(count) => Reply::TooLong(count),
        ReadEnd::Faulted => Reply::Faulted,
    }
}

fn lock_reply_of(end: LockEnd) -> Reply
    ensures { result ≡ lock_reply end }
{
    match end {
        LockEnd::Held { sleeps, forced } => Reply::Held { sleeps, forced },
        LockEnd::Busy => Reply::Busy,
        LockEnd::Failed => Reply::Faulted,
    }
}

fn unlock_reply_of(removed: Removed) -> Reply
    ensures { result ≡ unlock_reply removed }
{
    match removed {
        Removed::Removed => Reply::Removed,
        Removed::Absent => Reply::Gone,
        Removed::Failed => Reply::Faulted,
    }
}

// The reply of a delivery to a folder, unless memory was wanting.
fn place_reply_of(end: PlaceEnd) -> Result<Reply, Memory>
    ensures { AreReply (place_reply end) result }
{
    match end {
        PlaceEnd::Done { name } => Ok(Reply::Placed(name)),
        PlaceEnd::Undone => Ok(Reply::Undone),
        PlaceEnd::Torn { name, taken } => Ok(Reply::TornAt { name, taken }),
        PlaceEnd::NamesOut => Ok(Reply::NamesOut),
        PlaceEnd::Memory => Err(Memory),
    }
}

fn folder_end_of(reply: &Reply) -> FolderEnd
    ensures { result ≡ folder_end reply.now }
{
    match reply {
        Reply::Placed(_) => FolderEnd::Placed,
        Reply::TornAt { taken, .. } => FolderEnd::Torn(*taken),
        Reply::NamesOut => FolderEnd::NamesOut,
        _ => FolderEnd::Undone,
    }
}
