//! The replies of acts on files and sinks, by how their protocols ended.
ghost use Rattle.std.specs.Prelude.{◌≡◌};
ghost use Rattle.pm_journal.specs.Appending.{append_reply};
ghost use Rattle.pm_journal.specs.Sayings.{say_reply};

use crate::{AppendEnd, WriteEnd};
use pm_journal::Reply;

/// The reply of an append.
pub fn append_reply_of(end: AppendEnd) -> Reply
    ensures { result ≡ append_reply end }
{
    match end {
        AppendEnd::Done => Reply::Done,
        AppendEnd::Undone => Reply::Undone,
        AppendEnd::Torn(taken) => Reply::Torn(taken),
        AppendEnd::IsFolder => Reply::IsFolder,
        AppendEnd::Raced => Reply::Raced,
    }
}

/// The reply of a text for a sink.
pub fn say_reply_of(end: WriteEnd) -> Reply
    ensures { result ≡ say_reply end }
{
    match end {
        WriteEnd::Wrote => Reply::Wrote,
        WriteEnd::Short(taken) => Reply::Short(taken),
    }
}
