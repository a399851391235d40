//! Identifiers are added to a cache, one after the other.
ghost use Rattle.std.specs.Prelude.{◌≡◌, ◌≤◌, ◌+◌, ◌++◌, [], length, sum_by, vec_capacity};
ghost use Rattle.formail_extra.specs.Cache.{addition_to, is_kept, next_of, cache_after, marks_of};
ghost use Rattle.formail_extra.specs.Room.{space_for};
ghost use Rattle.formail_extra.specs.Adding.{written_of, Adds, BeginsAgain, AddsId, Holds, HoldsAll};

use crate::known::Known;
use crate::stepping::Cache;
use pm_append::{AppendEnd, append_whole};
use pm_bytes::{Blob, Name};
use pm_host::{Cut, Host};

/// How the addition to a cache ended.
#[derive(Clone, Copy)]
pub enum Written {
    Done,
    /// A directory is at the cache's name.
    IsFolder,
    /// Others made the file meanwhile.
    Raced,
    /// A call failed.
    Failed,
}

fn how_ended(end: AppendEnd) -> Written
    ensures { result ≡ written_of end }
{
    match end {
        AppendEnd::Done => Written::Done,
        AppendEnd::Undone => Written::Failed,
        AppendEnd::Torn(_) => Written::Failed,
        AppendEnd::IsFolder => Written::IsFolder,
        AppendEnd::Raced => Written::Raced,
    }
}

fn add<H: Host>(host: &mut H, name: &Name, piece: &[u8]) -> Written
    ensures adds { Adds name.now piece.now result (H.told host.old) (H.told host.new) }
    ensures child { (H.told host.new).child ≡ (H.told host.old).child }
{
    how_ended(append_whole(host, name, piece))
}

// Adds the line of an identifier to a cache, and to what is known of it.
fn add_line<H: Host>(host: &mut H, name: &Name, known: &mut Known, id: &[u8]) -> Written
    requires { length known.old.bytes.items + (length id.now + 2) ≤ vec_capacity known.old.bytes }
    ensures adds { Adds name.now (addition_to known.old.bytes.items id.now) result (H.told host.old) (H.told host.new) }
    ensures bytes { known.new.bytes.items ≡ known.old.bytes.items ++ addition_to known.old.bytes.items id.now }
    ensures few { length known.new.bytes.items ≤ length known.old.bytes.items + (length id.now + 2) }
    ensures space { vec_capacity known.old.bytes ≤ vec_capacity known.new.bytes }
    ensures child { (H.told host.new).child ≡ (H.told host.old).child }
{
    let at = known.bytes.len();
    known.put_line(id);
    let (_, line) = known.bytes.as_slice().split_at(at);
    add(host, name, line)
}

// Cuts a full cache to nothing, and adds the line of an identifier; what is known of it is that line then.
fn begin_again<H: Host>(host: &mut H, name: &Name, known: &mut Known, id: &[u8]) -> Written
    requires { length known.old.bytes.items + (length id.now + 2) ≤ vec_capacity known.old.bytes }
    ensures begins { BeginsAgain name.now id.now result (H.told host.old) (H.told host.new) }
    ensures bytes { result ≡ Written.Done → known.new.bytes.items ≡ addition_to [] id.now }
    ensures few { length known.new.bytes.items ≤ length known.old.bytes.items + (length id.now + 2) }
    ensures space { vec_capacity known.old.bytes ≤ vec_capacity known.new.bytes }
    ensures child { (H.told host.new).child ≡ (H.told host.old).child }
{
    match host.cut(name.as_str(), 0) {
        Cut::Failed => Written::Failed,
        Cut::Cut => {
            known.clear();
            add_line(host, name, known, id)
        }
    }
}

// Adds a new identifier to a cache, and to what is known of it; a cache that has `most` of them begins again.
fn add_id<H: Host>(host: &mut H, cache: &Cache, known: &mut Known, id: &[u8]) -> Written
    requires { length known.old.bytes.items + (length id.now + 2) ≤ vec_capacity known.old.bytes }
    ensures adds { AddsId cache.now.name cache.now.most known.old.bytes.items id.now result
        (H.told host.old) (H.told host.new) }
    ensures bytes { result ≡ Written.Done
        → known.new.bytes.items ≡ next_of cache.now.most known.old.bytes.items id.now }
    ensures few { length known.new.bytes.items ≤ length known.old.bytes.items + (length id.now + 2) }
    ensures space { vec_capacity known.old.bytes ≤ vec_capacity known.new.bytes }
    ensures child { (H.told host.new).child ≡ (H.told host.old).child }
{
    if cache.most <= known.bytes.len() as u64 {
        return begin_again(host, &cache.name, known, id);
    }
    add_line(host, &cache.name, known, id)
}

// What is asked for one mail, of which it is known whether it is kept.
fn hold<H: Host>(
    host: &mut H,
    cache: &Cache,
    known: &mut Known,
    id: &Option<Blob>,
    keep: bool,
) -> Written
    requires keep { keep ≡ is_kept known.old.bytes.items id.now }
    requires space { length known.old.bytes.items + space_for id.now ≤ vec_capacity known.old.bytes }
    ensures holds { Holds cache.now.name cache.now.most known.old.bytes.items id.now result
        (H.told host.old) (H.told host.new) }
    ensures bytes { result ≡ Written.Done
        → known.new.bytes.items ≡ cache_after cache.now.most known.old.bytes.items id.now }
    ensures few { length known.new.bytes.items ≤ length known.old.bytes.items + space_for id.now }
    ensures space { vec_capacity known.old.bytes ≤ vec_capacity known.new.bytes }
    ensures child { (H.told host.new).child ≡ (H.told host.old).child }
{
    let Some(id) = id else {
        return Written::Done;
    };
    if !keep {
        return Written::Done;
    }
    add_id(host, cache, known, id.as_slice())
}

/// Holds the identifiers of some mails against what is known of a cache, each against those before it too, and adds
/// those that are new, each by an append with its sync. What it finds of the mails is added to `kept`. It takes no
/// memory but what is reserved.
pub fn hold_all<H: Host>(
    host: &mut H,
    cache: &Cache,
    known: &mut Known,
    kept: &mut Vec<bool>,
    ids: &[Option<Blob>],
) -> Written
    requires space { length known.old.bytes.items + sum_by space_for ids.now ≤ vec_capacity known.old.bytes }
    requires places { length kept.old.items + length ids.now ≤ vec_capacity kept.old }
    ensures holds { HoldsAll cache.now.name cache.now.most known.old.bytes.items ids.now result
        (H.told host.old) (H.told host.new) }
    ensures kept { result ≡ Written.Done
        → kept.new.items ≡ kept.old.items ++ (marks_of cache.now.most known.old.bytes.items ids.now).kept }
    ensures child { (H.told host.new).child ≡ (H.told host.old).child }
{
    for id in ids {
        let keep = known.keeps(id);
        kept.push_reserved(keep);
        match hold(host, cache, known, id, keep) {
            Written::Done => {}
            stop => return stop,
        }
    }
    Written::Done
}
