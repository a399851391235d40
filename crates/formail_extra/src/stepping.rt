//! A cache is used under its lock.
ghost use Rattle.std.specs.Prelude.{◌≡◌, ◌≤◌, ◌++◌, [], All, IfOk, IfSome, OnErr, codes, length, vec_capacity};
ghost use Rattle.pm_journal.specs.Locking.{TakesLock};
ghost use Rattle.pm_host.specs.Told.{Tells, Rose};
ghost use Rattle.formail_extra.specs.Cache.{IsShortId};
ghost use Rattle.formail_extra.specs.Room.{HasRoom};
ghost use Rattle.formail_extra.specs.Space.{IsReserved};
ghost use Rattle.formail_extra.specs.Reading.{ReadsCache, IsFew};
ghost use Rattle.formail_extra.specs.Tree.{StepsRight};
ghost use Rattle.formail_extra.specs.Stepping.{cache_at, step_end, cache_rule, end_of, given_back, Remembers, Uses};
ghost use Rattle.formail_extra.specs.Stepping.{UnderLock, Steps};

use crate::adding::{Written, hold_all};
use crate::cache::Kept;
use crate::reading::{CacheRead, read_front};
use crate::room::Room;
use crate::space::{Space, reserve};
use pm_bytes::{Blob, Memory, Name};
use pm_host::{Host, Removed};
use pm_journal::LockEnd;
use pm_locks::take_lock;
use std::alloc::Global;

// The seconds of sleep after a lost try, the age after which a lock file is removed by force, the sleep after that, and
// how many tries there are.
const SLEEP: u64 = 8;

const LIMIT: u64 = 1024;

const SUSPEND: u64 = 16;

const TRIES: u32 = 1000;

/// A cache of identifiers, with the lock file that is held meanwhile.
#[derive(Drop)]
pub struct Cache {
    /// Once it has so many bytes it begins anew.
    pub most: u64,
    pub name: Name,
    pub lock: Name,
}

/// What became of some mails whose identifiers were held against a cache.
#[derive(Drop)]
pub enum CacheEnd {
    /// Of each mail, whether it is kept; what is new was added.
    Kept(Kept),
    /// The lock was held by others all the time.
    Busy,
    /// A directory is at the cache's name.
    IsFolder,
    /// A call failed.
    Failed,
    /// Memory was wanting, and nothing was asked of the host.
    Memory,
    /// Others made a file at the cache's name, although they don't hold its lock.
    Raced,
}

fn ended(written: Written, kept: Kept) -> CacheEnd
    ensures { result ≡ end_of written kept }
{
    match written {
        Written::Done => CacheEnd::Kept(kept),
        Written::IsFolder => CacheEnd::IsFolder,
        Written::Raced => CacheEnd::Raced,
        Written::Failed => CacheEnd::Failed,
    }
}

// The mails are held against these bytes of the cache, and what is new is added.
fn remember<H: Host>(
    host: &mut H,
    cache: &Cache,
    old: &[u8],
    ids: &[Option<Blob>],
    room: Room,
) -> CacheEnd
    requires few { length old.now ≤ 2097152 }
    requires room { HasRoom 2097152 ids.now room }
    ensures remembers { Remembers cache.now old.now ids.now result (H.told host.old) (H.told host.new) }
    ensures child { (H.told host.new).child ≡ (H.told host.old).child }
{
    let Room {
        mut known,
        mut kept,
    } = room;
    known.fill(old);
    let written = hold_all(host, cache, &mut known, &mut kept, ids);
    ended(written, Kept::from_vec(kept))
}

fn read_cache<H: Host>(host: &mut H, name: &Name, bytes: Vec<u8>) -> CacheRead
    requires empty { bytes.items ≡ [] }
    requires space { 2097152 ≤ vec_capacity bytes }
    ensures reads { ReadsCache name.now result (H.told host.old) (H.told host.new) }
    ensures few { IsFew result }
    ensures child { (H.told host.new).child ≡ (H.told host.old).child }
{
    read_front(host, name, bytes)
}

// The cache is read, and written where something is new.
fn use_cache<H: Host>(host: &mut H, cache: &Cache, ids: &[Option<Blob>], space: Space) -> CacheEnd
    requires { IsReserved ids.now space }
    ensures uses { Uses cache.now ids.now result (H.told host.old) (H.told host.new) }
    ensures child { (H.told host.new).child ≡ (H.told host.old).child }
{
    let Space { read, marking } = space;
    match read_cache(host, &cache.name, read) {
        CacheRead::Whole(bytes) => remember(host, cache, bytes.as_slice(), ids, marking),
        CacheRead::Front(bytes) => remember(host, cache, bytes.as_slice(), ids, marking),
        CacheRead::Missing => remember(host, cache, b"", ids, marking),
        CacheRead::Folder => CacheEnd::IsFolder,
        CacheRead::Failed => CacheEnd::Failed,
    }
}

fn after_giving(removed: Removed, end: CacheEnd) -> CacheEnd
    ensures { result ≡ given_back removed end }
{
    match removed {
        Removed::Failed => CacheEnd::Failed,
        Removed::Removed => end,
        Removed::Absent => end,
    }
}

// The lock, which is held, is given back whatever comes of the cache.
fn under_lock<H: Host>(host: &mut H, cache: &Cache, ids: &[Option<Blob>], space: Space) -> CacheEnd
    requires { IsReserved ids.now space }
    ensures under { UnderLock cache.now ids.now result (H.told host.old) (H.told host.new) }
    ensures child { (H.told host.new).child ≡ (H.told host.old).child }
{
    let used = use_cache(host, cache, ids, space);
    let removed = host.remove(cache.lock.as_str());
    after_giving(removed, used)
}

fn take<H: Host>(host: &mut H, lock: &Name) -> LockEnd
    ensures takes { TakesLock cache_rule lock.now result (H.told host.old) (H.told host.new) }
    ensures child { (H.told host.new).child ≡ (H.told host.old).child }
{
    take_lock(host, lock, SLEEP, LIMIT, SUSPEND, TRIES)
}

// The lock is taken, and the cache is used under it.
fn step<H: Host>(host: &mut H, cache: &Cache, ids: &[Option<Blob>], space: Space) -> CacheEnd
    requires { IsReserved ids.now space }
    ensures steps { Steps cache.now ids.now result (H.told host.old) (H.told host.new) }
    ensures child { (H.told host.new).child ≡ (H.told host.old).child }
{
    match take(host, &cache.lock) {
        LockEnd::Held { .. } => under_lock(host, cache, ids, space),
        LockEnd::Busy => CacheEnd::Busy,
        LockEnd::Failed => CacheEnd::Failed,
    }
}

// The name of a cache's lock file.
fn lock_of(alloc: Global, name: &Name) -> Result<Name, Memory>
    ensures { IfOk result (λ lock. lock ≡ name.now ++ codes ".lock") }
{
    let mut text = String::from_str(alloc, name.as_str())?;
    text.push_str(".lock")?;
    Ok(Name::from_text(text))
}

fn cache_of(alloc: Global, name: &Name, most: u64) -> Result<Cache, Memory>
    ensures { IfOk result (λ cache. cache ≡ cache_at name.now most) }
{
    let lock = lock_of(alloc, name)?;
    let name = name.copy(alloc)?;
    Ok(Cache { most, name, lock })
}

// All memory is taken, and then the step is made.
fn try_step<H: Host>(
    alloc: Global,
    host: &mut H,
    name: &Name,
    most: u64,
    ids: &[Option<Blob>],
) -> Result<CacheEnd, Memory>
    ensures ok { IfOk result (λ end. Steps (cache_at name.now most) ids.now end (H.told host.old) (H.told host.new)) }
    ensures err { OnErr result (H.told host.new ≡ H.told host.old) }
    ensures child { (H.told host.new).child ≡ (H.told host.old).child }
{
    let cache = cache_of(alloc, name, most)?;
    let space = reserve(alloc, ids)?;
    let end = step(host, &cache, ids, space);
    Ok(end)
}

/// Takes the lock of a cache, which is its name and `.lock`, holds the identifiers of some mails against the cache,
/// adds those that are new, each by an append of its own that is synced to disk, and gives the lock back (formail(1),
/// option -D). A cache that has `maxlen` bytes is emptied before one is added. All memory is taken before the lock.
pub fn cache_step<H: Host>(
    alloc: Global,
    host: &mut H,
    name: &Name,
    maxlen: u64,
    ids: &[Option<Blob>],
) -> CacheEnd
    requires most { maxlen ≤ 1048576 }
    requires ids { All IsShortId ids.now }
    ensures steps { IfSome (step_end result)
        (λ end. Steps (cache_at name.now maxlen) ids.now end (H.told host.old) (H.told host.new)) }
    ensures tree { IfSome (step_end result)
        (λ end. Tells (StepsRight (cache_at name.now maxlen) ids.now end) (H.told host.old).world
        (H.told host.new).world) }
    ensures failed { result ≡ CacheEnd.Failed → Rose (H.told host.old).faults (H.told host.new).faults }
    ensures memory { result ≡ CacheEnd.Memory → H.told host.new ≡ H.told host.old }
    ensures child { (H.told host.new).child ≡ (H.told host.old).child }
{
    match try_step(alloc, host, name, maxlen, ids) {
        Ok(end) => end,
        Err(Memory) => CacheEnd::Memory,
    }
}
