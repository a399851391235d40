//! What is looked through of a cache: its first 2,097,152 bytes.
ghost use Rattle.std.specs.Prelude.{◌≡◌, ◌<◌, ◌≤◌, ◌+◌, [], length, vec_capacity};
ghost use Rattle.formail_extra.specs.Reading.{ReadsCache, MakesRead, IsFew};

use pm_bytes::{Blob, Name};
use pm_host::{Got, Host, Looked};

/// How the reading of a cache ended.
#[derive(Drop)]
pub enum CacheRead {
    /// The bytes of the whole file.
    Whole(Blob),
    /// The first 2,097,152 bytes, after which others may stand.
    Front(Blob),
    Missing,
    Folder,
    Failed,
}

// What one `read` brought.
#[derive(Clone, Copy)]
enum Came {
    More,
    End,
    Failed,
}

/// How many bytes of a cache are looked through.
pub const MOST: usize = 2_097_152;

/// Reads the first 2,097,152 bytes of a file, in parts of at most 4,096, into this room. It takes no memory but that.
pub fn read_front<H: Host>(host: &mut H, name: &Name, mut bytes: Vec<u8>) -> CacheRead
    requires empty { bytes.items ≡ [] }
    requires space { 2097152 ≤ vec_capacity bytes }
    ensures reads { ReadsCache name.now result (H.told host.old) (H.told host.new) }
    ensures few { IsFew result }
{
    match host.look(name.as_str()) {
        Looked::File(_) => {}
        Looked::Folder => return CacheRead::Folder,
        Looked::Nothing => return CacheRead::Missing,
        Looked::Failed => return CacheRead::Failed,
    }
    let mut room = [0u8; 4096];
    while bytes.len() < MOST {
        let most = (MOST - bytes.len()).min(4096);
        match read_more(host, name.as_str(), &mut bytes, &mut room[..most]) {
            Came::More => {}
            Came::End => return CacheRead::Whole(Blob::from_vec(bytes)),
            Came::Failed => return CacheRead::Failed,
        }
    }
    CacheRead::Front(Blob::from_vec(bytes))
}

// One `read`, whose bytes go to the end.
fn read_more<H: Host>(host: &mut H, name: &str, bytes: &mut Vec<u8>, room: &mut [u8]) -> Came
    requires some { 0 < length room.old }
    requires space { length bytes.old.items + length room.old ≤ vec_capacity bytes.old }
    ensures makes { MakesRead name.now (length room.old) bytes.old.items result bytes.new.items
        (H.told host.old) (H.told host.new) }
    ensures space { vec_capacity bytes.old ≤ vec_capacity bytes.new }
{
    let at = bytes.len() as u64;
    match host.read(name, at, room) {
        Got::Failed => Came::Failed,
        Got::Got(0) => Came::End,
        Got::Got(n) => {
            let _ = bytes.extend_from_slice(&room[..n]);
            Came::More
        }
    }
}
