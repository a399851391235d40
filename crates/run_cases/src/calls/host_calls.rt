//! One call of the real host, and its answer.
ghost use Rattle.std.specs.Prelude.{◌<◌, IfOk, vec_len};

use crate::calls::answers::{aged, cut, got, listed, looked, made, moved, removed, synced, took};
use cases::{Refused, Words, one_number, one_word, read_i64, read_u64, read_usize, text_of};
use pm_host::Host;
use pm_real::RealHost;
use std::alloc::Global;

const NO_CALL: Refused = Refused::Misread("no such call");

// The largest room that a call may ask for.
const LARGEST_ROOM: usize = 1_048_577;

/// The answer to the call that the words name.
pub fn answer(
    alloc: Global,
    host: &mut RealHost<HostRuntime>,
    verb: &str,
    arguments: &[Vec<u8>],
) -> Result<Words, Refused> {
    match arguments {
        [] => plain(alloc, host, verb),
        [name] => of_name(alloc, host, verb, text_of(name)),
        [name, word] => of_two(alloc, host, verb, text_of(name), word),
        [name, first, second] => of_three(alloc, host, verb, text_of(name), first, second),
        _ => Err(NO_CALL),
    }
}

// A second of sleep moves the moment on.
fn plain(alloc: Global, host: &mut RealHost<HostRuntime>, verb: &str) -> Result<Words, Refused> {
    match verb {
        "faults" => Ok(one_number(alloc, host.faults())?),
        "sleep" => {
            let before = host.now();
            host.sleep(1);
            let later = if before < host.now() { "slept" } else { "woke" };
            Ok(one_word(alloc, later)?)
        }
        _ => Err(NO_CALL),
    }
}

fn of_name(
    alloc: Global,
    host: &mut RealHost<HostRuntime>,
    verb: &str,
    name: &str,
) -> Result<Words, Refused> {
    let answer = match verb {
        "look" => return Ok(looked(alloc, host.look(name))?),
        "names" => return Ok(listed(alloc, host.names(alloc, name))?),
        "now" => if host.now() < read_i64(name.as_bytes())? {
            "earlier"
        } else {
            "later"
        },
        "create" => made(host.create(name)),
        "make-folder" => made(host.make_folder(name)),
        "sync" => synced(host.sync(name)),
        "remove" => removed(host.remove(name)),
        _ => return Err(NO_CALL),
    };
    Ok(one_word(alloc, answer)?)
}

fn of_two(
    alloc: Global,
    host: &mut RealHost<HostRuntime>,
    verb: &str,
    name: &str,
    word: &[u8],
) -> Result<Words, Refused> {
    match verb {
        "append" if !word.is_empty() => Ok(took(alloc, host.append(name, word))?),
        "cut" => Ok(one_word(alloc, cut(host.cut(name, read_u64(word)?)))?),
        "rename" => Ok(one_word(alloc, moved(host.rename(name, text_of(word))))?),
        _ => Err(NO_CALL),
    }
}

fn of_three(
    alloc: Global,
    host: &mut RealHost<HostRuntime>,
    verb: &str,
    name: &str,
    first: &[u8],
    second: &[u8],
) -> Result<Words, Refused> {
    match verb {
        "read" => {
            let mut room = room_of(alloc, read_usize(second)?)?;
            let answer = host.read(name, read_u64(first)?, room.as_mut_slice());
            Ok(got(alloc, answer, room.as_slice())?)
        }
        "age" => {
            let answer = host.age(name);
            Ok(aged(alloc, answer, read_u64(first)?, read_u64(second)?)?)
        }
        _ => Err(NO_CALL),
    }
}

// A room of so many bytes, at least one.
fn room_of(alloc: Global, size: usize) -> Result<Vec<u8>, Refused>
    ensures { IfOk result (λ room. 0 < vec_len room) }
{
    if size == 0 || size > LARGEST_ROOM {
        return Err(Refused::Misread("a room has from 1 to 1048577 bytes"));
    }
    Ok(vec![in alloc; 0u8; size]?)
}
