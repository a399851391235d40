//! What another program does to the files meanwhile, and what it sees of them.
use crate::calls::answers::shortened;
use cases::{Refused, Words, number_word, one_word, only_word, text_of};
use std::alloc::Global;
use std::fs;
use std::os::unix::fs::PermissionsExt;

// The bits of a mode that say who may read, write and run a file.
const PERMISSIONS: u32 = 512;

/// What another program does, or None where the verb names nothing of the kind. The mode is told in decimal.
pub fn act(
    rt: &HostRuntime,
    alloc: Global,
    verb: &str,
    arguments: &[Vec<u8>],
) -> Result<Option<Words>, Refused> {
    match arguments {
        [name] => see(rt, alloc, verb, text_of(name)),
        [name, word] => change(rt, alloc, verb, text_of(name), word),
        _ => Ok(None),
    }
}

fn see(rt: &HostRuntime, alloc: Global, verb: &str, name: &str) -> Result<Option<Words>, Refused> {
    match verb {
        "show" => {
            let bytes = fs::read(rt, name)?;
            Ok(Some(only_word(alloc, shortened(alloc, bytes.as_slice())?)?))
        }
        "mode" => {
            let mode = fs::metadata(rt, name)?.permissions().mode() % PERMISSIONS;
            Ok(Some(only_word(alloc, number_word(alloc, u64::from(mode))?)?))
        }
        _ => Ok(None),
    }
}

fn change(
    rt: &HostRuntime,
    alloc: Global,
    verb: &str,
    name: &str,
    word: &[u8],
) -> Result<Option<Words>, Refused> {
    match verb {
        "move" => fs::rename(rt, name, text_of(word))?,
        "write" => fs::write(rt, name, word)?,
        _ => return Ok(None),
    }
    Ok(Some(one_word(alloc, "done")?))
}
