//! Names of files relative to a directory, and places in texts.
ghost use Rattle.std.specs.Prelude.{◌≡◌, IfOk, string_bytes};
ghost use Rattle.pm_bytes.specs.Path.{full_name};

use memchr::memrchr;
use std::alloc::{AllocError, Global};

/// The name as it is from the working directory; an absolute one is used as it is.
pub fn below(alloc: Global, directory: &str, name: &str) -> Result<String, AllocError>
    ensures { IfOk result (λ full. string_bytes full ≡ full_name directory.now name.now) }
{
    if name.as_bytes().starts_with(b"/") || directory == "." {
        return String::from_str(alloc, name);
    }
    let mut full = String::from_str(alloc, directory)?;
    if !directory.as_bytes().ends_with(b"/") {
        full.push_str("/")?;
    }
    full.push_str(name)?;
    Ok(full)
}

/// Whether it begins at the root.
pub fn is_absolute(name: &str) -> bool {
    name.as_bytes().starts_with(b"/")
}

/// The column of a place in a text, in bytes from 1.
pub fn column_of(text: &[u8], place: usize) -> u64 {
    let before = match text.get(..place) {
        Some(before) => before,
        None => text,
    };
    let start = match memrchr(b'\n', before) {
        Some(newline) => newline + 1,
        None => 0,
    };
    ((before.len() - start) as u64).saturating_add(1)
}
