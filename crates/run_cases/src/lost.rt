//! What is wanted of a run where a write to `err` is lost.
use cases::{Told, key_of, word_of};
use pm_bytes::Memory;
use std::alloc::Global;

/// What is wanted where the write to `err` with this number, from 1, is lost besides: its entry says that
/// nothing of the text was taken, and a last line without an entry isn't there.
pub fn with_lost(alloc: Global, wanted: &Told, lost: u64) -> Result<Told, Memory> {
    let mut changed = Told::new(alloc);
    let mut written = 0u64;
    for line in wanted.lines() {
        let key = key_of(line);
        if key == "says" || key == "last" {
            written = written.saturating_add(1);
            if written == lost {
                if key == "says" {
                    changed.tell(line)?;
                    changed.add(&word_of(alloc, "Short(0)")?)?;
                }
                continue;
            }
        }
        changed.tell(line)?;
    }
    Ok(changed)
}
