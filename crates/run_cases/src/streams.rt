//! What a program reads and writes in memory.
use cases::Refused;
use pm_memory::{MemorySink, MemorySource};
use std::alloc::Global;

/// The mail that is read, and what standard output and standard error take.
#[derive(Drop)]
pub struct Streams {
    pub source: MemorySource,
    pub out: MemorySink,
    pub err: MemorySink,
}

/// Which read of the mail fails, and which write to each sink, from 1.
#[derive(Clone, Copy)]
pub struct Lost {
    pub mail: Option<u64>,
    pub out: Option<u64>,
    pub err: Option<u64>,
}

impl Streams {
    /// The streams of a program that gets this mail.
    pub fn new(alloc: Global, mail: &[u8], lost: Lost) -> Result<Streams, Refused> {
        let source = MemorySource::new(alloc, mail, lost.mail)?;
        let out = MemorySink::new(alloc, lost.out)?;
        let err = MemorySink::new(alloc, lost.err)?;
        Ok(Streams { source, out, err })
    }
}
