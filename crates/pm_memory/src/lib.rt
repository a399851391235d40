//! A host in memory for tests: a tree of files, a source and a sink with given contents and faults, which reveal all
//! that they hold and list the calls that were made.
#![tactic(auto)]

mod calls;
mod entries;
mod folders;
pub mod host;
mod hosting;
mod others;
mod part;
mod plan;
mod programs;
mod serving;
pub mod sink;
pub mod source;
mod tree;

pub use host::MemoryHost;
pub use sink::MemorySink;
pub use source::MemorySource;
