//! The acts of a run, done by a host and two sinks: each makes the calls of its protocol, and notes them as one entry.
#![tactic(auto)]

pub mod objects;
pub mod output;

pub use objects::{Objects, lend};
pub use output::{Output, Untouched};
