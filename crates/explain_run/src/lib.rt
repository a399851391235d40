//! Runs that start programs. A run is repeated, each time with one program more that is started: that of a condition, a
//! command in backquotes, or a filter, as the journal and the notes of the run before tell. The programs that were
//! started before are answered as they ended then. In the lines of such a run they are no more marked as not started.
#![tactic(auto)]

mod captures;
mod heard;
mod hosting;
mod laws;
mod lines;
mod past;
mod playing;
mod programs;
mod script;
mod starting;
mod stepping;

pub use laws::{condition_law, examples, line_examples, start_law};
pub use lines::with_started;
pub use script::{Script, started_after, was_started};
pub use starting::next_start;
pub use stepping::Stepping;
