//! A host for trying a run: it reads what is there and keeps what the run changes in memory. Programs aren't started:
//! they have given answers.
#![tactic(auto)]

mod answers;
mod base;
mod changed;
mod finding;
mod hosting;
mod listing;
mod moment;
mod overlay;
mod part;
mod programs;
mod tool;
mod tree;
mod void;

pub use answers::{has_answer, is_answered};
pub use base::{Base, ReadOnly};
pub use overlay::Overlay;
pub use programs::{Given, line_of};
pub use tool::{Tool, tool_of};
pub use void::Void;
