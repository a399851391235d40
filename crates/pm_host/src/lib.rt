//! The interface to the operating system: the calls of a host with their answers, the traits that say what each call
//! does, and what a host and a stream reveal in contracts.
#![tactic(auto)]

pub mod answers;
pub mod calls;
pub mod command;
pub mod host;
mod laws;
pub mod nodes;
pub mod streams;

pub use answers::{
    Aged, Child, Cut, Fed, Finished, Got, Listed, Looked, Made, Moved, Removed, Started, Synced,
    Took,
};
pub use calls::{Answer, Call, Logged};
pub use command::{ChildInput, Command, Script};
pub use host::Host;
pub use laws::examples;
pub use nodes::{Change, File, Node};
pub use streams::{Sink, Source};
