//! Child processes: to start a child, to feed it, to take its output, to wait for it, and to note its run.
#![tactic(auto)]

pub mod child;
pub mod noting;

pub use child::{ChildEnd, Fate, feed_child, run_child};
pub use noting::{SinkFaults, run_noted};
