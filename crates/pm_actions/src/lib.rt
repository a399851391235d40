//! The actions of recipes and the default mailboxes over the parts of a run: the state of its process, its host and its
//! sinks.
#![tactic(auto)]

mod performed;
mod performing;
mod work;

pub use performed::Performed;
pub use performing::{deliver_default, perform};
pub use pm_meaning::Cause;
