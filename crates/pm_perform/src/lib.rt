//! The actions of recipes: to expand texts, to check destinations, to deliver to files, directories, programs or
//! standard output, and to log the result.
#![tactic(auto)]

pub mod attempting;
pub mod delivering;
pub mod ends;
pub mod errands;
pub mod fallback;
pub mod filing;
pub mod filtering;
pub mod job;
pub mod kept;
pub mod laws;
pub mod lock_texts;
pub mod locks;
pub mod outcomes;
pub mod pipes;
pub mod placing;
pub mod refusing;
pub mod saying;
pub mod target;
pub mod tasks;
pub mod trying;

pub use attempting::is_stuck;
pub use delivering::{deliver_default, perform, refuse};
pub use fallback::{default_mailboxes, fall_back, is_delivered};
pub use locks::lock_rule;
