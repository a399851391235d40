//! Substitution in texts: variables, parameters, the outputs of commands, quotes, and the splitting into words. A text
//! is read token by token from its start. Each token gives bytes, and the bytes make words.
#![tactic(auto)]

mod backquotes;
mod buffer;
mod bytes;
mod expansion;
mod forms;
mod frames;
mod kinds;
mod laws;
mod reading;
mod values;

pub use backquotes::commands;
pub use expansion::{ExpandRefused, expand};
pub use kinds::Mode;
pub use laws::{blanks_part, examples, no_command, plain_stands, single_stands};
pub use values::without_newlines;
