//! Regular expressions of recipes: the macros, the grammar and its reader.
#![tactic(auto)]

mod error;
mod expr;
mod found;
mod group;
mod laws;
mod macros;
mod op;
mod reader;
mod reading;
mod set;
mod sign;

pub use error::ReadRefused;
pub use expr::Expr;
pub use found::Found;
pub use laws::{examples, match_examples};
pub use op::{Atom, Op, Times};
pub use reading::{one_reading, read};
