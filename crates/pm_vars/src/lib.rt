//! The variables of a process: names and values in the order of the first assignments, the arguments, and the values of
//! `$$`, `$?`, `$=` and `$_`.
#![tactic(auto)]

mod environment;
mod held;
mod laws;
mod marks;
mod values;
mod vars;

pub use laws::examples;
pub use marks::Marks;
pub use vars::Vars;
