//! An rcfile of procmail 3.22 with those forms brought over that can be without asking (procmail-check(1), `--fix`):
//! the changes, the new text, and what is left in it.
#![tactic(auto)]

mod braces;
mod calls;
mod changes;
mod colons;
mod conditions;
mod copies;
mod counts;
mod edits;
mod fed;
mod fixing;
mod laws;
mod locks;
mod mailboxes;
mod moved;
mod numbers;
mod parts;
mod scores;
mod searches;
mod spans;
mod values;

pub use changes::Change;
pub use fixing::{Fix, FixRefused, Outcome, bring_over};
pub use laws::examples;
pub use moved::moves;
