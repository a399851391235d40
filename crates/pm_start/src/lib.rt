//! What a program is started with: its arguments, its environment, the login name and the host's name.
#![tactic(auto)]

mod environment;
mod first;
mod laws;
mod user;
mod words;

pub use environment::{Entries, machine_name, read_entries, read_environment, read_pair};
pub use first::{before_sign, first_line};
pub use laws::examples;
pub use user::login;
pub use words::{Words, read_words, without_first};
