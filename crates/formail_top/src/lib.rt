//! The program formail: its arguments, what it reads, what it writes, and its exit status.
#![tactic(auto)]

mod feeding;
mod filtering;
mod fronts;
mod laws;
mod options;
mod outputs;
mod request;
mod settings;
mod words;

pub use filtering::formail;
pub use laws::{examples, failures_have_calls, outputs_are_mails};
pub use request::Request;
pub use settings::{Cache, Setting, Waits};
