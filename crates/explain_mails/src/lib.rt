//! What the mails of a mailbox come to: a line each, which of them go elsewhere by another rcfile, and the same as JSON
//! (RFC 8259), one object on a line.
#![tactic(auto)]

mod columns;
mod laws;
mod lines;
mod mails;
mod members;
mod names;
mod outcome;
mod recipes;
mod report;
mod runs;
mod subject;
mod words;

pub use laws::{begin_alike, examples, object_examples};
pub use lines::{mail_heading, mail_line};
pub use mails::{comparison_object, mail_object, outcome_object};
pub use names::destination_names;
pub use outcome::{Compared, Outcome, goes_elsewhere};
pub use report::{comparison, count_moved};
pub use runs::run_object;
pub use subject::subject_of;
pub use words::{words_of, words_with};
