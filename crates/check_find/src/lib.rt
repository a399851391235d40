//! What is wrong in an rcfile, by its text alone, as lines, as JSON and as SARIF 2.1.0: each line that procmail skips,
//! each condition that it can't read, and the commonest mistakes that it doesn't log.
#![tactic(auto)]

mod actions;
mod codes;
mod conditions;
mod defects;
mod finding;
mod forms;
mod hints;
mod json;
mod judged;
mod laws;
mod line;
mod messages;
mod mistakes;
mod notices;
mod reports;
mod rules;
mod sarif;
mod searching;
mod words;

pub use codes::{Code, Fault, Hint, Mistake, Severity, name_of, severity_of};
pub use finding::Finding;
pub use json::json_text;
pub use laws::{examples, uri_examples};
pub use line::{Line, lines_text};
pub use messages::{disk_message, message};
pub use rules::{DiskMistake, disk_name, disk_severity, is_disk_code};
pub use sarif::sarif_text;
pub use searching::find;
