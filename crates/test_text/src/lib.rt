//! Tests of rcfiles (procmail-test(1)): the files that say which mail is to go where, what came of it, and the report
//! as TAP or as JUnit's XML.
#![tactic(auto)]

mod answer;
mod compare;
mod cut;
mod expected;
mod junit;
mod laws;
mod names;
mod reading;
mod statement;
mod tap;
mod test;
mod told;

pub use answer::Answer;
pub use compare::{is_same, left_over};
pub use junit::junit_report;
pub use laws::{examples, file_examples};
pub use names::{Places, mailbox_name, name_of, shown_name};
pub use reading::{Fault, Reading, Tests, read_tests};
pub use statement::{Rcfile, Reason};
pub use tap::{Report, tap_report};
pub use test::Test;
pub use told::told_text;
