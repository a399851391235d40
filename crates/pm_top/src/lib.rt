//! The program procmail without its machine: it reads the arguments and the message, executes the recipes by the host
//! and the sinks that it is given, and notes every act.
#![tactic(auto)]

pub mod delivering;
pub mod laws;
mod lists;
pub mod messages;
mod place;
pub mod program;
pub mod report;
pub mod source;
pub mod top;
pub mod totals;
pub mod trial_words;
mod word;
pub mod words;

pub use delivering::{TrialEnd, deliver_all};
pub use messages::make_message;
pub use program::{procmail, procmail_observed};
pub use report::make_report;
pub use source::MessageSource;
pub use top::{deliver_mail, deliver_observed, refuse};
pub use totals::Totals;
pub use trial_words::read_trial;
pub use words::read_words;
