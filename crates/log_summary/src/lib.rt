//! What a log file of procmail says: how many mails each folder got, of how many bytes, and which messages stand in it.
#![tactic(auto)]

mod date;
mod folder;
mod laws;
mod line;
mod message;
mod summary;
mod table;

pub use date::{Day, day_of_line, read_day};
pub use folder::folder_of;
pub use laws::examples;
pub use line::{Delivery, delivery_of, message_of};
pub use message::kind_of;
pub use summary::{Summary, add_log};
pub use table::{Table, Tally};
