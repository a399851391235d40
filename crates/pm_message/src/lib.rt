//! A mail's header with its fields, its body, what a mailbox or a program gets of it, and its `From ` line.
#![tactic(auto)]

mod areas;
mod date;
mod head;
mod head_fields;
mod laws;
mod mail;
mod pieces;
mod renewal;

pub use areas::{Place, area};
pub use date::from_line;
pub use head::{Message, divide, split, whole};
pub use head_fields::{Field, FieldKind, Key, field_texts, fields, read_key};
pub use laws::examples;
pub use mail::Mail;
pub use pieces::{Feed, Kind, piece};
pub use renewal::{Renew, needs_line, prepare, prepare_mail};
