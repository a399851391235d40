//! Many deliveries to one mailbox under one lock, in any order of their calls: the events, and the law that the mailbox
//! is as if the deliveries had been made one after the other.
#![tactic(auto)]

pub mod laws;
pub mod mailbox;
pub mod turn;
pub mod turns;
pub mod writers;

pub use laws::order_law;
pub use turns::Turns;
pub use writers::{Stepped, Will, Writer};
