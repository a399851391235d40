//! The protocol of lock files (lockfile(1)): to take a lock is to make its file if no file has the name. It is tried
//! again after a sleep, and a lock file that is too old is removed by force.
#![tactic(auto)]

pub mod give;
pub mod laws;
pub mod steps;
pub mod take;

pub use give::{GiveEnd, give_lock};
pub use pm_journal::{LockEnd, LockRule, LockStep};
pub use steps::{LockAnswer, LockCore};
pub use take::take_lock;
