//! The program lockfile without its machine (lockfile(1)): it reads the arguments, makes and removes lock files by the
//! host that it is given, and reports what can't be done.
#![tactic(auto)]

pub mod doing;
pub mod jobs;
pub mod laws;
pub mod nowhere;
pub mod status;
pub mod tasks;
pub mod top;
pub mod words;

pub use doing::do_jobs;
pub use jobs::{Job, Ready, make_ready};
pub use nowhere::Nowhere;
pub use status::{Status, status_of};
pub use tasks::{CommandLine, Ending, Setting, Task, Tasks};
pub use top::lockfile;
pub use words::{Word, read_words};
