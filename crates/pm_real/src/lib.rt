//! The host on a machine: standard input, standard output and standard error, files, the clock, and child processes.
//! What is here calls the operating system, which is trusted to do what the traits say of contents; the counts, and
//! whether a child runs, are proved. A call that a signal interrupts is made again.
#![tactic(auto)]

mod again;
mod child;
mod folders;
mod host;
mod host_name;
mod inode;
mod kept_file;
mod laws;
mod limit;
mod mode;
mod opened;
mod setup;
mod sink;
mod source;
mod state;

pub use again::{read, write};
pub use host::RealHost;
pub use host_name::{can_be_host_name, read_regular};
pub use laws::{examples, no_more_is_cut};
pub use setup::Setup;
pub use sink::RealSink;
pub use source::RealSource;
