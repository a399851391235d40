//! A run: it prepares the mail, reads rcfiles, and executes their statements in order, in the first process and then in
//! each clone for a block. What each function asks of the host is a part of the run's plan, and is noted. If memory
//! runs out, the next act isn't done, and the held locks are released.
#![tactic(auto)]

mod alone;
mod arriving;
mod assigning;
mod cloning;
mod copies;
mod draft;
mod drafting;
mod ends;
mod falling_off;
mod first_values;
mod frames;
mod gates;
mod global_lock;
mod judging;
pub mod laws;
mod leaving;
mod opening;
mod parts;
mod process;
mod queue;
mod rcfiles;
mod remaining;
mod resuming;
mod statements;
mod task;
mod turned;
mod walk;

pub use frames::{Open, RcFrame};
pub use parts::{ProcessEnd, run_process};
pub use process::{Arrival, run_processes};
pub use queue::Queue;
pub use task::Task;
