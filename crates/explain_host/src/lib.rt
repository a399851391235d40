//! What a run finds that is tried: the files of the machine, which it only reads, its environment, and the machine
//! itself for a run that starts programs; and formail and lockfile by their own code, where other programs aren't
//! started: a host that answers the two over the files of another host, and leaves all other calls to it.
#![tactic(auto)]

mod hosting;
mod in_folder;
mod machine;
mod own_code;
mod program;

pub use machine::Machine;
pub use own_code::{OwnCode, lines_of};
