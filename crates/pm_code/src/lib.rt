//! Flat code of an rcfile: its statements as a list of steps, in which the beginning and the end of a block name each
//! other's place. The steps from a place on are what is left of the rcfile.
#![tactic(auto)]

mod code;
mod compiling;
mod laws;
mod steps;

pub use code::Code;
pub use compiling::compile;
pub use laws::{block_law, code_law};
pub use steps::Step;
