//! What a run did, as steps and as lines: the entries of its journal, and where the mail went.
#![tactic(auto)]

mod destination;
mod laws;
mod line;
mod result;
mod step;

pub use destination::{Destination, destinations_of, last_program, value_in};
pub use laws::examples;
pub use line::step_line;
pub use result::{delivered_to, explain, result_line};
pub use step::{Kind, Step, steps_of};
