//! Matching of regular expressions in one pass over the searched bytes.
#![tactic(auto)]

mod advancing;
mod any_match;
mod anywhere;
mod atoms;
mod automata;
mod backward;
mod build;
mod cache;
mod closing;
mod count;
mod engine;
mod find;
mod forward;
mod labels;
mod laws;
mod marking;
mod marks;
mod order;
mod row;
mod search;
mod sets;
mod spare;
mod starts;
mod step;
mod tables;

pub use engine::Engine;
pub use laws::examples;
