//! The protocol of a delivery to a maildir, an MH folder or a plain directory: the piece becomes a file of its own
//! under the first free name, and is synced to disk before it counts.
#![tactic(auto)]

mod file;
mod folders;
mod names;
mod numbers;
mod path;
mod slot;
mod tries;

pub use folders::place;
pub use tries::PlaceEnd;
