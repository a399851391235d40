//! What a run's recipes came to: who follows the run keeps notes, and they are shown between the steps of its journal,
//! each with its line in the rcfile, which is found by the steps of the rcfile's code.
#![tactic(auto)]

mod came;
mod keeping;
mod laws;
mod line;
mod outcomes;
mod pushing;
mod rcfile;
mod reads;
mod recipe;
mod shown;
mod text;
mod told;

pub use keeping::Notes;
pub use laws::{examples, lines_law, rc_examples, woven_law};
pub use rcfile::RcLines;
pub use recipe::{Line, RecipeLines};
pub use shown::{Shown, shown_of};
pub use text::explain;
pub use told::{Told, What};
