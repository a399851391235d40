//! Two automata one after the other, and the room that their search needs.

use crate::build::Program;
use crate::labels::Labels;
use crate::starts::Starts;

/// Two automata, of which the second begins where the first ends.
#[derive(Drop)]
pub struct Automata {
    /// The tables of where the first begins, once an area was long enough to pay for them.
    pub starts: Option<Starts>,
    pub left: Program,
    pub right: Program,
}

/// Room for a label of each state of both at two places.
#[derive(Drop)]
pub struct Room {
    pub left: Labels,
    pub left_next: Labels,
    pub right: Labels,
    pub right_next: Labels,
    /// The last place that the last search visited.
    pub last: usize,
    /// How many places the last search visited.
    pub visits: usize,
    /// How many labels of the left part it had there.
    pub labels: usize,
}
