//! Reading of rcfiles: the statements of a text, with each line that isn't understood as a syntax error.
#![tactic(auto)]

mod building;
mod bytes;
mod colon_line;
mod conditions;
mod ends;
mod fronts;
mod items;
mod joins;
mod laws;
mod leads;
mod line_words;
mod lines;
mod names;
mod newlines;
mod places;
mod quotes;
mod reader;
mod runs;
mod spans;
mod tree;
mod words;

pub use colon_line::{is_junked, read_flags, read_lock};
pub use conditions::read_condition;
pub use fronts::Kind;
pub use laws::{colon_line_law, digits_law, examples, joins_law, letters_law, one_cut, one_rc};
pub use reader::{RcRefused, read_rc};
pub use spans::{Span, cut_rc};
pub use tree::{
    Action, Condition, Flags, Rc, Recipe, Statement, Statements, Weight, copy_statements,
};
