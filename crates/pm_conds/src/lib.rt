//! The conditions of a recipe: what each asks for, what it searches, and whether all of them hold, evaluated in order
//! (procmailrc(5), "Conditions").
#![tactic(auto)]

mod asked;
mod conditions;
mod counting;
mod holding;
mod judging;
mod laws;
mod leads;
mod observer;
mod scoring;
mod searching;
mod sizes;

pub use holding::{Verdict, conditions_hold, holds};
pub use judging::{exited, has_weight, judge_one, question_of, test};
pub use laws::{examples, notes_are_meant};
pub use leads::read_lead;
pub use observer::{NoObserver, Note, Observer};
pub use scoring::{end_of_all, note_score};
pub use searching::program_input;
