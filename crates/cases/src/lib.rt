//! Files of cases: lines of words with the texts below their line, the host in memory that a case begins with, and the
//! rows that ask one question of a crate that reads texts. docs/CASES.md has the format. Each function is safe and
//! total; what a file is read as and which answer comes is not stated, but tested by the files themselves.
#![tactic(auto)]

mod changes;
mod differing;
mod expressions;
mod host;
mod lines;
mod mails;
mod names;
mod numbers;
mod outside;
mod refused;
mod rows;
mod searching;
mod shown;
mod starting;
mod statements;
mod substituting;
mod told;
mod tries;
mod variables;
mod words;

pub use changes::push_changes;
pub use differing::{Difference, differences, print_differences};
pub use host::memory_host;
pub use lines::{Line, read_lines};
pub use numbers::{read_i64, read_u64, read_usize};
pub use outside::{Deed, Limit, Other, Outside, Program, Stands};
pub use refused::Refused;
pub use rows::answer;
pub use shown::show_words;
pub use told::{
    Told, Words, copy_of, key_of, number_word, one_number, one_word, only_word, text_of, word_of,
};
pub use tries::Tries;
pub use variables::State;
