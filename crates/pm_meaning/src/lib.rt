//! The meaning of statements: for each a plan of acts, of which each next one depends on the replies so far. The plans
//! that conditions and actions both ask for are carried out here: to log, to expand texts, and to run their commands.
//! The texts that actions are about are made here too: destinations, the words of SENDMAIL, and the abstract.
#![tactic(auto)]

pub mod abstracts;
pub mod acted;
pub mod appended;
mod blanks;
pub mod chain;
pub mod command_line;
pub mod destination_words;
pub mod ending;
pub mod expanding;
pub mod forwards;
pub mod laws;
pub mod mind;
pub mod names;
pub mod outputs;
pub mod process;
pub mod programs;
pub mod question;
pub mod run;
pub mod skipping;
pub mod status;
pub mod telling;
pub mod weighing;

pub use abstracts::{abstract_of, logs_last, mail_part, push_copy, push_folder};
pub use acted::{Acted, Cause};
pub use appended::appended_name;
pub use blanks::past_blanks;
pub use chain::{Chain, admits, after, new_chain, succeed};
pub use command_line::CommandLine;
pub use destination_words::{destinations, plain_prefix, without_ending};
pub use ending::Ending;
pub use expanding::{Expansion, expand_text, first_word};
pub use forwards::forward_line;
pub use mind::{Last, Mind, Opening, Shared};
pub use names::{file_name, is_nothing};
pub use outputs::{Ready, make_ready, outputs_of, read_line, tell_run};
pub use process::{Attempt, Destination, End, Filed, Outcome, Process, ProgramLine, Stored, Trial};
pub use programs::{
    code_of, expanded_line, needs_shell, note_code, shell_line, value_or, words_line,
};
pub use run::{Idle, Paused, Run};
pub use skipping::skip_value;
pub use status::{Status, status_of};
pub use telling::{log_name, tell, tell_in};
pub use weighing::{add_code, add_length, add_matches, add_score, add_share};
