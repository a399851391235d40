//! The forms of rcfiles for procmail 3.22 that do something else here, as far as a text shows them (procmail-check(1),
//! `--from-3.22`).
#![tactic(auto)]

mod anchors;
mod calls;
mod codes;
mod conditions;
mod expanded;
mod finding;
mod form;
mod kept;
mod laws;
mod leads;
mod mailboxes;
mod messages;
mod names;
mod options;
mod quotes;
mod ranges;
mod recipes;
mod replies;
mod searches;
mod searching;
mod spans;
mod spots;
mod standing;
mod text;
mod variables;
mod words;

pub use codes::form_code;
pub use finding::Finding;
pub use form::{
    ConditionForm, ExpandedForm, Form, MailboxForm, ProgramForm, RecipeForm, ReplyForm, SearchForm,
    VariableForm,
};
pub use laws::examples;
pub use messages::form_message;
pub use searching::find_forms;
