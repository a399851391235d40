//! The codes of forms that do something else under procmail 3.22.
use check_moving::{
    ConditionForm, ExpandedForm, Form, MailboxForm, ProgramForm, RecipeForm, ReplyForm, SearchForm,
    VariableForm, form_code,
};

const VARIABLE: [VariableForm; 11] = [
    VariableForm::Umask,
    VariableForm::Verbose,
    VariableForm::Timeout,
    VariableForm::NoEffect,
    VariableForm::Host,
    VariableForm::ExitCode,
    VariableForm::Delivered,
    VariableForm::LogAbstract,
    VariableForm::DefaultProgram,
    VariableForm::LockFile,
    VariableForm::OpenBrace,
];

const EXPANDED: [ExpandedForm; 5] = [
    ExpandedForm::Arguments,
    ExpandedForm::Underscore,
    ExpandedForm::Brace,
    ExpandedForm::Command,
    ExpandedForm::Score,
];

const RECIPE: [RecipeForm; 7] = [
    RecipeForm::FirstChain,
    RecipeForm::AfterBlock,
    RecipeForm::HeldLock,
    RecipeForm::BlockLock,
    RecipeForm::BlockAutoLock,
    RecipeForm::BlockCopy,
    RecipeForm::AfterLock,
];

const CONDITION: [ConditionForm; 7] = [
    ConditionForm::LateWeight,
    ConditionForm::VariableWeight,
    ConditionForm::VariableCondition,
    ConditionForm::AfterGreatest,
    ConditionForm::SizeWeight,
    ConditionForm::Continued,
    ConditionForm::SignalCode,
];

const SEARCH: [SearchForm; 11] = [
    SearchForm::Backslash,
    SearchForm::Quote,
    SearchForm::InvertedMatch,
    SearchForm::MatchEnd,
    SearchForm::MatchBegin,
    SearchForm::WeightedMatch,
    SearchForm::TwoAnchors,
    SearchForm::TwoBlanks,
    SearchForm::EmptyMatch,
    SearchForm::LineCount,
    SearchForm::Range,
];

const MAILBOX: [MailboxForm; 7] = [
    MailboxForm::Several,
    MailboxForm::Hash,
    MailboxForm::MatchName,
    MailboxForm::FromLine,
    MailboxForm::Raw,
    MailboxForm::OwnLock,
    MailboxForm::FolderLock,
];

const PROGRAM: [ProgramForm; 9] = [
    ProgramForm::StandardError,
    ProgramForm::CacheLock,
    ProgramForm::CacheOptions,
    ProgramForm::CacheLength,
    ProgramForm::Digest,
    ProgramForm::OldOption,
    ProgramForm::SplitOutput,
    ProgramForm::FromAppended,
    ProgramForm::LockWait,
];

const REPLY: [ReplyForm; 8] = [
    ReplyForm::ReplyField,
    ReplyForm::ReplyKeep,
    ReplyForm::TrustAlone,
    ReplyForm::EmptyField,
    ReplyForm::FromRemoved,
    ReplyForm::FromAdded,
    ReplyForm::MadeField,
    ReplyForm::PartialName,
];

/// Whether the word is the code of a form.
pub fn is_form_code(word: &str) -> bool {
    VARIABLE
        .iter()
        .any(|form| form_code(Form::Variable(*form)) == word)
        || EXPANDED
            .iter()
            .any(|form| form_code(Form::Expanded(*form)) == word)
        || RECIPE
            .iter()
            .any(|form| form_code(Form::Recipe(*form)) == word)
        || CONDITION
            .iter()
            .any(|form| form_code(Form::Condition(*form)) == word)
        || SEARCH
            .iter()
            .any(|form| form_code(Form::Search(*form)) == word)
        || MAILBOX
            .iter()
            .any(|form| form_code(Form::Mailbox(*form)) == word)
        || PROGRAM
            .iter()
            .any(|form| form_code(Form::Program(*form)) == word)
        || REPLY
            .iter()
            .any(|form| form_code(Form::Reply(*form)) == word)
}
