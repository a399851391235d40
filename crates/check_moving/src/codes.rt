//! The codes of forms.
ghost use Rattle.std.specs.Prelude.{◌≡◌};
ghost use Rattle.check_moving.specs.Messages.{form_code, variable_code, expanded_code, recipe_code, condition_code};
ghost use Rattle.check_moving.specs.Messages.{search_code, mailbox_code, program_code, reply_code};

use crate::form::{
    ConditionForm, ExpandedForm, Form, MailboxForm, ProgramForm, RecipeForm, ReplyForm, SearchForm,
    VariableForm,
};

/// The code of a form, as `--allow` takes it.
pub fn form_code(form: Form) -> &'static str
    ensures { result.now ≡ form_code form }
{
    match form {
        Form::Variable(form) => variable_code(form),
        Form::Expanded(form) => expanded_code(form),
        Form::Recipe(form) => recipe_code(form),
        Form::Condition(form) => condition_code(form),
        Form::Search(form) => search_code(form),
        Form::Mailbox(form) => mailbox_code(form),
        Form::Program(form) => program_code(form),
        Form::Reply(form) => reply_code(form),
    }
}

fn variable_code(form: VariableForm) -> &'static str
    ensures { result.now ≡ variable_code form }
{
    match form {
        VariableForm::Umask => "umask",
        VariableForm::Verbose => "verbose",
        VariableForm::Timeout => "timeout",
        VariableForm::NoEffect => "no-effect",
        VariableForm::Host => "host",
        VariableForm::ExitCode => "exitcode",
        VariableForm::Delivered => "delivered",
        VariableForm::LogAbstract => "logabstract",
        VariableForm::DefaultProgram => "default-program",
        VariableForm::LockFile => "lockfile",
        VariableForm::OpenBrace => "open-brace",
    }
}

fn expanded_code(form: ExpandedForm) -> &'static str
    ensures { result.now ≡ expanded_code form }
{
    match form {
        ExpandedForm::Arguments => "arguments",
        ExpandedForm::Underscore => "underscore",
        ExpandedForm::Brace => "brace-form",
        ExpandedForm::Command => "brace-command",
        ExpandedForm::Score => "score",
    }
}

fn recipe_code(form: RecipeForm) -> &'static str
    ensures { result.now ≡ recipe_code form }
{
    match form {
        RecipeForm::FirstChain => "first-chain",
        RecipeForm::AfterBlock => "after-block",
        RecipeForm::HeldLock => "held-lock",
        RecipeForm::BlockLock => "block-lock",
        RecipeForm::BlockAutoLock => "block-auto-lock",
        RecipeForm::BlockCopy => "block-copy",
        RecipeForm::AfterLock => "after-lock",
    }
}

fn condition_code(form: ConditionForm) -> &'static str
    ensures { result.now ≡ condition_code form }
{
    match form {
        ConditionForm::LateWeight => "late-weight",
        ConditionForm::VariableWeight => "variable-weight",
        ConditionForm::VariableCondition => "variable-condition",
        ConditionForm::AfterGreatest => "after-greatest",
        ConditionForm::SizeWeight => "size-weight",
        ConditionForm::Continued => "continued",
        ConditionForm::SignalCode => "signal-code",
    }
}

fn search_code(form: SearchForm) -> &'static str
    ensures { result.now ≡ search_code form }
{
    match form {
        SearchForm::Backslash => "first-backslash",
        SearchForm::Quote => "condition-quote",
        SearchForm::InvertedMatch => "inverted-match",
        SearchForm::MatchEnd => "match-end",
        SearchForm::MatchBegin => "match-begin",
        SearchForm::WeightedMatch => "weighted-match",
        SearchForm::TwoAnchors => "two-anchors",
        SearchForm::TwoBlanks => "two-blanks",
        SearchForm::EmptyMatch => "empty-match",
        SearchForm::LineCount => "line-count",
        SearchForm::Range => "range",
    }
}

fn mailbox_code(form: MailboxForm) -> &'static str
    ensures { result.now ≡ mailbox_code form }
{
    match form {
        MailboxForm::Several => "mailboxes",
        MailboxForm::Hash => "hash",
        MailboxForm::MatchName => "match-name",
        MailboxForm::FromLine => "from-line",
        MailboxForm::Raw => "raw",
        MailboxForm::OwnLock => "own-lock",
        MailboxForm::FolderLock => "folder-lock",
    }
}

fn program_code(form: ProgramForm) -> &'static str
    ensures { result.now ≡ program_code form }
{
    match form {
        ProgramForm::StandardError => "standard-error",
        ProgramForm::CacheLock => "cache-lock",
        ProgramForm::CacheOptions => "cache-options",
        ProgramForm::CacheLength => "cache-length",
        ProgramForm::Digest => "digest",
        ProgramForm::OldOption => "old-option",
        ProgramForm::SplitOutput => "split-output",
        ProgramForm::FromAppended => "from-appended",
        ProgramForm::LockWait => "lock-w",
    }
}

fn reply_code(form: ReplyForm) -> &'static str
    ensures { result.now ≡ reply_code form }
{
    match form {
        ReplyForm::ReplyField => "reply-field",
        ReplyForm::ReplyKeep => "reply-keep",
        ReplyForm::TrustAlone => "trust-alone",
        ReplyForm::EmptyField => "empty-field",
        ReplyForm::FromRemoved => "from-removed",
        ReplyForm::FromAdded => "from-added",
        ReplyForm::MadeField => "made-field",
        ReplyForm::PartialName => "partial-name",
    }
}
