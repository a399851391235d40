//! What is said of each form. procmail-check(1), "Moving from 3.22", has these texts.
ghost use Rattle.std.specs.Prelude.{◌≡◌};
ghost use Rattle.check_moving.specs.Messages.{form_text, variable_text, expanded_text, recipe_text, condition_text};
ghost use Rattle.check_moving.specs.Messages.{search_text, mailbox_text, program_text, reply_text};

use crate::form::{
    ConditionForm, ExpandedForm, Form, MailboxForm, ProgramForm, RecipeForm, ReplyForm, SearchForm,
    VariableForm,
};

/// The text of a form.
pub fn form_message(form: Form) -> &'static str
    ensures { result.now ≡ form_text form }
{
    match form {
        Form::Variable(form) => variable_text(form),
        Form::Expanded(form) => expanded_text(form),
        Form::Recipe(form) => recipe_text(form),
        Form::Condition(form) => condition_text(form),
        Form::Search(form) => search_text(form),
        Form::Mailbox(form) => mailbox_text(form),
        Form::Program(form) => program_text(form),
        Form::Reply(form) => reply_text(form),
    }
}

fn variable_text(form: VariableForm) -> &'static str
    ensures { result.now ≡ variable_text form }
{
    match form {
        VariableForm::Umask => "UMASK has no effect: a new mailbox has the mode 600",
        VariableForm::Verbose => {
            "VERBOSE has no effect: set LOGABSTRACT to all, and log values by LOG"
        }
        VariableForm::Timeout => {
            "TIMEOUT has no effect: procmail waits for a program without limit"
        }
        VariableForm::NoEffect => "this variable has no effect",
        VariableForm::Host => "HOST alone does not end the rcfile: write HOST=",
        VariableForm::ExitCode => "EXITCODE=0 counts as unset: write DELIVERED=yes",
        VariableForm::Delivered => "DELIVERED counts only with the value yes",
        VariableForm::LogAbstract => {
            "LOGABSTRACT is all or no, and any other value counts as unset"
        }
        VariableForm::DefaultProgram => {
            "DEFAULT and ORGMAIL are names of files: write a last recipe with this action"
        }
        VariableForm::LockFile => {
            "after 1000 tries the run goes on without the lock of LOCKFILE: lock the recipe or a block"
        }
        VariableForm::OpenBrace => {
            "the value ends at the blank within ${: write double quotes around the whole value"
        }
    }
}

fn expanded_text(form: ExpandedForm) -> &'static str
    ensures { result.now ≡ expanded_text form }
{
    match form {
        ExpandedForm::Arguments => "$@ stands for itself: write $1 and so on",
        ExpandedForm::Underscore => {
            "$_ before a letter is another variable: write it in double quotes"
        }
        ExpandedForm::Brace => "this form of ${ stands for itself",
        ExpandedForm::Command => "this command is executed even if ${ does not use it",
        ExpandedForm::Score => "$= is the score of the last recipe with weights, not 0",
    }
}

fn recipe_text(form: RecipeForm) -> &'static str
    ensures { result.now ≡ recipe_text form }
{
    match form {
        RecipeForm::FirstChain => {
            "A, a or e on the first recipe of a block makes procmail skip that recipe"
        }
        RecipeForm::AfterBlock => {
            "a block that was entered counts as succeeded: a is executed after it, and e is not"
        }
        RecipeForm::HeldLock => "this lock file is already held by LOCKFILE: the recipe fails",
        RecipeForm::BlockLock => "this lock file is held to the end of the block",
        RecipeForm::BlockAutoLock => "a block has no automatic lock file: remove the second colon",
        RecipeForm::BlockCopy => {
            "the clone of this block is executed after the whole process, and not beside it"
        }
        RecipeForm::AfterLock => {
            "the recipe before has a lock file and no w: its exit status is not looked at"
        }
    }
}

fn condition_text(form: ConditionForm) -> &'static str
    ensures { result.now ≡ condition_text form }
{
    match form {
        ConditionForm::LateWeight => {
            "a weight after $ or ?? is a part of the expression: write it first"
        }
        ConditionForm::VariableWeight => {
            "a variable gives no weight: write the number itself, first"
        }
        ConditionForm::VariableCondition => {
            "a weight or a backslash at the beginning of this value belongs to the expression"
        }
        ConditionForm::AfterGreatest => {
            "the weight 2147483647 matches at once, and this condition is not looked at"
        }
        ConditionForm::SizeWeight => "the exponent of a size is at most 3",
        ConditionForm::Continued => {
            "the blanks at the beginning of the second line are a part of the expression"
        }
        ConditionForm::SignalCode => {
            "a program that a signal ended has the code 128 and the signal: 137 for -9"
        }
    }
}

fn search_text(form: SearchForm) -> &'static str
    ensures { result.now ≡ search_text form }
{
    match form {
        SearchForm::Backslash => {
            "the backslash at the beginning counts: write () before it for the meaning of 3.22"
        }
        SearchForm::Quote => "the double quotes belong to the expression: remove them",
        SearchForm::InvertedMatch => "a condition with ! sets no MATCH",
        SearchForm::MatchEnd => "MATCH does not end with a newline",
        SearchForm::MatchBegin => "MATCH does not begin with a newline",
        SearchForm::WeightedMatch => "MATCH is what the first match gave, not the last",
        SearchForm::TwoAnchors => "$ and ^ need one newline together, and not one each",
        SearchForm::TwoBlanks => {
            "a newline in a folded field and the blank after it match one blank"
        }
        SearchForm::EmptyMatch => {
            "a match of no bytes counts once at each byte, and not 2147483647"
        }
        SearchForm::LineCount => "the lines are counted, and not one more",
        SearchForm::Range => {
            "a range goes up to a greater byte, and a - right after it is a byte like others"
        }
    }
}

fn mailbox_text(form: MailboxForm) -> &'static str
    ensures { result.now ≡ mailbox_text form }
{
    match form {
        MailboxForm::Several => "each of these words is a mailbox, and not the first alone",
        MailboxForm::Hash => "a # within a name belongs to the name",
        MailboxForm::MatchName => {
            "the words of MATCH can be several mailboxes: write double quotes around the name"
        }
        MailboxForm::FromLine => {
            "the mail keeps its line From in a maildir: remove it by formail -f -I 'From '"
        }
        MailboxForm::Raw => "the flag r does not keep lines of the body from getting a >",
        MailboxForm::OwnLock => "the lock file has the name of the mailbox: the recipe fails",
        MailboxForm::FolderLock => "the lock file of this directory is beside it, and not in it",
    }
}

fn program_text(form: ProgramForm) -> &'static str
    ensures { result.now ≡ program_text form }
{
    match form {
        ProgramForm::StandardError => "standard error goes to the server, and not to LOGFILE",
        ProgramForm::CacheLock => {
            "formail takes this lock file itself, and waits for the recipe that holds it"
        }
        ProgramForm::CacheOptions => {
            "formail -D takes none of these options: nothing is written, with the status 64"
        }
        ProgramForm::CacheLength => "the length of a cache is from 1 to 1048576",
        ProgramForm::Digest => "formail has no -d: nothing is written, with the status 64",
        ProgramForm::OldOption => {
            "formail has not all of these options: nothing is written, with the status 64"
        }
        ProgramForm::SplitOutput => "the output of the programs that formail -s starts is lost",
        ProgramForm::FromAppended => "formail -f adds no empty line at the end of the mail",
        ProgramForm::LockWait => {
            "if this fails, the mail is lost in spite of the lock file: add the flag w"
        }
    }
}

fn reply_text(form: ReplyForm) -> &'static str
    ensures { result.now ≡ reply_text form }
{
    match form {
        ReplyForm::ReplyField => {
            "formail -r with x, X or R is refused: write formail -rt | formail -zxTo:"
        }
        ReplyForm::ReplyKeep => "formail -r with k writes the body as it is, without >",
        ReplyForm::TrustAlone => "formail -t without -r is refused: remove the t",
        ReplyForm::EmptyField => "an empty name of a field is refused: use sed",
        ReplyForm::FromRemoved => "formail -I 'From ' without -f makes a new line From",
        ReplyForm::FromAdded => "formail -a 'From ' is refused",
        ReplyForm::MadeField => "formail -a adds nothing without a text",
        ReplyForm::PartialName => {
            "-u and -U take all fields whose names begin so: write the name with its colon"
        }
    }
}
