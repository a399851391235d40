//! The forms that are looked for, by what they are forms of. procmail-check(1), "Moving from 3.22", has them in this
//! order.

/// A form.
#[derive(Clone, Copy)]
pub enum Form {
    Variable(VariableForm),
    Expanded(ExpandedForm),
    Recipe(RecipeForm),
    Condition(ConditionForm),
    Search(SearchForm),
    Mailbox(MailboxForm),
    Program(ProgramForm),
    Reply(ReplyForm),
}

/// Assignments, and names alone.
#[derive(Clone, Copy)]
pub enum VariableForm {
    /// UMASK.
    Umask,
    /// VERBOSE.
    Verbose,
    /// TIMEOUT.
    Timeout,
    /// LINEBUF, COMSAT, DROPPRIVS or NORESRETRY.
    NoEffect,
    /// HOST alone.
    Host,
    /// EXITCODE=0.
    ExitCode,
    /// DELIVERED with another value than yes.
    Delivered,
    /// LOGABSTRACT with another value than all or no.
    LogAbstract,
    /// DEFAULT or ORGMAIL is a program or an address.
    DefaultProgram,
    /// LOCKFILE.
    LockFile,
    /// A value that ends within `${`.
    OpenBrace,
}

/// What is expanded.
#[derive(Clone, Copy)]
pub enum ExpandedForm {
    /// `$@`.
    Arguments,
    /// `$_` before a name.
    Underscore,
    /// `${` before what begins no name, or with `#`, `%`, `=` or `?` after the name.
    Brace,
    /// A command in `${`.
    Command,
    /// `$=` after a recipe without weights.
    Score,
}

/// Colon lines and blocks.
#[derive(Clone, Copy)]
pub enum RecipeForm {
    /// A, a or e on the first recipe of a block.
    FirstChain,
    /// a or e right after a block.
    AfterBlock,
    /// The lock file of LOCKFILE.
    HeldLock,
    /// A lock file on a block.
    BlockLock,
    /// An automatic lock file on a block.
    BlockAutoLock,
    /// A block with c.
    BlockCopy,
    /// a or e after a copy or a capture with a lock file and without w.
    AfterLock,
}

/// Weights, and what stands before an expression.
#[derive(Clone, Copy)]
pub enum ConditionForm {
    /// A weight after `$` or `??`.
    LateWeight,
    /// A weight that a variable gives.
    VariableWeight,
    /// A condition that a variable gives.
    VariableCondition,
    /// A condition without a weight after one with the greatest.
    AfterGreatest,
    /// A size with an exponent above 3.
    SizeWeight,
    /// Blanks at the beginning of a second line, after a `$`.
    Continued,
    /// The code of a program that a signal ended.
    SignalCode,
}

/// Expressions.
#[derive(Clone, Copy)]
pub enum SearchForm {
    /// A backslash at the beginning.
    Backslash,
    /// A double quote after a `$`.
    Quote,
    /// `\/` after a `!`.
    InvertedMatch,
    /// `\/`, and a `$` or `\>` at the end.
    MatchEnd,
    /// `\/`, and `^`, `$`, `\<` or `\>` right after it.
    MatchBegin,
    /// `\/` with a weight that counts each match.
    WeightedMatch,
    /// `$^`.
    TwoAnchors,
    /// Two blanks, or a tab.
    TwoBlanks,
    /// What matches no bytes, counted.
    EmptyMatch,
    /// `^.*$`, counted.
    LineCount,
    /// A range down to a lesser byte, or a `-` right after a range.
    Range,
}

/// Mailboxes.
#[derive(Clone, Copy)]
pub enum MailboxForm {
    /// Several words.
    Several,
    /// `#` in a name.
    Hash,
    /// `$MATCH` without quotes.
    MatchName,
    /// A maildir, which gets the line `From `.
    FromLine,
    /// The flag r.
    Raw,
    /// A lock file by the mailbox's name.
    OwnLock,
    /// An automatic lock file of a maildir or an MH folder.
    FolderLock,
}

/// Programs.
#[derive(Clone, Copy)]
pub enum ProgramForm {
    /// `>&2`.
    StandardError,
    /// The lock of a cache, by variables.
    CacheLock,
    /// `formail -D` with other options.
    CacheOptions,
    /// `formail -D` with a length of 0 or above 1048576.
    CacheLength,
    /// `formail -d`.
    Digest,
    /// `formail` with other options of 3.22.
    OldOption,
    /// `formail -s PROGRAM` whose output is used.
    SplitOutput,
    /// `formail -f >>`.
    FromAppended,
    /// A lock file without w.
    LockWait,
}

/// What formail does with fields.
#[derive(Clone, Copy)]
pub enum ReplyForm {
    /// `formail -r` with x, X or R.
    ReplyField,
    /// `formail -r -k`.
    ReplyKeep,
    /// `formail -t` without r.
    TrustAlone,
    /// `formail -X ""` or `-I ""`.
    EmptyField,
    /// `formail -I "From "` without f.
    FromRemoved,
    /// `formail -a "From "`.
    FromAdded,
    /// `formail -a Date:` or `-a Message-ID:`.
    MadeField,
    /// `formail -u` or `-U` with a name without a colon.
    PartialName,
}
