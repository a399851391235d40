//! What can stand at the front of a text, and what the reading of it depends on.

/// How a text is read: as one word, as if inside double quotes, or as words.
#[derive(Clone, Copy)]
pub enum Mode {
    One,
    Quoted,
    Many,
}

/// What is open around a place: double quotes, or a `${}` form outside or inside of them.
#[derive(Clone, Copy)]
pub enum Frame {
    Quotes,
    Form,
    QuotedForm,
}

/// When the text of a `${}` form is used: `-`, `:-`, `+` or `:+`.
#[derive(Clone, Copy)]
pub enum Test {
    Unset,
    UnsetOrEmpty,
    Set,
    SetNotEmpty,
}

/// What a `$` and one byte stand for: `$0`, `$1` to `$9`, `$#`, `$$`, `$?`, `$=`, `$_` or `$-`.
#[derive(Clone, Copy)]
pub enum Parameter {
    Program,
    Argument(u8),
    ArgumentCount,
    Process,
    ExitCode,
    Score,
    Rcfile,
    LastFolder,
}

/// What stands at the front.
#[derive(Clone, Copy)]
pub enum Kind {
    /// bytes that stand for themselves
    Text,
    /// a text in single quotes
    Single,
    /// a blank or a newline outside quotes
    Space,
    QuotesOpen,
    QuotesClose,
    /// a line that goes on after a backslash
    Join,
    /// the rest of the text, after a `#`
    Comment,
    /// a variable's name, as in `$name` and `${name}`
    Value,
    /// a variable's name, as in `$\name`
    Literal,
    Parameter(Parameter),
    /// a command in backquotes
    Command,
    /// a variable's name and a test, after which the text of a form begins
    FormOpen(Test),
    FormClose,
}

/// The rules in force at a place.
#[derive(Clone, Copy)]
pub struct Rule {
    /// inside double quotes
    pub quoted: bool,
    /// a double quote ends them
    pub ends_quotes: bool,
    /// a brace ends a form
    pub ends_form: bool,
    /// a `#` here ends the text
    pub may_end: bool,
    /// a further `${}` form may begin
    pub may_open: bool,
}

/// What stands at the front: its bytes lie from `from` to `to`, and it takes `taken` bytes.
#[derive(Clone, Copy)]
pub struct Front {
    pub kind: Kind,
    pub from: usize,
    pub to: usize,
    pub taken: usize,
}
