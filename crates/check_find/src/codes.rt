//! The kinds of findings, their names and how bad they are.

/// The kind of a finding.
#[derive(Clone, Copy)]
pub enum Code {
    /// A line that procmail logs as skipped.
    Defect(Hint),
    /// A condition that procmail logs as defective.
    Condition(Fault),
    /// What procmail runs without a word, and is most often not what was meant.
    Mistake(Mistake),
}

/// What makes a condition defective, whatever the mail is.
#[derive(Clone, Copy)]
pub enum Fault {
    /// A number of its weight is out of range.
    Weight,
    /// No number stands after `<` or `>`, or a weight stands before `!` and a size.
    Size,
    /// It is no regular expression.
    Expression,
}

/// Why a line is skipped, as far as its bytes show it.
#[derive(Clone, Copy)]
pub enum Hint {
    Other,
    /// Something on a colon line isn't understood. Its recipe is read all the same.
    Junk,
    /// A colon line without an action.
    NoAction,
    /// A brace inside of a thousand others.
    TooDeep,
    /// A `}` is missing where the text ends.
    MissingBrace,
    /// A quote isn't closed.
    OpenQuote,
    /// A condition, an action or a brace where no recipe has begun.
    NoRecipe,
    /// A colon line without its colon.
    NoColon,
    /// A colon and a number of conditions, as procmail 2 had it.
    OldCount,
    /// The three bytes of a byte order mark.
    ByteOrderMark,
    /// A carriage return at the end of the line.
    CarriageReturn,
}

/// A mistake that procmail doesn't log.
#[derive(Clone, Copy)]
pub enum Mistake {
    /// A condition without its star is an action.
    NoStar,
    /// A variable among the flags isn't expanded.
    ColonVariable,
    /// A mailbox file gets mails without a lock file.
    NoLock,
    /// The words of a name without quotes are mailboxes of their own.
    Words,
    /// A dot of a domain matches any byte.
    Dot,
    /// A field's name is found in the middle of a line too.
    Unanchored,
    /// A plus of an address repeats the byte before it.
    Plus,
    /// A word in brackets matches one of its letters.
    Tag,
    /// A form of other regular expressions.
    Pcre,
    /// A comment belongs to the condition.
    Comment,
    /// A filter's failure isn't seen.
    FilterW,
    /// What formail writes goes nowhere.
    PipeF,
    /// All mails are forwarded, and one that comes back is forwarded again.
    Loop,
    /// Only a part of the mail is delivered.
    LostPart,
    /// formail waits for the lock file that its recipe holds.
    FormailLock,
    /// A tilde isn't expanded.
    Tilde,
    /// A word after an action unsets a variable.
    BareWord,
    /// A file in /dev.
    Dev,
    /// A recipe that no mail comes to.
    Unreachable,
}

/// How bad a finding is.
#[derive(Clone, Copy)]
pub enum Severity {
    Error,
    Warning,
    Note,
}

/// How bad a finding of this kind is.
pub fn severity_of(code: Code) -> Severity {
    match code {
        Code::Defect(_) | Code::Condition(_) => Severity::Error,
        Code::Mistake(mistake) => match mistake {
            Mistake::NoStar | Mistake::ColonVariable => Severity::Error,
            _ => Severity::Warning,
        },
    }
}

/// The name of a kind, as users write it to allow it.
pub fn name_of(code: Code) -> &'static str {
    match code {
        Code::Defect(_) => "defect",
        Code::Condition(fault) => match fault {
            Fault::Weight => "weight",
            Fault::Size => "size",
            Fault::Expression => "expression",
        },
        Code::Mistake(mistake) => mistake_name(mistake),
    }
}

fn mistake_name(mistake: Mistake) -> &'static str {
    match mistake {
        Mistake::NoStar => "no-star",
        Mistake::ColonVariable => "colon-variable",
        Mistake::NoLock => "no-lock",
        Mistake::Words => "words",
        Mistake::Dot => "dot",
        Mistake::Unanchored => "unanchored",
        Mistake::Plus => "plus",
        Mistake::Tag => "tag",
        Mistake::Pcre => "pcre",
        Mistake::Comment => "comment",
        Mistake::FilterW => "filter-w",
        Mistake::PipeF => "pipe-f",
        Mistake::Loop => "loop",
        Mistake::LostPart => "lost-part",
        Mistake::FormailLock => "formail-lock",
        Mistake::Tilde => "tilde",
        Mistake::BareWord => "bare-word",
        Mistake::Dev => "dev",
        Mistake::Unreachable => "unreachable",
    }
}
