//! How far the arguments were read, and what an argument adds.

/// What the next word is.
#[derive(Clone, Copy)]
pub enum Next {
    /// Options, a variable or an rcfile.
    Any,
    /// A variable or an rcfile, after `--`.
    Operand,
    /// The text of `-a`.
    ArgumentText,
    /// The text of `-f`.
    SenderText,
}

/// How far the words were read: what the next one is, whether `-m` and `-t` came, and whether an rcfile was named.
#[derive(Clone, Copy)]
pub struct Place {
    pub next: Next,
    pub filter: bool,
    pub softly: bool,
    pub named: bool,
}

/// What a text is added to.
#[derive(Clone, Copy)]
pub enum Adds {
    Nothing,
    Argument,
    From,
    Value,
    Rcfile,
}

/// What a word says: the place after it, and the text that it adds.
#[derive(Clone, Copy)]
pub struct Word<'a> {
    pub place: Place,
    pub adds: Adds,
    pub text: &'a str,
}
