//! What the words ask for, one by one.
use formail_edit::{Put, Rename, Take, Unique};
use pm_bytes::{Blob, Name};

/// Where identifiers are remembered.
#[derive(Drop)]
pub struct Cache {
    /// Once it has so many bytes it begins anew.
    pub most: u64,
    pub name: Name,
}

/// What one letter, or a number, asks for.
#[derive(Drop)]
pub enum Setting {
    /// `-c`
    Join,
    /// `-z`
    Zap,
    /// `-f`
    KeepFrom,
    /// `-b`
    KeepBody,
    /// `-k`
    WithBody,
    /// `-p`
    Prefix(Blob),
    /// `-x` and `-X`
    Take(Take),
    /// `-i`, `-I`, `-a` and `-A`
    Put(Put),
    /// `-u` and `-U`
    Unique(Unique),
    /// `-R`
    Rename(Rename),
    /// `-r`
    Reply,
    /// `-t`
    Trust,
    /// `-D`
    Cache(Cache),
    /// `+N`
    Skip(u64),
    /// `-N`
    Total(u64),
    /// `-s`
    Split,
    /// The program after `-s`.
    Program(Name),
    /// What is given to it as a word.
    Argument(Name),
}

/// What the next word is.
#[derive(Drop)]
pub enum Waits {
    /// A word of letters, or a number.
    Ready,
    /// What this letter takes.
    ForText(u8),
    /// What this letter takes after a first text.
    ForMore(u8, Blob),
    /// A program: all words after `-s` are its, or there is none.
    Program,
    /// A word for that program.
    Argument,
    /// Nothing: some word isn't read.
    Unread,
}
