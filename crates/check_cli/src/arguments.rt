//! Arguments that are assignments, and those that name rcfiles.
use pm_bytes::{begins_name, continues_name};

/// What an argument is.
#[derive(Clone, Copy)]
pub enum Argument<'a> {
    Assignment { name: &'a [u8], value: &'a [u8] },
    Rcfile(&'a str),
    /// It has an equals sign, and no name before it.
    NoName,
}

/// As procmail reads it: with an equals sign it is an assignment.
pub fn argument_of(word: &str) -> Argument<'_> {
    let bytes = word.as_bytes();
    let Some(sign) = bytes.iter().position(|byte| *byte == b'=') else {
        return Argument::Rcfile(word);
    };
    let name = &bytes[..sign];
    if is_name(name) {
        Argument::Assignment {
            name,
            value: &bytes[sign + 1..],
        }
    } else {
        Argument::NoName
    }
}

/// A letter or an underscore, and then letters, digits and underscores.
pub fn is_name(text: &[u8]) -> bool {
    match text.split_first() {
        Some((first, rest)) => begins_name(*first) && rest.iter().all(|byte| continues_name(*byte)),
        None => false,
    }
}
