//! Lists of bytes, names and what is read from them, for all other crates, and the error that says that memory ran out.
#![tactic(auto)]

mod alphabet;
mod bytes;
mod environment;
mod error;
mod laws;
mod letters;
mod names;
mod numbers;
mod paths;
mod shared;
mod text;

pub use alphabet::{
    BACKQUOTE, BACKSLASH, BANG, BAR, CARET, CLOSE_BRACE, CLOSE_BRACKET, CLOSE_PARENTHESIS, COLON,
    DOLLAR, DOT, DOUBLE_QUOTE, EQUALS, HASH, MINUS, NEWLINE, OPEN_BRACE, OPEN_BRACKET,
    OPEN_PARENTHESIS, PLUS, QUESTION, SINGLE_QUOTE, SPACE, STAR, TAB, UNDERSCORE, named_bytes,
};
pub use bytes::Blob;
pub use environment::{Environ, Pair, Pairs};
pub use error::{Memory, NameRefused};
pub use laws::examples;
pub use letters::{begins_name, continues_name, fold, is_blank, is_digit, is_space};
pub use names::Names;
pub use numbers::{read_count, read_number};
pub use paths::full;
pub use text::Name;
