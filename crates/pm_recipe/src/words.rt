//! Words, and the quotes in them.
ghost use Rattle.std.specs.Prelude.{◌≡◌};
ghost use Rattle.pm_recipe.specs.declared.words.InWord.TheVariants as InWord;
ghost use Rattle.pm_recipe.specs.WordPlaces.{word_after, is_quote};

use crate::places::Place;
use pm_bytes::{BACKQUOTE, BACKSLASH, DOUBLE_QUOTE, SINGLE_QUOTE, is_space};

/// In a word: which quotes are open, and whether the next byte stands after a backslash.
#[derive(Clone, Copy)]
pub enum InWord {
    Plain,
    Escaped,
    Single,
    Double,
    DoubleEscaped,
    Backquote,
    BackquoteEscaped,
    /// In backquotes that stand in double quotes.
    Inner,
    InnerEscaped,
}

fn plain_after(byte: u8) -> InWord
    ensures { result ≡ word_after InWord.Plain byte }
{
    match byte {
        BACKSLASH => InWord::Escaped,
        SINGLE_QUOTE => InWord::Single,
        DOUBLE_QUOTE => InWord::Double,
        BACKQUOTE => InWord::Backquote,
        _ => InWord::Plain,
    }
}

fn double_after(byte: u8) -> InWord
    ensures { result ≡ word_after InWord.Double byte }
{
    match byte {
        BACKSLASH => InWord::DoubleEscaped,
        DOUBLE_QUOTE => InWord::Plain,
        BACKQUOTE => InWord::Inner,
        _ => InWord::Double,
    }
}

fn backquote_after(byte: u8) -> InWord
    ensures { result ≡ word_after InWord.Backquote byte }
{
    match byte {
        BACKSLASH => InWord::BackquoteEscaped,
        BACKQUOTE => InWord::Plain,
        _ => InWord::Backquote,
    }
}

fn inner_after(byte: u8) -> InWord
    ensures { result ≡ word_after InWord.Inner byte }
{
    match byte {
        BACKSLASH => InWord::InnerEscaped,
        BACKQUOTE => InWord::Double,
        _ => InWord::Inner,
    }
}

impl Place for InWord {
    ghost use Rattle.pm_recipe.specs.WordPlaces.{word_places};

    ghost places = { word_places };

    // A backslash takes the newline after it along, as any other byte.
    fn joins(self) -> bool {
        false
    }

    fn ends(self, byte: u8) -> bool {
        match self {
            InWord::Plain => is_space(byte),
            _ => false,
        }
    }

    fn after(self, byte: u8) -> InWord {
        match self {
            InWord::Plain => plain_after(byte),
            InWord::Single => if byte == SINGLE_QUOTE {
                InWord::Plain
            } else {
                InWord::Single
            },
            InWord::Double => double_after(byte),
            InWord::Backquote => backquote_after(byte),
            InWord::Inner => inner_after(byte),
            InWord::Escaped => InWord::Plain,
            InWord::DoubleEscaped => InWord::Double,
            InWord::BackquoteEscaped => InWord::Backquote,
            InWord::InnerEscaped => InWord::Inner,
        }
    }
}

impl InWord {
    /// Whether a quote is open there.
    pub fn in_quote(self) -> bool
        ensures { result ≡ is_quote self }
    {
        match self {
            InWord::Plain | InWord::Escaped => false,
            _ => true,
        }
    }
}
