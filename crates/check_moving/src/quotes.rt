//! Quotes in values and program lines.
ghost use Rattle.std.specs.Prelude.{◌≡◌};
ghost use Rattle.check_moving.specs.Quotes;
ghost use Rattle.check_moving.specs.Quotes.{quote_after, plain_after, expands_in};

use pm_bytes::{BACKQUOTE, BACKSLASH, DOUBLE_QUOTE, SINGLE_QUOTE};

/// What a byte stands in.
#[derive(Clone, Copy)]
pub enum Quote {
    Plain,
    Single,
    Double,
    Back,
    /// After a backslash, outside of quotes and in double ones.
    Escaped,
    DoubleEscaped,
}

impl Quote {
    /// What the next byte stands in.
    pub fn after(self, byte: u8) -> Quote
        ensures { result ≡ quote_after self byte }
    {
        match self {
            Quote::Plain => plain_after(byte),
            Quote::Single => if byte == SINGLE_QUOTE {
                Quote::Plain
            } else {
                Quote::Single
            },
            Quote::Double => double_after(byte),
            Quote::Back => if byte == BACKQUOTE {
                Quote::Plain
            } else {
                Quote::Back
            },
            Quote::Escaped => Quote::Plain,
            Quote::DoubleEscaped => Quote::Double,
        }
    }

    /// Whether variables are expanded here.
    pub fn expands(self) -> bool
        ensures { result ≡ expands_in self }
    {
        matches!(self, Quote::Plain | Quote::Double)
    }

    /// Whether a blank ends a word here.
    pub fn is_plain(self) -> bool
        ensures { result ≡ Quotes.is_plain self }
    {
        matches!(self, Quote::Plain)
    }
}

fn plain_after(byte: u8) -> Quote
    ensures { result ≡ plain_after byte }
{
    if byte == SINGLE_QUOTE {
        Quote::Single
    } else if byte == DOUBLE_QUOTE {
        Quote::Double
    } else if byte == BACKQUOTE {
        Quote::Back
    } else if byte == BACKSLASH {
        Quote::Escaped
    } else {
        Quote::Plain
    }
}

fn double_after(byte: u8) -> Quote
    ensures { result ≡ quote_after Quote.Double byte }
{
    if byte == DOUBLE_QUOTE {
        Quote::Plain
    } else if byte == BACKQUOTE {
        Quote::Back
    } else if byte == BACKSLASH {
        Quote::DoubleEscaped
    } else {
        Quote::Double
    }
}
