//! What a byte of an expression is.
ghost use Rattle.std.specs.Prelude.{◌≡◌};
ghost use Rattle.check_moving.specs.Anchors;
ghost use Rattle.check_moving.specs.Anchors.{plain_spot, spot_after};

use pm_bytes::{BACKSLASH, CARET, CLOSE_BRACKET, OPEN_BRACKET};

/// What the next byte is.
#[derive(Clone, Copy)]
pub enum Spot {
    /// Neither escaped nor in a set.
    Plain,
    /// After a backslash.
    Escaped,
    /// The first byte of a set, or the one after its `^`.
    Open,
    Negated,
    /// In a set, after its first member.
    Member,
}

impl Spot {
    /// What the byte after this one is.
    pub fn after(self, byte: u8) -> Spot
        ensures { result ≡ spot_after self byte }
    {
        match self {
            Spot::Plain => plain_spot(byte),
            Spot::Escaped => Spot::Plain,
            Spot::Open => if byte == CARET {
                Spot::Negated
            } else {
                Spot::Member
            },
            Spot::Negated => Spot::Member,
            Spot::Member => if byte == CLOSE_BRACKET {
                Spot::Plain
            } else {
                Spot::Member
            },
        }
    }

    /// Whether it is neither escaped nor in a set.
    pub fn is_plain(self) -> bool
        ensures { result ≡ Anchors.is_plain self }
    {
        matches!(self, Spot::Plain)
    }
}

fn plain_spot(byte: u8) -> Spot
    ensures { result ≡ plain_spot byte }
{
    if byte == BACKSLASH {
        Spot::Escaped
    } else if byte == OPEN_BRACKET {
        Spot::Open
    } else {
        Spot::Plain
    }
}
