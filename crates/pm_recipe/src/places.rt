//! How far a reader comes in a text: the places in which it can stand, and what each byte does there.
ghost use Rattle.std.specs.Prelude.{◌≡◌, ◌≤◌, ◌<◌, length, drop, ◌+◌, false, not, ◌&&◌, ◌||◌, nat_eq, if◌then◌else◌};
ghost use Rattle.std.specs.Prelude.{◌-◌, Bool, ℕ};
ghost use Rattle.pm_bytes.specs.Alphabet as alphabet;
ghost use Rattle.pm_recipe.specs.Bytes.{begins_with};
ghost use Rattle.pm_recipe.specs.Places.{Places, reach_of, rest_of, far, passed, text_after};

use crate::bytes::starts_with;
use pm_bytes::{BACKSLASH, NEWLINE};

/// A place in which a reader of a text can stand. An enum has those of one reader.
pub trait Place: Copy {
    ghost places: { Places Self };

    /// Whether a backslash before a newline joins two lines here.
    fn joins(self) -> bool
        ensures { result ≡ places.joins self };

    /// Whether this byte is no part any more of what is read.
    fn ends(self, byte: u8) -> bool
        ensures { result ≡ places.ends self byte };

    /// The place after a byte that is part of it.
    fn after(self, byte: u8) -> Self
        ensures { result ≡ places.after self byte };
}

/// How many bytes were read, and where the reader stands then.
#[derive(Clone, Copy)]
pub struct Extent<P> {
    pub length: usize,
    pub place: P,
}

pub fn newline_after(text: &[u8], i: usize) -> bool
    requires { i < length text.now }
    ensures { result ≡ begins_with alphabet.NEWLINE (drop (i + 1) text.now) }
{
    starts_with(NEWLINE, &text[i + 1..])
}

fn joins_here<P: Place>(place: P, byte: u8, newline: bool) -> bool
    ensures { result ≡ P.places.joins place && nat_eq byte alphabet.BACKSLASH && newline }
{
    place.joins() && byte == BACKSLASH && newline
}

/// How far a reader comes from this place.
pub fn reach<P: Place>(place: P, text: &[u8]) -> Extent<P>
    ensures length { result.length ≡ reach_of P.places false place text.now }
    ensures place { result.place ≡ rest_of P.places false place text.now }
    ensures within { result.length ≤ length text.now }
{
    let mut here = place;
    let mut joined = false;
    for (i, byte) in text.iter().enumerate() {
        let joining = joins_here(here, *byte, newline_after(text, i));
        if stops(joined, joining, here, *byte) {
            return Extent {
                length: i,
                place: here,
            };
        }
        here = place_after(joined, joining, here, *byte);
        joined = joining && !joined;
    }
    Extent {
        length: text.len(),
        place: here,
    }
}

fn stops<P: Place>(joined: bool, joining: bool, place: P, byte: u8) -> bool
    ensures { result ≡ not joined && not joining && P.places.ends place byte }
{
    !joined && !joining && place.ends(byte)
}

fn place_after<P: Place>(joined: bool, joining: bool, place: P, byte: u8) -> P
    ensures { result ≡ (if joined || joining then place else P.places.after place byte) }
{
    if joined || joining {
        place
    } else {
        place.after(byte)
    }
}

/// What is read, and what is after, where a reader comes no further.
pub fn split<P: Place>(place: P, text: &[u8]) -> (&[u8], &[u8])
    ensures passed { result.0.now ≡ passed P.places place text.now }
    ensures behind { result.1.now ≡ text_after P.places place text.now }
    ensures length { far P.places place text.now + length result.1.now ≡ length text.now }
{
    let length = reach(place, text).length;
    (&text[..length], &text[length..])
}

/// What is after, where a reader comes no further.
pub fn past<P: Place>(place: P, text: &[u8]) -> &[u8]
    ensures text { result.now ≡ text_after P.places place text.now }
    ensures length { far P.places place text.now + length result.now ≡ length text.now }
{
    split(place, text).1
}

/// The bytes after the first.
pub fn past_first(text: &[u8]) -> &[u8]
    ensures text { result.now ≡ drop 1 text.now }
    ensures shorter { length result.now ≤ length text.now - 1 }
{
    match text {
        [] => text,
        [_, rest @ ..] => rest,
    }
}
