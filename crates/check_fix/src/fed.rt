//! What a program gets of the mail, by the colon line of its recipe.
ghost use Rattle.std.specs.Prelude.{◌≡◌, []};
ghost use Rattle.check_fix.specs.Fed;

use crate::copies::{before_braces, is_colon};
use pm_recipe::{Flags, Kind, Span, read_flags};

// The last colon line before this place, or nothing.
fn colon_before<'a>(place: usize, all: &[Span<'a>]) -> &'a [u8]
    ensures { result.now ≡ Fed.colon_before place [] all.now }
{
    let mut text: &[u8] = &[];
    for span in all {
        if span.first >= place {
            return text;
        }
        if is_colon(span.kind) {
            text = span.bytes;
        }
    }
    text
}

fn is_program(kind: Kind) -> bool
    ensures { result ≡ Fed.is_program kind }
{
    match kind {
        Kind::Pipe | Kind::Capture => true,
        _ => false,
    }
}

fn feeds_body(flags: Flags) -> bool
    ensures { result ≡ Fed.feeds_body flags }
{
    flags.feed_body && !flags.feed_head
}

/// Whether this is the program of a recipe whose flags feed it the body alone.
pub fn gets_body(span: &Span<'_>, all: &[Span<'_>]) -> bool
    ensures { result ≡ Fed.gets_body span.now all.now }
{
    is_program(span.kind) && feeds_body(read_flags(before_braces(colon_before(span.first, all))))
}
