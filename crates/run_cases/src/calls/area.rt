//! The areas that are searched.
ghost use Rattle.std.specs.Prelude.{◌≡◌, ◌+◌, ◌<◌, IfOk, length, vec_len};

use std::alloc::{AllocError, Global};

// Ordinary lines, in which none of the benchmark's expressions for text matches.
const TEXT: &[u8] = b"Hello Anna,\n\
    thank you for the notes about our meeting on Tuesday. I have read them twice and\n\
    I think that we agree on most of the points, but for two of the questions that\n\
    Peter raised: who pays for the travel, and when the first draft has to be ready.\n\
    \n\
    The budget for this year is 14200, of which we have spent 9350 so far. So I would\n\
    say that we can pay for three people and not for five. Could you ask the others\n\
    how they see it? Some of them may have plans already, since the school holidays\n\
    begin on 3 July this time.\n\
    \n\
    As to the draft: chapters 1 and 2 are done, chapter 3 lacks the tables, and of the\n\
    last one there is only an outline. If you send me your part by the end of the week,\n\
    I can put everything together on Monday and give it to the printers in time.\n\
    \n\
    > Do we still need the old figures?\n\
    \n\
    No, the new ones replace them. Please keep a copy of the old ones anyway, because\n\
    Martin wants to compare both (he wrote that he found a mistake in figure 7).\n\
    \n\
    Best regards, and see you on Thursday\n\
    Karl\n\
    --\n\
    Karl Weber, Institute of Physics, Room 214, phone 555 0142, weber@physics.example\n\
    \n";

// HTML in one line.
const LINKS: &[u8] = b"<p>See <a href=\"https://shop.example/item?id=4711\">this offer</a> or \
    <a class=\"more\" href=\"https://shop.example/list\">all of them</a>, <b>today</b> only.</p> ";

// Prose without newlines.
const PROSE: &[u8] =
    b"thank you for the notes about our meeting on Tuesday. I have read them twice and I \
    think that we agree on most of the points, but for two of the questions that Peter raised: who \
    pays for the travel, and when the first draft of the report has to be ready for the others. ";

/// What an area is made of.
#[derive(Clone, Copy, Drop)]
pub enum Kind {
    /// The letter a, again and again.
    Letters,
    /// One line: `Subject:` and then ` re:` again and again.
    Replies,
    /// Ordinary lines.
    Text,
    /// HTML in one line.
    Links,
    /// Prose without newlines.
    Prose,
    /// The letters a and b in turns.
    Pairs,
}

/// The kind that a word names.
pub fn kind_of(word: &str) -> Option<Kind> {
    match word {
        "a" => Some(Kind::Letters),
        "re" => Some(Kind::Replies),
        "text" => Some(Kind::Text),
        "links" => Some(Kind::Links),
        "prose" => Some(Kind::Prose),
        "pairs" => Some(Kind::Pairs),
        _ => None,
    }
}

/// An area of this many bytes and those of the first part.
fn filled(alloc: Global, first: &[u8], part: &[u8], size: usize) -> Result<Vec<u8>, AllocError>
    requires { 0 < length part.now }
    ensures { IfOk result (λ area. vec_len area ≡ length first.now + size) }
{
    let mut area = Vec::new(alloc);
    area.extend_from_slice(first)?;
    for index in 0..size {
        area.push(part[index % part.len()])?;
    }
    Ok(area)
}

/// An area of this kind and size.
pub fn make(alloc: Global, kind: Kind, size: usize) -> Result<Vec<u8>, AllocError> {
    match kind {
        Kind::Letters => filled(alloc, b"", b"a", size),
        Kind::Replies => filled(alloc, b"Subject:", b" re:", size),
        Kind::Text => filled(alloc, b"", TEXT, size),
        Kind::Links => filled(alloc, b"", LINKS, size),
        Kind::Prose => filled(alloc, b"", PROSE, size),
        Kind::Pairs => filled(alloc, b"", b"ab", size),
    }
}
