//! The ends of lines.
ghost use Rattle.std.specs.Prelude.{◌≡◌, ◌≤◌, length};
ghost use Rattle.pm_recipe.specs.Places.{far, text_after};
ghost use Rattle.pm_recipe.specs.Runs.{up_to_places};
ghost use Rattle.pm_recipe.specs.declared.runs.UpTo.TheVariants.{Newline};
ghost use Rattle.pm_recipe.specs.Spans.{newlines};

use memchr::memchr;
use pm_bytes::NEWLINE;

/// How far it is to the end of the line as written.
fn line_end(text: &[u8]) -> usize
    ensures length { result ≡ far up_to_places Newline text.now }
    ensures within { result ≤ length text.now }
{
    match memchr(NEWLINE, text) {
        Some(end) => end,
        None => text.len(),
    }
}

/// The end of the line as written, and what follows.
pub fn past_line(text: &[u8]) -> &[u8]
    ensures text { result.now ≡ text_after up_to_places Newline text.now }
    ensures shorter { length result.now ≤ length text.now }
{
    &text[line_end(text)..]
}

/// How many lines end in a text.
pub fn newlines_in(text: &[u8]) -> u64
    ensures count { result ≡ newlines text.now }
    ensures within { result ≤ length text.now }
{
    let mut count: u64 = 0;
    let mut at = 0;
    while at < text.len() {
        let Some(end) = memchr(NEWLINE, &text[at..]) else {
            return count;
        };
        count += 1;
        at += end + 1;
    }
    count
}
