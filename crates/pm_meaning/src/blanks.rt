//! A text without the blanks at its front.
ghost use Rattle.std.specs.Prelude.{◌≡◌, ◌≤◌, length, position};
ghost use Rattle.pm_meaning.specs.Leads.{is_no_blank, after_blanks};

use pm_bytes::is_blank;

/// The place of the first byte that is no blank.
fn blanks_end(text: &[u8]) -> Option<usize>
    ensures { result ≡ position is_no_blank text.now }
{
    text.iter().position(|byte| !is_blank(*byte))
}

/// The text without the blanks at its front.
pub fn past_blanks(text: &[u8]) -> &[u8]
    ensures value { result.now ≡ after_blanks text.now }
    ensures shorter { length result.now ≤ length text.now }
{
    &text[blanks_end(text).unwrap_or(text.len())..]
}
