//! Numbers and texts in columns.
ghost use Rattle.std.specs.Prelude.{◌≡◌, ◌++◌, OnOk, decimal};
ghost use Rattle.explain_mails.specs.Lines.{right};
ghost use Rattle.explain_mails.specs.Subjects.{begins_character, characters, shortened, blanks_after, in_columns};

use itoa::Buffer;
use pm_bytes::{Blob, Memory};

/// A number at the right of six columns.
#[tactic(auto, unfolding(crate::specs::Lines::right))]
pub fn push_right(line: &mut Blob, number: u64) -> Result<(), Memory>
    ensures { OnOk result (line.new ≡ line.old ++ right number) }
{
    let mut buffer = Buffer::new();
    let digits = buffer.format(number).as_bytes();
    let missing = 6usize.saturating_sub(digits.len());
    line.push_slice(&b"      "[..missing])?;
    line.push_slice(digits)
}

pub fn push_number(line: &mut Blob, number: u64) -> Result<(), Memory>
    ensures { OnOk result (line.new ≡ line.old ++ decimal number) }
{
    let mut buffer = Buffer::new();
    line.push_slice(buffer.format(number).as_bytes())
}

/// A text in forty columns, cut if it is longer.
pub fn push_in_columns(line: &mut Blob, text: &[u8]) -> Result<(), Memory>
    ensures { OnOk result (line.new ≡ line.old ++ in_columns text.now) }
{
    let text = shortened(40, text);
    line.push_slice(text)?;
    line.push_slice(blanks_after(text))
}

#[tactic(auto, unfolding(crate::specs::Subjects::blanks_after))]
fn blanks_after(text: &[u8]) -> &'static [u8]
    ensures { result.now ≡ blanks_after text.now }
{
    let missing = 40usize.saturating_sub(characters(text));
    &b"                                        "[..missing]
}

fn characters(text: &[u8]) -> usize
    ensures { result ≡ characters text.now }
{
    text.iter().filter(|byte| begins_character(**byte)).count()
}

fn begins_character(byte: u8) -> bool
    ensures { result ≡ begins_character byte }
{
    byte < 128 || 192 <= byte
}

// The longest front that has at most so many characters.
fn shortened(most: usize, text: &[u8]) -> &[u8]
    ensures { result.now ≡ shortened most text.now }
{
    let mut left = most;
    for (place, byte) in text.iter().enumerate() {
        if begins_character(*byte) {
            if left == 0 {
                return &text[..place];
            }
            left -= 1;
        }
    }
    text
}
