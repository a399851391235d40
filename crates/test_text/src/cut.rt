//! The parts of a line.
ghost use Rattle.std.specs.Prelude.{◌≡◌, option_map};
ghost use Rattle.test_text.specs.Cuts.{after_word, begins_with_blank, cut_at, cut_at_last, trimmed};

use bstr::ByteSlice;

/// What stands before and after the first such text.
pub(crate) fn cut_at<'a>(text: &'a [u8], needle: &[u8]) -> Option<(&'a [u8], &'a [u8])>
    ensures { option_map (λ cut. (cut.0.now, cut.1.now)) result ≡ cut_at needle.now text.now }
{
    text.split_once_str(needle)
}

/// What stands before and after the last such text.
pub(crate) fn cut_at_last<'a>(text: &'a [u8], needle: &[u8]) -> Option<(&'a [u8], &'a [u8])>
    ensures { option_map (λ cut. (cut.0.now, cut.1.now)) result ≡ cut_at_last needle.now text.now }
{
    text.rsplit_once_str(needle)
}

/// What stands behind the word and blanks, if the text begins with it.
pub(crate) fn after_word<'a>(text: &'a [u8], word: &[u8]) -> Option<&'a [u8]>
    ensures { option_map (λ rest. rest.now) result ≡ after_word word.now text.now }
{
    if text.starts_with(word) && begins_with_blank(&text[word.len()..]) {
        return Some((&text[word.len()..]).trim());
    }
    None
}

fn begins_with_blank(text: &[u8]) -> bool
    ensures { result ≡ begins_with_blank text.now }
{
    match text.first() {
        None => true,
        Some(byte) => *byte == b' ' || *byte == b'\t',
    }
}
