//! The lines of a log: what procmail writes of each mail (procmailrc(5), LOGABSTRACT), and its messages.
ghost use Rattle.std.specs.Prelude.{◌≡◌, ◌<◌, IfSome, length, option_map, Some};
ghost use Rattle.memchr.specs.Find.{is_byte2, last_of, places};
ghost use Rattle.pm_bytes.specs.Alphabet.{SPACE, TAB};
ghost use Rattle.log_summary.specs.LogLines.{delivery_in, message_in, name_and_size, parted_at};

use bstr::ByteSlice;
use memchr::memrchr2;
use pm_bytes::read_count;

/// Where a mail went, and how many bytes of it.
#[derive(Clone, Copy)]
pub struct Delivery<'a> {
    /// The folder's name as it stands in the log.
    pub folder: &'a [u8],
    /// In bytes.
    pub size: u64,
}

/// The delivery that a line tells of. The folder's name and the size have blanks between them, or tabs, as procmail
/// 3.22 writes them.
pub fn delivery_of(line: &[u8]) -> Option<Delivery<'_>>
    ensures { option_map (λ d. (d.folder.now, d.size)) result ≡ delivery_in line.now }
{
    if line.starts_with(b"  Folder: ") {
        return name_and_size(&line[10..]);
    }
    None
}

fn name_and_size(text: &[u8]) -> Option<Delivery<'_>>
    ensures { option_map (λ d. (d.folder.now, d.size)) result ≡ name_and_size text.now }
{
    match last_blank(text) {
        None => None,
        Some(place) => parted_at(text, place),
    }
}

fn last_blank(text: &[u8]) -> Option<usize>
    ensures value { result ≡ last_of (places (is_byte2 SPACE TAB) text.now) }
    ensures within { IfSome result (λ place. place < length text.now) }
{
    memrchr2(b' ', b'\t', text)
}

fn parted_at(text: &[u8], place: usize) -> Option<Delivery<'_>>
    requires { place < length text.now }
    ensures { option_map (λ d. (d.folder.now, d.size)) result ≡ parted_at text.now (Some place) }
{
    match read_count(&text[place + 1..]) {
        None => None,
        Some(size) => Some(Delivery {
            folder: (&text[..place]).trim_end(),
            size,
        }),
    }
}

/// The message of a line, without the program's name.
pub fn message_of(line: &[u8]) -> Option<&[u8]>
    ensures { option_map (λ text. text.now) result ≡ message_in line.now }
{
    if line.starts_with(b"procmail: ") {
        return Some(&line[10..]);
    }
    None
}
