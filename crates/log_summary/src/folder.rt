//! Mails of a directory are files of their own, and count for the directory.
ghost use Rattle.std.specs.Prelude.{◌≡◌, ◌++◌, ◌<◌, IfOk, IfSome, codes, length};
ghost use Rattle.std.specs.List.{list_all};
ghost use Rattle.memchr.specs.Find.{is_byte, last_of, places};
ghost use Rattle.log_summary.specs.Folders.{folder, folder_in, is_plain_byte, is_maildir_byte, is_plain_file};
ghost use Rattle.log_summary.specs.Folders.{is_maildir_file, is_some};
ghost use Rattle.pm_bytes.specs.Letter.{is_digit_byte};

use memchr::memrchr;
use pm_bytes::{Memory, continues_name, is_digit};
use std::alloc::Global;

/// The folder that a name in a log belongs to, as mailstat(1) sums them: the directory with a slash for files `msg.*`
/// and those of a maildir, with `/.` for those of an MH folder, and else the name.
pub fn folder_of(alloc: Global, name: &[u8]) -> Result<Vec<u8>, Memory>
    ensures { IfOk result (λ text. text.items ≡ folder name.now) }
{
    match last_slash(name) {
        None => Ok(name.to_vec(alloc)?),
        Some(slash) => folder_in(alloc, &name[..slash], &name[slash + 1..]),
    }
}

fn last_slash(name: &[u8]) -> Option<usize>
    ensures value { result ≡ last_of (places (is_byte 47) name.now) }
    ensures within { IfSome result (λ place. place < length name.now) }
{
    memrchr(b'/', name)
}

fn folder_in(alloc: Global, directory: &[u8], file: &[u8]) -> Result<Vec<u8>, Memory>
    ensures { IfOk result (λ text. text.items ≡ folder_in directory.now file.now) }
{
    if is_plain_file(file) {
        return joined(alloc, directory, b"/", b"");
    }
    if is_maildir_file(directory, file) {
        return Ok((&directory[..directory.len() - 3]).to_vec(alloc)?);
    }
    if is_some(file) && are_digits(file) {
        return joined(alloc, directory, b"/.", b"");
    }
    joined(alloc, directory, b"/", file)
}

fn joined(alloc: Global, text: &[u8], more: &[u8], last: &[u8]) -> Result<Vec<u8>, Memory>
    ensures { IfOk result (λ all. all.items ≡ text.now ++ more.now ++ last.now) }
{
    let mut all = text.to_vec(alloc)?;
    all.extend_from_slice(more)?;
    all.extend_from_slice(last)?;
    Ok(all)
}

fn is_plain_file(file: &[u8]) -> bool
    ensures { result ≡ is_plain_file file.now }
{
    file.starts_with(b"msg.") && is_some(&file[4..]) && are_plain(&file[4..])
}

fn is_maildir_file(directory: &[u8], file: &[u8]) -> bool
    ensures { result ≡ is_maildir_file directory.now file.now }
{
    directory.ends_with(b"/new") && is_some(file) && are_of_maildir(file)
}

fn is_some(text: &[u8]) -> bool
    ensures { result ≡ is_some text.now }
{
    match text {
        [] => false,
        [_, ..] => true,
    }
}

fn are_digits(text: &[u8]) -> bool
    ensures { result ≡ list_all is_digit_byte text.now }
{
    text.iter().all(|byte| is_digit(*byte))
}

fn are_plain(text: &[u8]) -> bool
    ensures { result ≡ list_all is_plain_byte text.now }
{
    text.iter().all(|byte| is_plain(*byte))
}

fn are_of_maildir(text: &[u8]) -> bool
    ensures { result ≡ list_all is_maildir_byte text.now }
{
    text.iter().all(|byte| is_of_maildir(*byte))
}

fn is_plain(byte: u8) -> bool
    ensures { result ≡ is_plain_byte byte }
{
    continues_name(byte) || byte == b'-'
}

fn is_of_maildir(byte: u8) -> bool
    ensures { result ≡ is_maildir_byte byte }
{
    is_plain(byte)
        || byte == b'.'
        || byte == b','
        || byte == b'+'
        || byte == b':'
        || byte == b'%'
        || byte == b'@'
}
