//! The line `From ` in front of a mail, as mailboxes and the options `-f` and `-r` ask.
ghost use Rattle.std.specs.Prelude.{◌≡◌, ◌≤◌, false, true, length, position, IfOk};
ghost use Rattle.std.specs.List.{before_first};
ghost use Rattle.pm_message.specs.FromLine.{has_from_line, makes_line, is_newline, without_line, is_no_blank};
ghost use Rattle.pm_message.specs.FromLine.{ends_word, after_blanks, sender_of, who_of, renewed_of, prepared_of};
ghost use Rattle.pm_message.specs.Split.{split_of};

use crate::{Mail, Message, divide, from_line, split};
use pm_bytes::{Blob, Memory, is_blank};
use std::alloc::Global;

/// What happens to the line `From ` that begins a mail.
#[derive(Drop)]
pub enum Renew {
    /// Nothing.
    Keep,
    /// One is made where there is none.
    AddMissing,
    /// One with this sender is made, and one that is there goes.
    Sender(Blob),
    /// One is made with the sender of the one that is there, which goes.
    Date,
}

/// Whether a From line is made.
pub fn needs_line(bytes: &[u8], renew: &Renew) -> bool
    ensures { result ≡ makes_line bytes.now renew.now }
{
    match renew {
        Renew::Keep => false,
        Renew::AddMissing => !bytes.starts_with(b"From "),
        Renew::Sender(_) => true,
        Renew::Date => true,
    }
}

/// The place of the first newline.
fn newline(bytes: &[u8]) -> Option<usize>
    ensures { result ≡ position is_newline bytes.now }
{
    bytes.iter().position(|byte| *byte == b'\n')
}

/// The place of the first byte that is no blank.
fn word_start(bytes: &[u8]) -> Option<usize>
    ensures { result ≡ position is_no_blank bytes.now }
{
    bytes.iter().position(|byte| !is_blank(*byte))
}

/// The place of the first blank or newline.
fn word_end(bytes: &[u8]) -> Option<usize>
    ensures { result ≡ position ends_word bytes.now }
{
    bytes
        .iter()
        .position(|byte| is_blank(*byte) || *byte == b'\n')
}

/// The bytes without the blanks at their front.
fn without_blanks(bytes: &[u8]) -> &[u8]
    ensures { result.now ≡ after_blanks bytes.now }
{
    &bytes[word_start(bytes).unwrap_or(bytes.len())..]
}

/// The bytes up to the first blank or newline.
fn word(bytes: &[u8]) -> &[u8]
    ensures { result.now ≡ before_first ends_word bytes.now }
{
    &bytes[..word_end(bytes).unwrap_or(bytes.len())]
}

/// The sender of the line `From ` that is there.
fn sender(bytes: &[u8]) -> &[u8]
    requires { 5 ≤ length bytes.now }
    ensures { result.now ≡ sender_of bytes.now }
{
    word(without_blanks(&bytes[5..]))
}

/// The mail without the line `From ` that it may begin with.
fn after_line(bytes: &[u8]) -> &[u8]
    ensures { result.now ≡ without_line bytes.now }
{
    if !bytes.starts_with(b"From ") {
        return bytes;
    }
    match newline(bytes) {
        None => b"",
        Some(place) => &bytes[place + 1..],
    }
}

/// Whom a new line is from.
fn new_sender<'a>(bytes: &'a [u8], renew: &'a Renew, logname: &'a [u8]) -> &'a [u8]
    ensures { result.now ≡ who_of bytes.now renew.now logname.now }
{
    match renew {
        Renew::Sender(who) => who.as_slice(),
        Renew::Date => if bytes.starts_with(b"From ") {
            sender(bytes)
        } else {
            logname
        },
        _ => logname,
    }
}

/// The mail with a new line `From `, in memory of its own.
fn with_line(
    alloc: Global,
    bytes: &[u8],
    renew: &Renew,
    logname: &[u8],
    moment: i64,
) -> Result<Blob, Memory>
    requires { makes_line bytes.now renew.now ≡ true }
    ensures { IfOk result (λ mail. mail ≡ renewed_of bytes.now renew.now logname.now moment) }
{
    let who = new_sender(bytes, renew, logname);
    let mut renewed = from_line(alloc, who, moment)?;
    renewed.push_slice(after_line(bytes))?;
    Ok(renewed)
}

/// The head and the body of a mail with its line `From ` as it is asked for (procmail(1), option -f). A line that is
/// made for want of another sender is from `logname`. `moment` is in seconds since 1970, in UTC. `Memory` is the only
/// error.
pub fn prepare(
    alloc: Global,
    bytes: &[u8],
    renew: &Renew,
    logname: &[u8],
    moment: i64,
) -> Result<Message, Memory>
    ensures prepared { IfOk result (λ message. message ≡ prepared_of bytes.now renew.now logname.now moment) }
    ensures kept { makes_line bytes.now renew.now ≡ false → IfOk result (λ message. message ≡ split_of bytes.now) }
{
    if !needs_line(bytes, renew) {
        return split(alloc, bytes);
    }
    divide(alloc, with_line(alloc, bytes, renew, logname, moment)?)
}

/// The mail that `prepare` gives, in the memory that it has where no line is made.
pub fn prepare_mail(
    alloc: Global,
    bytes: Blob,
    renew: &Renew,
    logname: &[u8],
    moment: i64,
) -> Result<Mail, Memory>
    ensures prepared { IfOk result (λ mail. mail ≡ prepared_of bytes renew.now logname.now moment) }
    ensures kept { makes_line bytes renew.now ≡ false → IfOk result (λ mail. mail ≡ split_of bytes) }
{
    if !needs_line(bytes.as_slice(), renew) {
        return Mail::split_own(alloc, bytes);
    }
    let renewed = with_line(alloc, bytes.as_slice(), renew, logname, moment)?;
    Mail::split_own(alloc, renewed)
}
