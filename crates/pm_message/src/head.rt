//! Where a mail's head ends: at its first empty line (procmail(1)).
ghost use Rattle.std.specs.Prelude.{◌≡◌, ◌≤◌, IfOk, length, take, drop};
ghost use Rattle.pm_message.specs.Split.{IsSplit, split_of, head_of, body_of, whole_of};

use memchr::memmem;
use pm_bytes::{Blob, Memory};
use std::alloc::Global;

/// A mail in two parts: the head with the empty line that ends it, and the body.
#[derive(Drop)]
pub struct Message {
    pub head: Blob,
    pub body: Blob,
}

impl Message {
    /// The same mail. Parts that share their memory share it with the copy too. `Memory` is the only error.
    pub fn copy(&self, alloc: Global) -> Result<Message, Memory>
        ensures { IfOk result (λ copy. copy ≡ self.now) }
    {
        let head = self.head.copy(alloc)?;
        let body = self.body.copy(alloc)?;
        Ok(Message { head, body })
    }
}

/// How many bytes the head has, in one search.
fn head_length(bytes: &[u8]) -> usize
    ensures within { result ≤ length bytes.now }
    ensures head { take result bytes.now ≡ head_of bytes.now }
    ensures body { drop result bytes.now ≡ body_of bytes.now }
{
    if bytes.starts_with(b"\n") {
        return 1;
    }
    match memmem::find(bytes, b"\n\n") {
        None => bytes.len(),
        Some(place) => place + 2,
    }
}

/// The head and the body of a mail, as `split` has them, in the memory that the mail has.
pub fn divide(alloc: Global, mut mail: Blob) -> Result<Message, Memory>
    ensures parts { IfOk result (λ message. message ≡ split_of mail) }
    ensures shortest { IfOk result (λ message. IsSplit mail message) }
    ensures whole { IfOk result (λ message. whole_of message ≡ mail) }
{
    mail.share()?;
    let length = head_length(mail.as_slice());
    let head = mail.part(alloc, 0, length)?;
    let body = mail.part(alloc, length, mail.len())?;
    Ok(Message { head, body })
}

/// The head and the body of a mail. A mail without an empty line is all head. `Memory` is the only error.
pub fn split(alloc: Global, bytes: &[u8]) -> Result<Message, Memory>
    ensures parts { IfOk result (λ message. message ≡ split_of bytes.now) }
    ensures shortest { IfOk result (λ message. IsSplit bytes.now message) }
    ensures whole { IfOk result (λ message. whole_of message ≡ bytes.now) }
{
    divide(alloc, Blob::from_slice(alloc, bytes)?)
}

/// The head and the body in one piece. `Memory` is the only error.
pub fn whole(alloc: Global, message: &Message) -> Result<Blob, Memory>
    ensures { IfOk result (λ bytes. bytes ≡ whole_of message.now) }
{
    let mut bytes = message.head.copy(alloc)?;
    bytes.push_slice(message.body.as_slice())?;
    Ok(bytes)
}
