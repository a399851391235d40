//! The messages of a trial.
ghost use Rattle.std.specs.Prelude.{◌≡◌, IfOk};
ghost use Rattle.pm_top.specs.Messages.{message_of};

use itoa::Buffer;
use pm_bytes::{Blob, Memory};
use std::alloc::Global;

/// The message with this number, counted from 0.
pub fn make_message(alloc: Global, number: u64) -> Result<Vec<u8>, Memory>
    ensures { IfOk result (λ message. message.items ≡ message_of number) }
{
    let mut buffer = Buffer::new();
    let mut message = Blob::from_slice(alloc, b"From t Thu Jan  1 00:00:00 1970\nTo: l")?;
    message.push_slice(buffer.format(number % 5).as_bytes())?;
    message.push_slice(b"@x\nSubject: ")?;
    message.push_slice(buffer.format(number).as_bytes())?;
    message.push_slice(b"\n\n")?;
    let body = "line\n".repeat(alloc, (number % 4) as usize)?;
    message.push_slice(body.as_bytes())?;
    Ok(message.into_vec(alloc)?)
}
