//! Mails at the front of a mailbox that are written as they stand, so that nothing is made of them.
ghost use Rattle.std.specs.Prelude.{◌≡◌, ◌≤◌, ◌++◌, ℤ, ℕ, List, true, false, None, IfOk, length, take, drop};
ghost use Rattle.formail_split.specs.Parts.{parts_of};
ghost use Rattle.formail_top.specs.Outputs.{mails_of, outputs_of, wants_moment};

use crate::Request;
use formail_edit::is_unchanged;
use formail_split::first_length;
use pm_bytes::{Blob, Memory};
use std::alloc::Global;

/// Whether the output of each mail of a mailbox is written, and nothing else is asked for.
pub fn writes_mailbox(request: &Request) -> bool
    ensures mails { result ≡ true → (bytes : List ℕ) → mails_of request.now bytes ≡ parts_of bytes }
    ensures reply { result ≡ true → request.now.reply ≡ false }
    ensures cache { result ≡ true → request.now.cache ≡ None }
    ensures program { result ≡ true → request.now.program ≡ None }
{
    if request.reply || request.cache.is_some() || request.program.is_some() {
        return false;
    }
    request.split && request.skip == 0 && request.total.is_none()
}

/// Where the first mail begins that isn't seen to be written as it stands: what is before it is its own output.
pub fn unchanged_front(alloc: Global, mailbox: &Blob, request: &Request) -> Result<usize, Memory>
    requires { request.now.reply ≡ false }
    ensures within { IfOk result (λ front. front ≤ length mailbox.now) }
    ensures outputs { IfOk result (λ front. (moment : ℤ) → outputs_of request.now moment (parts_of mailbox.now)
        ≡ take front mailbox.now ++ outputs_of request.now moment (parts_of (drop front mailbox.now))) }
    ensures wants { IfOk result (λ front. wants_moment request.now (parts_of mailbox.now)
        ≡ wants_moment request.now (parts_of (drop front mailbox.now))) }
{
    let bytes = mailbox.as_slice();
    let mut front = 0;
    while front < bytes.len() {
        let end = front + first_length(&bytes[front..]);
        let mail = mailbox.part(alloc, front, end)?;
        if !is_unchanged(alloc, &mail, &request.edits)? {
            return Ok(front);
        }
        front = end;
    }
    Ok(front)
}
