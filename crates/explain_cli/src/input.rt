//! The mails on standard input.
use crate::output::complain;
use crate::status::{Status, Stopped};
use formail_split::parts_of_blob;
use pm_bytes::{Blob, Memory};
use std::alloc::Global;
use std::io::Read;

/// The mails of a mailbox, in order, as `formail -s` splits it; or the one mail.
pub fn read_mails(rt: &HostRuntime, is_mailbox: bool) -> Result<Vec<Blob>, Stopped> {
    let mut bytes = Vec::new(rt.alloc());
    match rt.stdin().read_to_end(&mut bytes) {
        Ok(_) => Ok(mails_of(rt.alloc(), Blob::from_vec(bytes), is_mailbox)?),
        Err(_) => {
            complain(rt, "can't read standard input", "")?;
            Err(Stopped(Status::ReadError))
        }
    }
}

// The mails of a mailbox share its memory.
fn mails_of(alloc: Global, mut input: Blob, is_mailbox: bool) -> Result<Vec<Blob>, Memory> {
    if is_mailbox {
        input.share()?;
        return parts_of_blob(alloc, &input);
    }
    let mut one = Vec::new(alloc);
    one.push(input)?;
    Ok(one)
}
