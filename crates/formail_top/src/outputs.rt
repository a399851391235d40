//! What is written for an input.
ghost use Rattle.std.specs.Prelude.{◌≡◌, IfOk, map, take};
ghost use Rattle.std.specs.List.{list_any, flat_map, concat};
ghost use Rattle.formail_split.specs.Parts.{parts_of, selected};
ghost use Rattle.formail_top.specs.Outputs.{mails_of, sender_of_output, wants_moment, output_of, outputs_of};
ghost use Rattle.formail_top.specs.Outputs.{each_output_of, id_of, ids_of, kept_of};

use crate::Request;
use formail_edit::{Edited, edit_mail, from_sender};
use formail_extra::{envelope, identifier, reply};
use formail_split::{parts_of_blob, select};
use pm_bytes::{Blob, Memory};
use pm_message::divide;
use std::alloc::Global;

// Copies of some mails.
fn copies(alloc: Global, mails: &[Blob]) -> Result<Vec<Blob>, Memory>
    ensures { IfOk result (λ copies. copies.items ≡ mails.now) }
{
    let mut copies = Vec::with_capacity(alloc, mails.len())?;
    for mail in mails {
        copies.push(mail.copy(alloc)?)?;
    }
    Ok(copies)
}

// The mails of a mailbox that are wanted.
fn wanted(alloc: Global, bytes: &Blob, request: &Request) -> Result<Vec<Blob>, Memory>
    ensures { IfOk result (λ mails. mails.items
        ≡ selected request.now.skip request.now.total (parts_of bytes.now)) }
{
    let parts = parts_of_blob(alloc, bytes)?;
    let all = parts.as_slice();
    let (first, last) = select(all, request.skip, request.total);
    let wanted = copies(alloc, &all[first..last])?;
    Ok(wanted)
}

/// The mails of an input, in its memory where it has several owners.
pub fn mails(alloc: Global, bytes: &Blob, request: &Request) -> Result<Vec<Blob>, Memory>
    ensures { IfOk result (λ mails. mails.items ≡ mails_of request.now bytes.now) }
{
    if request.split {
        return wanted(alloc, bytes, request);
    }
    let mut one = Vec::new(alloc);
    one.push(bytes.copy(alloc)?)?;
    Ok(one)
}

// The sender of the line that is put in front of a mail's output; none where none is due.
fn sender(alloc: Global, mail: &Blob, request: &Request) -> Result<Option<Blob>, Memory>
    ensures { IfOk result (λ who. who ≡ sender_of_output request.now mail.now) }
{
    if request.reply {
        return Ok(None);
    }
    let message = divide(alloc, mail.copy(alloc)?)?;
    from_sender(alloc, &message, &request.edits)
}

/// Whether the output of some mail begins with a line that names the moment.
pub fn want_moment(alloc: Global, mails: &[Blob], request: &Request) -> Result<bool, Memory>
    ensures { IfOk result (λ wants. wants ≡ wants_moment request.now mails.now) }
{
    for mail in mails {
        if let Some(_) = sender(alloc, mail, request)? {
            return Ok(true);
        }
    }
    Ok(false)
}

// The output of one mail.
fn output(alloc: Global, mail: &Blob, request: &Request, moment: i64) -> Result<Edited, Memory>
    ensures { IfOk result (λ text. text ≡ output_of request.now moment mail.now) }
{
    if !request.reply {
        return edit_mail(alloc, mail, &request.edits, moment);
    }
    let message = divide(alloc, mail.copy(alloc)?)?;
    let text = reply(alloc, &message, request.trust, &request.edits)?;
    Ok(Edited::whole(alloc, text))
}

/// The outputs of some mails as texts that stand one after the other. `moment` is in seconds since 1970, in UTC.
pub fn outputs(
    alloc: Global,
    mails: &[Blob],
    request: &Request,
    moment: i64,
) -> Result<Vec<Blob>, Memory>
    ensures { IfOk result (λ texts. concat texts.items ≡ outputs_of request.now moment mails.now) }
{
    let mut texts = Vec::new(alloc);
    for mail in mails {
        let (front, rest) = output(alloc, mail, request, moment)?.into_parts();
        texts.push(front)?;
        texts.push(rest)?;
    }
    Ok(texts)
}

/// The outputs of some mails, each for itself. `moment` is in seconds since 1970, in UTC.
pub fn each_output(
    alloc: Global,
    mails: &[Blob],
    request: &Request,
    moment: i64,
) -> Result<Vec<Blob>, Memory>
    ensures { IfOk result (λ texts. texts.items ≡ each_output_of request.now moment mails.now) }
{
    let mut texts = Vec::new(alloc);
    for mail in mails {
        texts.push(output(alloc, mail, request, moment)?.join()?)?;
    }
    Ok(texts)
}

// At most so many bytes of a text.
fn cut(alloc: Global, text: &Blob, most: usize) -> Result<Blob, Memory>
    ensures { IfOk result (λ short. short ≡ take most text.now) }
{
    let bytes = text.as_slice();
    Blob::from_slice(alloc, &bytes[..bytes.len().min(most)])
}

// What a mail is remembered by.
fn id(alloc: Global, mail: &Blob, request: &Request) -> Result<Option<Blob>, Memory>
    ensures { IfOk result (λ id. id ≡ id_of request.now mail.now) }
{
    let message = divide(alloc, mail.copy(alloc)?)?;
    if !request.reply {
        return identifier(alloc, &message);
    }
    match envelope(alloc, &message)? {
        None => Ok(None),
        Some(sender) => Ok(Some(cut(alloc, &sender, 4096)?)),
    }
}

/// What some mails are remembered by (formail(1), option -D).
pub fn ids(alloc: Global, mails: &[Blob], request: &Request) -> Result<Vec<Option<Blob>>, Memory>
    ensures { IfOk result (λ ids. ids.items ≡ ids_of request.now mails.now) }
{
    let mut ids = Vec::new(alloc);
    for mail in mails {
        ids.push(id(alloc, mail, request)?)?;
    }
    Ok(ids)
}

/// Those of some mails that are kept.
pub fn kept_mails(alloc: Global, mails: &[Blob], kept: &[bool]) -> Result<Vec<Blob>, Memory>
    ensures { IfOk result (λ left. left.items ≡ kept_of kept.now mails.now) }
{
    let mut left = Vec::new(alloc);
    let mut rest = mails;
    for keep in kept {
        let [mail, others @ ..] = rest else {
            return Ok(left);
        };
        if *keep {
            left.push(mail.copy(alloc)?)?;
        }
        rest = others;
    }
    Ok(left)
}
