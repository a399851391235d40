//! Forms of mailboxes.
ghost use Rattle.std.specs.Prelude.{◌≡◌, IfOk};
ghost use Rattle.check_moving.specs.Kept;
ghost use Rattle.check_moving.specs.Mailboxes;
ghost use Rattle.check_moving.specs.Mailboxes.{filed, filed_by, first_of};

use crate::form::{Form, MailboxForm};
use crate::kept::kept;
use crate::text::{has_part, is, unquoted};
use crate::words::words;
use pm_bytes::{Blob, Memory};
use pm_recipe::{read_flags, read_lock};
use std::alloc::Global;

/// The forms of a mailbox under this colon line. `told` says that no maildir is told of any more.
pub fn mailbox_forms(
    alloc: Global,
    colon: &[u8],
    told: bool,
    text: &[u8],
) -> Result<Vec<Form>, Memory>
    ensures { IfOk result (λ forms. forms.items ≡ Kept.kept (filed_by colon.now told text.now)) }
{
    let lock = read_lock(alloc, colon)?;
    let words = words(alloc, text)?;
    forms_of(
        alloc,
        read_flags(colon).raw,
        &lock,
        told,
        text,
        words.as_slice(),
    )
}

fn forms_of(
    alloc: Global,
    raw: bool,
    lock: &Option<Blob>,
    told: bool,
    text: &[u8],
    words: &[Blob],
) -> Result<Vec<Form>, Memory>
    ensures { IfOk result (λ forms. forms.items ≡ Kept.kept (filed raw lock.now told text.now words.now)) }
{
    let first = first_of(words);
    let reasons = [
        (is_several(words), Form::Mailbox(MailboxForm::Several)),
        (has_hash(first), Form::Mailbox(MailboxForm::Hash)),
        (has_match(text), Form::Mailbox(MailboxForm::MatchName)),
        (
            is_first_maildir(told, first),
            Form::Mailbox(MailboxForm::FromLine),
        ),
        (raw, Form::Mailbox(MailboxForm::Raw)),
        (is_own_lock(lock, text), Form::Mailbox(MailboxForm::OwnLock)),
        (
            is_folder_lock(lock, first),
            Form::Mailbox(MailboxForm::FolderLock),
        ),
    ];
    kept(alloc, &reasons)
}

fn is_folder(name: &[u8]) -> bool
    ensures { result ≡ Mailboxes.is_folder name.now }
{
    let name = unquoted(name);
    name.ends_with(b"/") || name.ends_with(b"/.")
}

/// Whether the name is that of a maildir.
pub fn is_maildir(name: &[u8]) -> bool
    ensures { result ≡ Mailboxes.is_maildir name.now }
{
    let name = unquoted(name);
    name.ends_with(b"/") && !name.ends_with(b"/./")
}

fn first_of(words: &[Blob]) -> &[u8]
    ensures { result.now ≡ first_of words.now }
{
    match words {
        [] => &[],
        [word, ..] => word.as_slice(),
    }
}

fn is_several(words: &[Blob]) -> bool
    ensures { result ≡ Mailboxes.is_several words.now }
{
    match words {
        [one, other, ..] => !is_folder(one.as_slice()) && !other.as_slice().starts_with(b"#"),
        _ => false,
    }
}

fn has_hash(name: &[u8]) -> bool
    ensures { result ≡ Mailboxes.has_hash name.now }
{
    has_part(b"#", name) && !has_part(b"\"", name) && !has_part(b"'", name)
}

fn has_match(text: &[u8]) -> bool
    ensures { result ≡ Mailboxes.has_match text.now }
{
    (has_part(b"$MATCH", text) || has_part(b"${MATCH", text)) && !has_part(b"\"", text)
}

fn is_first_maildir(told: bool, name: &[u8]) -> bool
    ensures { result ≡ Mailboxes.is_first_maildir told name.now }
{
    !told && is_maildir(name)
}

fn is_own_lock(lock: &Option<Blob>, name: &[u8]) -> bool
    ensures { result ≡ Mailboxes.is_own_lock lock.now name.now }
{
    match lock {
        None => false,
        Some(lock) => is(lock.as_slice(), name) && !is(lock.as_slice(), b""),
    }
}

/// Whether it is a lock file without a name.
pub fn is_automatic(lock: &Option<Blob>) -> bool
    ensures { result ≡ Mailboxes.is_automatic lock.now }
{
    match lock {
        None => false,
        Some(lock) => is(lock.as_slice(), b""),
    }
}

fn is_folder_lock(lock: &Option<Blob>, name: &[u8]) -> bool
    ensures { result ≡ Mailboxes.is_folder_lock lock.now name.now }
{
    is_automatic(lock) && is_folder(name)
}
