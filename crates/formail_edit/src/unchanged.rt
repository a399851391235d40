//! Mails that are written as they stand.
ghost use Rattle.std.specs.Prelude.{◌≡◌, ℤ, ℕ, List, true, None, IfOk};
ghost use Rattle.pm_message.specs.Split.{split_of};
ghost use Rattle.pm_message.specs.Field.{texts_of};
ghost use Rattle.formail_edit.specs.Step.{edited_fields};
ghost use Rattle.formail_edit.specs.Sender.{begins_from, line_at, sender_for};
ghost use Rattle.formail_edit.specs.Output.{edited};

use crate::Edits;
use crate::output::stays;
use pm_bytes::{Blob, Memory};
use pm_message::{Message, divide};
use std::alloc::Global;

/// Whether the edits leave any fields as they are.
fn keep_fields(edits: &Edits) -> bool
    ensures { result ≡ true → (fields : List (List ℕ)) → edited_fields edits.now fields ≡ fields }
{
    let names_none = edits.renames.as_slice().is_empty() && edits.uniques.as_slice().is_empty();
    names_none && edits.puts.as_slice().is_empty() && !edits.zap && !edits.join
}

/// Whether the edits leave the fields of a head as they are, of which the first is a line `From `.
pub fn keeps_line(head: &[u8], edits: &Edits) -> bool
    ensures same { result ≡ true → edited_fields edits.now (texts_of head.now) ≡ texts_of head.now }
    ensures line { result ≡ true → begins_from (texts_of head.now) ≡ true }
{
    keep_fields(edits) && head.starts_with(b"From ")
}

// Whether what is written of a divided mail is the mail as it stands.
fn is_same(message: &Message, edits: &Edits) -> bool
    ensures same { result ≡ true → (mail : List ℕ) → message.now ≡ split_of mail → (moment : ℤ)
        → edited message.now edits.now (line_at moment message.now edits.now) ≡ mail }
    ensures none { result ≡ true → sender_for message.now edits.now ≡ None }
{
    let body = message.body.as_slice();
    if body.is_empty() || !edits.takes.as_slice().is_empty() {
        return false;
    }
    keeps_line(message.head.as_slice(), edits) && stays(body, edits)
}

/// Whether a mail is seen to be written as it stands, with no line in front; a few others are too. `Memory` is the only
/// error.
pub fn is_unchanged(alloc: Global, mail: &Blob, edits: &Edits) -> Result<bool, Memory>
    ensures same { IfOk result (λ is. is ≡ true → (moment : ℤ)
        → edited (split_of mail.now) edits.now (line_at moment (split_of mail.now) edits.now) ≡ mail.now) }
    ensures none { IfOk result (λ is. is ≡ true → sender_for (split_of mail.now) edits.now ≡ None) }
{
    let message = divide(alloc, mail.copy(alloc)?)?;
    Ok(is_same(&message, edits))
}
