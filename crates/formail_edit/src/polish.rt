//! `-z` and `-c`: what the fields look like.
ghost use Rattle.std.specs.Prelude.{◌≡◌, ◌≤◌, ◌∷◌, ◌++◌, [], map, IfOk, length, option_to_list, true};
ghost use Rattle.std.specs.List.{list_all};
ghost use Rattle.pm_bytes.specs.Letter.{is_space_byte};
ghost use Rattle.formail_edit.specs.Keyed.{keyed_as, each};
ghost use Rattle.formail_edit.specs.Step.{spaced, zapped_field, joined};

use pm_bytes::{Blob, Memory, is_space};
use pm_message::{FieldKind, read_key};
use std::alloc::Global;

// Whether there are only blanks and newlines.
fn is_empty(content: &[u8]) -> bool
    ensures { result ≡ list_all is_space_byte content.now }
{
    content.iter().all(|byte| is_space(*byte))
}

// The name, and what follows it with a blank at its front.
fn with_blank(alloc: Global, name: &[u8], content: &[u8]) -> Result<Blob, Memory>
    ensures { IfOk result (λ text. text ≡ name.now ++ spaced content.now) }
{
    let mut text = Blob::from_slice(alloc, name)?;
    match content {
        [b' ' | b'\t', ..] => {}
        _ => text.push_slice(b" ")?,
    }
    text.push_slice(content)?;
    Ok(text)
}

fn zap_field(alloc: Global, field: Blob, first: bool) -> Result<Option<Blob>, Memory>
    ensures { IfOk result (λ text. option_to_list text ≡ zapped_field (keyed_as first field)) }
{
    let key = read_key(field.as_slice(), first);
    match key.kind {
        FieldKind::Named => {
            let (name, content) = field.as_slice().split_at(key.length);
            if is_empty(content) {
                return Ok(None);
            }
            Ok(Some(with_blank(alloc, name, content)?))
        }
        _ => Ok(Some(field)),
    }
}

/// The fields without the empty ones, each other with a blank after its name.
pub fn zap_all(alloc: Global, fields: Vec<Blob>) -> Result<Vec<Blob>, Memory>
    ensures { IfOk result (λ done. done.items ≡ each zapped_field fields.items) }
{
    let mut done = Vec::new(alloc);
    let mut first = true;
    for field in fields {
        if let Some(text) = zap_field(alloc, field, first)? {
            done.push(text)?;
        }
        first = false;
    }
    Ok(done)
}

/// The text with each newline and the blank after it as one blank.
pub fn join(alloc: Global, text: &[u8]) -> Result<Blob, Memory>
    ensures { IfOk result (λ line. line ≡ joined text.now) }
{
    let mut line = Vec::new(alloc);
    let mut rest = text;
    loop {
        match rest {
            [] => break,
            [b'\n', b' ' | b'\t', more @ ..] => {
                line.push(b' ')?;
                rest = more;
            }
            [byte, more @ ..] => {
                line.push(*byte)?;
                rest = more;
            }
        }
    }
    Ok(Blob::from_vec(line))
}

/// The fields with their folded lines joined.
pub fn join_all(alloc: Global, fields: Vec<Blob>) -> Result<Vec<Blob>, Memory>
    ensures { IfOk result (λ done. done.items ≡ map joined fields.items) }
{
    let mut done = Vec::new(alloc);
    for field in fields {
        done.push(join(alloc, field.as_slice())?)?;
    }
    Ok(done)
}
