//! Destinations and a status as they are told to people.
ghost use Rattle.std.specs.Prelude.{◌≡◌, ◌++◌, IfOk, OnOk};
ghost use Rattle.test_text.specs.Told.{told, told_names, listed, status_told};

use itoa::Buffer;
use pm_bytes::{Blob, Memory};
use std::alloc::Global;

/// The names with commas between them, `nothing` where there is none, and the status, where there is one.
pub fn told_text(alloc: Global, names: &[Blob], status: Option<u8>) -> Result<Blob, Memory>
    ensures { IfOk result (λ text. text ≡ told names.now status) }
{
    let mut text = told_names(alloc, names)?;
    push_status(&mut text, status)?;
    Ok(text)
}

fn push_status(text: &mut Blob, status: Option<u8>) -> Result<(), Memory>
    ensures { OnOk result (text.new ≡ text.old ++ status_told status) }
{
    let Some(status) = status else {
        return Ok(());
    };
    let mut number = Buffer::new();
    text.push_slice(b", status ")?;
    text.push_slice(number.format(status as u64).as_bytes())
}

fn told_names(alloc: Global, names: &[Blob]) -> Result<Blob, Memory>
    ensures { IfOk result (λ text. text ≡ told_names names.now) }
{
    match names.split_first() {
        None => Blob::from_slice(alloc, b"nothing"),
        Some((name, more)) => {
            let mut text = name.copy(alloc)?;
            push_names(&mut text, more)?;
            Ok(text)
        }
    }
}

fn push_names(text: &mut Blob, names: &[Blob]) -> Result<(), Memory>
    ensures { OnOk result (text.new ≡ text.old ++ listed names.now) }
{
    for name in names {
        text.push_slice(b", ")?;
        text.push_slice(name.as_slice())?;
    }
    Ok(())
}
