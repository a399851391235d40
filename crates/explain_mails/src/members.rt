//! Members of objects. Bytes that are no UTF-8 are written as U+FFFD.
ghost use Rattle.std.specs.Prelude.{OnOk, ◌∷◌, [], map, option_copied};
ghost use Rattle.explain_mails.specs.Members.{Adds, text_token, text_member, maybe_member, number_member, truth_member};
ghost use Rattle.explain_mails.specs.Members.{texts_member, maybe_number_member, signed_member};

use bstr::ByteSlice;
use json::Writer;
use pm_bytes::{Blob, Memory};
use std::alloc::Global;

fn put_text(alloc: Global, writer: &mut Writer, bytes: &[u8]) -> Result<(), Memory>
    ensures { OnOk result (Adds writer.old writer.new (text_token bytes.now ∷ [])) }
{
    let text = bytes.to_str_lossy(alloc)?;
    writer.string(text.as_str())?;
    Ok(())
}

pub(crate) fn put_text_member(
    alloc: Global,
    writer: &mut Writer,
    name: &str,
    bytes: &[u8],
) -> Result<(), Memory>
    ensures { OnOk result (Adds writer.old writer.new (text_member name.now bytes.now)) }
{
    writer.key(name)?;
    put_text(alloc, writer, bytes)
}

/// `null` where there is none.
pub(crate) fn put_maybe_member(
    alloc: Global,
    writer: &mut Writer,
    name: &str,
    text: Option<&Blob>,
) -> Result<(), Memory>
    ensures { OnOk result (Adds writer.old writer.new (maybe_member name.now (option_copied text.entry))) }
{
    match text {
        Some(text) => put_text_member(alloc, writer, name, text.as_slice()),
        None => {
            writer.key(name)?;
            writer.null()?;
            Ok(())
        }
    }
}

pub(crate) fn put_number_member(writer: &mut Writer, name: &str, number: u64) -> Result<(), Memory>
    ensures { OnOk result (Adds writer.old writer.new (number_member name.now number)) }
{
    writer.key(name)?;
    writer.u64(number)?;
    Ok(())
}

/// `null` where there is none.
pub(crate) fn put_maybe_number_member(
    writer: &mut Writer,
    name: &str,
    number: Option<u64>,
) -> Result<(), Memory>
    ensures { OnOk result (Adds writer.old writer.new (maybe_number_member name.now number)) }
{
    match number {
        Some(number) => put_number_member(writer, name, number),
        None => {
            writer.key(name)?;
            writer.null()?;
            Ok(())
        }
    }
}

pub(crate) fn put_signed_member(writer: &mut Writer, name: &str, number: i32) -> Result<(), Memory>
    ensures { OnOk result (Adds writer.old writer.new (signed_member name.now number)) }
{
    writer.key(name)?;
    writer.i64(number as i64)?;
    Ok(())
}

pub(crate) fn put_truth_member(writer: &mut Writer, name: &str, truth: bool) -> Result<(), Memory>
    ensures { OnOk result (Adds writer.old writer.new (truth_member name.now truth)) }
{
    writer.key(name)?;
    writer.boolean(truth)?;
    Ok(())
}

pub(crate) fn put_texts_member(
    alloc: Global,
    writer: &mut Writer,
    name: &str,
    texts: &[Blob],
) -> Result<(), Memory>
    ensures { OnOk result (Adds writer.old writer.new (texts_member name.now texts.now)) }
{
    writer.key(name)?;
    writer.begin_array()?;
    put_texts(alloc, writer, texts)?;
    writer.end_array()?;
    Ok(())
}

fn put_texts(alloc: Global, writer: &mut Writer, texts: &[Blob]) -> Result<(), Memory>
    ensures { OnOk result (Adds writer.old writer.new (map text_token texts.now)) }
{
    for text in texts {
        put_text(alloc, writer, text.as_slice())?;
    }
    Ok(())
}
