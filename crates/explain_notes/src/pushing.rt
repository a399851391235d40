//! Numbers and texts, pushed to a line.
ghost use Rattle.std.specs.Prelude.{◌≡◌, ◌++◌, IfOk, OnOk, decimal};
ghost use Rattle.std.specs.Fmt.{signed_decimal};
ghost use Rattle.pm_journal.specs.LogText.{shown_byte, quoted};
ghost use Rattle.explain_notes.specs.Lines.{in_columns, blanks};

use itoa::Buffer;
use pm_bytes::{Blob, Memory};
use std::alloc::Global;

pub fn push_number(line: &mut Blob, number: u64) -> Result<(), Memory>
    ensures { OnOk result (line.new ≡ line.old ++ decimal number) }
{
    let mut buffer = Buffer::new();
    line.push_slice(buffer.format(number).as_bytes())
}

pub fn push_signed(line: &mut Blob, signed: i32) -> Result<(), Memory>
    ensures { OnOk result (line.new ≡ line.old ++ signed_decimal signed) }
{
    let mut buffer = Buffer::new();
    line.push_slice(buffer.format(signed).as_bytes())
}

/// The bytes, in which those below 32 are shown as blanks.
pub fn push_quoted(alloc: Global, line: &mut Blob, bytes: &[u8]) -> Result<(), Memory>
    ensures { OnOk result (line.new ≡ line.old ++ quoted bytes.now) }
{
    let shown = quote(alloc, bytes)?;
    line.push_slice(shown.as_slice())
}

fn quote(alloc: Global, bytes: &[u8]) -> Result<Vec<u8>, Memory>
    ensures { IfOk result (λ shown. shown.items ≡ quoted bytes.now) }
{
    Ok(bytes.iter().map(|byte| shown(*byte)).collect(alloc)?)
}

fn shown(byte: u8) -> u8
    ensures { result ≡ shown_byte byte }
{
    if byte < 32 { b' ' } else { byte }
}

/// A text at the left of so many columns, forty at most.
#[tactic(auto, unfolding(crate::specs::Lines::blanks))]
pub fn push_in_columns(line: &mut Blob, columns: usize, text: &[u8]) -> Result<(), Memory>
    ensures { OnOk result (line.new ≡ line.old ++ in_columns columns text.now) }
{
    line.push_slice(text)?;
    line.push_slice(blanks(columns.saturating_sub(text.len())))
}

#[tactic(auto, unfolding(crate::specs::Lines::blanks))]
fn blanks(count: usize) -> &'static [u8]
    ensures { result.now ≡ blanks count }
{
    let most = b"                                        ".as_slice();
    if count < most.len() {
        &most[..count]
    } else {
        most
    }
}
