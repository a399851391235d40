//! What is printed of mails by two rcfiles.
ghost use Rattle.std.specs.Prelude.{◌≡◌, ◌++◌, IfOk, OnOk, length, flat_map, count_by};
ghost use Rattle.explain_mails.specs.Compared.{goes_elsewhere};
ghost use Rattle.explain_mails.specs.Lines.{comparison, count_told, going, moves_told, listed};

use crate::columns::push_number;
use crate::lines::push_move;
use crate::outcome::{Compared, goes_elsewhere};
use pm_bytes::{Blob, Memory};
use std::alloc::Global;

/// How many of the mails go elsewhere, and the line of each that does; with `quiet` the number alone.
pub fn comparison(alloc: Global, quiet: bool, mails: &[Compared]) -> Result<Blob, Memory>
    ensures { IfOk result (λ text. text ≡ comparison quiet mails.now) }
{
    let count = count_moved(alloc, mails)?;
    let mut text = Blob::empty(alloc);
    push_count(&mut text, count as u64, mails.len() as u64)?;
    let lines = move_lines(alloc, mails)?;
    push_moves(&mut text, quiet, lines.as_slice())?;
    Ok(text)
}

/// How many of the mails go elsewhere.
pub fn count_moved(alloc: Global, mails: &[Compared]) -> Result<usize, Memory>
    ensures { IfOk result (λ count. count ≡ count_by goes_elsewhere mails.now) }
{
    let mut count = 0;
    for mail in mails {
        if goes_elsewhere(alloc, mail)? {
            count += 1;
        }
    }
    Ok(count)
}

fn move_lines(alloc: Global, mails: &[Compared]) -> Result<Blob, Memory>
    ensures { IfOk result (λ lines. lines ≡ flat_map listed mails.now) }
{
    let mut lines = Blob::empty(alloc);
    for mail in mails {
        push_listed(alloc, &mut lines, mail)?;
    }
    Ok(lines)
}

fn push_listed(alloc: Global, lines: &mut Blob, mail: &Compared) -> Result<(), Memory>
    ensures { OnOk result (lines.new ≡ lines.old ++ listed mail.now) }
{
    if goes_elsewhere(alloc, mail)? {
        push_move(alloc, lines, mail)?;
    }
    Ok(())
}

fn push_count(text: &mut Blob, moved: u64, all: u64) -> Result<(), Memory>
    ensures { OnOk result (text.new ≡ text.old ++ count_told moved all) }
{
    push_number(text, moved)?;
    text.push_slice(b" of ")?;
    push_number(text, all)?;
    text.push_slice(going(moved))
}

fn going(moved: u64) -> &'static [u8]
    ensures { result.now ≡ going moved }
{
    if moved == 1 {
        b" mails goes elsewhere"
    } else {
        b" mails go elsewhere"
    }
}

fn push_moves(text: &mut Blob, quiet: bool, lines: &[u8]) -> Result<(), Memory>
    ensures { OnOk result (text.new ≡ text.old ++ moves_told quiet lines.now) }
{
    if quiet || lines.is_empty() {
        return text.push_slice(b".\n");
    }
    text.push_slice(b":\n")?;
    text.push_slice(lines)
}
