//! Calls of formail that are brought over.
ghost use Rattle.std.specs.Prelude.{◌≡◌, ◌++◌, ◌<◌, IfOk, IfSome, OnOk, length, not, position};
ghost use Rattle.check_fix.specs.Calls;
ghost use Rattle.check_fix.specs.Calls.{call_edits, header_edits, body_edits, empty_edits};
ghost use Rattle.check_fix.specs.Calls.{after_reply};
ghost use Rattle.check_fix.specs.Calls.{replied_by};
ghost use Rattle.check_fix.specs.Calls.{reply_edits};
ghost use Rattle.check_fix.specs.Calls.{reply_start};
ghost use Rattle.check_fix.specs.Calls.{split_edits, rename_edits};
ghost use Rattle.check_moving.specs.Text;
ghost use Rattle.check_moving.specs.Words;
ghost use Rattle.check_fix.specs.Calls.{option_at, removed_edits, length_edits};
ghost use Rattle.check_fix.specs.Calls.{appended_edits, quiet_edits, trust_edits};
ghost use Rattle.check_fix.specs.Edits.{edit_at};
ghost use Rattle.std.specs.Prelude.{codes};

use crate::edits::{Edit, put};
use crate::parts::{
    before, ends_command, from_part, has_part, is_above, is_break_byte, past, past_blanks,
    past_digits,
};
use pm_bytes::{Blob, Memory};
use pm_recipe::Span;
use std::alloc::Global;

fn whole_call<'a>(part: &[u8], text: &'a [u8]) -> &'a [u8]
    ensures { result.now ≡ Calls.whole_call part.now text.now }
{
    let call = from_part(part, text);
    if ends_command(past_blanks(past(part.len(), call))) {
        call
    } else {
        &[]
    }
}

fn put_call(
    alloc: Global,
    span: &Span<'_>,
    part: &[u8],
    new: &[u8],
    edits: &mut Vec<Edit>,
) -> Result<(), Memory>
    ensures { OnOk result (edits.new.items ≡ edits.old.items
        ++ call_edits span.now.first span.now.bytes.now part.now new.now) }
{
    put(
        alloc,
        span,
        whole_call(part, span.bytes),
        part.len(),
        new,
        edits,
    )
}

fn put_header(alloc: Global, span: &Span<'_>, edits: &mut Vec<Edit>) -> Result<(), Memory>
    ensures { OnOk result (edits.new.items ≡ edits.old.items ++ header_edits span.now.first span.now.bytes.now) }
{
    put_call(alloc, span, b" formail -X \"\"", b" sed -e '/^$/q'", edits)?;
    put_call(alloc, span, b" formail -X ''", b" sed -e '/^$/q'", edits)?;
    put_call(alloc, span, b" $FORMAIL -X \"\"", b" sed -e '/^$/q'", edits)?;
    put_call(alloc, span, b" $FORMAIL -X ''", b" sed -e '/^$/q'", edits)?;
    Ok(())
}

fn put_body(alloc: Global, span: &Span<'_>, edits: &mut Vec<Edit>) -> Result<(), Memory>
    ensures { OnOk result (edits.new.items ≡ edits.old.items ++ body_edits span.now.first span.now.bytes.now) }
{
    put_call(
        alloc,
        span,
        b" formail -I \"\"",
        b" sed -n -e '/^$/,$p'",
        edits,
    )?;
    put_call(
        alloc,
        span,
        b" formail -I ''",
        b" sed -n -e '/^$/,$p'",
        edits,
    )?;
    put_call(
        alloc,
        span,
        b" $FORMAIL -I \"\"",
        b" sed -n -e '/^$/,$p'",
        edits,
    )?;
    put_call(
        alloc,
        span,
        b" $FORMAIL -I ''",
        b" sed -n -e '/^$/,$p'",
        edits,
    )
}

/// An empty name of a field.
pub fn put_empty(alloc: Global, span: &Span<'_>, edits: &mut Vec<Edit>) -> Result<(), Memory>
    ensures { OnOk result (edits.new.items ≡ edits.old.items ++ empty_edits span.now.first span.now.bytes.now) }
{
    put_header(alloc, span, edits)?;
    put_body(alloc, span, edits)
}

fn is_reply_letter(byte: u8) -> bool
    ensures { result ≡ Calls.is_reply_letter byte }
{
    byte == b'r' || byte == b't'
}

fn reply_end(text: &[u8]) -> Option<usize>
    ensures place { result ≡ position (λ byte. not (Calls.is_reply_letter byte)) text.now }
    ensures within { IfSome result (λ end. end < length text.now) }
{
    text.iter().position(|byte| !is_reply_letter(*byte))
}

fn past_reply(text: &[u8]) -> &[u8]
    ensures { result.now ≡ after_reply text.now }
{
    match reply_end(text) {
        None => &[],
        Some(end) => &text[end..],
    }
}

fn begins_field(text: &[u8]) -> bool
    ensures { result ≡ Calls.begins_field text.now }
{
    text.starts_with(b"z") || text.starts_with(b"x") || text.starts_with(b"X")
}

fn same_word(text: &[u8]) -> &[u8]
    ensures { result.now ≡ Calls.same_word text.now }
{
    if begins_field(text) { text } else { &[] }
}

fn next_word(text: &[u8]) -> &[u8]
    ensures { result.now ≡ Calls.next_word text.now }
{
    let word = past_blanks(text);
    if text.starts_with(b" ") && word.starts_with(b"-") && begins_field(past(1, word)) {
        text
    } else {
        &[]
    }
}

fn joined(alloc: Global, one: &[u8], other: &[u8]) -> Result<Blob, Memory>
    ensures { IfOk result (λ both. both ≡ one.now ++ other.now) }
{
    let mut both = Blob::from_slice(alloc, one)?;
    both.push_slice(other)?;
    Ok(both)
}

// What is asked for behind the letters of a reply.
fn put_split(
    alloc: Global,
    span: &Span<'_>,
    program: &[u8],
    edits: &mut Vec<Edit>,
) -> Result<(), Memory>
    ensures { OnOk result (edits.new.items ≡ edits.old.items
        ++ split_edits span.now.first span.now.bytes.now program.now) }
{
    let rest = reply_of(alloc, program, span.bytes)?;
    let piped = joined(alloc, b" | ", program)?;
    let letters = joined(alloc, piped.as_slice(), b" -")?;
    put(alloc, span, same_word(rest), 0, letters.as_slice(), edits)?;
    put(alloc, span, next_word(rest), 0, piped.as_slice(), edits)
}

fn break_place(text: &[u8]) -> Option<usize>
    ensures place { result ≡ position (λ byte. Words.is_break_byte byte) text.now }
    ensures within { IfSome result (λ end. end < length text.now) }
{
    text.iter().position(|byte| is_break_byte(*byte))
}

fn from_break(text: &[u8]) -> &[u8]
    ensures { result.now ≡ Calls.from_break text.now }
{
    match break_place(text) {
        None => &[],
        Some(place) => &text[place..],
    }
}

fn renaming(text: &[u8]) -> &[u8]
    ensures { result.now ≡ Calls.renaming text.now }
{
    before(text, from_break(text))
}

fn is_renaming(text: &[u8]) -> bool
    ensures { result ≡ Calls.is_renaming text.now }
{
    text.starts_with(b" -R ") && !has_part(b" -", past(3, renaming(text)))
}

fn start_of<'a>(alloc: Global, program: &[u8], text: &'a [u8]) -> Result<&'a [u8], Memory>
    ensures { IfOk result (λ rest. rest.now ≡ reply_start program.now text.now) }
{
    let call = joined(alloc, program, b" -r")?;
    Ok(past(program.len(), from_part(call.as_slice(), text)))
}

fn put_renamed(
    alloc: Global,
    span: &Span<'_>,
    program: &[u8],
    edits: &mut Vec<Edit>,
) -> Result<(), Memory>
    ensures { OnOk result (edits.new.items ≡ edits.old.items
        ++ rename_edits span.now.first span.now.bytes.now program.now) }
{
    let rest = reply_of(alloc, program, span.bytes)?;
    let start = start_of(alloc, program, span.bytes)?;
    let piped = joined(alloc, b" | ", program)?;
    let fields = joined(alloc, b" -f", renaming(rest))?;
    let before = joined(alloc, fields.as_slice(), piped.as_slice())?;
    let after = joined(alloc, piped.as_slice(), b" -f")?;
    put(alloc, span, start, 0, before.as_slice(), edits)?;
    put(alloc, span, rest, 0, after.as_slice(), edits)
}

// What follows the letters of the reply that a call begins.
fn reply_of<'a>(alloc: Global, program: &[u8], text: &'a [u8]) -> Result<&'a [u8], Memory>
    ensures { IfOk result (λ rest. rest.now ≡ Calls.reply_of program.now text.now) }
{
    let call = joined(alloc, program, b" -r")?;
    Ok(past_reply(past(program.len() + 3, from_part(call.as_slice(), text))))
}

fn has_path(alloc: Global, program: &[u8], text: &[u8]) -> Result<bool, Memory>
    ensures { IfOk result (λ has. has ≡ Text.has_part (codes "/" ++ program.now) text.now) }
{
    let path = joined(alloc, b"/", program)?;
    Ok(has_part(path.as_slice(), text))
}

fn put_replied(
    alloc: Global,
    span: &Span<'_>,
    program: &[u8],
    edits: &mut Vec<Edit>,
) -> Result<(), Memory>
    ensures { OnOk result (edits.new.items ≡ edits.old.items
        ++ replied_by span.now.first span.now.bytes.now program.now) }
{
    if has_path(alloc, program, span.bytes)? {
        return Ok(());
    }
    let rest = reply_of(alloc, program, span.bytes)?;
    if is_renaming(rest) {
        put_renamed(alloc, span, program, edits)
    } else {
        put_split(alloc, span, program, edits)
    }
}

/// `formail -r` with x, X or R.
pub fn put_reply(alloc: Global, span: &Span<'_>, edits: &mut Vec<Edit>) -> Result<(), Memory>
    ensures { OnOk result (edits.new.items ≡ edits.old.items ++ reply_edits span.now.first span.now.bytes.now) }
{
    put_replied(alloc, span, b"formail", edits)?;
    put_replied(alloc, span, b"$FORMAIL", edits)?;
    put_replied(alloc, span, b"${FORMAIL}", edits)?;
    Ok(())
}

fn put_option(
    alloc: Global,
    span: &Span<'_>,
    part: &[u8],
    edits: &mut Vec<Edit>,
) -> Result<(), Memory>
    ensures { OnOk result (edits.new.items ≡ edits.old.items ++ option_at span.now.first span.now.bytes.now part.now) }
{
    put(alloc, span, from_part(part, span.bytes), 0, b" -f", edits)
}

/// `formail -I "From "` without f.
pub fn put_removed(alloc: Global, span: &Span<'_>, edits: &mut Vec<Edit>) -> Result<(), Memory>
    ensures { OnOk result (edits.new.items ≡ edits.old.items ++ removed_edits span.now.first span.now.bytes.now) }
{
    put_option(alloc, span, b" -I \"From \"", edits)?;
    put_option(alloc, span, b" -I 'From '", edits)?;
    put_option(alloc, span, b" -I\"From \"", edits)?;
    put_option(alloc, span, b" -I'From '", edits)
}

fn cache_length(text: &[u8]) -> &[u8]
    ensures { result.now ≡ Calls.cache_length text.now }
{
    past_blanks(past(3, from_part(b" -D", text)))
}

/// A length of a cache above 1048576.
pub fn put_length(alloc: Global, span: &Span<'_>, edits: &mut Vec<Edit>) -> Result<(), Memory>
    ensures { OnOk result (edits.new.items ≡ edits.old.items ++ length_edits span.now.first span.now.bytes.now) }
{
    let number = cache_length(span.bytes);
    if is_above(1_048_576, number) {
        let count = before(number, past_digits(number)).len();
        put(alloc, span, number, count, b"1048576", edits)
    } else {
        Ok(())
    }
}

/// `formail -f >>`.
pub fn put_appended(alloc: Global, span: &Span<'_>, edits: &mut Vec<Edit>) -> Result<(), Memory>
    ensures { OnOk result (edits.new.items ≡ edits.old.items ++ appended_edits span.now.first span.now.bytes.now) }
{
    let option = past(7, from_part(b"formail -f >>", span.bytes));
    put(alloc, span, option, 3, &[], edits)
}

/// `formail -q-` and `formail -q` before another option.
pub fn put_quiet(alloc: Global, span: &Span<'_>, edits: &mut Vec<Edit>) -> Result<(), Memory>
    ensures { OnOk result (edits.new.items ≡ edits.old.items ++ quiet_edits span.now.first span.now.bytes.now) }
{
    let loud = past(7, from_part(b"formail -q- -", span.bytes));
    put(alloc, span, loud, 4, &[], edits)?;
    let quiet = past(7, from_part(b"formail -q -", span.bytes));
    put(alloc, span, quiet, 3, &[], edits)
}

/// `formail -t` without r.
pub fn put_trust(alloc: Global, span: &Span<'_>, edits: &mut Vec<Edit>) -> Result<(), Memory>
    ensures { OnOk result (edits.new.items ≡ edits.old.items ++ trust_edits span.now.first span.now.bytes.now) }
{
    let call = from_part(b"formail -t", span.bytes);
    if begins_field(past(10, call)) {
        put(alloc, span, past(9, call), 1, &[], edits)
    } else {
        let option = past(7, whole_call(b"formail -t", span.bytes));
        put(alloc, span, option, 3, &[], edits)
    }
}
