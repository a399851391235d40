//! What stands before the test of a condition: `!`, and names with `??`.
ghost use Rattle.std.specs.Prelude.{◌≡◌, ◌<◌, ◌≤◌, IfOk, IfSome, length, position, Some, None};
ghost use Rattle.std.specs.List.{position_or_len};
ghost use Rattle.pm_meaning.specs.Leads.{is_no_blank, after_blanks, ends_name};
ghost use Rattle.pm_meaning.specs.Leads;
ghost use Rattle.pm_meaning.specs.Leads.{is_named, behind_name};
ghost use Rattle.pm_meaning.specs.Leads.{Asking, next_asking, asked, asking_of};

use pm_bytes::{Blob, Memory, begins_name, continues_name};
use pm_meaning::past_blanks;
use pm_meaning::question::{Question, Scope};
use pm_message::Place;
use std::alloc::Global;

/// The place of the first byte that is in no name.
fn name_end(text: &[u8]) -> Option<usize>
    ensures { result ≡ position ends_name text.now }
{
    text.iter().position(|byte| !continues_name(*byte))
}

/// How many bytes stand before it.
fn name_stop(text: &[u8]) -> usize
    ensures value { result ≡ position_or_len ends_name text.now }
    ensures within { result ≤ length text.now }
{
    name_end(text).unwrap_or(text.len())
}

/// Whether a name can begin here.
fn has_name(text: &[u8]) -> bool
    ensures { result ≡ Leads.begins_name text.now }
{
    match text.first() {
        None => false,
        Some(byte) => begins_name(*byte),
    }
}

/// How long the name at the front is.
fn name_length(text: &[u8]) -> usize
    ensures value { result ≡ Leads.name_length text.now }
    ensures within { result ≤ length text.now }
{
    if has_name(text) { name_stop(text) } else { 0 }
}

/// What stands after the name at the front and blanks.
fn past_name(text: &[u8]) -> &[u8]
    ensures value { result.now ≡ behind_name text.now }
    ensures shorter { length result.now ≤ length text.now }
{
    past_blanks(&text[name_length(text)..])
}

/// Where a condition looks that names this.
fn scope_of(alloc: Global, name: &[u8]) -> Result<Scope, Memory>
    ensures { IfOk result (λ scope. scope ≡ Leads.scope_of name.now) }
{
    if name == b"H".as_slice() {
        return Ok(Scope::Mail(Place::H));
    }
    if name == b"B".as_slice() {
        return Ok(Scope::Mail(Place::B));
    }
    if name == b"HB".as_slice() || name == b"BH".as_slice() {
        return Ok(Scope::Mail(Place::Hb));
    }
    Ok(Scope::Variable(Blob::from_slice(alloc, name)?))
}

/// Reads one `!` or one name with `??`, if it stands at the front, and answers what follows.
fn pass<'a>(
    alloc: Global,
    text: &'a [u8],
    question: &mut Question,
) -> Result<Option<&'a [u8]>, Memory>
    ensures some { IfOk result (λ more. IfSome more (λ rest.
        next_asking (asking_of text.now question.old) ≡ Some (asking_of rest.now question.new))) }
    ensures shorter { IfOk result (λ more. IfSome more (λ rest. length rest.now < length text.now)) }
    ensures none { IfOk result (λ more. more ≡ None → next_asking (asking_of text.now question.old) ≡ None) }
    ensures same { IfOk result (λ more. more ≡ None → question.new ≡ question.old) }
{
    if text.starts_with(b"!") {
        question.inverted = !question.inverted;
        return Ok(Some(past_blanks(&text[1..])));
    }
    if !has_name(text) {
        return Ok(None);
    }
    let rest = past_name(text);
    if !rest.starts_with(b"??") {
        return Ok(None);
    }
    question.scope = scope_of(alloc, &text[..name_length(text)])?;
    Ok(Some(past_blanks(&rest[2..])))
}

/// Reads all that stands before the test, and answers the test.
pub fn read_lead<'a>(
    alloc: Global,
    text: &'a [u8],
    question: &mut Question,
) -> Result<&'a [u8], Memory>
    ensures { IfOk result (λ rest. asked (asking_of text.now question.old) ≡ asking_of rest.now question.new) }
{
    let mut rest = text;
    while let Some(more) = pass(alloc, rest, question)? {
        rest = more;
    }
    Ok(rest)
}
