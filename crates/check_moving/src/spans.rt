//! The forms of a span, by its kind.
ghost use Rattle.std.specs.Prelude.{◌≡◌, ◌++◌, IfOk, OnOk};
ghost use Rattle.check_moving.specs.Kept;
ghost use Rattle.check_moving.specs.Leads.{front_in};
ghost use Rattle.check_moving.specs.Found;
ghost use Rattle.check_moving.specs.Found.{defaulted};
ghost use Rattle.check_moving.specs.Found.{of_read};
ghost use Rattle.pm_recipe.specs.Colon.{lock_of};
ghost use Rattle.pm_recipe.specs.Weights.{condition_of};
ghost use Rattle.check_moving.specs.Calls.{calls_in};
ghost use Rattle.check_moving.specs.Words.{words_of};

use crate::calls::call_forms;
use crate::conditions::condition_forms;
use crate::expanded::expanded_forms;
use crate::form::{Form, MailboxForm, ProgramForm, VariableForm};
use crate::kept::kept;
use crate::leads::{Lead, read_lead};
use crate::mailboxes::mailbox_forms;
use crate::recipes::{block_forms, colon_forms, sent_forms};
use crate::searches::search_forms;
use crate::standing::{Standing, names_maildir};
use crate::text::{has_part, is};
use crate::variables::{assigned_forms, value_forms};
use crate::words::words;
use pm_bytes::{Blob, Memory};
use pm_recipe::{Condition, Kind, Span, Weight, read_condition, read_lock};
use std::alloc::Global;

/// The forms of a span, where the variables of these names begin with an anchor.
pub fn forms_of(
    alloc: Global,
    standing: &Standing,
    names: &[Blob],
    span: &Span<'_>,
) -> Result<Vec<Form>, Memory>
    ensures { IfOk result (λ forms. forms.items ≡ Found.of_span standing.now names.now span.now) }
{
    let text = span.text;
    match span.kind {
        Kind::Colon => colon_forms(
            alloc,
            standing.fresh,
            standing.closed,
            standing.unwatched,
            standing.held.as_slice(),
            text,
        ),
        Kind::Condition => of_condition(alloc, standing, names, text),
        Kind::Open => block_forms(alloc, standing.colon.as_slice()),
        Kind::Assign => of_assign(alloc, standing, span.name, text),
        Kind::Unset => of_unset(alloc, span.name),
        Kind::Mailbox => of_mailbox(alloc, standing, text),
        Kind::Pipe => of_pipe(alloc, standing, text),
        Kind::Capture => of_program(alloc, standing, text),
        Kind::Forward => of_forward(alloc, standing, text),
        _ => Ok(Vec::new(alloc)),
    }
}

fn put(more: &[Form], forms: &mut Vec<Form>) -> Result<(), Memory>
    ensures { OnOk result (forms.new.items ≡ forms.old.items ++ more.now) }
{
    forms.extend_from_slice(more)?;
    Ok(())
}

fn calls_of(alloc: Global, lock: &[u8], text: &[u8]) -> Result<Vec<Form>, Memory>
    ensures { IfOk result (λ forms. forms.items ≡ calls_in lock.now (words_of text.now)) }
{
    let words = words(alloc, text)?;
    call_forms(alloc, lock, words.as_slice())
}

fn is_default_maildir(told: bool, name: &[u8], value: &[u8]) -> bool
    ensures { result ≡ Found.is_default_maildir told name.now value.now }
{
    !told && names_maildir(name, value)
}

fn default_forms(alloc: Global, told: bool, name: &[u8], value: &[u8]) -> Result<Vec<Form>, Memory>
    ensures { IfOk result (λ forms. forms.items ≡ Kept.kept (defaulted told name.now value.now)) }
{
    let reasons = [(
        is_default_maildir(told, name, value),
        Form::Mailbox(MailboxForm::FromLine),
    )];
    kept(alloc, &reasons)
}

fn of_assign(
    alloc: Global,
    standing: &Standing,
    name: &[u8],
    value: &[u8],
) -> Result<Vec<Form>, Memory>
    ensures { IfOk result (λ forms. forms.items ≡ Found.of_assign standing.now name.now value.now) }
{
    let mut forms = assigned_forms(alloc, name, value)?;
    let valued = value_forms(alloc, name, value)?;
    let defaulted = default_forms(alloc, standing.told, name, value)?;
    let expanded = expanded_forms(alloc, standing.weighted, value)?;
    let called = calls_of(alloc, &[], value)?;
    put(valued.as_slice(), &mut forms)?;
    put(defaulted.as_slice(), &mut forms)?;
    put(expanded.as_slice(), &mut forms)?;
    put(called.as_slice(), &mut forms)?;
    Ok(forms)
}

fn of_unset(alloc: Global, name: &[u8]) -> Result<Vec<Form>, Memory>
    ensures { IfOk result (λ forms. forms.items ≡ Kept.kept (Found.unset name.now)) }
{
    let reasons = [(is(name, b"HOST"), Form::Variable(VariableForm::Host))];
    kept(alloc, &reasons)
}

fn expanded_in<'a>(lead: &Lead<'a>) -> &'a [u8]
    ensures { result.now ≡ Found.expanded_in (front_in lead.now) }
{
    if lead.expands { lead.text } else { &[] }
}

fn program_in<'a>(lead: &Lead<'a>) -> &'a [u8]
    ensures { result.now ≡ Found.program_in (front_in lead.now) }
{
    if lead.text.starts_with(b"?") {
        lead.text
    } else {
        &[]
    }
}

fn of_condition(
    alloc: Global,
    standing: &Standing,
    names: &[Blob],
    text: &[u8],
) -> Result<Vec<Form>, Memory>
    ensures { IfOk result (λ forms. forms.items ≡ of_read standing.now names.now text.now (condition_of text.now)) }
{
    let condition = read_condition(alloc, text)?;
    of_read(alloc, standing, names, text, &condition)
}

fn of_read(
    alloc: Global,
    standing: &Standing,
    names: &[Blob],
    text: &[u8],
    condition: &Condition,
) -> Result<Vec<Form>, Memory>
    ensures { IfOk result (λ forms. forms.items ≡ of_read standing.now names.now text.now condition.now) }
{
    let lead = read_lead(condition.text.as_slice());
    of_front(alloc, standing, names, text, condition.weight, &lead)
}

fn of_front(
    alloc: Global,
    standing: &Standing,
    names: &[Blob],
    text: &[u8],
    weight: Weight,
    lead: &Lead<'_>,
) -> Result<Vec<Form>, Memory>
    ensures { IfOk result (λ forms. forms.items
        ≡ Found.of_front standing.now names.now text.now weight (front_in lead.now)) }
{
    let mut forms = condition_forms(alloc, standing.greatest, text, weight, lead)?;
    let searched = search_forms(alloc, names, weight, lead)?;
    let expanded = expanded_forms(alloc, standing.weighted, expanded_in(lead))?;
    let called = calls_of(alloc, &[], program_in(lead))?;
    put(searched.as_slice(), &mut forms)?;
    put(expanded.as_slice(), &mut forms)?;
    put(called.as_slice(), &mut forms)?;
    Ok(forms)
}

fn is_standard_error(text: &[u8]) -> bool
    ensures { result ≡ Found.is_standard_error text.now }
{
    has_part(b">&2", text) && !has_part(b"2>", text)
}

fn programmed(alloc: Global, text: &[u8]) -> Result<Vec<Form>, Memory>
    ensures { IfOk result (λ forms. forms.items ≡ Kept.kept (Found.programmed text.now)) }
{
    let reasons = [(
        is_standard_error(text),
        Form::Program(ProgramForm::StandardError),
    )];
    kept(alloc, &reasons)
}

// Bytes by which procmail leaves a line to the shell.
fn has_shell_byte(text: &[u8]) -> bool
    ensures { result ≡ Found.has_shell_byte text.now }
{
    has_part(b"|", text)
        || has_part(b"&", text)
        || has_part(b";", text)
        || has_part(b"<", text)
        || has_part(b">", text)
        || has_part(b"~", text)
        || has_part(b"?", text)
        || has_part(b"*", text)
        || has_part(b"[", text)
}

fn expanded_line(text: &[u8]) -> &[u8]
    ensures { result.now ≡ Found.expanded_line text.now }
{
    if has_shell_byte(text) { &[] } else { text }
}

fn lock_held<'a>(lock: &'a Option<Blob>, held: &'a [u8]) -> &'a [u8]
    ensures { result.now ≡ Found.lock_held lock.now held.now }
{
    match lock {
        None => held,
        Some(lock) => if is(lock.as_slice(), b"") {
            held
        } else {
            lock.as_slice()
        },
    }
}

fn of_program(alloc: Global, standing: &Standing, text: &[u8]) -> Result<Vec<Form>, Memory>
    ensures { IfOk result (λ forms. forms.items ≡ Found.of_program standing.now text.now) }
{
    let lock = read_lock(alloc, standing.colon.as_slice())?;
    let mut forms = programmed(alloc, text)?;
    let expanded = expanded_forms(alloc, standing.weighted, expanded_line(text))?;
    let called = calls_of(alloc, lock_held(&lock, standing.held.as_slice()), text)?;
    put(expanded.as_slice(), &mut forms)?;
    put(called.as_slice(), &mut forms)?;
    Ok(forms)
}

fn of_pipe(alloc: Global, standing: &Standing, text: &[u8]) -> Result<Vec<Form>, Memory>
    ensures { IfOk result (λ forms. forms.items ≡ Found.of_pipe standing.now text.now) }
{
    let mut forms = sent_forms(alloc, standing.colon.as_slice())?;
    let others = of_program(alloc, standing, text)?;
    put(others.as_slice(), &mut forms)?;
    Ok(forms)
}

fn of_forward(alloc: Global, standing: &Standing, text: &[u8]) -> Result<Vec<Form>, Memory>
    ensures { IfOk result (λ forms. forms.items ≡ Found.of_forward standing.now text.now) }
{
    let mut forms = sent_forms(alloc, standing.colon.as_slice())?;
    let expanded = expanded_forms(alloc, standing.weighted, expanded_line(text))?;
    put(expanded.as_slice(), &mut forms)?;
    Ok(forms)
}

fn of_mailbox(alloc: Global, standing: &Standing, text: &[u8]) -> Result<Vec<Form>, Memory>
    ensures { IfOk result (λ forms. forms.items ≡ Found.of_mailbox standing.now text.now) }
{
    let mut forms = mailbox_forms(alloc, standing.colon.as_slice(), standing.told, text)?;
    let expanded = expanded_forms(alloc, standing.weighted, text)?;
    put(expanded.as_slice(), &mut forms)?;
    Ok(forms)
}
