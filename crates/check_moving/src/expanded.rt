//! Forms of what is expanded: parameters, `${}` and commands.
ghost use Rattle.std.specs.Prelude.{◌≡◌, IfOk};
ghost use Rattle.check_moving.specs.Kept;
ghost use Rattle.check_moving.specs.Expanded.{stands, has_mark, has_score, begins_with_name, expanded};
ghost use Rattle.check_moving.specs.Expanded.{brace_form, after_name, command_first, is_arguments, is_underscore};
ghost use Rattle.check_moving.specs.Expanded.{is_brace, is_command};
ghost use Rattle.check_moving.specs.declared.quotes.Quote.TheVariants.{Plain};

use crate::form::{ExpandedForm, Form};
use crate::kept::kept;
use crate::quotes::Quote;
use crate::text::past_name;
use pm_bytes::{BACKQUOTE, CLOSE_BRACE, DOLLAR, Memory, begins_name, continues_name};
use std::alloc::Global;

/// The forms of a text that is expanded. `weighted` says that the last recipe has a weight.
pub fn expanded_forms(alloc: Global, weighted: bool, text: &[u8]) -> Result<Vec<Form>, Memory>
    ensures { IfOk result (λ forms. forms.items ≡ Kept.kept (expanded weighted text.now)) }
{
    let reasons = [
        (
            has_mark(ExpandedForm::Arguments, text),
            Form::Expanded(ExpandedForm::Arguments),
        ),
        (
            has_mark(ExpandedForm::Underscore, text),
            Form::Expanded(ExpandedForm::Underscore),
        ),
        (
            has_mark(ExpandedForm::Brace, text),
            Form::Expanded(ExpandedForm::Brace),
        ),
        (
            has_mark(ExpandedForm::Command, text),
            Form::Expanded(ExpandedForm::Command),
        ),
        (
            has_score(weighted, text),
            Form::Expanded(ExpandedForm::Score),
        ),
    ];
    kept(alloc, &reasons)
}

fn has_score(weighted: bool, text: &[u8]) -> bool
    ensures { result ≡ has_score weighted text.now }
{
    !weighted && has_mark(ExpandedForm::Score, text)
}

fn has_mark(form: ExpandedForm, text: &[u8]) -> bool
    ensures { result ≡ has_mark form Plain text.now }
{
    let mut quote = Quote::Plain;
    let mut rest = text;
    while let Some((byte, after)) = rest.split_first() {
        if quote.expands() && stands(form, rest) {
            return true;
        }
        quote = quote.after(*byte);
        rest = after;
    }
    false
}

fn stands(form: ExpandedForm, text: &[u8]) -> bool
    ensures { result ≡ stands form text.now }
{
    match form {
        ExpandedForm::Arguments => is_arguments(text),
        ExpandedForm::Underscore => is_underscore(text),
        ExpandedForm::Brace => is_brace(text),
        ExpandedForm::Command => is_command(text),
        ExpandedForm::Score => text.starts_with(b"$="),
    }
}

fn is_arguments(text: &[u8]) -> bool
    ensures { result ≡ is_arguments text.now }
{
    text.starts_with(b"$@")
}

fn is_underscore(text: &[u8]) -> bool
    ensures { result ≡ is_underscore text.now }
{
    text.starts_with(b"$_") && begins_with_name(&text[2..])
}

fn is_brace(text: &[u8]) -> bool
    ensures { result ≡ is_brace text.now }
{
    text.starts_with(b"${") && is_brace_form(&text[2..])
}

fn is_command(text: &[u8]) -> bool
    ensures { result ≡ is_command text.now }
{
    text.starts_with(b"${") && is_command_first(past_name(&text[2..]))
}

fn begins_with_name(text: &[u8]) -> bool
    ensures { result ≡ begins_with_name text.now }
{
    match text {
        [] => false,
        [byte, ..] => continues_name(*byte),
    }
}

fn is_brace_form(text: &[u8]) -> bool
    ensures { result ≡ brace_form text.now }
{
    match text {
        [] => false,
        [byte, ..] => !begins_name(*byte) || is_after_name(past_name(text)),
    }
}

fn is_after_name(text: &[u8]) -> bool
    ensures { result ≡ after_name text.now }
{
    text.starts_with(b"%")
        || text.starts_with(b"#")
        || text.starts_with(b"=")
        || text.starts_with(b"?")
        || text.starts_with(b":=")
        || text.starts_with(b":?")
}

fn is_command_first(text: &[u8]) -> bool
    ensures { result ≡ command_first text.now }
{
    let mut rest = text;
    while let Some((byte, after)) = rest.split_first() {
        if *byte == BACKQUOTE {
            return true;
        }
        if *byte == CLOSE_BRACE || *byte == DOLLAR {
            return false;
        }
        rest = after;
    }
    false
}
