//! Mistakes in the conditions of a recipe.
use crate::codes::Mistake;
use crate::forms::{Form, has_form};
use crate::notices::{Notice, put_if};
use crate::words::{begins_with, past_blanks};
use pm_bytes::{CARET, COLON, Memory};
use pm_conds::{question_of, read_lead};
use pm_meaning::question::{Question, Scope};
use pm_message::Place;
use pm_recipe::{Flags, Span, read_condition};
use std::alloc::Global;

/// Puts the mistakes of a condition, if it asks for an expression.
pub fn put_judged<'a>(
    alloc: Global,
    flags: Flags,
    span: &Span<'a>,
    notices: &mut Vec<Notice<'a>>,
) -> Result<(), Memory> {
    let condition = read_condition(alloc, span.text)?;
    match question_of(condition.weight) {
        None => Ok(()),
        Some(question) => {
            let mut question = question;
            let test = read_lead(alloc, condition.text.as_slice(), &mut question)?;
            if asks_otherwise(test) {
                return Ok(());
            }
            put_sought(is_of_head(flags, &question), test, span, notices)
        }
    }
}

// A program, a size, or a line with commands in it.
fn asks_otherwise(test: &[u8]) -> bool {
    match test {
        [b'?' | b'<' | b'>', ..] => true,
        _ => test.contains(&b'`'),
    }
}

fn is_of_head(flags: Flags, question: &Question) -> bool {
    match &question.scope {
        Scope::Flags => !flags.search_body,
        Scope::Mail(place) => match place {
            Place::H => true,
            _ => false,
        },
        Scope::Variable(_) => false,
    }
}

fn put_sought<'a>(
    of_head: bool,
    test: &[u8],
    span: &Span<'a>,
    notices: &mut Vec<Notice<'a>>,
) -> Result<(), Memory> {
    let text = without_dollar(test);
    let dot = has_form(Form::Dot, text);
    let plus = has_form(Form::Plus, text);
    let pcre = has_form(Form::Pcre, text);
    let comment = has_form(Form::Comment, text);
    put_if(dot, Mistake::Dot, span, notices)?;
    put_if(plus, Mistake::Plus, span, notices)?;
    put_if(pcre, Mistake::Pcre, span, notices)?;
    put_if(comment, Mistake::Comment, span, notices)?;
    if !of_head {
        return Ok(());
    }
    let tag = names_subject(text) && has_form(Form::Tag, text);
    put_if(tag, Mistake::Tag, span, notices)?;
    put_if(names_field(text), Mistake::Unanchored, span, notices)
}

// What is expanded, without the `$` that says so.
fn without_dollar(test: &[u8]) -> &[u8] {
    match test {
        [b'$', rest @ ..] => past_blanks(rest),
        _ => test,
    }
}

fn names_subject(text: &[u8]) -> bool {
    match text {
        [CARET, rest @ ..] => begins_with(rest, b"subject:"),
        _ => begins_with(text, b"subject:"),
    }
}

// The name of a usual field begins the text, so that it is found in the middle of a line too.
fn names_field(text: &[u8]) -> bool {
    match name_before_colon(text) {
        None => false,
        Some(name) => is_usual(name),
    }
}

fn name_before_colon(text: &[u8]) -> Option<&[u8]> {
    for i in 0..text.len() {
        if text[i] == COLON {
            return Some(&text[..i]);
        }
    }
    None
}

fn is_usual(name: &[u8]) -> bool {
    let names: [&[u8]; 10] = [
        b"from",
        b"to",
        b"cc",
        b"subject",
        b"sender",
        b"reply-to",
        b"return-path",
        b"list-id",
        b"precedence",
        b"delivered-to",
    ];
    for known in names {
        if name.len() == known.len() && begins_with(name, known) {
            return true;
        }
    }
    false
}
