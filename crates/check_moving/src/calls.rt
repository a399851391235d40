//! Forms of calls of formail: the cache, mailboxes and what is written.
ghost use Rattle.std.specs.Prelude.{◌≡◌, ◌++◌, IfOk, OnOk};
ghost use Rattle.std.specs.List.{list_any};
ghost use Rattle.check_moving.specs.Kept;
ghost use Rattle.check_moving.specs.Options;
ghost use Rattle.check_moving.specs.Calls;
ghost use Rattle.check_moving.specs.Calls.{call_of, calls_in, called};

use crate::form::{Form, ProgramForm};
use crate::kept::kept;
use crate::options::{Given, has, is_formail, read_options};
use crate::replies::reply_forms;
use crate::text::{is, past};
use crate::words::is_break;
use pm_bytes::{Blob, Memory, read_count};
use std::alloc::Global;

/// The forms of each call among these words. `lock` is the lock file that is held, or empty.
pub fn call_forms(alloc: Global, lock: &[u8], words: &[Blob]) -> Result<Vec<Form>, Memory>
    ensures { IfOk result (λ forms. forms.items ≡ calls_in lock.now words.now) }
{
    let mut forms = Vec::new(alloc);
    let mut rest = words;
    while let Some((word, after)) = rest.split_first() {
        if is_formail(word.as_slice()) {
            put_call(alloc, lock, after, &mut forms)?;
        }
        rest = after;
    }
    Ok(forms)
}

fn put_call(alloc: Global, lock: &[u8], words: &[Blob], forms: &mut Vec<Form>) -> Result<(), Memory>
    ensures { OnOk result (forms.new.items ≡ forms.old.items ++ call_of lock.now words.now) }
{
    let options = read_options(alloc, words)?;
    let called = called_forms(alloc, lock, options.as_slice(), after_call(words))?;
    let replied = reply_forms(alloc, options.as_slice())?;
    forms.extend_from_slice(called.as_slice())?;
    forms.extend_from_slice(replied.as_slice())?;
    Ok(())
}

fn after_call(words: &[Blob]) -> &[Blob]
    ensures { result.now ≡ Options.after_call words.now }
{
    let mut rest = words;
    while let Some((word, after)) = rest.split_first() {
        if is_break(word.as_slice()) {
            return rest;
        }
        rest = after;
    }
    rest
}

fn called_forms(
    alloc: Global,
    lock: &[u8],
    options: &[Given],
    behind: &[Blob],
) -> Result<Vec<Form>, Memory>
    ensures { IfOk result (λ forms. forms.items ≡ Kept.kept (called lock.now options.now behind.now)) }
{
    let reasons = [
        (
            locks_cache(lock, options),
            Form::Program(ProgramForm::CacheLock),
        ),
        (
            has_cache_options(options),
            Form::Program(ProgramForm::CacheOptions),
        ),
        (
            has_bad_cache(options),
            Form::Program(ProgramForm::CacheLength),
        ),
        (has(b'd', options), Form::Program(ProgramForm::Digest)),
        (has_old(options), Form::Program(ProgramForm::OldOption)),
        (
            is_split_output(options, behind),
            Form::Program(ProgramForm::SplitOutput),
        ),
        (
            is_from_appended(options, behind),
            Form::Program(ProgramForm::FromAppended),
        ),
    ];
    kept(alloc, &reasons)
}

fn is_suffix(text: &[u8]) -> bool
    ensures { result ≡ Calls.is_suffix text.now }
{
    is(text, b".lock") || is(text, b"$LOCKEXT") || is(text, b"${LOCKEXT}")
}

fn is_cache_of(lock: &[u8], one: &Given) -> bool
    ensures { result ≡ Calls.is_cache_of lock.now one.now }
{
    one.letter == b'C'
        && lock.starts_with(one.argument.as_slice())
        && is_suffix(past(one.argument.len(), lock))
}

fn locks_cache(lock: &[u8], options: &[Given]) -> bool
    ensures { result ≡ Calls.locks_cache lock.now options.now }
{
    options.iter().any(|one| is_cache_of(lock, one))
}

fn has_edit(options: &[Given]) -> bool
    ensures { result ≡ Calls.has_edit options.now }
{
    has(b'a', options)
        || has(b'A', options)
        || has(b'i', options)
        || has(b'I', options)
        || has(b'u', options)
        || has(b'U', options)
        || has(b'R', options)
}

fn has_other(options: &[Given]) -> bool
    ensures { result ≡ Calls.has_other options.now }
{
    has(b'x', options)
        || has(b'X', options)
        || has(b'p', options)
        || has(b'k', options)
        || has(b'z', options)
        || has(b'c', options)
        || has(b't', options)
}

fn has_cache_options(options: &[Given]) -> bool
    ensures { result ≡ Calls.has_cache_options options.now }
{
    has(b'D', options) && (has_edit(options) || has_other(options))
}

fn is_bad_length(number: Option<u64>) -> bool
    ensures { result ≡ Calls.is_bad_length number }
{
    match number {
        None => false,
        Some(number) => number == 0 || number > 1_048_576,
    }
}

fn is_bad_cache(one: &Given) -> bool
    ensures { result ≡ Calls.is_bad_cache one.now }
{
    one.letter == b'D' && is_bad_length(read_count(one.argument.as_slice()))
}

fn has_bad_cache(options: &[Given]) -> bool
    ensures { result ≡ list_any Calls.is_bad_cache options.now }
{
    options.iter().any(|one| is_bad_cache(one))
}

fn has_old(options: &[Given]) -> bool
    ensures { result ≡ Calls.has_old options.now }
{
    has(b'e', options)
        || has(b'q', options)
        || has(b'n', options)
        || has(b'l', options)
        || has(b'm', options)
        || has(b'B', options)
        || has(b'Y', options)
        || has(b'v', options)
}

fn is_used(behind: &[Blob]) -> bool
    ensures { result ≡ Calls.is_used behind.now }
{
    match behind {
        [] => false,
        [word, ..] => is(word.as_slice(), b">")
            || is(word.as_slice(), b"|")
            || is(word.as_slice(), b"`"),
    }
}

fn is_appended(behind: &[Blob]) -> bool
    ensures { result ≡ Calls.is_appended behind.now }
{
    match behind {
        [one, other, ..] => is(one.as_slice(), b">") && is(other.as_slice(), b">"),
        _ => false,
    }
}

fn is_program_word(one: &Given) -> bool
    ensures { result ≡ Calls.is_program_word one.now }
{
    one.letter == b's' && !is(one.argument.as_slice(), b"")
}

fn has_program(options: &[Given]) -> bool
    ensures { result ≡ Calls.has_program options.now }
{
    options.iter().any(|one| is_program_word(one))
}

fn is_split_output(options: &[Given], behind: &[Blob]) -> bool
    ensures { result ≡ Calls.is_split_output options.now behind.now }
{
    has_program(options) && is_used(behind)
}

fn is_from_appended(options: &[Given], behind: &[Blob]) -> bool
    ensures { result ≡ Calls.is_from_appended options.now behind.now }
{
    has(b'f', options)
        && is_appended(behind)
        && !has(b'r', options)
        && !has(b'x', options)
        && !has(b'X', options)
}
