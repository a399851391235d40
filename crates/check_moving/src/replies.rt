//! Forms of calls of formail: what is done with fields.
ghost use Rattle.std.specs.Prelude.{◌≡◌, IfOk};
ghost use Rattle.std.specs.List.{list_any};
ghost use Rattle.check_moving.specs.Kept;
ghost use Rattle.check_moving.specs.Calls;
ghost use Rattle.check_moving.specs.Calls.{replied};

use crate::form::{Form, ReplyForm};
use crate::kept::kept;
use crate::options::{Given, has};
use crate::text::{has_part, is};
use pm_bytes::Memory;
use std::alloc::Global;

/// The forms of a call with these options.
pub fn reply_forms(alloc: Global, options: &[Given]) -> Result<Vec<Form>, Memory>
    ensures { IfOk result (λ forms. forms.items ≡ Kept.kept (replied options.now)) }
{
    let reasons = [
        (is_reply_field(options), Form::Reply(ReplyForm::ReplyField)),
        (is_reply_keep(options), Form::Reply(ReplyForm::ReplyKeep)),
        (is_trust_alone(options), Form::Reply(ReplyForm::TrustAlone)),
        (has_empty_field(options), Form::Reply(ReplyForm::EmptyField)),
        (
            is_from_removed(options),
            Form::Reply(ReplyForm::FromRemoved),
        ),
        (has_from_added(options), Form::Reply(ReplyForm::FromAdded)),
        (has_made(options), Form::Reply(ReplyForm::MadeField)),
        (has_partial(options), Form::Reply(ReplyForm::PartialName)),
    ];
    kept(alloc, &reasons)
}

fn is_reply_field(options: &[Given]) -> bool
    ensures { result ≡ Calls.is_reply_field options.now }
{
    has(b'r', options) && (has(b'x', options) || has(b'X', options) || has(b'R', options))
}

fn is_reply_keep(options: &[Given]) -> bool
    ensures { result ≡ Calls.is_reply_keep options.now }
{
    has(b'r', options) && has(b'k', options) && !has(b'b', options)
}

fn is_trust_alone(options: &[Given]) -> bool
    ensures { result ≡ Calls.is_trust_alone options.now }
{
    has(b't', options) && !has(b'r', options)
}

fn is_empty_field(one: &Given) -> bool
    ensures { result ≡ Calls.is_empty_field one.now }
{
    (one.letter == b'X' || one.letter == b'I')
        && (is(one.argument.as_slice(), b"\"\"") || is(one.argument.as_slice(), b"''"))
}

fn has_empty_field(options: &[Given]) -> bool
    ensures { result ≡ list_any Calls.is_empty_field options.now }
{
    options.iter().any(|one| is_empty_field(one))
}

fn is_from_line(argument: &[u8]) -> bool
    ensures { result ≡ Calls.is_from_line argument.now }
{
    is(argument, b"\"From \"") || is(argument, b"'From '")
}

fn removes_from(one: &Given) -> bool
    ensures { result ≡ Calls.removes_from one.now }
{
    one.letter == b'I' && is_from_line(one.argument.as_slice())
}

fn has_from_line(options: &[Given]) -> bool
    ensures { result ≡ list_any Calls.removes_from options.now }
{
    options.iter().any(|one| removes_from(one))
}

fn is_from_removed(options: &[Given]) -> bool
    ensures { result ≡ Calls.is_from_removed options.now }
{
    has_from_line(options) && !has(b'f', options)
}

fn adds_from(one: &Given) -> bool
    ensures { result ≡ Calls.adds_from one.now }
{
    one.letter == b'a' && is_from_line(one.argument.as_slice())
}

fn has_from_added(options: &[Given]) -> bool
    ensures { result ≡ list_any Calls.adds_from options.now }
{
    options.iter().any(|one| adds_from(one))
}

fn is_made(one: &Given) -> bool
    ensures { result ≡ Calls.is_made one.now }
{
    let name = one.argument.as_slice();
    one.letter == b'a'
        && (is(name, b"Date:") || is(name, b"Message-ID:") || is(name, b"Message-Id:"))
}

fn has_made(options: &[Given]) -> bool
    ensures { result ≡ list_any Calls.is_made options.now }
{
    options.iter().any(|one| is_made(one))
}

fn is_partial(one: &Given) -> bool
    ensures { result ≡ Calls.is_partial one.now }
{
    let name = one.argument.as_slice();
    (one.letter == b'u' || one.letter == b'U')
        && !is(name, b"")
        && !has_part(b":", name)
        && !has_part(b"$", name)
}

fn has_partial(options: &[Given]) -> bool
    ensures { result ≡ list_any Calls.is_partial options.now }
{
    options.iter().any(|one| is_partial(one))
}
