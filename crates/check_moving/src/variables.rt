//! Forms of assignments.
ghost use Rattle.std.specs.Prelude.{◌≡◌, IfOk};
ghost use Rattle.check_moving.specs.Kept;
ghost use Rattle.check_moving.specs.Variables.{assigned, is_idle, has_zero, delivers_otherwise, logs_otherwise};
ghost use Rattle.check_moving.specs.Variables.{is_program};
ghost use Rattle.check_moving.specs.Variables.{is_mailbox, names_program, locks, is_open, gives_set, valued};

use crate::form::{Form, SearchForm, VariableForm};
use crate::kept::kept;
use crate::ranges::has_set;
use crate::text::{has_part, is, unquoted};
use pm_bytes::Memory;
use std::alloc::Global;

/// The forms of an assignment of this value, as it stands in the text.
pub fn assigned_forms(alloc: Global, name: &[u8], value: &[u8]) -> Result<Vec<Form>, Memory>
    ensures { IfOk result (λ forms. forms.items ≡ Kept.kept (assigned name.now value.now)) }
{
    let reasons = [
        (is(name, b"UMASK"), Form::Variable(VariableForm::Umask)),
        (is(name, b"VERBOSE"), Form::Variable(VariableForm::Verbose)),
        (is(name, b"TIMEOUT"), Form::Variable(VariableForm::Timeout)),
        (is_idle(name), Form::Variable(VariableForm::NoEffect)),
        (
            has_zero(name, value),
            Form::Variable(VariableForm::ExitCode),
        ),
        (
            delivers_otherwise(name, value),
            Form::Variable(VariableForm::Delivered),
        ),
        (
            logs_otherwise(name, value),
            Form::Variable(VariableForm::LogAbstract),
        ),
        (
            names_program(name, value),
            Form::Variable(VariableForm::DefaultProgram),
        ),
        (locks(name, value), Form::Variable(VariableForm::LockFile)),
        (is_open(value), Form::Variable(VariableForm::OpenBrace)),
    ];
    kept(alloc, &reasons)
}

/// The form of a value that can be an expression.
pub fn value_forms(alloc: Global, name: &[u8], value: &[u8]) -> Result<Vec<Form>, Memory>
    ensures { IfOk result (λ forms. forms.items ≡ Kept.kept (valued name.now value.now)) }
{
    let reasons = [(gives_set(name, value), Form::Search(SearchForm::Range))];
    kept(alloc, &reasons)
}

fn is_idle(name: &[u8]) -> bool
    ensures { result ≡ is_idle name.now }
{
    is(name, b"LINEBUF") || is(name, b"COMSAT") || is(name, b"DROPPRIVS") || is(name, b"NORESRETRY")
}

fn has_zero(name: &[u8], value: &[u8]) -> bool
    ensures { result ≡ has_zero name.now value.now }
{
    is(name, b"EXITCODE") && is(unquoted(value), b"0")
}

fn delivers_otherwise(name: &[u8], value: &[u8]) -> bool
    ensures { result ≡ delivers_otherwise name.now value.now }
{
    is(name, b"DELIVERED")
        && !is(unquoted(value), b"")
        && !is(unquoted(value), b"yes")
        && !is(unquoted(value), b"no")
}

fn logs_otherwise(name: &[u8], value: &[u8]) -> bool
    ensures { result ≡ logs_otherwise name.now value.now }
{
    is(name, b"LOGABSTRACT")
        && !is(unquoted(value), b"")
        && !is(unquoted(value), b"all")
        && !is(unquoted(value), b"no")
}

fn is_program(value: &[u8]) -> bool
    ensures { result ≡ is_program value.now }
{
    value.starts_with(b"|") || value.starts_with(b"!")
}

/// Whether the variable names the last mailbox.
pub fn is_mailbox(name: &[u8]) -> bool
    ensures { result ≡ is_mailbox name.now }
{
    is(name, b"DEFAULT") || is(name, b"ORGMAIL")
}

fn names_program(name: &[u8], value: &[u8]) -> bool
    ensures { result ≡ names_program name.now value.now }
{
    is_mailbox(name) && is_program(unquoted(value))
}

fn locks(name: &[u8], value: &[u8]) -> bool
    ensures { result ≡ locks name.now value.now }
{
    is(name, b"LOCKFILE") && !is(unquoted(value), b"")
}

// A value is one word, so that a blank ends it in `${` too.
fn is_open(value: &[u8]) -> bool
    ensures { result ≡ is_open value.now }
{
    has_part(b"${", value) && !has_part(b"}", value)
}

// The text of LOG and what programs write are no expressions, mostly.
fn gives_set(name: &[u8], value: &[u8]) -> bool
    ensures { result ≡ gives_set name.now value.now }
{
    !is(name, b"LOG") && !has_part(b"`", value) && has_set(value)
}
