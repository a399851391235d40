//! What variables, parameters, commands and forms give.
ghost use Rattle.std.specs.Prelude.{◌≡◌, IfOk, codes};
ghost use Rattle.pm_subst.specs.Buffer.{Gathers};
ghost use Rattle.pm_subst.specs.Values.{uses_text, gives_value, form_value, is_unset, is_unset_or_empty, or_empty};
ghost use Rattle.pm_subst.specs.Values.{variable_value, parameter_value, literal, trimmed, value_elements};
ghost use Rattle.pm_vars.specs.Variables.{value_of, argument_of};

use crate::buffer::Buffer;
use crate::kinds::{Parameter, Test};
use itoa::Integer;
use pm_bytes::{Memory, NEWLINE};
use pm_vars::Vars;

const LAST_FOLDER: &[u8] = b"LASTFOLDER";

fn is_unset_name(name: &[u8], vars: &Vars) -> bool
    ensures { result ≡ is_unset (value_of name.now vars.now.variables) }
{
    match vars.get(name) {
        None => true,
        Some(_) => false,
    }
}

fn is_unset_or_empty_name(name: &[u8], vars: &Vars) -> bool
    ensures { result ≡ is_unset_or_empty (value_of name.now vars.now.variables) }
{
    match vars.get(name) {
        None => true,
        Some(value) => value.len() == 0,
    }
}

/// Whether the text of a form is used.
pub fn is_text_used(test: Test, name: &[u8], vars: &Vars) -> bool
    ensures { result ≡ uses_text test (value_of name.now vars.now.variables) }
{
    match test {
        Test::Unset => is_unset_name(name, vars),
        Test::UnsetOrEmpty => is_unset_or_empty_name(name, vars),
        Test::Set => !is_unset_name(name, vars),
        Test::SetNotEmpty => !is_unset_or_empty_name(name, vars),
    }
}

fn is_value_given(test: Test) -> bool
    ensures { result ≡ gives_value test }
{
    match test {
        Test::Unset => true,
        Test::UnsetOrEmpty => true,
        Test::Set => false,
        Test::SetNotEmpty => false,
    }
}

/// A variable's value, nothing where it is unset.
fn value<'a>(name: &[u8], vars: &'a Vars) -> &'a [u8]
    ensures { result.now ≡ variable_value vars.now name.now }
{
    match vars.get(name) {
        None => b"",
        Some(value) => value.as_slice(),
    }
}

fn argument(number: u8, vars: &Vars) -> &[u8]
    ensures { result.now ≡ or_empty (argument_of number vars.now.arguments) }
{
    match vars.argument(usize::from(number)) {
        None => b"",
        Some(value) => value.as_slice(),
    }
}

pub fn push_variable(
    buffer: &mut Buffer,
    quoted: bool,
    name: &[u8],
    vars: &Vars,
) -> Result<(), Memory>
    ensures splits { buffer.new.splits ≡ buffer.old.splits }
    ensures holds { IfOk result (λ _. Gathers buffer.old buffer.new
        (value_elements quoted (variable_value vars.now name.now))) }
{
    buffer.push_value(quoted, value(name, vars))
}

/// Adds the variable's value where a form gives it in place of its text: `${name-text}` and `${name:-text}` do, and
/// `${name+text}` and `${name:+text}` never do.
pub fn push_form_value(
    buffer: &mut Buffer,
    quoted: bool,
    test: Test,
    name: &[u8],
    vars: &Vars,
) -> Result<(), Memory>
    ensures splits { buffer.new.splits ≡ buffer.old.splits }
    ensures holds { IfOk result (λ _. Gathers buffer.old buffer.new
        (value_elements quoted (form_value test (value_of name.now vars.now.variables)))) }
{
    if is_value_given(test) && !is_text_used(test, name, vars) {
        push_variable(buffer, quoted, name, vars)
    } else {
        Ok(())
    }
}

/// A variable's value as an expression that matches it alone.
pub fn push_literal(
    buffer: &mut Buffer,
    quoted: bool,
    name: &[u8],
    vars: &Vars,
) -> Result<(), Memory>
    ensures splits { buffer.new.splits ≡ buffer.old.splits }
    ensures holds { IfOk result (λ _. Gathers buffer.old buffer.new
        (value_elements quoted (literal (variable_value vars.now name.now)))) }
{
    buffer.push_value(quoted, b"()")?;
    buffer.push_escaped(quoted, value(name, vars))
}

fn push_number<I: Integer>(buffer: &mut Buffer, quoted: bool, number: I) -> Result<(), Memory>
    ensures splits { buffer.new.splits ≡ buffer.old.splits }
    ensures holds { IfOk result (λ _. Gathers buffer.old buffer.new (value_elements quoted (I.text number))) }
{
    let mut text = itoa::Buffer::new();
    buffer.push_value(quoted, text.format(number).as_bytes())
}

pub fn push_parameter(
    buffer: &mut Buffer,
    quoted: bool,
    parameter: Parameter,
    vars: &Vars,
) -> Result<(), Memory>
    ensures splits { buffer.new.splits ≡ buffer.old.splits }
    ensures holds { IfOk result (λ _. Gathers buffer.old buffer.new
        (value_elements quoted (parameter_value vars.now parameter))) }
{
    match parameter {
        Parameter::Program => buffer.push_value(quoted, b"procmail"),
        Parameter::Argument(number) => buffer.push_value(quoted, argument(number, vars)),
        Parameter::ArgumentCount => push_number(buffer, quoted, vars.arguments()),
        Parameter::Process => push_number(buffer, quoted, vars.marks().pid),
        Parameter::ExitCode => push_number(buffer, quoted, vars.marks().code),
        Parameter::Score => push_number(buffer, quoted, vars.marks().score),
        Parameter::Rcfile => buffer.push_value(quoted, vars.marks().rcfile.as_slice()),
        Parameter::LastFolder => push_variable(buffer, quoted, LAST_FOLDER, vars),
    }
}

/// The output without the newlines at its end.
pub fn without_newlines(output: &[u8]) -> &[u8]
    ensures { result.now ≡ trimmed output.now }
{
    let mut end = 0;
    for (i, byte) in output.iter().enumerate() {
        if *byte != NEWLINE {
            end = i + 1;
        }
    }
    &output[..end]
}
