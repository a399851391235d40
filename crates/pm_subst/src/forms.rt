//! The forms that begin with a `$`.
ghost use Rattle.std.specs.Prelude.{◌≡◌, ◌≤◌, ◌<◌, ◌+◌, ◌^◌, length};
ghost use Rattle.pm_subst.specs.Front.{form_of, literal_of, braced, tail_of, colon_tail_of, piece, parameter_of};
ghost use Rattle.pm_subst.specs.Front.{parameter_front, Within};

use crate::bytes::rest_of_name;
use crate::kinds::{Front, Kind, Parameter, Rule, Test};
use crate::reading::plain_byte;
use pm_bytes::{
    BACKSLASH, CLOSE_BRACE, COLON, DOLLAR, HASH, MINUS, OPEN_BRACE, PLUS, UNDERSCORE, begins_name,
};

pub fn after_dollar(rule: Rule, text: &[u8]) -> Front
    requires { length text.now < 2 ^ 63 }
    ensures front { result ≡ form_of rule text.now }
    ensures within { Within result (length text.now + 1) }
{
    match text {
        [] => plain_byte(),
        [OPEN_BRACE, rest @ ..] if rule.may_open => after_brace(rest),
        [BACKSLASH, rest @ ..] => after_dollar_backslash(rest),
        [byte, rest @ ..] if begins_name(*byte) => {
            let length = rest_of_name(rest);
            if *byte == UNDERSCORE && length == 0 {
                return one_byte(Parameter::Rcfile);
            }
            Front {
                kind: Kind::Value,
                from: 1,
                to: length + 2,
                taken: length + 2,
            }
        }
        [byte, ..] => match parameter(*byte) {
            None => plain_byte(),
            Some(parameter) => one_byte(parameter),
        },
    }
}

fn one_byte(parameter: Parameter) -> Front
    ensures { result ≡ parameter_front parameter }
{
    Front {
        kind: Kind::Parameter(parameter),
        from: 1,
        to: 2,
        taken: 2,
    }
}

fn parameter(byte: u8) -> Option<Parameter>
    ensures { result ≡ parameter_of byte }
{
    match byte {
        b'0' => Some(Parameter::Program),
        b'1'..=b'9' => Some(Parameter::Argument(byte - b'0')),
        HASH => Some(Parameter::ArgumentCount),
        DOLLAR => Some(Parameter::Process),
        b'?' => Some(Parameter::ExitCode),
        b'=' => Some(Parameter::Score),
        MINUS => Some(Parameter::LastFolder),
        _ => None,
    }
}

fn after_dollar_backslash(text: &[u8]) -> Front
    requires { length text.now < 2 ^ 63 }
    ensures front { result ≡ literal_of text.now }
    ensures within { Within result (length text.now + 2) }
{
    match text {
        [byte, rest @ ..] if begins_name(*byte) => {
            let length = rest_of_name(rest);
            Front {
                kind: Kind::Literal,
                from: 2,
                to: length + 3,
                taken: length + 3,
            }
        }
        _ => plain_byte(),
    }
}

fn after_brace(text: &[u8]) -> Front
    requires { length text.now < 2 ^ 63 }
    ensures front { result ≡ braced text.now }
    ensures within { Within result (length text.now + 2) }
{
    match text {
        [byte, rest @ ..] if begins_name(*byte) => {
            let length = rest_of_name(rest);
            behind_name(length + 3, &rest[length..])
        }
        _ => plain_byte(),
    }
}

// After the name of a form in braces, with the length of all before it.
fn behind_name(before: usize, text: &[u8]) -> Front
    requires some { 3 ≤ before }
    requires room { before < 2 ^ 63 + 3 }
    ensures front { result ≡ tail_of before text.now }
    ensures within { Within result (before + length text.now) }
{
    match text {
        [] => braces(Kind::Value, before, before),
        [CLOSE_BRACE, ..] => braces(Kind::Value, before, before + 1),
        [MINUS, ..] => braces(Kind::FormOpen(Test::Unset), before, before + 1),
        [PLUS, ..] => braces(Kind::FormOpen(Test::Set), before, before + 1),
        [COLON, rest @ ..] => behind_colon(before, rest),
        _ => plain_byte(),
    }
}

fn behind_colon(before: usize, text: &[u8]) -> Front
    requires some { 3 ≤ before }
    requires room { before < 2 ^ 63 + 3 }
    ensures front { result ≡ colon_tail_of before text.now }
    ensures within { Within result (before + length text.now + 1) }
{
    match text {
        [MINUS, ..] => braces(Kind::FormOpen(Test::UnsetOrEmpty), before, before + 2),
        [PLUS, ..] => braces(Kind::FormOpen(Test::SetNotEmpty), before, before + 2),
        _ => plain_byte(),
    }
}

fn braces(kind: Kind, to: usize, taken: usize) -> Front
    ensures { result ≡ piece kind 2 to taken }
{
    Front {
        kind,
        from: 2,
        to,
        taken,
    }
}
