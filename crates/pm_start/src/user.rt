//! The login name by which a program is run.
ghost use Rattle.std.specs.Prelude.{◌≡◌, nat_le, option_copied};
ghost use Rattle.std.specs.List.{list_all};
ghost use Rattle.pm_start.specs.Login.{value_in, is_login, login_name};

use pm_bytes::{Environ, Name};

/// The login name: LOGNAME of the environment, where it isn't empty and has no byte below 33, else `nobody`
/// (procmailrc(5), "Environment").
pub fn login(env: &Environ) -> &str
    ensures { result.now ≡ login_name env.now }
{
    match value_in_environment(env, b"LOGNAME") {
        Some(name) if can_log_in(name.as_str().as_bytes()) => name.as_str(),
        _ => "nobody",
    }
}

fn can_log_in(name: &[u8]) -> bool
    ensures { result ≡ is_login name.now }
{
    !name.is_empty() && has_no_blank(name)
}

// Whether the name has no blank and no control character.
fn has_no_blank(name: &[u8]) -> bool
    ensures { result ≡ list_all (λ byte. nat_le 33 byte) name.now }
{
    name.iter().all(|byte| 33 <= *byte)
}

// The value of the first pair of this name.
fn value_in_environment<'a>(env: &'a Environ, name: &[u8]) -> Option<&'a Name>
    ensures { option_copied result ≡ value_in env.now.vars name.now }
{
    for pair in env.vars.as_slice() {
        if name == pair.name.as_str().as_bytes() {
            return Some(&pair.value);
        }
    }
    None
}
