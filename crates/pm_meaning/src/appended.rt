//! The file to which a program line appends: its name gives the automatic lock file (procmailrc(5), "Local lockfile").
ghost use Rattle.std.specs.Prelude.{◌≡◌, position};
ghost use Rattle.pm_meaning.specs.Leads.{is_no_blank};
ghost use Rattle.pm_meaning.specs.Leads;
ghost use Rattle.pm_meaning.specs.ProgramActions.{ends_name, up_to_end};
ghost use Rattle.pm_meaning.specs.ProgramActions;

use pm_bytes::{is_blank, is_space};

/// The name after the first `>>` and blanks.
pub fn appended_name(line: &[u8]) -> &[u8]
    ensures { result.now ≡ ProgramActions.appended_name line.now }
{
    first_name(after_blanks(after_arrows(line)))
}

fn after_arrows(line: &[u8]) -> &[u8]
    ensures { result.now ≡ ProgramActions.after_arrows line.now }
{
    let mut rest = line;
    while let [_, behind @ ..] = rest {
        if rest.starts_with(b">>") {
            return &behind[1..];
        }
        rest = behind;
    }
    b""
}

fn after_blanks(text: &[u8]) -> &[u8]
    ensures { result.now ≡ Leads.after_blanks text.now }
{
    &text[blanks_end(text).unwrap_or(text.len())..]
}

fn blanks_end(text: &[u8]) -> Option<usize>
    ensures { result ≡ position is_no_blank text.now }
{
    text.iter().position(|byte| !is_blank(*byte))
}

fn first_name(text: &[u8]) -> &[u8]
    ensures { result.now ≡ up_to_end text.now }
{
    &text[..name_end(text).unwrap_or(text.len())]
}

fn name_end(text: &[u8]) -> Option<usize>
    ensures { result ≡ position ends_name text.now }
{
    text.iter()
        .position(|byte| is_space(*byte) || b";|&<>)".contains(byte))
}
