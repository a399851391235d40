//! The exit status.
ghost use Rattle.std.specs.Prelude.{◌≡◌};
ghost use Rattle.std.specs.List.{list_any};
ghost use Rattle.check_find.specs.Objects.{is_error_word, is_warning_word};
ghost use Rattle.check_cli.specs.Status.{status_number, status_of};

use check_find::{Line, Severity};

/// The exit statuses of procmail-check.
#[derive(Clone, Copy)]
pub enum Status {
    /// Nothing was found.
    Clean,
    /// A warning, and no error.
    Warnings,
    /// An error.
    Errors,
    /// The arguments aren't understood.
    Usage,
    /// An rcfile can't be read.
    NoInput,
    /// Out of memory, or the output can't be written.
    SystemError,
    /// An rcfile can't be written in its place.
    NoOutput,
}

impl Status {
    /// The number with which the program ends.
    pub fn number(self) -> u8
        ensures { result ≡ status_number self }
    {
        match self {
            Status::Clean => 0,
            Status::Warnings => 1,
            Status::Errors => 2,
            Status::Usage => 64,
            Status::NoInput => 66,
            Status::SystemError => 71,
            Status::NoOutput => 73,
        }
    }
}

/// The status of a check that found this.
pub fn status_of(lines: &[Line<'_>]) -> Status
    ensures { result ≡ status_of lines.now }
{
    if has_error(lines) {
        return Status::Errors;
    }
    if has_warning(lines) {
        return Status::Warnings;
    }
    Status::Clean
}

fn has_error(lines: &[Line<'_>]) -> bool
    ensures { result ≡ list_any (λ line. is_error_word line.severity) lines.now }
{
    lines.iter().any(|line| is_error(line.severity))
}

fn has_warning(lines: &[Line<'_>]) -> bool
    ensures { result ≡ list_any (λ line. is_warning_word line.severity) lines.now }
{
    lines.iter().any(|line| is_warning(line.severity))
}

fn is_error(severity: Severity) -> bool
    ensures { result ≡ is_error_word severity }
{
    matches!(severity, Severity::Error)
}

fn is_warning(severity: Severity) -> bool
    ensures { result ≡ is_warning_word severity }
{
    matches!(severity, Severity::Warning)
}
