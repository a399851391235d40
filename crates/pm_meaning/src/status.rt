//! The exit status, under the names of sysexits(3).
ghost use Rattle.std.specs.Prelude.{◌≡◌};
ghost use Rattle.pm_meaning.specs.Status.{status_number, end_status};

use crate::process::End;

/// An exit status of the program.
#[derive(Clone, Copy, Debug, PartialEq, Eq)]
pub enum Status {
    Success,
    /// The command line isn't read.
    Usage,
    /// The message is too long.
    DataError,
    /// The rcfile wasn't read.
    NoInput,
    /// Memory was wanting.
    SystemError,
    /// No delivery was made.
    CannotCreate,
    /// The message couldn't be read.
    InputOutput,
    /// No delivery was made, and the mail shall be tried again later.
    TemporaryFailure,
}

impl Status {
    /// The number with which the program ends.
    pub fn number(self) -> u8
        ensures { result ≡ status_number self }
    {
        match self {
            Status::Success => 0,
            Status::Usage => 64,
            Status::DataError => 65,
            Status::NoInput => 66,
            Status::SystemError => 71,
            Status::CannotCreate => 73,
            Status::InputOutput => 74,
            Status::TemporaryFailure => 75,
        }
    }
}

/// The exit status of a process that ended so, softly or not (`-t`), unless EXITCODE, TRAP or DELIVERED says otherwise.
pub fn status_of(softly: bool, end: End) -> Status
    ensures { result ≡ end_status softly end }
{
    match end {
        End::Delivered => Status::Success,
        End::FellOff if softly => Status::TemporaryFailure,
        End::FellOff => Status::CannotCreate,
        End::NoRc => Status::NoInput,
        End::HostOff => Status::Success,
    }
}
