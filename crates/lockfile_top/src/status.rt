//! The exit status, under the names of sysexits(3).
ghost use Rattle.std.specs.Prelude.{◌≡◌};
ghost use Rattle.lockfile_top.specs.Status.{status_number, end_status};

use crate::Ending;

/// An exit status of the program.
#[derive(Clone, Copy)]
pub enum Status {
    Success,
    /// The command line isn't read.
    Usage,
    /// Memory was wanting.
    SystemError,
    /// Not all lock files were made.
    CannotCreate,
}

impl Status {
    /// The number with which the program ends.
    pub fn number(self) -> u8
        ensures { result ≡ status_number self }
    {
        match self {
            Status::Success => 0,
            Status::Usage => 64,
            Status::SystemError => 71,
            Status::CannotCreate => 73,
        }
    }
}

/// The exit status of tasks that ended so. With `-!` (lockfile(1)) the two are exchanged.
pub fn status_of(inverted: bool, ending: Ending) -> Status
    ensures { result ≡ end_status inverted ending }
{
    match (inverted, ending) {
        (false, Ending::AllDone) | (true, Ending::GaveUp) => Status::Success,
        (false, Ending::GaveUp) | (true, Ending::AllDone) => Status::CannotCreate,
    }
}
