//! What came of a program or of standard output, by how that ended.
ghost use Rattle.std.specs.Prelude.{◌≡◌};
ghost use Rattle.pm_journal.specs.Sayings.{say_reply};
ghost use Rattle.pm_meaning.specs.ProgramActions;

use pm_journal::{RunEnd, WriteEnd};
use pm_meaning::Outcome;
use pm_recipe::Flags;

/// Whether it was done.
pub fn is_fine(outcome: Outcome) -> bool
    ensures { result ≡ ProgramActions.is_fine outcome }
{
    matches!(outcome, Outcome::Done)
}

/// What came of a program that was fed so many bytes, and is to take them all.
pub fn feed_outcome(flags: Flags, count: u64, end: RunEnd) -> Outcome
    ensures { result ≡ ProgramActions.feed_outcome flags count end }
{
    match end {
        RunEnd::Ended { code, took } => {
            if took < count && !flags.ignore {
                Outcome::Closed
            } else {
                code_outcome(flags, code)
            }
        }
        RunEnd::NotStarted => Outcome::NotStarted,
        RunEnd::Broken => Outcome::Lost,
        RunEnd::TooLong => Outcome::TooLong,
    }
}

/// What came of a program that may leave input.
pub fn end_outcome(flags: Flags, end: RunEnd) -> Outcome
    ensures { result ≡ ProgramActions.end_outcome flags end }
{
    match end {
        RunEnd::Ended { code, .. } => code_outcome(flags, code),
        RunEnd::NotStarted => Outcome::NotStarted,
        RunEnd::Broken => Outcome::Lost,
        RunEnd::TooLong => Outcome::TooLong,
    }
}

fn code_outcome(flags: Flags, code: u8) -> Outcome
    ensures { result ≡ ProgramActions.code_outcome flags code }
{
    if (flags.wait || flags.wait_quiet) && code != 0 {
        Outcome::Code(code)
    } else {
        Outcome::Done
    }
}

/// What came of a piece for standard output.
pub fn write_outcome(end: WriteEnd) -> Outcome
    ensures { result ≡ ProgramActions.write_outcome (say_reply end) }
{
    match end {
        WriteEnd::Wrote => Outcome::Done,
        WriteEnd::Short(_) => Outcome::Unwritten,
    }
}
