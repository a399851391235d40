//! What is found by looking at the disk, beside what check_find finds in the text alone.
ghost use Rattle.std.specs.Prelude.{◌≡◌};
ghost use Rattle.check_find.specs.Codes.{disk_code, disk_severity_of};

use crate::codes::Severity;

/// What the files on this machine show.
#[derive(Clone, Copy)]
pub enum DiskMistake {
    /// The rcfile has over 1,048,576 bytes.
    TooLong,
    /// The directory of MAILDIR is missing.
    NoDirectory,
    /// An rcfile that is named by INCLUDERC or SWITCHRC can't be read.
    Unreadable,
    /// Other users can write to the rcfile.
    Writable,
    /// The rcfile runs itself, directly or through others.
    Recursion,
    /// A program is in no directory of PATH.
    NoProgram,
}

/// The name of the code, as `--allow` takes it.
pub fn disk_name(mistake: DiskMistake) -> &'static str
    ensures { result.now ≡ disk_code mistake }
{
    match mistake {
        DiskMistake::TooLong => "limit",
        DiskMistake::NoDirectory => "maildir",
        DiskMistake::Unreadable => "unreadable",
        DiskMistake::Writable => "writable",
        DiskMistake::Recursion => "recursion",
        DiskMistake::NoProgram => "path",
    }
}

/// How grave it is.
pub fn disk_severity(mistake: DiskMistake) -> Severity
    ensures { result ≡ disk_severity_of mistake }
{
    match mistake {
        DiskMistake::TooLong => Severity::Error,
        DiskMistake::NoDirectory => Severity::Warning,
        DiskMistake::Unreadable => Severity::Warning,
        DiskMistake::Writable => Severity::Warning,
        DiskMistake::Recursion => Severity::Warning,
        DiskMistake::NoProgram => Severity::Warning,
    }
}

/// Whether the word is one of these codes.
pub fn is_disk_code(word: &str) -> bool {
    matches!(
        word,
        "limit" | "maildir" | "unreadable" | "writable" | "recursion" | "path"
    )
}
