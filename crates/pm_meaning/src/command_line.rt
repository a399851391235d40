//! What the words of the command line ask for.
use pm_bytes::{Names, Pairs};
use pm_message::Renew;

/// Whether the program is a mail filter (`-m`), whether a mail that isn't delivered shall be tried again later (`-t`),
/// what happens to the From line of the mail (`-f`), the arguments that rcfiles get (`-a`), the variables that words
/// set, and the rcfiles as they are named; without one that of the user's home folder is meant (procmail(1)).
#[derive(Drop)]
pub struct CommandLine {
    pub filter: bool,
    pub fails_softly: bool,
    pub renew: Renew,
    pub arguments: Names,
    pub values: Pairs,
    pub rcfiles: Names,
}
