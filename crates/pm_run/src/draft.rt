//! Drafts of abstracts.
ghost use Rattle.std.specs.Prelude.{◌≡◌};
ghost use Rattle.pm_meaning.specs.AbstractParts.{mail_part};
ghost use Rattle.pm_meaning.specs.Telling.{log_name};

use pm_bytes::{Blob, Name};

/// What the abstract says of a mail with this head, and the log file by LOGFILE's value and the directory from which
/// names are seen.
#[derive(Drop)]
pub struct Draft {
    pub head: Blob,
    pub text: Vec<u8>,
    pub value: Blob,
    pub base: Name,
    pub file: Option<Name>,
    ghost front: { text.items ≡ mail_part head },
    ghost named: { file ≡ log_name value base },
}
