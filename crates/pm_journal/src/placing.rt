//! What is filed in a folder: its kinds, and the names that are tried there.
use pm_bytes::Name;

/// A folder that gets each mail as a file of its own: a maildir, an MH folder, or a plain one.
#[derive(Clone, Copy, Debug, PartialEq, Eq)]
pub enum FolderKind {
    Maildir,
    Mh,
    Plain,
}

/// What makes a name in a folder: the moment in seconds since 1970 in UTC, the process number, a count, and the name of
/// the machine.
#[derive(Drop)]
pub struct Stamp {
    pub moment: i64,
    pub pid: u32,
    pub serial: u64,
    pub host_name: Name,
}

/// A name at which a file is made, and the name to which it is moved once it is whole, where there is one.
#[derive(Drop)]
pub struct Candidate {
    pub at: Name,
    pub to: Option<Name>,
}

/// How the filing of a piece under one name ended.
#[derive(Clone, Copy, Debug, PartialEq, Eq)]
pub enum FileEnd {
    /// The file is there with the whole piece, which was synced to disk.
    Filed,
    /// Something stands at the name.
    Taken,
    /// A call failed, and no file is there.
    Undone,
    /// A call failed: the first so many bytes of the piece are left at the name at which the file was made.
    Torn(u64),
}

/// How the filing of a piece in a folder ended. The name of its file stands in the entry.
#[derive(Clone, Copy, Debug, PartialEq, Eq)]
pub enum FolderEnd {
    /// One new file holds the piece.
    Placed,
    /// A call failed, and no file was added.
    Undone,
    /// A call failed: a file holds the first so many bytes of the piece.
    Torn(u64),
    /// All names were taken.
    NamesOut,
}
