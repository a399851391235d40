//! A piece is filed under the first name that isn't taken.
ghost use Rattle.pm_folders.specs.Filing.{TriesAll};
ghost use Rattle.pm_folders.specs.Trying.{nth_try, candidates_from};

use crate::file::file_under;
use crate::names::Names;
use pm_bytes::Name;
use pm_host::Host;
use pm_journal::FileEnd;

// How many names are tried.
const MOST: u32 = 100;

/// How the filing in a folder ended.
#[derive(Drop)]
pub enum PlaceEnd {
    /// One new file stands under this name, and holds the piece.
    Done { name: Name },
    /// A call failed, and no file was added. Folders that were made stay.
    Undone,
    /// A call failed: the file at this name holds the first so many bytes of the piece.
    Torn { name: Name, taken: u64 },
    /// All names were taken.
    NamesOut,
    /// Memory was wanting, before any file was made.
    Memory,
}

/// Tries the names in order. It takes no memory.
pub fn file_in_first<H: Host>(host: &mut H, mut names: Names, piece: &[u8]) -> PlaceEnd
    ensures { TriesAll (candidates_from (nth_try names) 0 100) piece.now result (H.told host.old) (H.told host.new) }
{
    for k in 0..MOST {
        names.write(k);
        match file_under(host, &names, piece) {
            FileEnd::Taken => {}
            FileEnd::Undone => return PlaceEnd::Undone,
            FileEnd::Filed => {
                return PlaceEnd::Done {
                    name: names.into_filed(),
                };
            }
            FileEnd::Torn(taken) => {
                return PlaceEnd::Torn {
                    name: names.into_made(),
                    taken,
                };
            }
        }
    }
    PlaceEnd::NamesOut
}
