//! The host name's file, and what a host name may be, since it becomes a part of names in maildirs.
ghost use Rattle.std.specs.Prelude.{◌≡◌};
ghost use Rattle.std.specs.List.{list_all};
ghost use Rattle.pm_real.specs.HostName.{is_host_name, is_host_byte};

use std::alloc::Alloc;
use std::io::ErrorKind;
use std::rt::Files;
use std::{fs, io};

const LONGEST: usize = 200;

/// The bytes of a file, if it is a regular one: reading a FIFO would wait for its writer.
pub fn read_regular<R: Files + Alloc>(rt: &R, name: &str) -> io::Result<Vec<u8, R::A>> {
    if !fs::metadata(rt, name)?.is_file() {
        return Err(io::Error::from(ErrorKind::InvalidInput));
    }
    fs::read(rt, name)
}

/// Whether the line can be a host name in the names of a maildir's files: readers look for flags after a colon, and a
/// name has at most 255 bytes.
pub fn can_be_host_name(line: &[u8]) -> bool
    ensures { result ≡ is_host_name line.now }
{
    line.len() <= LONGEST && has_host_bytes(line)
}

fn has_host_bytes(line: &[u8]) -> bool
    ensures { result ≡ list_all (λ byte. is_host_byte byte) line.now }
{
    line.iter().all(|byte| can_stand(*byte))
}

fn can_stand(byte: u8) -> bool
    ensures { result ≡ is_host_byte byte }
{
    32 <= byte && byte != 127 && byte != b':'
}
