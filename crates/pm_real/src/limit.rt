//! The limit on the size of files (`ulimit -f`, setrlimit(2)). If a process begins a write at the limit or past it,
//! the system ends the process by the signal SIGXFSZ; it cuts short a write that only crosses the limit. A program of
//! this language can't ignore a signal. So it doesn't make a write that would begin there: that write counts as failed,
//! as it does if the signal is ignored.
ghost use Rattle.std.specs.Prelude.{◌≡◌, nat_lt};

use libc::types::rlimit;
use std::fs;
use std::rt::Files;

// The limit's number in getrlimit(2).
const FILE_SIZE: i32 = 1;

/// No file of the process grows past so many bytes. Without a limit it is the largest number, as in getrlimit(2).
#[derive(Clone, Copy)]
pub struct SizeLimit {
    most: u64,
}

impl SizeLimit {
    /// The limit of this process.
    pub fn of_process() -> SizeLimit {
        let mut found = rlimit {
            rlim_cur: u64::MAX,
            rlim_max: u64::MAX,
        };
        if libc::getrlimit(FILE_SIZE, &mut found) != 0 {
            return SizeLimit { most: u64::MAX };
        }
        SizeLimit {
            most: found.rlim_cur,
        }
    }

    /// Whether there is a limit.
    pub fn is_set(self) -> bool
        ensures { result ≡ nat_lt self.most 18446744073709551615 }
    {
        self.most < u64::MAX
    }

    /// Whether a write to a regular file may begin at this offset.
    pub fn allows(self, at: u64) -> bool
        ensures { result ≡ nat_lt at self.most }
    {
        at < self.most
    }
}

/// The limit as it holds for a standard stream, whose file and position other processes may share.
#[derive(Clone, Copy)]
pub struct StreamLimit {
    number: i32,
    limit: SizeLimit,
    is_full: bool,
}

impl StreamLimit {
    /// `file` is the stream's file as /proc names it. Where that already has as many bytes as the limit allows, nothing
    /// is written to the stream, since its position may be no more than its beginning though all is appended.
    pub fn of<R: Files>(rt: &R, number: i32, file: &str, limit: SizeLimit) -> StreamLimit {
        let is_full = limit.is_set()
            && match fs::metadata(rt, file) {
                Ok(found) => found.is_file() && !limit.allows(found.len()),
                Err(_) => false,
            };
        StreamLimit {
            number,
            limit,
            is_full,
        }
    }

    /// Whether the next write may begin where the stream is. What has no position, as a pipe, has no limit.
    pub fn allows(self) -> bool {
        if !self.limit.is_set() {
            return true;
        }
        match u64::try_from(libc::lseek(self.number, 0, libc::SEEK_CUR)) {
            Ok(at) => !self.is_full && self.limit.allows(at),
            Err(_) => true,
        }
    }
}
