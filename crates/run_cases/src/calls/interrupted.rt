//! Reads and writes that a signal interrupts (pm_real).
use crate::calls::report::Report;
use pm_real::{read, write};
use std::io;
use std::io::{ErrorKind, Read, Write};

// It is interrupted so many times, then it gives or takes three bytes.
#[derive(Drop)]
struct Interrupted(u8);

impl Interrupted {
    fn may_go_on(&mut self) -> io::Result<()> {
        if self.0 == 0 {
            return Ok(());
        }
        self.0 -= 1;
        Err(io::Error::from(ErrorKind::Interrupted))
    }
}

impl Read for Interrupted {
    fn read(&mut self, room: &mut [u8]) -> io::Result<usize> {
        self.may_go_on()?;
        Ok(room.len().min(3))
    }
}

impl Write for Interrupted {
    fn write(&mut self, piece: &[u8]) -> io::Result<usize> {
        self.may_go_on()?;
        Ok(piece.len().min(3))
    }

    fn flush(&mut self) -> io::Result<()> {
        Ok(())
    }
}

/// One that is interrupted twice is made again, and a write that takes no byte has failed.
pub fn show(report: &mut Report) {
    let mut room = [0u8; 8];
    report.answer("read", read(&mut Interrupted(2), &mut room));
    report.answer("write", write(&mut Interrupted(2), b"abcd"));
    report.answer("write", write(&mut Interrupted(0), b""));
}
