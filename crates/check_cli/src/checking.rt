//! Checks an rcfile and those that it names. It only looks at the disk and reads: it has nothing else.
use crate::disk::{Disk, Look, is_memory};
use crate::findings::{found_in, push_first};
use crate::known::Known;
use crate::places::{below, column_of, is_absolute};
use crate::remarks::{Checked, Remark, of_disk};
use crate::steps::{Step, steps_of};
use crate::walk::{Next, Walk};
use check_find::DiskMistake;
use pm_bytes::{Blob, Memory};
use pm_recipe::RcRefused;
use std::alloc::Global;

// At most so many rcfiles are followed.
const MOST_FILES: usize = 1000;

/// Why nothing is reported.
#[derive(Clone, Copy)]
pub enum Stopped {
    /// The rcfile can't be read.
    Unreadable,
    Memory,
}

impl From<Memory> for Stopped {
    fn from(_: Memory) -> Stopped {
        Stopped::Memory
    }
}

/// Where a step is: the number of its rcfile, its line, and the place of its first byte.
#[derive(Clone, Copy)]
struct Place {
    file: usize,
    line: u64,
    first: usize,
}

/// The state of a check.
#[derive(Drop)]
pub struct Checking {
    alloc: Global,
    /// Whether rcfiles that are named are followed, and directories looked for.
    looks: bool,
    /// Whether forms of procmail 3.22 are reported.
    from_old: bool,
    known: Known,
    /// To which names are relative, if that is known.
    directory: Option<String>,
    walk: Walk,
    files: Vec<Checked>,
}

impl Checking {
    /// Nothing is checked yet.
    pub fn new(alloc: Global, looks: bool, from_old: bool) -> Checking {
        Checking {
            alloc,
            looks,
            from_old,
            known: Known::new(alloc),
            directory: None,
            walk: Walk::new(alloc),
            files: Vec::new(alloc),
        }
    }

    /// Names are relative to this directory from here on.
    pub fn begin_in(&mut self, directory: &str) -> Result<(), Memory> {
        self.directory = Some(String::from_str(self.alloc, directory)?);
        Ok(())
    }

    /// A variable of the environment, or one that procmail sets itself.
    pub fn begin_with(&mut self, name: &[u8], value: &[u8]) -> Result<(), Memory> {
        self.known.set(name, value)
    }

    /// A variable of the command line, whose value is expanded as in an rcfile.
    pub fn start_with(&mut self, name: &[u8], value: &[u8]) -> Result<(), Memory> {
        match self.known.value_of(value)? {
            Some(value) => self.known.set(name, value.as_slice()),
            None => self.known.lose(name),
        }
    }

    /// Checks the rcfile of this name, and all that it names.
    pub fn check<D: Disk>(&mut self, disk: &D, name: &str) -> Result<(), Stopped> {
        let text = read(disk, name)?;
        self.add(disk, name, text)?;
        for _ in 0..u64::MAX {
            match self.walk.next() {
                Next::Step(file, step) => self.take(disk, file, step)?,
                Next::End(depth) => self.close_to(depth)?,
                Next::Done => break,
            }
        }
        Ok(())
    }

    /// The rcfiles in the order in which they were read.
    pub fn into_files(self) -> Vec<Checked> {
        self.files
    }

    // An rcfile with this text is executed from here on.
    fn add<D: Disk>(&mut self, disk: &D, name: &str, text: Vec<u8>) -> Result<(), Memory> {
        self.open(text.as_slice())?;
        let file = self.checked(disk, name, text)?;
        Ok(self.files.push(file)?)
    }

    // Of an rcfile that is too long no step is taken.
    fn open(&mut self, text: &[u8]) -> Result<(), Memory> {
        match steps_of(self.alloc, text) {
            Ok(steps) => self.walk.open(self.files.len(), steps),
            Err(RcRefused::TooLong { .. }) => Ok(()),
            Err(RcRefused::Memory) => Err(Memory),
        }
    }

    fn checked<D: Disk>(&self, disk: &D, name: &str, text: Vec<u8>) -> Result<Checked, Memory> {
        let name = String::from_str(self.alloc, name)?;
        let remarks = self.remarks_of(disk, name.as_str(), text.as_slice())?;
        Ok(Checked {
            name,
            text,
            remarks,
        })
    }

    fn remarks_of<D: Disk>(
        &self,
        disk: &D,
        name: &str,
        text: &[u8],
    ) -> Result<Vec<Remark>, Memory> {
        let mut remarks = found_in(self.alloc, self.from_old, text)?;
        if self.looks && disk.look(name).is_writable() {
            push_first(self.alloc, DiskMistake::Writable, &mut remarks)?;
        }
        Ok(remarks)
    }

    fn take<D: Disk>(&mut self, disk: &D, file: usize, step: Step) -> Result<(), Memory> {
        match step {
            Step::Assign {
                name,
                value,
                line,
                first,
            } => { self.assign(disk, Place { file, line, first }, name, value.as_slice()) }
            Step::Forget { name } => self.forget(name),
            Step::Start {
                program,
                line,
                first,
            } => self.look_for(
                disk,
                Place { file, line, first },
                text_in(Some(program.as_slice())),
            ),
            Step::Open { always } => self.walk.begin_block(always),
            Step::Close => self.close(),
        }
    }

    fn forget(&mut self, name: Vec<u8>) -> Result<(), Memory> {
        self.known.lose(name.as_slice())?;
        self.walk.note(name)
    }

    fn assign<D: Disk>(
        &mut self,
        disk: &D,
        place: Place,
        name: Vec<u8>,
        text: &[u8],
    ) -> Result<(), Memory> {
        self.assign_text(disk, place, name.as_slice(), text)?;
        self.walk.note(name)
    }

    fn assign_text<D: Disk>(
        &mut self,
        disk: &D,
        place: Place,
        name: &[u8],
        text: &[u8],
    ) -> Result<(), Memory> {
        let value = self.known.value_of(text)?;
        let value = value.as_ref().map(Blob::as_slice);
        self.assign_known(disk, place, name, value)
    }

    fn assign_known<D: Disk>(
        &mut self,
        disk: &D,
        place: Place,
        name: &[u8],
        value: Option<&[u8]>,
    ) -> Result<(), Memory> {
        match value {
            Some(value) => self.known.set(name, value)?,
            None => self.known.lose(name)?,
        }
        match name {
            b"MAILDIR" => self.change_directory(disk, place, text_in(value)),
            b"INCLUDERC" | b"SWITCHRC" => self.run_rcfile(disk, place, text_in(value)),
            _ => Ok(()),
        }
    }

    // procmail stays where it is if the directory is missing.
    fn change_directory<D: Disk>(
        &mut self,
        disk: &D,
        place: Place,
        value: Option<&str>,
    ) -> Result<(), Memory> {
        let full = match value {
            Some(value) => self.full(value)?,
            None => None,
        };
        match full {
            Some(full) if self.looks && !disk.look(full.as_str()).is_directory() => {
                self.remark(DiskMistake::NoDirectory, place, full.as_str())
            }
            full => {
                self.directory = full;
                Ok(())
            }
        }
    }

    // The rcfile is executed here, unless it was before.
    fn run_rcfile<D: Disk>(
        &mut self,
        disk: &D,
        place: Place,
        value: Option<&str>,
    ) -> Result<(), Memory> {
        let Some(value) = value else { return Ok(()) };
        if !self.looks || value.is_empty() || self.files.len() >= MOST_FILES {
            return Ok(());
        }
        match self.full(value)? {
            Some(full) => self.run_named(disk, place, full.as_str()),
            None => Ok(()),
        }
    }

    fn run_named<D: Disk>(&mut self, disk: &D, place: Place, name: &str) -> Result<(), Memory> {
        match self.number_of(name) {
            Some(number) if self.walk.is_open(number) => {
                self.remark(DiskMistake::Recursion, place, name)
            }
            Some(_) => Ok(()),
            None => self.follow(disk, place, name),
        }
    }

    // A device such as /dev/null or a FIFO isn't read.
    fn follow<D: Disk>(&mut self, disk: &D, place: Place, name: &str) -> Result<(), Memory> {
        match disk.look(name) {
            Look::Other => Ok(()),
            Look::Nothing | Look::Directory => self.remark(DiskMistake::Unreadable, place, name),
            Look::File { .. } => self.follow_file(disk, place, name),
        }
    }

    fn follow_file<D: Disk>(&mut self, disk: &D, place: Place, name: &str) -> Result<(), Memory> {
        match disk.read(name) {
            Ok(text) => self.add(disk, name, text),
            Err(error) if is_memory(&error) => Err(Memory),
            Err(_) => self.remark(DiskMistake::Unreadable, place, name),
        }
    }

    // A program is in a directory of PATH, or has a slash in its name.
    fn look_for<D: Disk>(
        &mut self,
        disk: &D,
        place: Place,
        program: Option<&str>,
    ) -> Result<(), Memory> {
        let Some(program) = program else {
            return Ok(());
        };
        if !self.looks || self.is_there(disk, program)? {
            return Ok(());
        }
        self.remark(DiskMistake::NoProgram, place, program)
    }

    // Also if it isn't known where to look.
    fn is_there<D: Disk>(&self, disk: &D, program: &str) -> Result<bool, Memory> {
        if program.as_bytes().contains(&b'/') {
            return match self.full(program)? {
                Some(full) => Ok(disk.look(full.as_str()).is_program()),
                None => Ok(true),
            };
        }
        let Some(path) = text_in(self.known.get(b"PATH")) else {
            return Ok(true);
        };
        for directory in path.split(':') {
            if self.is_below(disk, directory, program)? {
                return Ok(true);
            }
        }
        Ok(false)
    }

    fn is_below<D: Disk>(&self, disk: &D, directory: &str, program: &str) -> Result<bool, Memory> {
        let name = below(self.alloc, directory, program)?;
        Ok(disk.look(name.as_str()).is_program())
    }

    // The name from the working directory, if it is known to which directory it is relative.
    fn full(&self, name: &str) -> Result<Option<String>, Memory> {
        if is_absolute(name) {
            return Ok(Some(String::from_str(self.alloc, name)?));
        }
        match &self.directory {
            Some(directory) => Ok(Some(below(self.alloc, directory.as_str(), name)?)),
            None => Ok(None),
        }
    }

    fn number_of(&self, name: &str) -> Option<usize> {
        self.files
            .iter()
            .position(|file| file.name.as_str() == name)
    }

    fn remark(&mut self, mistake: DiskMistake, place: Place, about: &str) -> Result<(), Memory> {
        let Some(file) = self.files.get_mut(place.file) else {
            return Ok(());
        };
        let column = column_of(file.text.as_slice(), place.first);
        file.remarks
            .push(of_disk(self.alloc, mistake, place.line, column, about)?)?;
        Ok(())
    }

    fn close_to(&mut self, depth: usize) -> Result<(), Memory> {
        for _ in depth..self.walk.depth() {
            self.close()?;
        }
        Ok(())
    }

    // After a block that may be left out, its assignments may have been made or not.
    fn close(&mut self) -> Result<(), Memory> {
        let Some(block) = self.walk.end_block() else {
            return Ok(());
        };
        for name in block.names {
            self.end_name(block.always, name)?;
        }
        Ok(())
    }

    fn end_name(&mut self, always: bool, name: Vec<u8>) -> Result<(), Memory> {
        if always {
            self.walk.note(name)
        } else {
            self.lose(name.as_slice())
        }
    }

    fn lose(&mut self, name: &[u8]) -> Result<(), Memory> {
        if name == b"MAILDIR".as_slice() {
            self.directory = None;
        }
        self.known.lose(name)
    }
}

fn read<D: Disk>(disk: &D, name: &str) -> Result<Vec<u8>, Stopped> {
    let text = if name == "-" {
        disk.read_input()
    } else {
        disk.read(name)
    };
    match text {
        Ok(text) => Ok(text),
        Err(error) if is_memory(&error) => Err(Stopped::Memory),
        Err(_) => Err(Stopped::Unreadable),
    }
}

fn text_in(value: Option<&[u8]>) -> Option<&str> {
    match std::str::from_utf8(value?) {
        Ok(text) => Some(text),
        Err(_) => None,
    }
}
