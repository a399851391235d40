//! The files, the clock and the children of the machine.
ghost use Rattle.std.specs.Prelude.{◌≡◌, ◌≤◌, ◌<◌, None, true, false, length, IfOk, IsSome};
ghost use Rattle.pm_host.specs.Answers.{read_answer, IsWithin};
ghost use Rattle.pm_host.specs.Told.{Rose, Makes};
ghost use Rattle.pm_host.specs.declared.calls.Call.TheVariants as call;
ghost use Rattle.pm_host.specs.declared.calls.Answer.TheVariants as answer;
ghost use Rattle.pm_host.specs.declared.answers.Child.TheVariants.{NoChild};
ghost use Rattle.pm_real.specs.Quiet.{quiet_host};
ghost use Rattle.pm_real.specs.Kept.{is_open_target};
ghost use Rattle.pm_real.specs.Calls.{state_of, came_of, count_of, Adds, IsUsed, IsCutBy, IsEmptied};
ghost use Rattle.pm_real.specs.Calls.{IsAfterRead, IsMadeBy, IsLookedAt, Stays};
ghost use Rattle.pm_real.specs.declared.mode.Mode.TheVariants.{Reading, Appending};

use crate::child::Running;
use crate::kept_file::KeptFile;
use crate::limit::SizeLimit;
use crate::setup::Setup;
use crate::{child, folders};
use pm_bytes::Memory;
use pm_host::{
    Aged, Child, Command, Cut, Fed, Finished, Got, Host, Listed, Looked, Made, Moved, Removed,
    Started, Synced, Took,
};
use std::alloc::{Alloc, Global};
use std::fs::OpenFile;
use std::io::ErrorKind;
use std::os::fd::AsRawFd;
use std::os::unix::fs::FileExt;
use std::process::{Processes, Stdio};
use std::rt::{Clock, Files};
use std::time::{Duration, SystemTime, UNIX_EPOCH};
use std::{io, thread};

/// The files, the clock and the children of the machine. The file that was made, read or appended to last is kept open
/// for the calls that follow on its name. It is closed when another one is opened, at a look that doesn't find that
/// very file, at a remove or a rename, before a child starts, and when the host is dropped.
#[derive(Drop)]
pub struct RealHost<R: Files + Clock + Processes + Alloc<A = Global> + Clone + Drop>
where
    R::File: FileExt + AsRawFd + Into<Stdio>,
{
    rt: R,
    alloc: Global,
    pid: u32,
    limit: SizeLimit,
    lacks_error: bool,
    faults: u64,
    kept: KeptFile<R::File>,
    running: Option<Running<R::Started, R::File>>,
    child: Child,
}

impl<R: Files + Clock + Processes + Alloc<A = Global> + Clone + Drop> RealHost<R>
where
    R::File: FileExt + AsRawFd + Into<Stdio>,
{
    /// The allocator and the process number serve the names of the files that children write to.
    pub fn new(
        rt: &R,
        alloc: Global,
        pid: u32,
        setup: &Setup<R::File>,
    ) -> Result<RealHost<R>, Memory>
        ensures fresh { IfOk result (λ host. host.faults ≡ 0) }
        ensures none { IfOk result (λ host. host.child ≡ NoChild) }
    {
        Ok(RealHost {
            rt: rt.clone()?,
            alloc,
            pid,
            limit: setup.limit(),
            lacks_error: setup.lacks_error(),
            faults: 0,
            kept: KeptFile::new(),
            running: None,
            child: Child::NoChild,
        })
    }

    fn count_fault(&mut self)
        ensures rose { Rose self.old.faults self.new.faults }
        ensures later { self.old.faults ≤ self.new.faults }
        ensures child { self.new.child ≡ self.old.child }
        ensures kept { self.new.kept ≡ self.old.kept }
    {
        self.faults = self.faults.saturating_add(1);
    }

    fn start_child(
        &self,
        command: &Command,
        want: bool,
    ) -> io::Result<Running<R::Started, R::File>> {
        let stderr = self.stderr_of_children();
        if !want {
            return child::start(&self.rt, self.alloc, command, Stdio::null(), stderr, None);
        }
        let output = child::open_output(&self.rt, self.alloc, self.pid)?;
        let stdout = output.try_clone()?;
        child::start(
            &self.rt,
            self.alloc,
            command,
            stdout.into(),
            stderr,
            Some(output),
        )
    }

    // A child without a standard error would have the first file there that it opens.
    fn stderr_of_children(&self) -> Stdio {
        if self.lacks_error {
            Stdio::null()
        } else {
            Stdio::inherit()
        }
    }
}

// Seconds since 1970 in UTC; 0 where the clock can't be read or stands before 1970.
fn seconds<R: Clock>(rt: &R) -> i64 {
    let Ok(time) = SystemTime::now(rt) else {
        return 0;
    };
    match time.duration_since(UNIX_EPOCH) {
        Ok(since) => i64::try_from(since.as_secs()).unwrap_or(i64::MAX),
        Err(_) => 0,
    }
}

impl<R: Files + Clock + Processes + Alloc<A = Global> + Clone + Drop> Host for RealHost<R>
where
    R::File: FileExt + AsRawFd + Into<Stdio>,
{
    ghost told = { λ host. quiet_host host.faults host.child };

    ghost tells_calls = { λ _ told. told };

    fn faults(&self) -> u64 {
        self.faults
    }

    fn look(&mut self, name: &str) -> Looked
        ensures made { Makes (call.Look name.now) (answer.Look result) (quiet_host self.old.faults self.old.child)
            (quiet_host self.new.faults self.new.child) }
        ensures kept { IsLookedAt result name.now self.old.kept.opened self.new.kept.opened }
    {
        let (looked, found) = folders::look(&self.rt, name);
        if let Looked::File(_) = looked {
            self.kept.close_unless_found(name, found);
            return looked;
        }
        self.kept.close();
        match looked {
            Looked::Nothing => self.kept.note_missing(self.alloc, name),
            Looked::Failed => self.count_fault(),
            Looked::File(_) | Looked::Folder => {}
        }
        looked
    }

    fn read(&mut self, name: &str, at: u64, room: &mut [u8]) -> Got
        requires { 0 < length room.old }
        ensures made { Makes (call.Read name.now at (length room.old)) (read_answer result room.new)
            (quiet_host self.old.faults self.old.child) (quiet_host self.new.faults self.new.child) }
        ensures within { IsWithin result (length room.old) }
        ensures kept { IsUsed name.now Reading (IsAfterRead (came_of result)) (state_of self.old.kept.opened)
            (state_of self.new.kept.opened) }
        ensures open { IsSome (came_of result) → IsSome self.new.kept.opened }
    {
        match self.kept.read(&self.rt, self.alloc, name, at, room) {
            Some(count) => Got::Got(count),
            None => {
                self.count_fault();
                Got::Failed
            }
        }
    }

    fn create(&mut self, name: &str) -> Made
        ensures made { Makes (call.Create name.now) (answer.Create result) (quiet_host self.old.faults self.old.child)
            (quiet_host self.new.faults self.new.child) }
        ensures kept { IsMadeBy result name.now self.new.kept.opened }
    {
        match self.kept.create(&self.rt, self.alloc, name) {
            Ok(()) => Made::Made,
            Err(error) if error.kind() == ErrorKind::AlreadyExists => Made::Exists,
            Err(_) => {
                self.count_fault();
                Made::Failed
            }
        }
    }

    fn append(&mut self, name: &str, piece: &[u8]) -> Took
        requires { 0 < length piece.now }
        ensures made { Makes (call.Append name.now piece.now) (answer.Append result)
            (quiet_host self.old.faults self.old.child) (quiet_host self.new.faults self.new.child) }
        ensures kept { Adds name.now (count_of result) (state_of self.old.kept.opened) (state_of self.new.kept.opened) }
    {
        match self
            .kept
            .append(&self.rt, self.alloc, name, piece, self.limit)
        {
            Some(count) => Took::Took(count),
            None => {
                self.count_fault();
                Took::Failed
            }
        }
    }

    fn sync(&mut self, name: &str) -> Synced
        ensures made { Makes (call.Sync name.now) (answer.Sync result) (quiet_host self.old.faults self.old.child)
            (quiet_host self.new.faults self.new.child) }
        ensures kept { IsUsed name.now Appending Stays (state_of self.old.kept.opened)
            (state_of self.new.kept.opened) }
        ensures open { result ≡ Synced.Synced → IsSome self.new.kept.opened }
    {
        match self.kept.sync(&self.rt, self.alloc, name) {
            Ok(()) => Synced::Synced,
            Err(_) => {
                self.count_fault();
                Synced::Failed
            }
        }
    }

    fn cut(&mut self, name: &str, len: u64) -> Cut
        ensures made { Makes (call.Cut name.now len) (answer.Cut result) (quiet_host self.old.faults self.old.child)
            (quiet_host self.new.faults self.new.child) }
        ensures kept { IsUsed name.now Appending (IsCutBy result len) (state_of self.old.kept.opened)
            (state_of self.new.kept.opened) }
    {
        match self.kept.cut(&self.rt, self.alloc, name, len) {
            Ok(()) => Cut::Cut,
            Err(_) => {
                self.count_fault();
                Cut::Failed
            }
        }
    }

    fn remove(&mut self, name: &str) -> Removed
        ensures made { Makes (call.Remove name.now) (answer.Remove result) (quiet_host self.old.faults self.old.child)
            (quiet_host self.new.faults self.new.child) }
        ensures closed { is_open_target name.now (state_of self.old.kept.opened) ≡ false → self.new.kept.opened ≡ None }
        ensures emptied { is_open_target name.now (state_of self.old.kept.opened) ≡ true → IsEmptied result
            (state_of self.old.kept.opened) (state_of self.new.kept.opened) }
    {
        let removed = if self.kept.is_target(name) {
            self.kept.empty()
        } else {
            self.kept.close();
            folders::remove(&self.rt, name)
        };
        if removed == Removed::Failed {
            self.count_fault();
        }
        removed
    }

    fn rename(&mut self, from: &str, to: &str) -> Moved
        ensures made { Makes (call.Rename from.now to.now) (answer.Rename result)
            (quiet_host self.old.faults self.old.child) (quiet_host self.new.faults self.new.child) }
        ensures closed { self.new.kept.opened ≡ None }
    {
        self.kept.close();
        let moved = folders::rename(&self.rt, from, to);
        if moved == Moved::Failed {
            self.count_fault();
        }
        moved
    }

    fn make_folder(&mut self, name: &str) -> Made {
        let made = folders::make_folder(&self.rt, name);
        if made == Made::Failed {
            self.count_fault();
        }
        made
    }

    fn names(&mut self, alloc: Global, folder: &str) -> Listed {
        let listed = folders::names(&self.rt, alloc, folder);
        if let Listed::Failed = listed {
            self.count_fault();
        }
        listed
    }

    fn age(&mut self, name: &str) -> Aged {
        let aged = folders::age(&self.rt, name);
        if aged == Aged::Failed {
            self.count_fault();
        }
        aged
    }

    fn sleep(&mut self, seconds: u64) {
        thread::sleep(&self.rt, Duration::from_secs(seconds));
    }

    fn now(&mut self) -> i64 {
        seconds(&self.rt)
    }

    fn start(&mut self, command: &Command, want: bool) -> Started
        ensures made { Makes (call.Start command.now want) (answer.Start result)
            (quiet_host self.old.faults self.old.child) (quiet_host self.new.faults self.new.child) }
        ensures closed { self.new.kept.opened ≡ None }
    {
        self.kept.close();
        if self.child != Child::NoChild {
            self.count_fault();
            return Started::Failed;
        }
        match self.start_child(command, want) {
            Ok(running) => {
                self.running = Some(running);
                self.child = Child::Feeding;
                Started::Started
            }
            Err(_) => {
                self.count_fault();
                Started::Failed
            }
        }
    }

    fn feed(&mut self, piece: &[u8]) -> Fed {
        let fed = match &mut self.running {
            Some(running) => running.feed(piece),
            None => Fed::Failed,
        };
        if fed == Fed::Failed {
            self.count_fault();
        }
        fed
    }

    fn take(&mut self, room: &mut [u8]) -> Got {
        self.child = Child::Taking;
        let taken = match &mut self.running {
            Some(running) => running.take(room),
            None => None,
        };
        match taken {
            Some(count) => Got::Got(count),
            None => {
                self.count_fault();
                Got::Failed
            }
        }
    }

    fn finish(&mut self) -> Finished {
        self.child = Child::NoChild;
        let finished = match self.running.take() {
            Some(mut running) => running.finish(),
            None => Finished::Failed,
        };
        if finished == Finished::Failed {
            self.count_fault();
        }
        finished
    }
}
