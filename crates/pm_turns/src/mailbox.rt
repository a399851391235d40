//! A mailbox in memory, that serves the calls of an append.
ghost use Rattle.std.specs.Prelude.{◌≡◌, ◌≤◌, ◌+◌, ◌-◌, ◌<◌, ◌++◌, [], length};
ghost use Rattle.std.specs.Prelude.{vec_len, vec_capacity, IfOk};
ghost use Rattle.pm_append.specs.Machine.{IsStepWithin};
ghost use Rattle.pm_append.specs.Steps.{as_answer, IsAnswerToStep};
ghost use Rattle.pm_turns.specs.Turning.{served, refused, mailbox_after};
ghost use Rattle.pm_turns.specs.Turning;
ghost use Rattle.pm_turns.specs.Room.{step_left, came, IsOpenStep};

use pm_append::{AppendAnswer, AppendStep};
use pm_bytes::{Blob, Memory};
use pm_host::{Answer, Cut, Looked, Made, Removed, Synced, Took};
use std::alloc::Global;
use std::marker::Model;

/// A mailbox, absent or with its bytes.
#[derive(Drop)]
pub struct Mailbox {
    present: bool,
    bytes: Vec<u8>,
}

impl Model for Mailbox {
    ghost use Rattle.std.specs.Prelude.{ℕ, cond, Some, None, vec_len, vec_capacity};
    ghost use Rattle.pm_turns.specs.Shelf.{Shelf};

    ghost Value = { Shelf };

    ghost view = { λ m. record {
      text = cond m.present (Some m.bytes.items) None;
      used = vec_len m.bytes;
      capacity = vec_capacity m.bytes;
    } };
}

impl Mailbox {
    /// A mailbox with room for so many bytes more.
    pub fn new(alloc: Global, bytes: Option<Blob>, room: usize) -> Result<Mailbox, Memory>
        ensures text { IfOk result (λ m. m.text ≡ bytes) }
        ensures room { IfOk result (λ m. m.used + room ≤ m.capacity) }
    {
        match bytes {
            Some(blob) => {
                let mut bytes = blob.into_vec(alloc)?;
                bytes.reserve(room)?;
                Ok(Mailbox {
                    present: true,
                    bytes,
                })
            }
            None => Ok(Mailbox {
                present: false,
                bytes: Vec::with_capacity(alloc, room)?,
            }),
        }
    }

    /// Makes the call, and takes at most `n` bytes.
    pub fn serve(&mut self, step: AppendStep, piece: &[u8], n: u64) -> AppendAnswer
        requires open { IsOpenStep step }
        requires within { IsStepWithin (length piece.now) step }
        requires room { self.old.used + step_left (length piece.now) step ≤ self.old.capacity }
        ensures answer { as_answer result ≡ served step (length piece.now) self.old.text n }
        ensures fits { IsAnswerToStep (length piece.now) step result }
        ensures text { self.new.text ≡ mailbox_after step (as_answer result) piece.now self.old.text }
        ensures room { self.new.used ≤ self.old.used + came (as_answer result) }
        ensures capacity { self.new.capacity ≡ self.old.capacity }
    {
        match step {
            AppendStep::Look => AppendAnswer::Look(self.look()),
            AppendStep::Create => AppendAnswer::Create(self.create()),
            AppendStep::Append(from) => AppendAnswer::Append(self.append(piece, from as usize, n)),
            AppendStep::Sync => AppendAnswer::Sync(self.sync()),
            AppendStep::Cut(len) => AppendAnswer::Cut(self.cut(len)),
            AppendStep::Remove => AppendAnswer::Remove(self.remove()),
            AppendStep::Finish(_) => unreachable!(),
        }
    }

    fn look(&self) -> Looked
        ensures { Answer.Look result ≡ served AppendStep.Look 0 self.now.text 0 }
    {
        if self.present {
            Looked::File(self.bytes.len() as u64)
        } else {
            Looked::Nothing
        }
    }

    fn create(&mut self) -> Made
        ensures answer { Answer.Create result ≡ served AppendStep.Create 0 self.old.text 0 }
        ensures text { self.new.text ≡ mailbox_after AppendStep.Create (Answer.Create result) [] self.old.text }
        ensures used { self.new.used ≤ self.old.used }
        ensures capacity { self.new.capacity ≡ self.old.capacity }
    {
        if self.present {
            return Made::Exists;
        }
        self.bytes.clear();
        self.present = true;
        Made::Made
    }

    fn append(&mut self, piece: &[u8], from: usize, n: u64) -> Took
        requires within { from < length piece.now }
        requires room { self.old.used + (length piece.now - from) ≤ self.old.capacity }
        ensures answer { Answer.Append result ≡ served (AppendStep.Append from) (length piece.now) self.old.text n }
        ensures fits { IsAnswerToStep (length piece.now) (AppendStep.Append from) (AppendAnswer.Append result) }
        ensures text { self.new.text
            ≡ mailbox_after (AppendStep.Append from) (Answer.Append result) piece.now self.old.text }
        ensures used { self.new.used ≤ self.old.used + came (Answer.Append result) }
        ensures capacity { self.new.capacity ≡ self.old.capacity }
    {
        if !self.present {
            return Took::Failed;
        }
        let part = part_of(piece.len() - from, n);
        let end = from + part;
        push_all(&mut self.bytes, &piece[from..end]);
        Took::Took(part)
    }

    fn sync(&self) -> Synced
        ensures { Answer.Sync result ≡ served AppendStep.Sync 0 self.now.text 0 }
    {
        if self.present {
            Synced::Synced
        } else {
            Synced::Failed
        }
    }

    fn cut(&mut self, len: u64) -> Cut
        ensures answer { Answer.Cut result ≡ served (AppendStep.Cut len) 0 self.old.text 0 }
        ensures text { self.new.text ≡ mailbox_after (AppendStep.Cut len) (Answer.Cut result) [] self.old.text }
        ensures used { self.new.used ≤ self.old.used }
        ensures capacity { self.new.capacity ≡ self.old.capacity }
    {
        if !self.present {
            return Cut::Failed;
        }
        self.bytes.truncate(len as usize);
        Cut::Cut
    }

    fn remove(&mut self) -> Removed
        ensures answer { Answer.Remove result ≡ served AppendStep.Remove 0 self.old.text 0 }
        ensures text { self.new.text ≡ mailbox_after AppendStep.Remove (Answer.Remove result) [] self.old.text }
        ensures used { self.new.used ≤ self.old.used }
        ensures capacity { self.new.capacity ≡ self.old.capacity }
    {
        if !self.present {
            return Removed::Absent;
        }
        self.present = false;
        Removed::Removed
    }
}

// A part of what is left, and at least one byte.
fn part_of(left: usize, n: u64) -> usize
    requires { 0 < left }
    ensures is { result ≡ Turning.part_of left n }
    ensures some { 1 ≤ result }
    ensures most { result ≤ left }
{
    let most = left as u64;
    let part = if n < most { n } else { most };
    if part == 0 { 1 } else { part as usize }
}

// Takes no memory: there is room.
fn push_all(bytes: &mut Vec<u8>, more: &[u8])
    requires { vec_len bytes.old + length more.now ≤ vec_capacity bytes.old }
    ensures items { bytes.new.items ≡ bytes.old.items ++ more.now }
    ensures capacity { vec_capacity bytes.new ≡ vec_capacity bytes.old }
{
    for byte in more {
        bytes.push_reserved(*byte);
    }
}

/// The answer of a call that fails.
pub fn refuse(step: AppendStep) -> AppendAnswer
    requires { IsOpenStep step }
    ensures is { as_answer result ≡ refused step }
    ensures fits { IsAnswerToStep 0 step result }
{
    match step {
        AppendStep::Look => AppendAnswer::Look(Looked::Failed),
        AppendStep::Create => AppendAnswer::Create(Made::Failed),
        AppendStep::Append(_) => AppendAnswer::Append(Took::Failed),
        AppendStep::Sync => AppendAnswer::Sync(Synced::Failed),
        AppendStep::Cut(_) => AppendAnswer::Cut(Cut::Failed),
        AppendStep::Remove => AppendAnswer::Remove(Removed::Failed),
        AppendStep::Finish(_) => unreachable!(),
    }
}
