//! One call of a writer.
ghost use Rattle.std.specs.Prelude.{◌≡◌, ◌≤◌, ◌+◌, cond, length, false};
ghost use Rattle.pm_journal.specs.Appending.{append_step};
ghost use Rattle.pm_journal.specs.Locking.{lock_step};
ghost use Rattle.pm_append.specs.Machine.{appending_heard, IsStepWithin};
ghost use Rattle.pm_append.specs.Steps.{as_answer as append_answer_of, IsAnswerToStep};
ghost use Rattle.pm_locks.specs.Machine.{taking_heard};
ghost use Rattle.pm_locks.specs.Steps.{as_answer, IsAnswerToLock, IsOpenStep as IsOpenLockStep};
ghost use Rattle.pm_turns.specs.Turning.{lock_answer, give_answer};
ghost use Rattle.pm_turns.specs.Turning;
ghost use Rattle.pm_turns.specs.Turning.{append_answer, mailbox_after};
ghost use Rattle.pm_turns.specs.Turning.{place_by, mailbox_by, outcome_by};
ghost use Rattle.pm_turns.specs.Room.{IsAtWork, IsWorkable, IsOpenStep, left_in, left_of, waits_of, step_left, came};

use crate::mailbox::{Mailbox, refuse};
use crate::writers::{Delivery, Outcome, Place, Will};
use pm_append::{AppendAnswer, AppendCore, AppendStep};
use pm_host::{Aged, Looked, Made, Removed};
use pm_journal::{LockEnd, LockStep};
use pm_locks::{LockAnswer, LockCore};
use std::mem;

/// Makes the next call of a writer.
pub fn turn(delivery: &mut Delivery, mailbox: &mut Mailbox, locked: bool, will: Will) -> Outcome
    requires sound { IsWorkable delivery.old }
    requires room { mailbox.old.used + left_of delivery.old ≤ mailbox.old.capacity }
    ensures delivery { delivery.new ≡ Turning.delivery delivery.old.piece
        (place_by delivery.old.piece delivery.old.place mailbox.old.text locked will) }
    ensures mailbox { mailbox.new.text ≡ mailbox_by delivery.old.piece delivery.old.place mailbox.old.text will }
    ensures outcome { result ≡ outcome_by delivery.old.place locked will }
    ensures sound { IsWorkable delivery.new }
    ensures room { mailbox.new.used + left_of delivery.new ≤ mailbox.old.used + left_of delivery.old }
    ensures capacity { mailbox.new.capacity ≡ mailbox.old.capacity }
    ensures waits { cond result.got 1 0 + waits_of delivery.new ≤ waits_of delivery.old }
{
    match mem::replace(&mut delivery.place, Place::Away(LockEnd::Busy)) {
        Place::Locking(core) => {
            let (place, outcome) = lock_turn(core, delivery.piece.len() as u64, locked, will);
            delivery.place = place;
            outcome
        }
        Place::Appending(core) => {
            delivery.place = append_turn(core, delivery.piece.as_slice(), mailbox, will);
            unchanged(locked)
        }
        Place::Giving(end) => {
            let removed = give(locked, will);
            delivery.place = Place::Gone(end, removed);
            give_outcome(removed, locked)
        }
        over => {
            delivery.place = over;
            unchanged(locked)
        }
    }
}

fn unchanged(locked: bool) -> Outcome
    ensures { result ≡ Turning.unchanged locked }
{
    Outcome {
        locked,
        got: false,
        forced: false,
    }
}

fn lock_turn(core: LockCore, len: u64, locked: bool, will: Will) -> (Place, Outcome)
    requires { IsOpenLockStep (lock_step core.at) }
    ensures place { result.0
        ≡ Turning.lock_place len (taking_heard core (lock_answer (lock_step core.at) locked will)) }
    ensures outcome { result.1 ≡ Turning.lock_outcome (lock_answer (lock_step core.at) locked will) locked }
{
    let mut core = core;
    let answer = answer_lock(core.next(), locked, will);
    core.heard(answer);
    (lock_place(core, len), lock_outcome(answer, locked))
}

// What an answer to the taking makes of the lock.
fn lock_outcome(answer: LockAnswer, locked: bool) -> Outcome
    ensures { result ≡ Turning.lock_outcome (as_answer answer) locked }
{
    match answer {
        LockAnswer::Create(Made::Made) => Outcome {
            locked: true,
            got: true,
            forced: false,
        },
        LockAnswer::Remove(Removed::Removed) => Outcome {
            locked: false,
            got: false,
            forced: true,
        },
        _ => unchanged(locked),
    }
}

fn lock_place(core: LockCore, len: u64) -> Place
    ensures { result ≡ Turning.lock_place len core }
{
    match core.next() {
        LockStep::Finish(LockEnd::Held { .. }) => Place::Appending(AppendCore::new(len, true)),
        LockStep::Finish(LockEnd::Busy) => Place::Away(LockEnd::Busy),
        LockStep::Finish(LockEnd::Failed) => Place::Away(LockEnd::Failed),
        _ => Place::Locking(core),
    }
}

fn answer_lock(step: LockStep, locked: bool, will: Will) -> LockAnswer
    requires { IsOpenLockStep step }
    ensures is { as_answer result ≡ lock_answer step locked will }
    ensures fits { IsAnswerToLock step result }
{
    match will {
        Will::Serve(n) => serve_lock(step, locked, n),
        Will::Fail => refuse_lock(step),
    }
}

fn serve_lock(step: LockStep, locked: bool, n: u64) -> LockAnswer
    requires { IsOpenLockStep step }
    ensures is { as_answer result ≡ lock_answer step locked (Will.Serve n) }
    ensures fits { IsAnswerToLock step result }
{
    match step {
        LockStep::Create => LockAnswer::Create(if locked { Made::Exists } else { Made::Made }),
        LockStep::Age => LockAnswer::Age(if locked { Aged::Age(n) } else { Aged::Absent }),
        LockStep::Look => LockAnswer::Look(if locked {
            Looked::File(0)
        } else {
            Looked::Nothing
        }),
        LockStep::Remove => LockAnswer::Remove(if locked {
            Removed::Removed
        } else {
            Removed::Absent
        }),
        LockStep::Sleep(_) => LockAnswer::Slept,
        LockStep::Finish(_) => unreachable!(),
    }
}

fn refuse_lock(step: LockStep) -> LockAnswer
    requires { IsOpenLockStep step }
    ensures is { as_answer result ≡ lock_answer step false Will.Fail }
    ensures fits { IsAnswerToLock step result }
{
    match step {
        LockStep::Create => LockAnswer::Create(Made::Failed),
        LockStep::Age => LockAnswer::Age(Aged::Failed),
        LockStep::Look => LockAnswer::Look(Looked::Failed),
        LockStep::Remove => LockAnswer::Remove(Removed::Failed),
        LockStep::Sleep(_) => LockAnswer::Slept,
        LockStep::Finish(_) => unreachable!(),
    }
}

// The answer to the removal by which a writer gives the lock back.
fn give(locked: bool, will: Will) -> Removed
    ensures { result ≡ give_answer locked will }
{
    match will {
        Will::Serve(_) => {
            if locked {
                Removed::Removed
            } else {
                Removed::Absent
            }
        }
        Will::Fail => Removed::Failed,
    }
}

// What that answer makes of the lock.
fn give_outcome(removed: Removed, locked: bool) -> Outcome
    ensures { result ≡ Turning.give_outcome removed locked }
{
    match removed {
        Removed::Removed => unchanged(false),
        _ => unchanged(locked),
    }
}

fn append_turn(core: AppendCore, piece: &[u8], mailbox: &mut Mailbox, will: Will) -> Place
    requires sound { IsAtWork piece.now (Place.Appending core) }
    requires room { mailbox.old.used + left_in piece.now (Place.Appending core) ≤ mailbox.old.capacity }
    ensures place { result ≡ Turning.append_place (appending_heard core
        (append_answer (append_step core.len core.sync core.at) (length piece.now) mailbox.old.text will)) }
    ensures mailbox { mailbox.new.text ≡ mailbox_by piece.now (Place.Appending core) mailbox.old.text will }
    ensures sound { IsAtWork piece.now result }
    ensures room { mailbox.new.used + left_in piece.now result
        ≤ mailbox.old.used + left_in piece.now (Place.Appending core) }
    ensures capacity { mailbox.new.capacity ≡ mailbox.old.capacity }
{
    let mut core = core;
    let step = core.next();
    let answer = answer_append(mailbox, step, piece, will);
    core.heard(answer);
    append_place(core)
}

fn answer_append(mailbox: &mut Mailbox, step: AppendStep, piece: &[u8], will: Will) -> AppendAnswer
    requires open { IsOpenStep step }
    requires within { IsStepWithin (length piece.now) step }
    requires room { mailbox.old.used + step_left (length piece.now) step ≤ mailbox.old.capacity }
    ensures answer { append_answer_of result ≡ append_answer step (length piece.now) mailbox.old.text will }
    ensures fits { IsAnswerToStep (length piece.now) step result }
    ensures text { mailbox.new.text ≡ mailbox_after step (append_answer_of result) piece.now mailbox.old.text }
    ensures room { mailbox.new.used ≤ mailbox.old.used + came (append_answer_of result) }
    ensures capacity { mailbox.new.capacity ≡ mailbox.old.capacity }
{
    match will {
        Will::Serve(n) => mailbox.serve(step, piece, n),
        Will::Fail => refuse(step),
    }
}

fn append_place(core: AppendCore) -> Place
    ensures { result ≡ Turning.append_place core }
{
    match core.next() {
        AppendStep::Finish(end) => Place::Giving(end),
        _ => Place::Appending(core),
    }
}
