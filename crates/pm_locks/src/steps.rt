//! The taking of a lock without a host: what to ask next, and how to go on after the answer.
ghost use Rattle.std.specs.Prelude.{◌≡◌, ◌<◌, ◌≤◌, ◌+◌, ◌-◌, ◌*◌, IsTrue};
ghost use Rattle.pm_journal.specs.Locking.{lock_step, lock_heard, lock_left, lock_within, lock_rule};
ghost use Rattle.pm_journal.specs.Locking;
ghost use Rattle.pm_locks.specs.Machine.{taking, taking_heard};
ghost use Rattle.pm_locks.specs.Steps.{as_answer, IsAnswerToLock};

use pm_host::{Aged, Answer, Looked, Made, Removed};
use pm_journal::{LockEnd, LockRule, LockState, LockStep, Tally};
use std::marker::Model;

/// The answer to a step.
#[derive(Clone, Copy, Debug, PartialEq, Eq)]
pub enum LockAnswer {
    Create(Made),
    Age(Aged),
    Look(Looked),
    Remove(Removed),
    Slept,
}

/// The taking of a lock by a rule, as a state machine.
#[derive(Drop)]
pub struct LockCore {
    rule: LockRule,
    at: LockState,
}

impl Model for LockCore {
    ghost use Rattle.std.specs.Prelude.{IsTrue};
    ghost use Rattle.pm_journal.specs.Locking.{lock_within};
    ghost use Rattle.pm_locks.specs.Machine.{Machine};

    ghost Value = { Machine };

    ghost view = { λ c. record { rule = c.rule; at = c.at } };

    ghost invariant = { λ c. IsTrue (lock_within c.rule c.at) };
}

impl LockCore {
    /// The taking of a lock that begins, by these seconds of sleep, of the oldest age, and of the sleep after a
    /// removal by force, and with so many tries.
    pub fn new(sleep: u64, limit: u64, suspend: u64, tries: u32) -> LockCore
        requires some { 1 ≤ tries }
        requires few { tries ≤ 1000000 }
        ensures { result ≡ taking (lock_rule sleep limit suspend tries) }
    {
        let rule = LockRule {
            sleep,
            limit,
            suspend,
            tries,
        };
        LockCore {
            rule,
            at: LockState::Trying(Tally {
                lost: 0,
                sleeps: 0,
                forced: 0,
            }),
        }
    }

    /// What to ask next.
    pub fn next(&self) -> LockStep
        ensures { result ≡ lock_step self.now.at }
    {
        match self.at {
            LockState::Trying(_) => LockStep::Create,
            LockState::Aging(_) => LockStep::Age,
            LockState::Looking(_) => LockStep::Look,
            LockState::Removing(_) => LockStep::Remove,
            LockState::Pausing { seconds, .. } => LockStep::Sleep(seconds),
            LockState::Ended(end) => LockStep::Finish(end),
        }
    }

    /// Goes on after the answer to the step that `next` gives, which is not `Finish`.
    pub fn heard(&mut self, answer: LockAnswer)
        requires { IsAnswerToLock (lock_step self.old.at) answer }
        ensures heard { self.new ≡ taking_heard self.old (as_answer answer) }
        ensures fewer { lock_left self.new.rule self.new.at < lock_left self.old.rule self.old.at }
    {
        self.at = match answer {
            LockAnswer::Create(made) => after_try(self.rule, self.at, made),
            LockAnswer::Age(aged) => after_age(self.rule, self.at, aged),
            LockAnswer::Look(looked) => after_look(self.rule, self.at, looked),
            LockAnswer::Remove(removed) => after_remove(self.rule, self.at, removed),
            LockAnswer::Slept => after_sleep(self.rule, self.at),
        };
    }
}

fn after_try(rule: LockRule, at: LockState, made: Made) -> LockState
    requires fits { IsAnswerToLock (lock_step at) (LockAnswer.Create made) }
    requires within { IsTrue (lock_within rule at) }
    ensures heard { result ≡ lock_heard rule at (Answer.Create made) }
    ensures within { IsTrue (lock_within rule result) }
    ensures fewer { lock_left rule result < lock_left rule at }
{
    match at {
        LockState::Trying(t) => match made {
            Made::Made => LockState::Ended(LockEnd::Held {
                sleeps: t.sleeps,
                forced: t.forced,
            }),
            Made::Exists => {
                if rule.limit == 0 || 16 <= t.forced {
                    lose(rule, true, t)
                } else {
                    LockState::Aging(t)
                }
            }
            Made::Failed => LockState::Ended(LockEnd::Failed),
        },
        other => other,
    }
}

fn after_age(rule: LockRule, at: LockState, aged: Aged) -> LockState
    requires fits { IsAnswerToLock (lock_step at) (LockAnswer.Age aged) }
    requires within { IsTrue (lock_within rule at) }
    ensures heard { result ≡ lock_heard rule at (Answer.Age aged) }
    ensures within { IsTrue (lock_within rule result) }
    ensures fewer { lock_left rule result < lock_left rule at }
{
    match at {
        LockState::Aging(t) => match aged {
            Aged::Age(seconds) => {
                if rule.limit < seconds {
                    LockState::Looking(t)
                } else {
                    lose(rule, true, t)
                }
            }
            Aged::Absent => lose(rule, false, t),
            Aged::Failed => LockState::Ended(LockEnd::Failed),
        },
        other => other,
    }
}

fn after_look(rule: LockRule, at: LockState, looked: Looked) -> LockState
    requires fits { IsAnswerToLock (lock_step at) (LockAnswer.Look looked) }
    requires within { IsTrue (lock_within rule at) }
    ensures heard { result ≡ lock_heard rule at (Answer.Look looked) }
    ensures within { IsTrue (lock_within rule result) }
    ensures fewer { lock_left rule result < lock_left rule at }
{
    match at {
        LockState::Looking(t) => match looked {
            Looked::File(len) => {
                if len <= 16 {
                    LockState::Removing(t)
                } else {
                    lose(rule, true, t)
                }
            }
            Looked::Folder => lose(rule, true, t),
            Looked::Nothing => lose(rule, false, t),
            Looked::Failed => LockState::Ended(LockEnd::Failed),
        },
        other => other,
    }
}

fn after_remove(rule: LockRule, at: LockState, removed: Removed) -> LockState
    requires fits { IsAnswerToLock (lock_step at) (LockAnswer.Remove removed) }
    requires within { IsTrue (lock_within rule at) }
    ensures heard { result ≡ lock_heard rule at (Answer.Remove removed) }
    ensures within { IsTrue (lock_within rule result) }
    ensures fewer { lock_left rule result < lock_left rule at }
{
    match at {
        LockState::Removing(t) => match removed {
            Removed::Failed => LockState::Ended(LockEnd::Failed),
            Removed::Removed => forced(rule, t),
            Removed::Absent => forced(rule, t),
        },
        other => other,
    }
}

fn after_sleep(rule: LockRule, at: LockState) -> LockState
    requires fits { IsAnswerToLock (lock_step at) LockAnswer.Slept }
    requires within { IsTrue (lock_within rule at) }
    ensures heard { result ≡ lock_heard rule at Answer.Slept }
    ensures within { IsTrue (lock_within rule result) }
    ensures fewer { lock_left rule result < lock_left rule at }
{
    match at {
        LockState::Pausing { so_far, .. } => LockState::Trying(Tally {
            lost: so_far.lost,
            sleeps: so_far.sleeps + 1,
            forced: so_far.forced,
        }),
        other => other,
    }
}

// One lock more was forced.
fn forced(rule: LockRule, t: Tally) -> LockState
    requires within { IsTrue (lock_within rule (LockState.Removing t)) }
    ensures heard { result ≡ lock_heard rule (LockState.Removing t) (Answer.Remove Removed.Removed) }
    ensures within { IsTrue (lock_within rule result) }
    ensures fewer { lock_left rule result < lock_left rule (LockState.Removing t) }
{
    LockState::Pausing {
        seconds: rule.suspend,
        so_far: Tally {
            lost: t.lost,
            sleeps: t.sleeps,
            forced: t.forced + 1,
        },
    }
}

// One try more is lost.
fn lose(rule: LockRule, pausing: bool, t: Tally) -> LockState
    requires within { IsTrue (lock_within rule (LockState.Trying t)) }
    ensures lost { result ≡ Locking.lose rule pausing t }
    ensures within { IsTrue (lock_within rule result) }
    ensures fewer { lock_left rule result < (rule.tries - t.lost + (16 - t.forced)) * 8 }
{
    let so_far = Tally {
        lost: t.lost + 1,
        sleeps: t.sleeps,
        forced: t.forced,
    };
    if rule.tries <= t.lost + 1 {
        LockState::Ended(LockEnd::Busy)
    } else if pausing {
        LockState::Pausing {
            seconds: rule.sleep,
            so_far,
        }
    } else {
        LockState::Trying(so_far)
    }
}
