//! Locks, taken and given back by one act each, which is done and noted. It takes no memory.
ghost use Rattle.std.specs.Prelude.{◌≡◌, ◌≤◌, ◌<◌, ◌+◌, true, false, [], length};
ghost use Rattle.pm_journal.specs.declared.acts.Act.TheVariants.{Unlock};
ghost use Rattle.pm_journal.specs.Entries.{unlock_reply};
ghost use Rattle.pm_journal.specs.Locking.{lock_act, lock_reply};
ghost use Rattle.pm_journal.specs.Noted.{NotesAct};
ghost use Rattle.pm_journal.specs.Executed.{GivesEach};
ghost use Rattle.pm_journal.specs.Held.{Keeping, holds_name, held_by, without};
ghost use Rattle.pm_journal.specs.Acts.{after_taking};

use crate::{Effects, HeldLocks, Journal, LockEnd, LockRule};
use pm_bytes::Name;
use pm_host::Removed;

/// Takes a lock that isn't held yet. Its name is given twice: for the entry and for the held locks. It takes no memory.
pub fn take<D: Effects>(
    held: &mut HeldLocks,
    name: Name,
    again: Name,
    rule: LockRule,
    outside: &mut D,
    journal: &mut Journal<D::Kept>,
) -> LockEnd
    requires some { 1 ≤ rule.tries }
    requires few { rule.tries ≤ 1000000 }
    requires twice { again ≡ name }
    requires free { holds_name held.old.names name ≡ false }
    requires space { 0 < held.old.room }
    requires room { length held.old.names + 2 ≤ journal.old.room }
    requires keeping { Keeping journal.old held.old.names }
    ensures notes { NotesAct (lock_act name rule) (lock_reply result)
        journal.old journal.new (D.told outside.old) (D.told outside.new) }
    ensures held { held.new.names ≡ held_by (lock_act name rule) (lock_reply result) held.old.names }
    ensures keeping { Keeping journal.new held.new.names }
{
    let end = outside.lock(journal, name, rule);
    hold(held, again, end);
    end
}

// The lock is held where it was got.
fn hold(held: &mut HeldLocks, name: Name, end: LockEnd)
    requires { 0 < held.old.room }
    ensures { held.new.names ≡ after_taking end name held.old.names }
{
    if let LockEnd::Held { .. } = end {
        held.add(name);
    }
}

/// Gives back the held lock of this name: its removal is tried once. It takes no memory.
pub fn give<D: Effects>(
    held: &mut HeldLocks,
    name: &Name,
    outside: &mut D,
    journal: &mut Journal<D::Kept>,
) -> Removed
    requires held { holds_name held.old.names name.now ≡ true }
    requires keeping { Keeping journal.old held.old.names }
    ensures notes { NotesAct (Unlock name.now) (unlock_reply result)
        journal.old journal.new (D.told outside.old) (D.told outside.new) }
    ensures names { held.new.names ≡ without held.old.names name.now }
    ensures keeping { Keeping journal.new held.new.names }
{
    match held.give(name) {
        Some(name) => outside.unlock(journal, name),
        None => unreachable!(),
    }
}

/// Gives each held lock back, the last taken first: its removal is tried once. It takes no memory.
pub fn give_all<D: Effects>(held: &mut HeldLocks, outside: &mut D, journal: &mut Journal<D::Kept>)
    requires keeping { Keeping journal.old held.old.names }
    ensures gives { GivesEach held.old.names
        journal.old journal.new (D.told outside.old) (D.told outside.new) }
    ensures keeping { Keeping journal.new [] }
{
    while let Some(name) = held.give_last() {
        outside.unlock(journal, name);
    }
}
