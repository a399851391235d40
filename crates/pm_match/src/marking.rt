//! The bytes that a state takes, in a table of all bytes.
ghost use Rattle.std.specs.Prelude.{◌≡◌, ℕ, ◌<◌, ◌==◌, false, Some, length, vec_len, slice_get};
ghost use Rattle.pm_match.specs.declared.step.Test.{Test};
ghost use Rattle.pm_regex.specs.declared.op.Atom.TheVariants.{Byte};
ghost use Rattle.pm_regex.specs.Matching.{atom_takes};
ghost use Rattle.pm_match.specs.declared.step.Step.TheVariants.{Take};
ghost use Rattle.pm_match.specs.Automaton.{takes};
ghost use Rattle.pm_match.specs.Labels.{InRange, RangesBelow};
ghost use Rattle.pm_match.specs.Starts.{Lacks};

use crate::atoms::{swap_case, takes_byte};
use crate::step::{Step, Test};
use pm_regex::Atom;

/// Marks the bytes that a letter takes: itself, and without regard to case its other case.
fn mark_byte(table: &mut Vec<bool>, wanted: u8, fold: bool)
    requires { vec_len table.old ≡ 256 }
    ensures kept { (b : ℕ) → Lacks table.new.items b → Lacks table.old.items b }
    ensures marked { (b : ℕ) → Lacks table.new.items b → atom_takes fold (Byte wanted) b ≡ false }
    ensures len { vec_len table.new ≡ 256 }
{
    table[wanted as usize] = true;
    if fold {
        table[swap_case(wanted) as usize] = true;
    }
}

/// Marks the newline.
fn mark_newline(table: &mut Vec<bool>)
    requires { vec_len table.old ≡ 256 }
    ensures kept { (b : ℕ) → Lacks table.new.items b → Lacks table.old.items b }
    ensures marked { (b : ℕ) → Lacks table.new.items b → (b == 10) ≡ false }
    ensures len { vec_len table.new ≡ 256 }
{
    table[b'\n' as usize] = true;
}

/// Marks the bytes that the test takes.
fn mark_all(steps: &[Step], table: &mut Vec<bool>, test: Test)
    requires ranges { RangesBelow test (length steps.now) }
    requires len { vec_len table.old ≡ 256 }
    ensures kept { (b : ℕ) → Lacks table.new.items b → Lacks table.old.items b }
    ensures marked { (b : ℕ) → Lacks table.new.items b → takes steps.now test b ≡ false }
    ensures len { vec_len table.new ≡ 256 }
{
    for byte in 0..256usize {
        if takes_byte(steps, test, byte as u8) {
            table[byte] = true;
        }
    }
}

/// Marks the bytes that the test takes, a letter's and a newline without asking for each byte.
fn mark(steps: &[Step], table: &mut Vec<bool>, test: Test)
    requires ranges { RangesBelow test (length steps.now) }
    requires len { vec_len table.old ≡ 256 }
    ensures kept { (b : ℕ) → Lacks table.new.items b → Lacks table.old.items b }
    ensures marked { (b : ℕ) → Lacks table.new.items b → takes steps.now test b ≡ false }
    ensures len { vec_len table.new ≡ 256 }
{
    match test {
        Test::One(Atom::Byte(wanted), fold) => mark_byte(table, wanted, fold),
        Test::One(Atom::LineStart, _) => mark_newline(table),
        Test::One(Atom::LineEnd, _) => mark_newline(table),
        _ => mark_all(steps, table, test),
    }
}

/// Marks the bytes that the state takes.
pub fn mark_from(steps: &[Step], table: &mut Vec<bool>, state: usize)
    requires program { InRange steps.now }
    requires state { state < length steps.now }
    requires len { vec_len table.old ≡ 256 }
    ensures kept { (b : ℕ) → Lacks table.new.items b → Lacks table.old.items b }
    ensures marked { (b : ℕ) (t : Test) (x : ℕ) → slice_get steps.now state ≡ Some (Take t x) → Lacks table.new.items b
        → takes steps.now t b ≡ false }
    ensures len { vec_len table.new ≡ 256 }
{
    match steps[state] {
        Step::Stop => {}
        Step::Go(_) => {}
        Step::Fork(_, _) => {}
        Step::Take(test, _) => mark(steps, table, test),
        Step::Range(_, _) => {}
    }
}
