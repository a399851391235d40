//! The states from which the exit of an automaton can still be reached: a pass from the end of an area to its start.
ghost use Rattle.std.specs.Prelude.{◌≡◌, ℕ, ◌+◌, ◌<◌, ◌≤◌, ◌↔◌, ◌⊎◌, Some, IsTrue, IsFalse, length, vec_len, slice_get};
ghost use Rattle.pm_match.specs.Automaton.{passes, takes};
ghost use Rattle.pm_match.specs.Labels.{InRange, RangesBelow};
ghost use Rattle.pm_match.specs.Backward.{Holds, AllReachExit, IsExitSet, LeadsInto, IsClosedBackward, missing};

use crate::atoms::{passes_at, takes_byte};
use crate::build::Program;
use crate::step::{Step, Test};

/// Whether the test takes this place's byte.
fn takes_at(steps: &[Step], test: Test, area: &[u8], place: usize) -> bool
    requires ranges { RangesBelow test (length steps.now) }
    ensures sound { IsTrue result → (b : ℕ) × (slice_get area.now place ≡ Some b) × IsTrue (takes steps.now test b) }
    ensures whole { (b : ℕ) → slice_get area.now place ≡ Some b → IsTrue (takes steps.now test b) → IsTrue result }
{
    place < area.len() && takes_byte(steps, test, area[place])
}

/// Whether the test takes nothing at a place, where that leads into a set.
fn passes_into(test: Test, area: &[u8], place: usize, is_in: bool) -> bool
    requires place { place ≤ length area.now }
    ensures sound { IsTrue result → IsTrue is_in × IsTrue (passes test area.now place) }
    ensures whole { IsTrue is_in → IsTrue (passes test area.now place) → IsTrue result }
{
    if is_in {
        passes_at(test, area, place)
    } else {
        false
    }
}

/// Whether the test takes this place's byte, where that leads into a set.
fn takes_into(steps: &[Step], test: Test, area: &[u8], place: usize, is_in: bool) -> bool
    requires ranges { RangesBelow test (length steps.now) }
    ensures sound { IsTrue result → IsTrue is_in
        × (b : ℕ) × (slice_get area.now place ≡ Some b) × IsTrue (takes steps.now test b) }
    ensures whole { (b : ℕ) → IsTrue is_in → slice_get area.now place ≡ Some b → IsTrue (takes steps.now test b)
        → IsTrue result }
{
    if is_in {
        takes_at(steps, test, area, place)
    } else {
        false
    }
}

/// Whether the state's step leads into the set at its place, or by the byte there into the set of the next place.
fn leads_into(
    steps: &[Step],
    area: &[u8],
    place: usize,
    set: &[bool],
    next: &[bool],
    state: usize,
) -> bool
    requires program { InRange steps.now }
    requires place { place ≤ length area.now }
    requires set { length set.now ≡ length steps.now }
    requires next { length next.now ≡ length steps.now }
    requires state { state < length steps.now }
    ensures sound { IsTrue result → LeadsInto steps.now area.now place set.now next.now state }
    ensures whole { LeadsInto steps.now area.now place set.now next.now state → IsTrue result }
{
    match steps[state] {
        Step::Stop => false,
        Step::Go(to) => set[to],
        Step::Fork(first, second) => {
            let is_first = set[first];
            let is_second = set[second];
            is_first | is_second
        }
        Step::Take(test, to) => {
            let is_here = set[to];
            let is_there = next[to];
            let is_passed = passes_into(test, area, place, is_here);
            let is_taken = takes_into(steps, test, area, place, is_there);
            is_passed | is_taken
        }
        Step::Range(_, _) => false,
    }
}

/// Adds a state to the set if its step leads there, and returns whether it is new.
fn add_state(
    steps: &[Step],
    area: &[u8],
    place: usize,
    set: &mut Vec<bool>,
    next: &[bool],
    state: usize,
) -> bool
    requires program { InRange steps.now }
    requires place { place ≤ length area.now }
    requires set { vec_len set.old ≡ length steps.now }
    requires next { length next.now ≡ length steps.now }
    requires state { state < length steps.now }
    ensures sound { (q : ℕ) → Holds set.new.items q
        → Holds set.old.items q ⊎ LeadsInto steps.now area.now place set.old.items next.now q }
    ensures kept { (q : ℕ) → Holds set.old.items q → Holds set.new.items q }
    ensures len { vec_len set.new ≡ vec_len set.old }
    ensures fewer { IsTrue result → missing set.new.items < missing set.old.items }
    ensures same { IsFalse result → set.new.items ≡ set.old.items }
    ensures closed { IsFalse result → LeadsInto steps.now area.now place set.old.items next.now state
        → Holds set.old.items state }
{
    if set[state] {
        return false;
    }
    let is_new = leads_into(steps, area, place, set, next, state);
    if is_new {
        set[state] = true;
    }
    is_new
}

/// One round over all states, from the first to the last. It returns whether the set has another state.
fn sweep_up(steps: &[Step], area: &[u8], place: usize, set: &mut Vec<bool>, next: &[bool]) -> bool
    requires program { InRange steps.now }
    requires place { place ≤ length area.now }
    requires set { vec_len set.old ≡ length steps.now }
    requires next { length next.now ≡ length steps.now }
    ensures kept { (q : ℕ) → Holds set.old.items q → Holds set.new.items q }
    ensures sound { (exit : ℕ) → (place < length area.now → AllReachExit steps.now area.now exit (place + 1) next.now)
        → AllReachExit steps.now area.now exit place set.old.items
        → AllReachExit steps.now area.now exit place set.new.items }
    ensures len { vec_len set.new ≡ vec_len set.old }
    ensures fewer { IsTrue result → missing set.new.items < missing set.old.items }
    ensures closed { IsFalse result → IsClosedBackward steps.now area.now place set.new.items next.now }
{
    let mut is_more = false;
    for state in 0..steps.len() {
        let is_new = add_state(steps, area, place, set, next, state);
        is_more = is_more | is_new;
    }
    is_more
}

/// The state that is listed so many places before the list's end, or that of this number, if none is.
fn listed_at(order: &Vec<usize>, number: usize, size: usize) -> usize
    requires { number < size }
    ensures { result < size }
{
    let index = size - 1 - number;
    if index >= order.len() {
        return number;
    }
    let state = order[index];
    if state < size { state } else { number }
}

/// One round over as many states as there are, in the order of a list.
fn sweep_listed(
    steps: &[Step],
    order: &Vec<usize>,
    area: &[u8],
    place: usize,
    set: &mut Vec<bool>,
    next: &[bool],
)
    requires program { InRange steps.now }
    requires place { place ≤ length area.now }
    requires set { vec_len set.old ≡ length steps.now }
    requires next { length next.now ≡ length steps.now }
    ensures kept { (q : ℕ) → Holds set.old.items q → Holds set.new.items q }
    ensures sound { (exit : ℕ) → (place < length area.now → AllReachExit steps.now area.now exit (place + 1) next.now)
        → AllReachExit steps.now area.now exit place set.old.items
        → AllReachExit steps.now area.now exit place set.new.items }
    ensures len { vec_len set.new ≡ vec_len set.old }
    ensures lighter { missing set.new.items ≤ missing set.old.items }
{
    let mut number = steps.len();
    while number > 0 {
        number -= 1;
        let state = listed_at(order, number, steps.len());
        add_state(steps, area, place, set, next, state);
    }
}

/// A round in the order of a list, and one over all states. It returns whether the second found another state.
fn sweep_both(
    steps: &[Step],
    order: &Vec<usize>,
    area: &[u8],
    place: usize,
    set: &mut Vec<bool>,
    next: &[bool],
) -> bool
    requires program { InRange steps.now }
    requires place { place ≤ length area.now }
    requires set { vec_len set.old ≡ length steps.now }
    requires next { length next.now ≡ length steps.now }
    ensures kept { (q : ℕ) → Holds set.old.items q → Holds set.new.items q }
    ensures sound { (exit : ℕ) → (place < length area.now → AllReachExit steps.now area.now exit (place + 1) next.now)
        → AllReachExit steps.now area.now exit place set.old.items
        → AllReachExit steps.now area.now exit place set.new.items }
    ensures len { vec_len set.new ≡ vec_len set.old }
    ensures fewer { IsTrue result → missing set.new.items < missing set.old.items }
    ensures closed { IsFalse result → IsClosedBackward steps.now area.now place set.new.items next.now }
{
    sweep_listed(steps, order, area, place, set, next);
    sweep_up(steps, area, place, set, next)
}

/// The states from which the exit can be reached at a place, by those of the next place. It takes few rounds where
/// each state is listed after those that it leads to.
pub fn step_back(
    program: &Program,
    order: &Vec<usize>,
    area: &[u8],
    place: usize,
    next: &[bool],
    set: &mut Vec<bool>,
)
    requires program { InRange program.now.steps.items }
    requires exit { program.now.exit < length program.now.steps.items }
    requires place { place ≤ length area.now }
    requires set { vec_len set.old ≡ length program.now.steps.items }
    requires len_next { length next.now ≡ length program.now.steps.items }
    requires next { place < length area.now
        → IsExitSet program.now.steps.items area.now program.now.exit (place + 1) next.now }
    ensures len { vec_len set.new ≡ length program.now.steps.items }
    ensures back { IsExitSet program.now.steps.items area.now program.now.exit place set.new.items }
{
    for state in 0..program.steps.len() {
        set[state] = false;
    }
    set[program.exit] = true;
    while sweep_both(&program.steps, order, area, place, set, next) {}
}

/// The states from which the exit can be reached at the area's end.
pub fn set_at_end(
    program: &Program,
    order: &Vec<usize>,
    area: &[u8],
    set: &mut Vec<bool>,
    next: &[bool],
)
    requires program { InRange program.now.steps.items }
    requires exit { program.now.exit < length program.now.steps.items }
    requires set { vec_len set.old ≡ length program.now.steps.items }
    requires next { length next.now ≡ length program.now.steps.items }
    ensures set { vec_len set.new ≡ length program.now.steps.items }
    ensures back { IsExitSet program.now.steps.items area.now program.now.exit (length area.now) set.new.items }
{
    step_back(program, order, area, area.len(), next, set);
}
