//! Counting of matches in time that grows with the area alone. A pass from the area's end to its start marks where
//! matches begin, one window of the area at a time, and each match is run from its own start.
ghost use Rattle.std.specs.Prelude.{◌≡◌, ℕ, min, ◌+◌, ◌-◌, ◌*◌, ◌^◌, ◌<◌, ◌≤◌, Bool, List, Some, IfOk, IsTrue};
ghost use Rattle.std.specs.Prelude.{length, vec_len, slice_get};
ghost use Rattle.pm_regex.specs.Re.{Re};
ghost use Rattle.pm_regex.specs.declared.found.Found.{Found};
ghost use Rattle.pm_match.specs.declared.step.Step.{Step};
ghost use Rattle.pm_match.specs.Labels.{InRange};
ghost use Rattle.pm_match.specs.Search.{IsProgram};
ghost use Rattle.pm_regex.specs.Found.{IsRun, place_after};
ghost use Rattle.pm_match.specs.Backward.{ReachesExit, IsExitSet, AreMarks};
ghost use Rattle.pm_match.specs.Checkpoints.{AreCheckpoints, HasRoom, CountsTo};
ghost use Rattle.pm_match.specs.Begins.{AreRuns};

use crate::backward::set_at_end;
use crate::build::Program;
use crate::cache::{Bounds, Cache, States, copy_set, go_back, make_cache, mark_starts};
use crate::forward::{Forward, is_reached, least_end, make_forward, start_run};
use std::alloc::{AllocError, Global};

/// How many places a window has.
const WINDOW: usize = 65536;

/// Room for the marks of a window, for the sets of states at two places and at the start of each window, and for runs.
#[derive(Drop)]
pub struct Marks {
    /// How long an area may be.
    pub reach: usize,
    pub set: Vec<bool>,
    pub window: Vec<bool>,
    pub checkpoints: Vec<States>,
    pub cache: Cache,
    pub forward: Forward,
}

/// Whether there is room for an area of this length.
pub fn reaches(marks: &Marks, length: usize) -> bool
    ensures { IsTrue result → length ≤ marks.now.reach }
{
    length <= marks.reach
}

/// How many places are marked at a time in an area of this length.
fn window_of(reach: usize) -> usize
    ensures { result ≡ min reach 65536 }
{
    if reach < WINDOW { reach } else { WINDOW }
}

/// Room for so many states and an area of up to this length. The order is one of the states.
pub fn make_marks(
    alloc: Global,
    size: usize,
    reach: usize,
    order: Vec<usize>,
) -> Result<Marks, AllocError>
    ensures room { IfOk result (λ marks. (p : List Step) (entry exit : ℕ) → length p ≡ size
        → HasRoom p entry exit marks) }
    ensures reach { IfOk result (λ marks. marks.reach ≡ reach) }
{
    let set = vec![in alloc; false; size]?;
    let window = vec![in alloc; false; window_of(reach)]?;
    let windows = reach / WINDOW + 1;
    let mut checkpoints = Vec::with_capacity(alloc, windows)?;
    for _ in 0..windows {
        let set = vec![in alloc; false; size]?;
        checkpoints.push(States { set })?;
    }
    let cache = make_cache(alloc, size, reach, order)?;
    let forward = make_forward(alloc, size, reach)?;
    Ok(Marks {
        reach,
        set,
        window,
        checkpoints,
        cache,
        forward,
    })
}

/// Where the search goes on after a match.
fn after_match(start: usize, end: usize) -> usize
    requires { end < 2 ^ 64 - 1 }
    ensures { result ≡ place_after start end }
{
    if start == end { end + 1 } else { end }
}

/// How far a count is.
#[derive(Clone, Copy, Drop)]
pub struct Progress {
    pub count: u64,
    pub place: usize,
}

/// Goes on from a place of a window: after the match that begins there, or by one place if none does.
fn count_at(
    program: &Program,
    forward: &mut Forward,
    area: &[u8],
    is_marked: bool,
    from: Progress,
) -> Progress
    requires program { InRange program.now.steps.items }
    requires entry { program.now.entry < length program.now.steps.items }
    requires exit { program.now.exit < length program.now.steps.items }
    requires forward { AreRuns program.now.steps.items program.now.entry forward.old }
    requires few { from.count ≤ from.place }
    requires within { from.place < length area.now }
    requires marked { ReachesExit program.now.steps.items area.now program.now.exit program.now.entry from.place
        → IsTrue is_marked }
    ensures forward { AreRuns program.now.steps.items program.now.entry forward.new }
    ensures after { from.place < result.place }
    ensures few { result.count ≤ result.place }
    ensures within { result.place ≤ length area.now }
    ensures counted { (e : Re) (fold : Bool) (start : ℕ) → IsProgram program.now e fold
        → CountsTo fold e area.now start from.count from.place
        → CountsTo fold e area.now start result.count result.place }
{
    let past = Progress {
        count: from.count,
        place: from.place + 1,
    };
    if !is_marked {
        return past;
    }
    match least_end(program, forward, area, from.place) {
        None => past,
        Some(end) => Progress {
            count: from.count + 1,
            place: after_match(from.place, end),
        },
    }
}

/// Counts the matches that begin in a window between these bounds, from a place on.
fn count_window(
    program: &Program,
    forward: &mut Forward,
    area: &[u8],
    window: &[bool],
    bounds: Bounds,
    from: Progress,
) -> Progress
    requires program { InRange program.now.steps.items }
    requires entry { program.now.entry < length program.now.steps.items }
    requires exit { program.now.exit < length program.now.steps.items }
    requires forward { AreRuns program.now.steps.items program.now.entry forward.old }
    requires low { bounds.low ≤ bounds.high }
    requires high { bounds.high ≤ length area.now }
    requires room { bounds.high ≤ bounds.low + length window.now }
    requires after { bounds.low ≤ from.place }
    requires few { from.count ≤ from.place }
    requires within { from.place ≤ length area.now }
    requires marked { AreMarks program.now.steps.items program.now.entry program.now.exit area.now bounds.low
        bounds.high window.now }
    ensures forward { AreRuns program.now.steps.items program.now.entry forward.new }
    ensures after { bounds.high ≤ result.place }
    ensures few { result.count ≤ result.place }
    ensures within { result.place ≤ length area.now }
    ensures counted { (e : Re) (fold : Bool) (start : ℕ) → IsProgram program.now e fold
        → CountsTo fold e area.now start from.count from.place
        → CountsTo fold e area.now start result.count result.place }
{
    let mut at = from;
    while at.place < bounds.high {
        let is_marked = window[at.place - bounds.low];
        at = count_at(program, forward, area, is_marked, at);
    }
    at
}

/// Keeps the set of states at the start of each window but the first.
fn keep_checkpoints(program: &Program, area: &[u8], marks: &mut Marks)
    requires program { InRange program.now.steps.items }
    requires entry { program.now.entry < length program.now.steps.items }
    requires exit { program.now.exit < length program.now.steps.items }
    requires room { HasRoom program.now.steps.items program.now.entry program.now.exit marks.old }
    requires some { 0 < length area.now }
    requires short { length area.now ≤ marks.old.reach }
    ensures room { HasRoom program.now.steps.items program.now.entry program.now.exit marks.new }
    ensures reach { marks.new.reach ≡ marks.old.reach }
    ensures kept { AreCheckpoints program.now.steps.items area.now program.now.exit 1 marks.new.checkpoints.items }
{
    set_at_end(
        program,
        &marks.cache.order,
        area,
        &mut marks.set,
        &marks.cache.made,
    );
    let mut index = (area.len() - 1) / WINDOW;
    let mut high = area.len();
    while index > 0 {
        let low = index * WINDOW;
        let bounds = Bounds { low, high };
        go_back(program, area, bounds, &mut marks.set, &mut marks.cache);
        copy_set(&marks.set, &mut marks.checkpoints[index].set);
        high = low;
        index -= 1;
    }
}

/// Makes the set of states at the end of a window, and returns that place.
fn set_after_window(program: &Program, area: &[u8], marks: &mut Marks, index: usize) -> usize
    requires program { InRange program.now.steps.items }
    requires exit { program.now.exit < length program.now.steps.items }
    requires room { HasRoom program.now.steps.items program.now.entry program.now.exit marks.old }
    requires kept { AreCheckpoints program.now.steps.items area.now program.now.exit 1 marks.old.checkpoints.items }
    requires short { length area.now ≤ marks.old.reach }
    requires index { index * 65536 < length area.now }
    ensures room { HasRoom program.now.steps.items program.now.entry program.now.exit marks.new }
    ensures reach { marks.new.reach ≡ marks.old.reach }
    ensures kept { AreCheckpoints program.now.steps.items area.now program.now.exit 1 marks.new.checkpoints.items }
    ensures after { index * 65536 < result }
    ensures near { result ≤ index * 65536 + 65536 }
    ensures within { result ≤ length area.now }
    ensures whole { result < length area.now → result ≡ index * 65536 + 65536 }
    ensures back { IsExitSet program.now.steps.items area.now program.now.exit result marks.new.set.items }
{
    let low = index * WINDOW;
    if area.len() - low > WINDOW {
        copy_set(&marks.checkpoints[index + 1].set, &mut marks.set);
        low + WINDOW
    } else {
        set_at_end(
            program,
            &marks.cache.order,
            area,
            &mut marks.set,
            &marks.cache.made,
        );
        area.len()
    }
}

/// Marks the places of a window where a match begins, and returns its end.
fn mark_window(program: &Program, area: &[u8], marks: &mut Marks, index: usize) -> usize
    requires program { InRange program.now.steps.items }
    requires entry { program.now.entry < length program.now.steps.items }
    requires exit { program.now.exit < length program.now.steps.items }
    requires room { HasRoom program.now.steps.items program.now.entry program.now.exit marks.old }
    requires kept { AreCheckpoints program.now.steps.items area.now program.now.exit 1 marks.old.checkpoints.items }
    requires short { length area.now ≤ marks.old.reach }
    requires index { index * 65536 < length area.now }
    ensures room { HasRoom program.now.steps.items program.now.entry program.now.exit marks.new }
    ensures reach { marks.new.reach ≡ marks.old.reach }
    ensures kept { AreCheckpoints program.now.steps.items area.now program.now.exit 1 marks.new.checkpoints.items }
    ensures after { index * 65536 < result }
    ensures near { result ≤ index * 65536 + 65536 }
    ensures within { result ≤ length area.now }
    ensures whole { result < length area.now → result ≡ index * 65536 + 65536 }
    ensures marked { AreMarks program.now.steps.items program.now.entry program.now.exit area.now (index * 65536) result
        marks.new.window.items }
{
    let high = set_after_window(program, area, marks, index);
    mark_starts(
        program,
        area,
        Bounds {
            low: index * WINDOW,
            high,
        },
        &mut marks.set,
        &mut marks.cache,
        &mut marks.window,
    );
    high
}

/// How many matches there are; those before the place are counted already.
fn count_marked(program: &Program, marks: &mut Marks, area: &[u8], from: Progress) -> u64
    requires program { InRange program.now.steps.items }
    requires entry { program.now.entry < length program.now.steps.items }
    requires exit { program.now.exit < length program.now.steps.items }
    requires room { HasRoom program.now.steps.items program.now.entry program.now.exit marks.old }
    requires few { from.count ≤ from.place }
    requires within { from.place ≤ length area.now }
    requires short { length area.now ≤ marks.old.reach }
    ensures room { HasRoom program.now.steps.items program.now.entry program.now.exit marks.new }
    ensures reach { marks.new.reach ≡ marks.old.reach }
    ensures few { result ≤ length area.now }
    ensures counted { (e : Re) (fold : Bool) → IsProgram program.now e fold
        → CountsTo fold e area.now 0 from.count from.place
        → (ms : List Found) × IsRun fold e area.now 0 ms × (result ≡ length ms) }
{
    let mut at = from;
    if area.is_empty() {
        return at.count;
    }
    keep_checkpoints(program, area, marks);
    let mut index = at.place / WINDOW;
    while index * WINDOW < area.len() {
        let high = mark_window(program, area, marks, index);
        at = count_window(
            program,
            &mut marks.forward,
            area,
            &marks.window,
            Bounds {
                low: index * WINDOW,
                high,
            },
            at,
        );
        index += 1;
    }
    at.count
}

/// Whether the empty text matches inside a line, and so at each place: then each run ends where it begins.
fn matches_empty_text(program: &Program, forward: &mut Forward) -> bool
    requires program { InRange program.now.steps.items }
    requires entry { program.now.entry < length program.now.steps.items }
    requires exit { program.now.exit < length program.now.steps.items }
    requires forward { AreRuns program.now.steps.items program.now.entry forward.old }
    ensures { AreRuns program.now.steps.items program.now.entry forward.new }
{
    start_run(program, &mut forward.labels, &[0, 0], 1);
    is_reached(&forward.labels, program.exit)
}

/// How many matches there are; those before the place are counted already. No place is marked: a run begins at each.
fn count_unmarked(program: &Program, forward: &mut Forward, area: &[u8], from: Progress) -> u64
    requires program { InRange program.now.steps.items }
    requires entry { program.now.entry < length program.now.steps.items }
    requires exit { program.now.exit < length program.now.steps.items }
    requires forward { AreRuns program.now.steps.items program.now.entry forward.old }
    requires few { from.count ≤ from.place }
    requires within { from.place ≤ length area.now }
    ensures forward { AreRuns program.now.steps.items program.now.entry forward.new }
    ensures few { result ≤ length area.now }
    ensures counted { (e : Re) (fold : Bool) → IsProgram program.now e fold
        → CountsTo fold e area.now 0 from.count from.place
        → (ms : List Found) × IsRun fold e area.now 0 ms × (result ≡ length ms) }
{
    let mut at = from;
    while at.place < area.len() {
        at = count_at(program, forward, area, true, at);
    }
    at.count
}

/// How many matches there are; those before the place are counted already. Marks save nothing where the empty text
/// matches at each place.
pub fn count_rest(program: &Program, marks: &mut Marks, area: &[u8], from: Progress) -> u64
    requires program { InRange program.now.steps.items }
    requires entry { program.now.entry < length program.now.steps.items }
    requires exit { program.now.exit < length program.now.steps.items }
    requires room { HasRoom program.now.steps.items program.now.entry program.now.exit marks.old }
    requires few { from.count ≤ from.place }
    requires within { from.place ≤ length area.now }
    requires short { length area.now ≤ marks.old.reach }
    ensures room { HasRoom program.now.steps.items program.now.entry program.now.exit marks.new }
    ensures reach { marks.new.reach ≡ marks.old.reach }
    ensures few { result ≤ length area.now }
    ensures counted { (e : Re) (fold : Bool) → IsProgram program.now e fold
        → CountsTo fold e area.now 0 from.count from.place
        → (ms : List Found) × IsRun fold e area.now 0 ms × (result ≡ length ms) }
{
    if matches_empty_text(program, &mut marks.forward) {
        return count_unmarked(program, &mut marks.forward, area, from);
    }
    count_marked(program, marks, area, from)
}
