//! The least end of a match that begins at a place: one run of the automaton from that place alone. It goes by a cache
//! of the sets of states that runs have met (a lazy DFA). Labels serve for a step that no run has taken yet.
ghost use Rattle.std.specs.Prelude.{◌≡◌, ◌↔◌, ◌⊎◌, ℕ, ◌+◌, ◌<◌, ◌≤◌, Bool, true, List, Some, IfOk, IsTrue, IsFalse};
ghost use Rattle.std.specs.Prelude.{length, vec_len, slice_get};
ghost use Rattle.pm_regex.specs.Re.{Re};
ghost use Rattle.pm_match.specs.declared.step.Step.{Step};
ghost use Rattle.pm_match.specs.declared.cache.States.{States};
ghost use Rattle.pm_match.specs.Labels.{Below, KeepsBelow, InRange};
ghost use Rattle.pm_match.specs.Search.{IsProgram};
ghost use Rattle.pm_match.specs.Backward.{Holds};
ghost use Rattle.pm_match.specs.Cache.{AreLinks, HasSets};
ghost use Rattle.pm_match.specs.Forward.{AreRunLabels, IsRunSet, IsLeastEnd, end_context};
ghost use Rattle.pm_match.specs.Begins.{AreBegins, AreRuns, IsRunNumber};

use crate::advancing::advance;
use crate::build::Program;
use crate::cache::{
    Cache, KEYS, NONE, context_at, empty, has_state, link, make_cache, number_of, restart,
};
use crate::closing::reach;
use crate::labels::{Label, Labels, clear, no_labels, relax};
use std::alloc::{AllocError, Global};
use std::mem;

/// The sets of states that runs have met, and room for a step by labels.
#[derive(Drop)]
pub struct Forward {
    pub cache: Cache,
    /// For what the first place is after, the number of the set that a run begins with there.
    pub begins: Vec<u16>,
    pub labels: Labels,
    pub next: Labels,
}

/// An empty cache for runs of so many states in areas of up to this length.
pub fn make_forward(alloc: Global, size: usize, reach: usize) -> Result<Forward, AllocError>
    ensures { IfOk result (λ forward. (p : List Step) (entry : ℕ) → length p ≡ size → AreRuns p entry forward) }
{
    let cache = make_cache(alloc, size, reach, Vec::new(alloc))?;
    let begins = vec![in alloc; NONE; 3]?;
    let labels = no_labels(alloc, size)?;
    let next = no_labels(alloc, size)?;
    Ok(Forward {
        cache,
        begins,
        labels,
        next,
    })
}

/// Labels the states that are reached at the start without a byte.
pub fn start_run(program: &Program, labels: &mut Labels, area: &[u8], start: usize)
    requires program { InRange program.now.steps.items }
    requires entry { program.now.entry < length program.now.steps.items }
    requires labels { vec_len labels.old.of ≡ length program.now.steps.items }
    requires start { start ≤ length area.now }
    ensures len { vec_len labels.new.of ≡ length program.now.steps.items }
    ensures ahead { AreRunLabels program.now.steps.items area.now program.now.entry start start labels.new.of.items }
{
    clear(labels);
    reach(
        &program.steps,
        labels,
        area,
        start,
        program.entry,
        Label { start, cut: 0 },
    );
}

/// Labels the states that are reached at the next place.
fn step_forward(
    program: &Program,
    labels: &mut Labels,
    next: &mut Labels,
    area: &[u8],
    place: usize,
)
    requires program { InRange program.now.steps.items }
    requires labels { vec_len labels.old.of ≡ length program.now.steps.items }
    requires next { vec_len next.old.of ≡ length program.now.steps.items }
    requires place { place < length area.now }
    ensures labels { vec_len labels.new.of ≡ length program.now.steps.items }
    ensures next { vec_len next.new.of ≡ length program.now.steps.items }
    ensures ahead { (entry start : ℕ) → start ≤ place
        → AreRunLabels program.now.steps.items area.now entry start place labels.old.of.items
        → AreRunLabels program.now.steps.items area.now entry start (place + 1) labels.new.of.items }
{
    advance(&program.steps, labels, next, area, place);
    mem::swap(labels, next);
}

/// Whether the state has a label.
pub fn is_reached(labels: &Labels, state: usize) -> bool
    requires { state < vec_len labels.now.of }
    ensures yes { IsTrue result → (v : ℕ) × Below labels.now.of.items state v }
    ensures no { IsFalse result → (v : ℕ) → Below labels.now.of.items state v → ⊥ }
{
    match labels.of[state] {
        None => false,
        Some(_) => true,
    }
}

/// Labels a state if the set has it.
fn load_state(labels: &mut Labels, set: &[bool], state: usize)
    requires labels { vec_len labels.old.of ≡ length set.now }
    requires state { state < length set.now }
    ensures sound { (q v : ℕ) → Below labels.new.of.items q v
        → Below labels.old.of.items q v ⊎ ((q ≡ state) × Holds set.now q) }
    ensures kept { KeepsBelow labels.old.of.items labels.new.of.items }
    ensures whole { Holds set.now state → (v : ℕ) × Below labels.new.of.items state v }
    ensures len { vec_len labels.new.of ≡ vec_len labels.old.of }
{
    if set[state] {
        relax(labels, state, Label { start: 0, cut: 0 });
    }
}

/// Labels the states of a set, and no others.
fn load(labels: &mut Labels, set: &[bool])
    requires { vec_len labels.old.of ≡ length set.now }
    ensures sound { (q v : ℕ) → Below labels.new.of.items q v → Holds set.now q }
    ensures whole { (q : ℕ) → Holds set.now q → (v : ℕ) × Below labels.new.of.items q v }
    ensures len { vec_len labels.new.of ≡ vec_len labels.old.of }
{
    clear(labels);
    for state in 0..set.len() {
        load_state(labels, set, state);
    }
}

/// Makes the set of the states that have a label.
fn save(labels: &Labels, set: &mut Vec<bool>)
    requires { vec_len set.old ≡ vec_len labels.now.of }
    ensures exact { (q : ℕ) → Holds set.new.items q ↔ ((v : ℕ) × Below labels.now.of.items q v) }
    ensures len { vec_len set.new ≡ vec_len set.old }
{
    for state in 0..set.len() {
        set[state] = is_reached(labels, state);
    }
}

/// Whether the place after this one is the area's end.
fn end_context_at(area: &[u8], place: usize) -> usize
    requires { place < length area.now }
    ensures is { result ≡ end_context area.now place }
    ensures few { result < 3 }
{
    if place + 1 == area.len() { 1 } else { 0 }
}

/// Makes room for the next set, and gives the number that the set that was made last has then.
fn settle_run(forward: &mut Forward, number: usize) -> usize
    requires sets { HasSets forward.old.cache }
    requires in_use { number < forward.old.cache.count }
    requires is { (s : States) → slice_get forward.old.cache.sets.items number ≡ Some s
        → s.set.items ≡ forward.old.cache.made.items }
    ensures sets { HasSets forward.new.cache }
    ensures spare { forward.new.cache.count < vec_len forward.new.cache.sets }
    ensures made { forward.new.cache.made ≡ forward.old.cache.made }
    ensures links { (p : List Step) (entry : ℕ)
        → AreLinks true p entry forward.old.cache.count forward.old.cache.sets.items forward.old.cache.links.items
        → AreLinks true p entry forward.new.cache.count forward.new.cache.sets.items forward.new.cache.links.items }
    ensures begins { (p : List Step) (entry : ℕ)
        → AreBegins p entry forward.old.cache.count forward.old.cache.sets.items forward.old.begins.items
        → AreBegins p entry forward.new.cache.count forward.new.cache.sets.items forward.new.begins.items }
    ensures contexts { vec_len forward.new.begins ≡ vec_len forward.old.begins }
    ensures labels { forward.new.labels ≡ forward.old.labels }
    ensures next { forward.new.next ≡ forward.old.next }
    ensures number { result < forward.new.cache.count }
    ensures same { (s : States) → slice_get forward.new.cache.sets.items result ≡ Some s
        → s.set.items ≡ forward.old.cache.made.items }
{
    if forward.cache.count < forward.cache.sets.len() {
        return number;
    }
    restart(&mut forward.cache);
    empty(&mut forward.begins);
    0
}

/// The number of the set that a run begins with, where none with this context has begun yet.
fn meet_first(forward: &mut Forward, program: &Program, area: &[u8], start: usize) -> usize
    requires program { InRange program.now.steps.items }
    requires entry { program.now.entry < length program.now.steps.items }
    requires start { start < length area.now }
    requires ready { AreRuns program.now.steps.items program.now.entry forward.old }
    ensures ready { AreRuns program.now.steps.items program.now.entry forward.new }
    ensures number { IsRunNumber program.now.steps.items area.now program.now.entry start start forward.new.cache
        result }
{
    start_run(program, &mut forward.labels, area, start);
    save(&forward.labels, &mut forward.cache.made);
    let number = number_of(&mut forward.cache);
    let at = settle_run(forward, number);
    forward.begins[context_at(area, start)] = at as u16;
    at
}

/// The number of the set that a run begins with.
pub fn first_number(forward: &mut Forward, program: &Program, area: &[u8], start: usize) -> usize
    requires program { InRange program.now.steps.items }
    requires entry { program.now.entry < length program.now.steps.items }
    requires start { start < length area.now }
    requires ready { AreRuns program.now.steps.items program.now.entry forward.old }
    ensures ready { AreRuns program.now.steps.items program.now.entry forward.new }
    ensures number { IsRunNumber program.now.steps.items area.now program.now.entry start start forward.new.cache
        result }
{
    let known = forward.begins[context_at(area, start)];
    if known < NONE {
        return known as usize;
    }
    meet_first(forward, program, area, start)
}

/// The number of the set of the next place, by that of a place, which isn't linked to it yet.
fn meet_next(
    forward: &mut Forward,
    program: &Program,
    area: &[u8],
    place: usize,
    at: usize,
) -> usize
    requires program { InRange program.now.steps.items }
    requires entry { program.now.entry < length program.now.steps.items }
    requires place { place < length area.now }
    requires ready { AreRuns program.now.steps.items program.now.entry forward.old }
    requires at { (start : ℕ)
        × IsRunNumber program.now.steps.items area.now program.now.entry start place forward.old.cache at }
    ensures ready { AreRuns program.now.steps.items program.now.entry forward.new }
    ensures number { (start : ℕ)
        → IsRunNumber program.now.steps.items area.now program.now.entry start place forward.old.cache at
        → IsRunNumber program.now.steps.items area.now program.now.entry start (place + 1) forward.new.cache result }
{
    load(&mut forward.labels, &forward.cache.sets[at].set);
    step_forward(program, &mut forward.labels, &mut forward.next, area, place);
    save(&forward.labels, &mut forward.cache.made);
    let to = number_of(&mut forward.cache);
    link(
        &mut forward.cache,
        at,
        end_context_at(area, place),
        area[place],
        to,
    );
    settle_run(forward, to)
}

/// The number of the set of the next place, by that of a place.
pub fn next_number(
    forward: &mut Forward,
    program: &Program,
    area: &[u8],
    place: usize,
    at: usize,
) -> usize
    requires program { InRange program.now.steps.items }
    requires entry { program.now.entry < length program.now.steps.items }
    requires place { place < length area.now }
    requires ready { AreRuns program.now.steps.items program.now.entry forward.old }
    requires at { (start : ℕ)
        × IsRunNumber program.now.steps.items area.now program.now.entry start place forward.old.cache at }
    ensures ready { AreRuns program.now.steps.items program.now.entry forward.new }
    ensures number { (start : ℕ)
        → IsRunNumber program.now.steps.items area.now program.now.entry start place forward.old.cache at
        → IsRunNumber program.now.steps.items area.now program.now.entry start (place + 1) forward.new.cache result }
{
    let key = end_context_at(area, place) * 256 + area[place] as usize;
    let link = forward.cache.links[at * KEYS + key];
    if link < NONE {
        return link as usize;
    }
    meet_next(forward, program, area, place, at)
}

/// The least end of a match that begins at a place.
pub fn least_end(
    program: &Program,
    forward: &mut Forward,
    area: &[u8],
    start: usize,
) -> Option<usize>
    requires program { InRange program.now.steps.items }
    requires entry { program.now.entry < length program.now.steps.items }
    requires exit { program.now.exit < length program.now.steps.items }
    requires forward { AreRuns program.now.steps.items program.now.entry forward.old }
    requires start { start < length area.now }
    ensures forward { AreRuns program.now.steps.items program.now.entry forward.new }
    ensures within { (j : ℕ) → result ≡ Some j → (start ≤ j) × (j ≤ length area.now) }
    ensures least { (e : Re) (fold : Bool) → IsProgram program.now e fold → IsLeastEnd fold e area.now start result }
{
    let mut place = start;
    let mut at = first_number(forward, program, area, start);
    while !has_state(&forward.cache, at, program.exit) {
        if place >= area.len() {
            return None;
        }
        at = next_number(forward, program, area, place, at);
        place += 1;
    }
    Some(place)
}
