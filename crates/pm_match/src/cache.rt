//! A cache of the backward pass. It is a deterministic automaton that reads an area from its end (a lazy DFA): its
//! states are the sets that the pass has met, and its links are made as they are needed. Runs that read on have another
//! one.
ghost use Rattle.std.specs.Prelude.{◌≡◌, ℕ, ◌+◌, ◌*◌, ◌<◌, ◌≤◌, ◌↔◌, Bool, true, false, List, Some};
ghost use Rattle.std.specs.Prelude.{IfOk, IsTrue, IsFalse};
ghost use Rattle.std.specs.Prelude.{length, vec_len, slice_get};
ghost use Rattle.pm_match.specs.declared.step.Step.{Step};
ghost use Rattle.pm_match.specs.declared.cache.States.{States};
ghost use Rattle.pm_match.specs.Labels.{InRange};
ghost use Rattle.pm_match.specs.Backward.{AreMarks, Holds, IsExitSet, ReachesExit};
ghost use Rattle.pm_match.specs.Cache.{AreLinks, AreReady, HasSets, IsByteAt, IsNext, IsNumberOf, context};

use crate::backward::{set_at_end, step_back};
use crate::build::Program;
use std::alloc::{AllocError, Global};

/// How many sets there is room for at most.
const MOST: usize = 128;

/// For how many places of an area there is room for a set.
const PLACES: usize = 128;

/// How many links a set has: one for each byte in each context.
pub const KEYS: usize = 768;

/// The link to no set.
pub const NONE: u16 = 65535;

/// How many times a search for the least start may empty the cache.
const EMPTIED: usize = 4;

/// A set of states.
#[derive(Drop)]
pub struct States {
    pub set: Vec<bool>,
}

/// The sets that were met, and which of them is next to which.
#[derive(Drop)]
pub struct Cache {
    pub sets: Vec<States>,
    /// How many of the sets are in use.
    pub count: usize,
    /// For each set, context and byte the number of the set at the next place of the pass.
    pub links: Vec<u16>,
    /// The set that was made last.
    pub made: Vec<bool>,
    /// An order of the states that makes a step from the end quick.
    pub order: Vec<usize>,
}

/// How many sets there is room for, by the length of the area.
fn room_for(reach: usize) -> usize
    ensures few { result ≤ 128 }
    ensures many { 2 ≤ result }
{
    if reach / PLACES < MOST - 2 {
        reach / PLACES + 2
    } else {
        MOST
    }
}

/// An empty cache for so many states and areas of up to this length.
pub fn make_cache(
    alloc: Global,
    size: usize,
    reach: usize,
    order: Vec<usize>,
) -> Result<Cache, AllocError>
    ensures { IfOk result (λ cache. (on : Bool) (p : List Step) (exit : ℕ) → length p ≡ size
        → AreReady on p exit cache) }
{
    let room = room_for(reach);
    let mut sets = Vec::with_capacity(alloc, room)?;
    for _ in 0..room {
        let set = vec![in alloc; false; size]?;
        sets.push(States { set })?;
    }
    let links = vec![in alloc; NONE; room * KEYS]?;
    let made = vec![in alloc; false; size]?;
    Ok(Cache {
        sets,
        count: 0,
        links,
        made,
        order,
    })
}

/// Overwrites a set with another.
pub fn copy_set(from: &[bool], to: &mut Vec<bool>)
    requires { vec_len to.old ≡ length from.now }
    ensures same { to.new.items ≡ from.now }
    ensures len { vec_len to.new ≡ length from.now }
{
    to.copy_from_slice(from);
}

/// What the place is after: nothing, a newline, or another byte.
pub fn context_at(area: &[u8], place: usize) -> usize
    requires { place < length area.now }
    ensures is { result ≡ context area.now place }
    ensures few { result < 3 }
{
    if place == 0 {
        2
    } else if area[place - 1] == b'\n' {
        1
    } else {
        0
    }
}

/// Whether both sets have the same states.
fn is_same(one: &[bool], other: &[bool]) -> bool
    ensures { IsTrue result → one.now ≡ other.now }
{
    one == other
}

/// The number of the set that was made last, or the number of sets if the cache hasn't it.
fn find_set(cache: &Cache) -> usize
    requires { HasSets cache.now }
    ensures near { result ≤ cache.now.count }
    ensures same { result < cache.now.count → (s : States) → slice_get cache.now.sets.items result ≡ Some s
        → s.set.items ≡ cache.now.made.items }
{
    let mut index = 0;
    while index < cache.count {
        if is_same(&cache.sets[index].set, &cache.made) {
            return index;
        }
        index += 1;
    }
    index
}

/// Takes the set that was made last into use.
fn put(cache: &mut Cache)
    requires sets { HasSets cache.old }
    requires spare { cache.old.count < vec_len cache.old.sets }
    ensures sets { HasSets cache.new }
    ensures len { vec_len cache.new.sets ≡ vec_len cache.old.sets }
    ensures count { cache.new.count ≡ cache.old.count + 1 }
    ensures made { cache.new.made ≡ cache.old.made }
    ensures links { cache.new.links ≡ cache.old.links }
    ensures is { (s : States) → slice_get cache.new.sets.items cache.old.count ≡ Some s
        → s.set.items ≡ cache.old.made.items }
    ensures kept { (v : ℕ) → v < cache.old.count
        → slice_get cache.new.sets.items v ≡ slice_get cache.old.sets.items v }
{
    let number = cache.count;
    copy_set(&cache.made, &mut cache.sets[number].set);
    cache.count = number + 1;
}

/// Links a set to the one that is next to it.
pub fn link(cache: &mut Cache, at: usize, context: usize, byte: u8, to: usize)
    requires sets { HasSets cache.old }
    requires at { at < cache.old.count }
    requires to { to < cache.old.count }
    requires context { context < 3 }
    ensures sets { HasSets cache.new }
    ensures same { cache.new.sets ≡ cache.old.sets }
    ensures count { cache.new.count ≡ cache.old.count }
    ensures made { cache.new.made ≡ cache.old.made }
    ensures links { (on : Bool) (p : List Step) (exit : ℕ)
        → AreLinks on p exit cache.old.count cache.old.sets.items cache.old.links.items
        → ((s r : States) → slice_get cache.old.sets.items at ≡ Some s → slice_get cache.old.sets.items to ≡ Some r
        → IsNext on p exit byte context s.set.items r.set.items)
        → AreLinks on p exit cache.new.count cache.new.sets.items cache.new.links.items }
{
    cache.links[at * KEYS + (context * 256 + byte as usize)] = to as u16;
}

/// Makes all links lead to no set.
pub fn empty(links: &mut Vec<u16>)
    ensures len { vec_len links.new ≡ vec_len links.old }
    ensures none { (k t : ℕ) → slice_get links.new.items k ≡ Some t → t ≡ 65535 }
{
    for index in 0..links.len() {
        links[index] = NONE;
    }
}

/// Empties the cache but for the set that was made last, which becomes the first.
pub fn restart(cache: &mut Cache)
    requires { HasSets cache.old }
    ensures sets { HasSets cache.new }
    ensures len { vec_len cache.new.sets ≡ vec_len cache.old.sets }
    ensures count { cache.new.count ≡ 1 }
    ensures made { cache.new.made ≡ cache.old.made }
    ensures links { (on : Bool) (p : List Step) (exit : ℕ)
        → AreLinks on p exit cache.new.count cache.new.sets.items cache.new.links.items }
    ensures is { (s : States) → slice_get cache.new.sets.items 0 ≡ Some s → s.set.items ≡ cache.old.made.items }
{
    empty(&mut cache.links);
    cache.count = 0;
    put(cache);
}

/// The number of the set that was made last, which is taken into use if it is new.
pub fn number_of(cache: &mut Cache) -> usize
    requires sets { HasSets cache.old }
    requires spare { cache.old.count < vec_len cache.old.sets }
    ensures sets { HasSets cache.new }
    ensures count { cache.old.count ≤ cache.new.count }
    ensures made { cache.new.made ≡ cache.old.made }
    ensures links { (on : Bool) (p : List Step) (exit : ℕ)
        → AreLinks on p exit cache.old.count cache.old.sets.items cache.old.links.items
        → AreLinks on p exit cache.new.count cache.new.sets.items cache.new.links.items }
    ensures in_use { result < cache.new.count }
    ensures is { (s : States) → slice_get cache.new.sets.items result ≡ Some s → s.set.items ≡ cache.old.made.items }
    ensures kept { (v : ℕ) → v < cache.old.count
        → slice_get cache.new.sets.items v ≡ slice_get cache.old.sets.items v }
{
    let known = find_set(cache);
    if known < cache.count {
        return known;
    }
    put(cache);
    known
}

/// Makes room for the next set, and gives the number that the set that was made last has then.
fn settle(cache: &mut Cache, number: usize) -> usize
    requires sets { HasSets cache.old }
    requires in_use { number < cache.old.count }
    requires is { (s : States) → slice_get cache.old.sets.items number ≡ Some s
        → s.set.items ≡ cache.old.made.items }
    ensures sets { HasSets cache.new }
    ensures spare { cache.new.count < vec_len cache.new.sets }
    ensures made { cache.new.made ≡ cache.old.made }
    ensures links { (on : Bool) (p : List Step) (exit : ℕ)
        → AreLinks on p exit cache.old.count cache.old.sets.items cache.old.links.items
        → AreLinks on p exit cache.new.count cache.new.sets.items cache.new.links.items }
    ensures in_use { result < cache.new.count }
    ensures is { (s : States) → slice_get cache.new.sets.items result ≡ Some s → s.set.items ≡ cache.old.made.items }
{
    if cache.count < cache.sets.len() {
        return number;
    }
    restart(cache);
    0
}

/// The number of a set.
pub fn enter(cache: &mut Cache, set: &[bool]) -> usize
    requires ready { (p : List Step) × (exit : ℕ) × AreReady false p exit cache.old }
    requires set { vec_len cache.old.made ≡ length set.now }
    ensures ready { (p : List Step) (exit : ℕ) → AreReady false p exit cache.old → AreReady false p exit cache.new }
    ensures in_use { result < cache.new.count }
    ensures is { (s : States) → slice_get cache.new.sets.items result ≡ Some s → s.set.items ≡ set.now }
{
    copy_set(set, &mut cache.made);
    let number = number_of(cache);
    settle(cache, number)
}

/// The number of the set of a place, by that of the next place, which isn't linked to it yet.
fn meet(cache: &mut Cache, program: &Program, area: &[u8], place: usize, at: usize) -> usize
    requires program { InRange program.now.steps.items }
    requires exit { program.now.exit < length program.now.steps.items }
    requires place { place < length area.now }
    requires ready { AreReady false program.now.steps.items program.now.exit cache.old }
    requires at { IsNumberOf program.now.steps.items area.now program.now.exit (place + 1) cache.old at }
    ensures ready { AreReady false program.now.steps.items program.now.exit cache.new }
    ensures number { IsNumberOf program.now.steps.items area.now program.now.exit place cache.new result }
{
    step_back(
        program,
        &cache.order,
        area,
        place,
        &cache.sets[at].set,
        &mut cache.made,
    );
    let to = number_of(cache);
    link(cache, at, context_at(area, place), area[place], to);
    settle(cache, to)
}

/// The number of the set of a place, by that of the next place.
fn step(cache: &mut Cache, program: &Program, area: &[u8], place: usize, at: usize) -> usize
    requires program { InRange program.now.steps.items }
    requires exit { program.now.exit < length program.now.steps.items }
    requires place { place < length area.now }
    requires ready { AreReady false program.now.steps.items program.now.exit cache.old }
    requires at { IsNumberOf program.now.steps.items area.now program.now.exit (place + 1) cache.old at }
    ensures ready { AreReady false program.now.steps.items program.now.exit cache.new }
    ensures number { IsNumberOf program.now.steps.items area.now program.now.exit place cache.new result }
{
    let key = context_at(area, place) * 256 + area[place] as usize;
    let link = cache.links[at * KEYS + key];
    if link < NONE {
        return link as usize;
    }
    meet(cache, program, area, place, at)
}

/// Whether a set of this number has the state.
pub fn has_state(cache: &Cache, at: usize, state: usize) -> bool
    requires sets { HasSets cache.now }
    requires at { at < cache.now.count }
    requires state { state < vec_len cache.now.made }
    ensures yes { IsTrue result
        → (s : States) × (slice_get cache.now.sets.items at ≡ Some s) × Holds s.set.items state }
    ensures no { IsFalse result
        → (s : States) → slice_get cache.now.sets.items at ≡ Some s → Holds s.set.items state → ⊥ }
{
    cache.sets[at].set[state]
}

/// Places of an area from `low` on, and before `high`.
#[derive(Clone, Copy, Drop)]
pub struct Bounds {
    pub low: usize,
    pub high: usize,
}

/// Marks the places between bounds where a run from the entry to the exit begins. The set is that of `high` before, and
/// that of `low` after.
pub fn mark_starts(
    program: &Program,
    area: &[u8],
    bounds: Bounds,
    set: &mut Vec<bool>,
    cache: &mut Cache,
    marks: &mut Vec<bool>,
)
    requires program { InRange program.now.steps.items }
    requires entry { program.now.entry < length program.now.steps.items }
    requires exit { program.now.exit < length program.now.steps.items }
    requires low { bounds.low ≤ bounds.high }
    requires high { bounds.high ≤ length area.now }
    requires room { bounds.high ≤ bounds.low + vec_len marks.old }
    requires set { vec_len set.old ≡ length program.now.steps.items }
    requires ready { AreReady false program.now.steps.items program.now.exit cache.old }
    requires after { IsExitSet program.now.steps.items area.now program.now.exit bounds.high set.old.items }
    ensures set { vec_len set.new ≡ length program.now.steps.items }
    ensures ready { AreReady false program.now.steps.items program.now.exit cache.new }
    ensures marks { vec_len marks.new ≡ vec_len marks.old }
    ensures before { IsExitSet program.now.steps.items area.now program.now.exit bounds.low set.new.items }
    ensures marked { AreMarks program.now.steps.items program.now.entry program.now.exit area.now bounds.low bounds.high
        marks.new.items }
{
    let mut at = enter(cache, set);
    let mut place = bounds.high;
    while place > bounds.low {
        place -= 1;
        at = step(cache, program, area, place, at);
        marks[place - bounds.low] = cache.sets[at].set[program.entry];
    }
    copy_set(&cache.sets[at].set, set);
}

/// Goes back from the upper bound to the lower without marks. The set is that of `high` before, and of `low` after.
pub fn go_back(
    program: &Program,
    area: &[u8],
    bounds: Bounds,
    set: &mut Vec<bool>,
    cache: &mut Cache,
)
    requires program { InRange program.now.steps.items }
    requires exit { program.now.exit < length program.now.steps.items }
    requires low { bounds.low ≤ bounds.high }
    requires high { bounds.high ≤ length area.now }
    requires set { vec_len set.old ≡ length program.now.steps.items }
    requires ready { AreReady false program.now.steps.items program.now.exit cache.old }
    requires after { IsExitSet program.now.steps.items area.now program.now.exit bounds.high set.old.items }
    ensures set { vec_len set.new ≡ length program.now.steps.items }
    ensures ready { AreReady false program.now.steps.items program.now.exit cache.new }
    ensures before { IsExitSet program.now.steps.items area.now program.now.exit bounds.low set.new.items }
{
    let mut at = enter(cache, set);
    let mut place = bounds.high;
    while place > bounds.low {
        place -= 1;
        at = step(cache, program, area, place, at);
    }
    copy_set(&cache.sets[at].set, set);
}

/// The number of the set of the area's end.
fn last_number(cache: &mut Cache, program: &Program, area: &[u8]) -> usize
    requires program { InRange program.now.steps.items }
    requires exit { program.now.exit < length program.now.steps.items }
    requires ready { AreReady false program.now.steps.items program.now.exit cache.old }
    ensures ready { AreReady false program.now.steps.items program.now.exit cache.new }
    ensures number { IsNumberOf program.now.steps.items area.now program.now.exit (length area.now) cache.new result }
{
    set_at_end(
        program,
        &cache.order,
        area,
        &mut cache.made,
        &cache.sets[0].set,
    );
    let number = number_of(cache);
    settle(cache, number)
}

/// The place, if a run begins there, and else the least place so far.
fn lower(is_start: bool, place: usize, least: usize) -> usize
    ensures yes { IsTrue is_start → result ≡ place }
    ensures no { IsFalse is_start → result ≡ least }
{
    if is_start { place } else { least }
}

/// How many more times the cache may be emptied, by how many of its sets were in use before a step and after it.
fn left_after(left: usize, before: usize, after: usize) -> usize {
    if after < before && left > 0 {
        left - 1
    } else {
        left
    }
}

/// A place before which no run from the entry to the exit begins: the least place at which one does, or the area's end.
///
/// If the cache is emptied again and again, so that it saves nothing, it is 0.
pub fn least_start(cache: &mut Cache, program: &Program, area: &[u8]) -> usize
    requires program { InRange program.now.steps.items }
    requires entry { program.now.entry < length program.now.steps.items }
    requires exit { program.now.exit < length program.now.steps.items }
    requires ready { AreReady false program.now.steps.items program.now.exit cache.old }
    ensures ready { AreReady false program.now.steps.items program.now.exit cache.new }
    ensures within { result ≤ length area.now }
    ensures none { (k : ℕ) → k < result
        → ReachesExit program.now.steps.items area.now program.now.exit program.now.entry k → ⊥ }
{
    let mut at = last_number(cache, program, area);
    let mut place = area.len();
    let mut least = place;
    let mut left = EMPTIED;
    while place > 0 {
        if left == 0 {
            return 0;
        }
        place -= 1;
        let used = cache.count;
        at = step(cache, program, area, place, at);
        left = left_after(left, used, cache.count);
        least = lower(has_state(cache, at, program.entry), place, least);
    }
    least
}
