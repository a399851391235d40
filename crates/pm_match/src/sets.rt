//! Sets of states that a pass from an area's front has met, each a list of its states, and links from set to set by a
//! byte (a lazy DFA). A new set costs in proportion to its states.
ghost use Rattle.std.specs.Prelude.{◌≡◌, ◌↔◌, ℕ, ◌+◌, ◌<◌, ◌≤◌, ◌++◌, List, Some, IfOk, IfSome, IsTrue, length};
ghost use Rattle.std.specs.Prelude.{slice_get, vec_len, vec_capacity};
ghost use Rattle.pm_match.specs.declared.step.Step.{Step};
ghost use Rattle.pm_match.specs.Lists.{IsIn, Has, AreBounded, AreMet, IsLink, IsSetOf};

use crate::cache::{NONE, empty};
use std::alloc::{AllocError, Global};

/// How many sets there is room for at most.
const MOST: usize = 512;

/// How many states of a set there is room for in the mean.
const MEAN: usize = 128;

/// How many slots there are for each set.
const SLOTS: usize = 4;

/// How many slots a set may be in.
const PROBES: usize = 8;

/// Where the states of a set are listed.
#[derive(Clone, Copy, Drop)]
pub struct Span {
    pub start: usize,
    pub end: usize,
    /// Whether a match that was on its way before goes on in it.
    pub goes_on: bool,
}

/// The sets that were met, and which of them is next to which.
#[derive(Drop)]
pub struct Sets {
    pub spans: Vec<Span>,
    /// The states of all sets.
    pub states: Vec<usize>,
    /// For each set and byte the number of the next set.
    pub links: Vec<u16>,
    /// Numbers of sets, by a hash of their states.
    pub slots: Vec<u16>,
    /// How many steps of this pass had no link.
    pub missed: usize,
}

/// Room for sets of so many states.
pub fn make_sets(alloc: Global, size: usize) -> Result<Sets, AllocError>
    ensures bounded { IfOk result (λ sets. AreBounded sets.spans.items sets.states.items) }
    ensures met { IfOk result (λ sets. (p : List Step) (entry exit : ℕ)
        → AreMet p entry exit sets.spans.items sets.states.items sets.links.items) }
{
    let most = if size < MOST { size } else { MOST };
    let spans = Vec::with_capacity(alloc, most)?;
    let states = Vec::with_capacity(alloc, size.saturating_add(most * MEAN))?;
    let links = vec![in alloc; NONE; most * 256]?;
    let slots = vec![in alloc; NONE; most * SLOTS]?;
    Ok(Sets {
        spans,
        states,
        links,
        slots,
        missed: 0,
    })
}

/// Whether the span has exactly these states, in their order, and this flag.
fn is_listed(all: &Vec<usize>, span: Span, states: &Vec<usize>, goes_on: bool) -> bool
    requires start { span.start ≤ span.end }
    requires end { span.end ≤ vec_len all.now }
    ensures flag { IsTrue result → span.goes_on ≡ goes_on }
    ensures size { IsTrue result → span.end ≡ span.start + vec_len states.now }
    ensures same { IsTrue result → (k q : ℕ) → slice_get states.now.items k ≡ Some q
        → slice_get all.now.items (span.start + k) ≡ Some q }
{
    if span.goes_on != goes_on {
        return false;
    }
    if span.end - span.start != states.len() {
        return false;
    }
    let mut index = 0;
    while index < states.len() {
        if all[span.start + index] != states[index] {
            return false;
        }
        index += 1;
    }
    true
}

/// Whether the set of this number has exactly these states, and this flag.
fn is_set(sets: &Sets, number: usize, states: &Vec<usize>, goes_on: bool) -> bool
    requires { AreBounded sets.now.spans.items sets.now.states.items }
    ensures { IsTrue result → IsSetOf sets.now.spans.items sets.now.states.items states.now.items goes_on number }
{
    if number >= sets.spans.len() {
        return false;
    }
    is_listed(&sets.states, sets.spans[number], states, goes_on)
}

/// A number by which sets are told apart before they are compared.
fn hash_of(states: &[usize], goes_on: bool) -> usize {
    let mut hash = if goes_on { 1 } else { 0 };
    for state in states {
        hash = usize::wrapping_add(usize::wrapping_mul(hash, 31), *state);
    }
    hash
}

/// The number of the set of these states, if it is found.
fn find_set(sets: &Sets, hash: usize, states: &Vec<usize>, goes_on: bool) -> Option<usize>
    requires { AreBounded sets.now.spans.items sets.now.states.items }
    ensures { IfSome result (IsSetOf sets.now.spans.items sets.now.states.items states.now.items goes_on) }
{
    let size = sets.slots.len();
    if size == 0 {
        return None;
    }
    for probe in 0..PROBES {
        let number = sets.slots[usize::wrapping_add(hash, probe) % size] as usize;
        if is_set(sets, number, states, goes_on) {
            return Some(number);
        }
    }
    None
}

/// Notes the number of a set by its hash: in a free slot, or in place of another number.
fn note(slots: &mut Vec<u16>, hash: usize, number: u16) {
    let size = slots.len();
    if size == 0 {
        return;
    }
    for probe in 0..PROBES {
        let slot = usize::wrapping_add(hash, probe) % size;
        if slots[slot] == NONE {
            slots[slot] = number;
            return;
        }
    }
    slots[hash % size] = number;
}

/// Lists these states after the others. It takes no memory: there is room.
fn list(all: &mut Vec<usize>, states: &[usize])
    requires { vec_len all.old + length states.now ≤ vec_capacity all.old }
    ensures items { all.new.items ≡ all.old.items ++ states.now }
    ensures capacity { vec_capacity all.new ≡ vec_capacity all.old }
{
    for state in states {
        all.push_reserved(*state);
    }
}

/// Whether there is room for a set of so many states.
fn has_room(sets: &Sets, size: usize) -> bool
    ensures spans { IsTrue result → vec_len sets.now.spans < vec_capacity sets.now.spans }
    ensures few { IsTrue result → vec_len sets.now.spans < 512 }
    ensures states { IsTrue result → vec_len sets.now.states + size ≤ vec_capacity sets.now.states }
{
    let count = sets.spans.len();
    count < MOST
        && count < sets.spans.capacity()
        && sets.states.len() <= sets.states.capacity()
        && size <= sets.states.capacity() - sets.states.len()
}

/// Lists a new set, and gives its number.
fn put(sets: &mut Sets, hash: usize, states: &Vec<usize>, goes_on: bool) -> usize
    requires bounded { AreBounded sets.old.spans.items sets.old.states.items }
    requires spans { vec_len sets.old.spans < vec_capacity sets.old.spans }
    requires few { vec_len sets.old.spans < 512 }
    requires states { vec_len sets.old.states + vec_len states.now ≤ vec_capacity sets.old.states }
    ensures bounded { AreBounded sets.new.spans.items sets.new.states.items }
    ensures met { (p : List Step) (entry exit : ℕ)
        → AreMet p entry exit sets.old.spans.items sets.old.states.items sets.old.links.items
        → (IsIn states.now.items exit → ⊥)
        → AreMet p entry exit sets.new.spans.items sets.new.states.items sets.new.links.items }
    ensures kept { (v : ℕ) (s : Span) → slice_get sets.old.spans.items v ≡ Some s
        → (slice_get sets.new.spans.items v ≡ Some s)
        × ((q : ℕ) → Has sets.new.states.items s q ↔ Has sets.old.states.items s q) }
    ensures number { IsSetOf sets.new.spans.items sets.new.states.items states.now.items goes_on result }
{
    let number = sets.spans.len();
    let start = sets.states.len();
    list(&mut sets.states, states);
    let end = sets.states.len();
    sets.spans.push_reserved(Span {
        start,
        end,
        goes_on,
    });
    note(&mut sets.slots, hash, number as u16);
    number
}

/// The number of the set of these states, which is listed if it isn't yet. There may be no room for it.
pub fn number_of(sets: &mut Sets, states: &Vec<usize>, goes_on: bool) -> Option<usize>
    requires { AreBounded sets.old.spans.items sets.old.states.items }
    ensures bounded { AreBounded sets.new.spans.items sets.new.states.items }
    ensures met { (p : List Step) (entry exit : ℕ)
        → AreMet p entry exit sets.old.spans.items sets.old.states.items sets.old.links.items
        → (IsIn states.now.items exit → ⊥)
        → AreMet p entry exit sets.new.spans.items sets.new.states.items sets.new.links.items }
    ensures kept { (v : ℕ) (s : Span) → slice_get sets.old.spans.items v ≡ Some s
        → (slice_get sets.new.spans.items v ≡ Some s)
        × ((q : ℕ) → Has sets.new.states.items s q ↔ Has sets.old.states.items s q) }
    ensures number { IfSome result
        (IsSetOf sets.new.spans.items sets.new.states.items states.now.items goes_on) }
{
    let hash = hash_of(states, goes_on);
    match find_set(sets, hash, states, goes_on) {
        Some(known) => Some(known),
        None => {
            if has_room(sets, states.len()) {
                Some(put(sets, hash, states, goes_on))
            } else {
                None
            }
        }
    }
}

/// Links a set by a byte to the next one.
pub fn link(sets: &mut Sets, at: usize, byte: u8, to: usize)
    requires bounded { AreBounded sets.old.spans.items sets.old.states.items }
    requires at { at < vec_len sets.old.spans }
    requires to { to < vec_len sets.old.spans }
    ensures spans { sets.new.spans ≡ sets.old.spans }
    ensures states { sets.new.states ≡ sets.old.states }
    ensures met { (p : List Step) (entry exit : ℕ)
        → AreMet p entry exit sets.old.spans.items sets.old.states.items sets.old.links.items
        → ((s r : Span) → slice_get sets.old.spans.items at ≡ Some s → slice_get sets.old.spans.items to ≡ Some r
        → IsLink p entry byte sets.old.states.items s r)
        → AreMet p entry exit sets.new.spans.items sets.new.states.items sets.new.links.items }
{
    let index = at * 256 + byte as usize;
    if index < sets.links.len() {
        sets.links[index] = to as u16;
    }
}

/// Takes all sets out.
pub fn restart(sets: &mut Sets)
    ensures bounded { AreBounded sets.new.spans.items sets.new.states.items }
    ensures met { (p : List Step) (entry exit : ℕ)
        → AreMet p entry exit sets.new.spans.items sets.new.states.items sets.new.links.items }
{
    sets.spans.clear();
    sets.states.clear();
    empty(&mut sets.links);
    empty(&mut sets.slots);
}
