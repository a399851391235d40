//! A place before which no match begins, told before a search by labels: one run by sets of states, from the area's
//! front, of an automaton that reads any bytes before a match.
ghost use Rattle.std.specs.Prelude.{◌≡◌, ℕ, ◌⊎◌, ◌+◌, ◌<◌, ◌≤◌, List, IfOk, IfSome, IsTrue, IsFalse, Some, length};
ghost use Rattle.std.specs.Prelude.{vec_len, slice_get};
ghost use Rattle.pm_match.specs.declared.build.Program.{Program};
ghost use Rattle.pm_match.specs.declared.step.Step.{Step};
ghost use Rattle.pm_match.specs.declared.sets.Span.{Span};
ghost use Rattle.pm_match.specs.Automaton.{Edge};
ghost use Rattle.pm_match.specs.Labels.{Below, Crosses, InRange, IsClosed, KeepsBelow};
ghost use Rattle.pm_match.specs.Anywhere.{Embeds, IsSound, IsAnywhere, NoneBefore};
ghost use Rattle.pm_match.specs.Lists.{AreBounded, AreMet, AreReady, Has, IsAfter, IsAt, IsLink, IsSetOf, NoneGoesOn};
ghost use Rattle.pm_match.specs.declared.sets.Span.{Span};

use crate::atoms::takes_byte;
use crate::build::Program;
use crate::cache::NONE;
use crate::closing::reach;
use crate::forward::{is_reached, start_run};
use crate::labels::{Label, Labels, clear, no_labels};
use crate::sets::{Sets, Span, link, make_sets, number_of, restart};
use crate::step::{Step, Test};
use pm_regex::Atom;
use std::alloc::{AllocError, Global};

/// How many steps without a link a pass has at least before it gives up.
const PATIENCE: usize = 4096;

/// An automaton that reads any bytes before a match of another one, the sets of states that its runs have met, and room
/// for the labels of a step.
#[derive(Drop)]
pub struct Anywhere {
    pub program: Program,
    pub sets: Sets,
    pub labels: Labels,
}

/// The automaton that reads any bytes before a match of this one.
fn with_any_bytes(alloc: Global, program: &Program) -> Result<Program, AllocError>
    requires { IsSound program.now }
    ensures embeds { IfOk result (Embeds program.now) }
    ensures sound { IfOk result IsSound }
{
    let entry = program.steps.len();
    let mut steps = Vec::new(alloc);
    steps.extend_from_slice(&program.steps)?;
    steps.push(Step::Fork(entry + 1, program.entry))?;
    steps.push(Step::Fork(entry + 2, entry + 3))?;
    steps.push(Step::Take(Test::One(Atom::Any, false), entry))?;
    steps.push(Step::Take(Test::One(Atom::LineStart, false), entry))?;
    Ok(Program {
        steps,
        entry,
        exit: program.exit,
    })
}

/// The automaton that reads any bytes before a match of this one, with no sets yet.
pub fn make_anywhere(alloc: Global, program: &Program) -> Result<Anywhere, AllocError>
    requires { IsSound program.now }
    ensures { IfOk result (IsAnywhere program.now) }
{
    let program = with_any_bytes(alloc, program)?;
    let sets = make_sets(alloc, program.steps.len())?;
    let labels = no_labels(alloc, program.steps.len())?;
    Ok(Anywhere {
        program,
        sets,
        labels,
    })
}

/// Labels the states at the next place to which a state leads by this place's byte, and returns whether there are any.
fn cross_from(steps: &[Step], next: &mut Labels, area: &[u8], place: usize, state: usize) -> bool
    requires program { InRange steps.now }
    requires next { vec_len next.old.of ≡ length steps.now }
    requires state { state < length steps.now }
    requires place { place < length area.now }
    requires closed { IsClosed steps.now area.now (place + 1) next.old.of.items }
    ensures sound { (r v : ℕ) → Below next.new.of.items r v
        → Below next.old.of.items r v ⊎ Crosses steps.now area.now place state r }
    ensures kept { KeepsBelow next.old.of.items next.new.of.items }
    ensures reached { (r v : ℕ) → Edge steps.now area.now state place r (place + 1) → Below next.new.of.items r v }
    ensures none { IsFalse result → (r : ℕ) → Edge steps.now area.now state place r (place + 1) → ⊥ }
    ensures len { vec_len next.new.of ≡ vec_len next.old.of }
    ensures closed { IsClosed steps.now area.now (place + 1) next.new.of.items }
{
    match steps[state] {
        Step::Stop => false,
        Step::Go(_) => false,
        Step::Fork(_, _) => false,
        Step::Take(test, to) => {
            if takes_byte(steps, test, area[place]) {
                reach(steps, next, area, place + 1, to, Label { start: 0, cut: 0 });
                true
            } else {
                false
            }
        }
        Step::Range(_, _) => false,
    }
}

/// Whether a state before the entry takes the byte.
fn is_inner(is_crossed: bool, state: usize, entry: usize) -> bool
    ensures { IsFalse result → state < entry → IsFalse is_crossed }
{
    is_crossed && state < entry
}

/// Labels the states at the next place to which those of a set lead by this place's byte. It returns whether one of
/// them stands before the entry.
fn cross(
    program: &Program,
    states: &Vec<usize>,
    span: Span,
    next: &mut Labels,
    area: &[u8],
    place: usize,
) -> bool
    requires program { InRange program.now.steps.items }
    requires next { vec_len next.old.of ≡ length program.now.steps.items }
    requires end { span.end ≤ vec_len states.now }
    requires states { (q : ℕ) → Has states.now.items span q → q < length program.now.steps.items }
    requires place { place < length area.now }
    ensures sound { (r v : ℕ) → Below next.new.of.items r v
        → (q : ℕ) × Has states.now.items span q × Crosses program.now.steps.items area.now place q r }
    ensures reached { (q r v : ℕ) → Has states.now.items span q
        → Edge program.now.steps.items area.now q place r (place + 1) → Below next.new.of.items r v }
    ensures none { IsFalse result → NoneGoesOn program.now.steps.items area.now program.now.entry place
        (Has states.now.items span) }
    ensures len { vec_len next.new.of ≡ vec_len next.old.of }
    ensures closed { IsClosed program.now.steps.items area.now (place + 1) next.new.of.items }
{
    clear(next);
    let mut goes_on = false;
    for index in span.start..span.end {
        let state = states[index];
        let is_crossed = cross_from(&program.steps, next, area, place, state);
        let is_more = is_inner(is_crossed, state, program.entry);
        goes_on = goes_on | is_more;
    }
    goes_on
}

/// The number of the set of the states that have a label. Where there is no room for it, all other sets are taken out.
fn settle(sets: &mut Sets, labels: &Labels, goes_on: bool) -> Option<usize>
    requires { AreBounded sets.old.spans.items sets.old.states.items }
    ensures bounded { AreBounded sets.new.spans.items sets.new.states.items }
    ensures met { (p : List Step) (entry exit : ℕ)
        → AreMet p entry exit sets.old.spans.items sets.old.states.items sets.old.links.items
        → ((v : ℕ) → Below labels.now.of.items exit v → ⊥)
        → AreMet p entry exit sets.new.spans.items sets.new.states.items sets.new.links.items }
    ensures number { IfSome result
        (IsSetOf sets.new.spans.items sets.new.states.items labels.now.states.items goes_on) }
{
    match number_of(sets, &labels.states, goes_on) {
        Some(number) => Some(number),
        None => {
            restart(sets);
            number_of(sets, &labels.states, goes_on)
        }
    }
}

/// Links a set to the next one, where the place after this one isn't the area's end.
fn link_inside(sets: &mut Sets, area: &[u8], place: usize, at: usize, to: usize)
    requires bounded { AreBounded sets.old.spans.items sets.old.states.items }
    requires at { at < vec_len sets.old.spans }
    requires to { to < vec_len sets.old.spans }
    requires place { place < length area.now }
    ensures spans { sets.new.spans ≡ sets.old.spans }
    ensures states { sets.new.states ≡ sets.old.states }
    ensures met { (p : List Step) (entry exit : ℕ)
        → AreMet p entry exit sets.old.spans.items sets.old.states.items sets.old.links.items
        → ((b : ℕ) (s r : Span) → slice_get area.now place ≡ Some b → place + 1 < length area.now
        → slice_get sets.old.spans.items at ≡ Some s → slice_get sets.old.spans.items to ≡ Some r
        → IsLink p entry b sets.old.states.items s r)
        → AreMet p entry exit sets.new.spans.items sets.new.states.items sets.new.links.items }
{
    if place + 1 < area.len() {
        link(sets, at, area[place], to);
    }
}

/// The number of the set that a link leads to.
fn known(sets: &Sets, area: &[u8], place: usize, at: usize) -> Option<usize>
    requires place { place < length area.now }
    requires at { at < 512 }
    ensures { IfSome result (λ to. (p : List Step) (entry exit : ℕ)
        → AreMet p entry exit sets.now.spans.items sets.now.states.items sets.now.links.items
        → IsAt p area.now entry place sets.now.spans.items sets.now.states.items at
        → IsAfter p area.now entry place sets.now.spans.items sets.now.states.items to) }
{
    let index = at * 256 + area[place] as usize;
    if place + 1 >= area.len() {
        return None;
    }
    if index >= sets.links.len() {
        return None;
    }
    let link = sets.links[index];
    if link < NONE {
        return Some(link as usize);
    }
    None
}

/// The number of the set of the next place, by that of a place, which isn't linked to it. There is none where the exit
/// is reached, or where there is no room for the set.
fn meet(
    program: &Program,
    sets: &mut Sets,
    next: &mut Labels,
    area: &[u8],
    place: usize,
    at: usize,
) -> Option<usize>
    requires program { IsSound program.now }
    requires ready { AreReady program.now.steps.items program.now.entry program.now.exit sets.old next.old }
    requires place { place < length area.now }
    requires at { IsAt program.now.steps.items area.now program.now.entry place sets.old.spans.items
        sets.old.states.items at }
    ensures ready { AreReady program.now.steps.items program.now.entry program.now.exit sets.new next.new }
    ensures number { IfSome result (IsAfter program.now.steps.items area.now program.now.entry place
        sets.new.spans.items sets.new.states.items) }
{
    sets.missed = sets.missed.saturating_add(1);
    let span = sets.spans[at];
    let goes_on = cross(program, &sets.states, span, next, area, place);
    if is_reached(next, program.exit) {
        return None;
    }
    match number_of(sets, &next.states, goes_on) {
        Some(to) => {
            link_inside(sets, area, place, at, to);
            Some(to)
        }
        None => {
            restart(sets);
            number_of(sets, &next.states, goes_on)
        }
    }
}

/// The number of the set of the next place, by that of a place. There is none where the exit is reached, where half of
/// the steps had no link, or where there is no room for the set.
fn next_number(
    program: &Program,
    sets: &mut Sets,
    next: &mut Labels,
    area: &[u8],
    place: usize,
    at: usize,
) -> Option<usize>
    requires program { IsSound program.now }
    requires ready { AreReady program.now.steps.items program.now.entry program.now.exit sets.old next.old }
    requires place { place < length area.now }
    requires at { IsAt program.now.steps.items area.now program.now.entry place sets.old.spans.items
        sets.old.states.items at }
    ensures ready { AreReady program.now.steps.items program.now.entry program.now.exit sets.new next.new }
    ensures number { IfSome result (IsAfter program.now.steps.items area.now program.now.entry place
        sets.new.spans.items sets.new.states.items) }
{
    match known(sets, area, place, at) {
        Some(to) => Some(to),
        None => {
            if sets.missed > PATIENCE + place / 2 {
                return None;
            }
            meet(program, sets, next, area, place, at)
        }
    }
}

/// The number of the set of the area's front. There is none where the exit is reached.
fn first_number(program: &Program, sets: &mut Sets, next: &mut Labels, area: &[u8]) -> Option<usize>
    requires program { IsSound program.now }
    requires ready { AreReady program.now.steps.items program.now.entry program.now.exit sets.old next.old }
    ensures ready { AreReady program.now.steps.items program.now.entry program.now.exit sets.new next.new }
    ensures number { IfSome result
        (IsAt program.now.steps.items area.now program.now.entry 0 sets.new.spans.items sets.new.states.items) }
{
    sets.missed = 0;
    start_run(program, next, area, 0);
    if is_reached(next, program.exit) {
        return None;
    }
    settle(sets, next, false)
}

/// The place before which no match begins, by whether one goes on at a place.
fn base_at(goes_on: bool, base: usize, place: usize) -> usize
    ensures on { IsTrue goes_on → result ≡ base }
    ensures off { IsFalse goes_on → result ≡ place }
{
    if goes_on { base } else { place }
}

/// Goes on over the area from the set of its front, and gives a place before which no match begins. It ends where the
/// exit is reached, or where half of the steps had no link.
fn pass(program: &Program, sets: &mut Sets, next: &mut Labels, area: &[u8], first: usize) -> usize
    requires program { IsSound program.now }
    requires ready { AreReady program.now.steps.items program.now.entry program.now.exit sets.old next.old }
    requires first { IsAt program.now.steps.items area.now program.now.entry 0 sets.old.spans.items
        sets.old.states.items first }
    ensures ready { AreReady program.now.steps.items program.now.entry program.now.exit sets.new next.new }
    ensures within { result ≤ length area.now }
    ensures none { (g : Program) → Embeds g program.now → NoneBefore g program.now area.now result }
{
    let mut at = first;
    let mut base = 0;
    let mut place = 0;
    while place < area.len() {
        match next_number(program, sets, next, area, place, at) {
            None => return base,
            Some(to) => {
                at = to;
                place += 1;
                base = base_at(sets.spans[at].goes_on, base, place);
            }
        }
    }
    area.len()
}

/// A place before which no match begins.
pub fn before_all(anywhere: &mut Anywhere, area: &[u8]) -> usize
    requires { (g : Program) × IsAnywhere g anywhere.old }
    ensures kept { (g : Program) → IsAnywhere g anywhere.old → IsAnywhere g anywhere.new }
    ensures within { result ≤ length area.now }
    ensures none { (g : Program) → IsAnywhere g anywhere.old → NoneBefore g anywhere.old.program area.now result }
{
    match first_number(
        &anywhere.program,
        &mut anywhere.sets,
        &mut anywhere.labels,
        area,
    ) {
        None => 0,
        Some(first) => pass(
            &anywhere.program,
            &mut anywhere.sets,
            &mut anywhere.labels,
            area,
            first,
        ),
    }
}
