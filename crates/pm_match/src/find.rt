//! The search for the first match, in one pass.
ghost use Rattle.std.specs.Prelude.{◌≡◌, ℕ, Bool, ◌+◌, ◌^◌, ◌*◌, IsTrue, IfSome, ◌<◌, ◌≤◌, ◌⊎◌, length, vec_len};
ghost use Rattle.std.specs.Prelude.{◌-◌, slice_get, Some, None, Option};
ghost use Rattle.pm_regex.specs.Re.{Re};
ghost use Rattle.pm_match.specs.Automata.{AreWhole, Fits};
ghost use Rattle.pm_match.specs.Search.{IsProgram};
ghost use Rattle.pm_match.specs.Labels.{rank, NoneBefore, Below, InRange, IsClosed};
ghost use Rattle.pm_match.specs.Finding.{IsBestBefore, IsFirst, IsHeld, IsArrived, LeftSeed, RightSeed, Opens};
ghost use Rattle.pm_match.specs.Finding.{right_seed};
ghost use Rattle.pm_match.specs.Starts.{HaveAllBytes, IsExcluded};

use crate::advancing::go_to_next;
use crate::automata::{Automata, Room};
use crate::build::Program;
use crate::closing::reach;
use crate::labels::{Label, Labels, clear, none_before, none_through};
use crate::starts::{Places, Starts, go_on, is_ruled_out};

/// Where a match stands.
#[derive(Clone, Copy, Drop)]
pub struct Match {
    pub start: usize,
    pub cut: usize,
    pub end: usize,
}

/// The better of the best match so far and one that ends here, with the least label that leads here.
fn better(best: Option<Match>, label: Option<Label>, place: usize) -> Option<Match>
    ensures fits { (m : Label) → label ≡ Some m → m.cut < 2 ^ 64 }
    ensures none { label ≡ None → result ≡ best }
    ensures first { (u : Label) → label ≡ Some u → best ≡ None
        → result ≡ Some (record { start = u.start; cut = u.cut; end = place }) }
    ensures lower { (u : Label) (f : Match) → label ≡ Some u → best ≡ Some f
        → rank u ≤ rank (record { start = f.start; cut = f.cut })
        → result ≡ Some (record { start = u.start; cut = u.cut; end = place }) }
    ensures other { (u : Label) (f : Match) → label ≡ Some u → best ≡ Some f
        → rank (record { start = f.start; cut = f.cut }) < rank u → result ≡ best }
{
    match label {
        None => best,
        Some(met) => {
            let here = Match {
                start: met.start,
                cut: met.cut,
                end: place,
            };
            match best {
                None => Some(here),
                Some(found) => {
                    if found.start < met.start || found.start == met.start && found.cut < met.cut {
                        Some(found)
                    } else {
                        Some(here)
                    }
                }
            }
        }
    }
}

/// Begins a run here, if there is a seed, and follows all edges that read nothing.
fn open(program: &Program, labels: &mut Labels, area: &[u8], place: usize, seed: Option<Label>)
    requires range { InRange program.now.steps.items }
    requires same_len { vec_len labels.old.of ≡ length program.now.steps.items }
    requires entry { program.now.entry < vec_len labels.old.of }
    requires place { place ≤ length area.now }
    requires closed { IsClosed program.now.steps.items area.now place labels.old.of.items }
    ensures opens { Opens program.now.steps.items area.now place program.now.entry seed
        labels.old.of.items labels.new.of.items }
    ensures len { vec_len labels.new.of ≡ vec_len labels.old.of }
{
    match seed {
        None => {}
        Some(label) => reach(&program.steps, labels, area, place, program.entry, label),
    }
}

/// Begins runs of both parts here, and gives the label with which the right part ends here.
pub fn visit(
    automata: &Automata,
    room: &mut Room,
    area: &[u8],
    from: usize,
    place: usize,
) -> Option<Label>
    requires automata { AreWhole automata.now }
    requires room { Fits automata.now room.old }
    requires from { from ≤ place }
    requires place { place ≤ length area.now }
    requires left_arrived { let left = automata.now.left in IsArrived left.steps.items area.now left.entry
        (LeftSeed left.steps.items area.now left.entry left.exit from) place room.old.left.of.items }
    requires right_arrived { let left = automata.now.left in
        IsArrived automata.now.right.steps.items area.now automata.now.right.entry
        (RightSeed left.steps.items area.now left.entry left.exit from) place room.old.right.of.items }
    ensures left_held { let left = automata.now.left in IsHeld left.steps.items area.now left.entry
        (LeftSeed left.steps.items area.now left.entry left.exit from) place room.new.left.of.items }
    ensures right_held { let left = automata.now.left in
        IsHeld automata.now.right.steps.items area.now automata.now.right.entry
        (RightSeed left.steps.items area.now left.entry left.exit from) place room.new.right.of.items }
    ensures room { Fits automata.now room.new }
    ensures met { slice_get room.new.right.of.items automata.now.right.exit ≡ Some result }
{
    let begin = left_seed(&automata.starts, area, place);
    open(&automata.left, &mut room.left, area, place, begin);
    let seed = seed_of(room.left.of[automata.left.exit], place);
    open(&automata.right, &mut room.right, area, place, seed);
    room.right.of[automata.right.exit]
}

/// The label with which the left part begins, if the tables allow that here.
fn left_seed(starts: &Option<Starts>, area: &[u8], place: usize) -> Option<Label>
    requires tables { IfSome starts.now HaveAllBytes }
    requires place { place ≤ length area.now }
    ensures some { (u : Label) → result ≡ Some u → u ≡ record { start = place; cut = 0 } }
    ensures none { result ≡ None → IsExcluded starts.now area.now place }
{
    if is_ruled_out(starts, area, place) {
        None
    } else {
        Some(Label {
            start: place,
            cut: 0,
        })
    }
}

/// The label with which the right part begins.
fn seed_of(met: Option<Label>, place: usize) -> Option<Label>
    ensures seed { result ≡ right_seed met place }
    ensures fits { (m : Label) → met ≡ Some m → m.cut < 2 ^ 64 }
{
    match met {
        None => None,
        Some(label) => Some(Label {
            start: label.start,
            cut: place,
        }),
    }
}

/// Whether no match that ends later can be better: no run that is on its way began before the best match, or has a cut
/// that isn't after the best one's.
fn is_final(best: Option<Match>, left_labels: &Labels, right_labels: &Labels) -> bool
    ensures { IsTrue result → (f : Match) × (best ≡ Some f) × NoneBefore left_labels.now.of.items (f.start * 2 ^ 64)
        × NoneBefore right_labels.now.of.items (rank (record { start = f.start; cut = f.cut }) + 1) }
{
    match best {
        None => false,
        Some(found) => {
            let least = Label {
                start: found.start,
                cut: 0,
            };
            let reached = Label {
                start: found.start,
                cut: found.cut,
            };
            none_before(left_labels, least) && none_through(right_labels, reached)
        }
    }
}

/// Hands the labels of both parts on to the next place.
pub fn hand_on(automata: &Automata, room: &mut Room, area: &[u8], place: usize)
    requires automata { AreWhole automata.now }
    requires room { Fits automata.now room.old }
    requires place { place < length area.now }
    ensures room { Fits automata.now room.new }
    ensures left { let left = automata.now.left in (from : ℕ)
        → IsHeld left.steps.items area.now left.entry
        (LeftSeed left.steps.items area.now left.entry left.exit from) place room.old.left.of.items
        → IsArrived left.steps.items area.now left.entry
        (LeftSeed left.steps.items area.now left.entry left.exit from) (place + 1) room.new.left.of.items }
    ensures right { let left = automata.now.left in (from : ℕ)
        → IsHeld automata.now.right.steps.items area.now automata.now.right.entry
        (RightSeed left.steps.items area.now left.entry left.exit from) place room.old.right.of.items
        → IsArrived automata.now.right.steps.items area.now automata.now.right.entry
        (RightSeed left.steps.items area.now left.entry left.exit from) (place + 1) room.new.right.of.items }
{
    go_to_next(
        &automata.left.steps,
        &mut room.left,
        &mut room.left_next,
        area,
        place,
    );
    go_to_next(
        &automata.right.steps,
        &mut room.right,
        &mut room.right_next,
        area,
        place,
    );
}

/// The first match from a place on: the least start, for it the least cut, and for both the greatest end. There is no
/// answer where more places than this number would be visited.
pub fn find_within(
    automata: &Automata,
    room: &mut Room,
    area: &[u8],
    from: usize,
    most: usize,
) -> Option<Option<Match>>
    requires automata { AreWhole automata.now }
    requires room { Fits automata.now room.old }
    requires from { from ≤ length area.now }
    ensures room { Fits automata.now room.new }
    ensures first { (found : Option Match) → result ≡ Some found → (fold : Bool) (l r : Re)
        → IsProgram automata.now.left l fold → IsProgram automata.now.right r fold
        → IsFirst fold l r area.now from found }
    ensures none { result ≡ None → most < 2 ^ 64 - 1 }
{
    let mut best = None;
    let mut base = from;
    let mut place = from;
    room.visits = 0;
    room.labels = 0;
    clear(&mut room.left);
    clear(&mut room.right);
    while place < area.len() {
        room.visits = room.visits.saturating_add(1);
        if room.visits > most {
            return None;
        }
        let met = visit(automata, room, area, base, place);
        room.labels = room.labels.saturating_add(room.left.states.len());
        best = better(best, met, place);
        if is_final(best, &room.left, &room.right) {
            room.last = place;
            return Some(best);
        }
        hand_on(automata, room, area, place);
        let on = go_on(
            &automata.starts,
            best,
            &room.left,
            &room.right,
            area,
            Places {
                base,
                place: place + 1,
            },
        );
        base = on.base;
        place = on.place;
    }
    room.last = area.len();
    let met = visit(automata, room, area, base, area.len());
    Some(better(best, met, area.len()))
}

/// The first match from a place on: the least start, for it the least cut, and for both the greatest end.
pub fn find(automata: &Automata, room: &mut Room, area: &[u8], from: usize) -> Option<Match>
    requires automata { AreWhole automata.now }
    requires room { Fits automata.now room.old }
    requires from { from ≤ length area.now }
    ensures room { Fits automata.now room.new }
    ensures first { (fold : Bool) (l r : Re) → IsProgram automata.now.left l fold → IsProgram automata.now.right r fold
        → IsFirst fold l r area.now from result }
{
    match find_within(automata, room, area, from, usize::MAX) {
        None => None,
        Some(found) => found,
    }
}
