//! The search for any match at all, which ends where the first of them ends.
ghost use Rattle.std.specs.Prelude.{◌≡◌, ◌-◌, ◌^◌, ◌<◌, ◌≤◌, Bool, true, false, Some, None, IsTrue, IsFalse, length};
ghost use Rattle.pm_regex.specs.Re.{Re};
ghost use Rattle.pm_match.specs.Automata.{AreWhole, Fits};
ghost use Rattle.pm_match.specs.Search.{IsProgram};
ghost use Rattle.pm_match.specs.Finding.{IsFirst};

use crate::automata::{Automata, Room};
use crate::find::{hand_on, visit};
use crate::labels::{Label, clear};
use crate::starts::{Places, go_on};

/// Whether a label came.
fn is_met(label: Option<Label>) -> bool
    ensures some { IsTrue result → (met : Label) × (label ≡ Some met) × (met.cut < 2 ^ 64) }
    ensures none { IsFalse result → label ≡ None }
{
    match label {
        None => false,
        Some(_) => true,
    }
}

/// Whether there is a match from a place on. There is no answer where more places than this number would be visited.
pub fn is_match_within(
    automata: &Automata,
    room: &mut Room,
    area: &[u8],
    from: usize,
    most: usize,
) -> Option<bool>
    requires automata { AreWhole automata.now }
    requires room { Fits automata.now room.old }
    requires from { from ≤ length area.now }
    ensures room { Fits automata.now room.new }
    ensures some { result ≡ Some true → (fold : Bool) (l r : Re) → IsProgram automata.now.left l fold
        → IsProgram automata.now.right r fold → IsFirst fold l r area.now from None → ⊥ }
    ensures none { result ≡ Some false → (fold : Bool) (l r : Re) → IsProgram automata.now.left l fold
        → IsProgram automata.now.right r fold → IsFirst fold l r area.now from None }
    ensures open { result ≡ None → most < 2 ^ 64 - 1 }
{
    let mut base = from;
    let mut place = from;
    room.visits = 0;
    clear(&mut room.left);
    clear(&mut room.right);
    while place < area.len() {
        room.visits = room.visits.saturating_add(1);
        if room.visits > most {
            return None;
        }
        let met = visit(automata, room, area, base, place);
        if is_met(met) {
            return Some(true);
        }
        hand_on(automata, room, area, place);
        let on = go_on(
            &automata.starts,
            None,
            &room.left,
            &room.right,
            area,
            Places {
                base,
                place: place + 1,
            },
        );
        base = on.base;
        place = on.place;
    }
    let met = visit(automata, room, area, base, area.len());
    Some(is_met(met))
}

/// Whether there is a match from a place on.
pub fn is_match(automata: &Automata, room: &mut Room, area: &[u8], from: usize) -> bool
    requires automata { AreWhole automata.now }
    requires room { Fits automata.now room.old }
    requires from { from ≤ length area.now }
    ensures room { Fits automata.now room.new }
    ensures some { IsTrue result → (fold : Bool) (l r : Re) → IsProgram automata.now.left l fold
        → IsProgram automata.now.right r fold → IsFirst fold l r area.now from None → ⊥ }
    ensures none { IsFalse result → (fold : Bool) (l r : Re) → IsProgram automata.now.left l fold
        → IsProgram automata.now.right r fold → IsFirst fold l r area.now from None }
{
    match is_match_within(automata, room, area, from, usize::MAX) {
        None => false,
        Some(is_match) => is_match,
    }
}
