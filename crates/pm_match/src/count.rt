//! How many matches there are, one after the other.
ghost use Rattle.std.specs.Prelude.{◌≡◌, ℕ, ◌-◌, ◌^◌, ◌<◌, ◌≤◌, Bool, List, length};
ghost use Rattle.pm_regex.specs.Re.{Re, nothing};
ghost use Rattle.pm_regex.specs.declared.found.Found.{Found};
ghost use Rattle.pm_match.specs.declared.search.Search.{Search};
ghost use Rattle.pm_match.specs.Search.{Runs};
ghost use Rattle.pm_match.specs.Finding.{IsFirst};
ghost use Rattle.pm_regex.specs.Found.{IsRun, place_after};
ghost use Rattle.pm_match.specs.Checkpoints.{CountsTo};

use crate::find::Match;
use crate::marks::Progress;
use crate::search::Search;

/// Where the search goes on after a match: at its end, or one further if it is empty.
fn next_place(found: Match) -> usize
    requires { found.start < 2 ^ 64 - 1 }
    ensures { result ≡ place_after found.start found.end }
{
    if found.start == found.end {
        found.end + 1
    } else {
        found.end
    }
}

/// How far a count is after what was found from its place on: behind the match, or at the area's end if there is none.
fn after(found: Option<Match>, area: &[u8], from: Progress) -> Progress
    requires found { (g : Search) × (e : Re) × (fold : Bool) × Runs g e nothing fold
        × IsFirst fold e nothing area.now from.place found }
    requires few { from.count ≤ from.place }
    requires within { from.place < length area.now }
    ensures after { from.place < result.place }
    ensures few { result.count ≤ result.place }
    ensures within { result.place ≤ length area.now }
    ensures counted { (e : Re) (fold : Bool) → IsFirst fold e nothing area.now from.place found
        → CountsTo fold e area.now 0 from.count from.place → CountsTo fold e area.now 0 result.count result.place }
{
    let end = Progress {
        count: from.count,
        place: area.len(),
    };
    match found {
        None => end,
        Some(found) => {
            if found.start >= area.len() {
                return end;
            }
            Progress {
                count: from.count + 1,
                place: next_place(found),
            }
        }
    }
}

/// Counts the next match and goes on after it, or to the area's end if there is none. Where a search for it visits many
/// places, and sets cost less for each, it counts the rest by marks.
fn count_next(search: &mut Search, area: &[u8], from: Progress) -> Progress
    requires runs { (e : Re) × (fold : Bool) × Runs search.old e nothing fold }
    requires few { from.count ≤ from.place }
    requires within { from.place < length area.now }
    ensures kept { (l r : Re) (fold : Bool) → Runs search.old l r fold → Runs search.new l r fold }
    ensures after { from.place < result.place }
    ensures few { result.count ≤ result.place }
    ensures within { result.place ≤ length area.now }
    ensures counted { (e : Re) (fold : Bool) → Runs search.old e nothing fold
        → CountsTo fold e area.now 0 from.count from.place → CountsTo fold e area.now 0 result.count result.place }
{
    if !search.is_small(area.len()) || !search.is_reserved(area.len()) {
        let found = search.first(area, from.place);
        return after(found, area, from);
    }
    match search.first_within(area, from.place, area.len() / 8) {
        None => Progress {
            count: search.count_on(area, from),
            place: area.len(),
        },
        Some(found) => after(found, area, from),
    }
}

/// How many places a count may be expected to visit again: none, or all.
fn expected(search: &mut Search, area: &[u8]) -> usize
    requires { (e : Re) × (fold : Bool) × Runs search.old e nothing fold }
    ensures { (l r : Re) (fold : Bool) → Runs search.old l r fold → Runs search.new l r fold }
{
    if search.is_busy(area) { area.len() } else { 0 }
}

/// How many places the last search visited that the next one visits again. If it visited many of those that it went
/// past, and the area is long beside the automaton, it is all that it visited, four times over: sets cost less for
/// each.
fn burden(search: &Search, length: usize, before: usize, after: usize) -> usize {
    let visits = search.visits();
    if search.is_small(length) && visits > after.saturating_sub(before) / 8 {
        visits.saturating_mul(4)
    } else {
        search.last().saturating_sub(after)
    }
}

/// How many matches of the left part there are; the right part is to match nothing.
///
/// A search may have to visit places after its match, and the next one visits them again. Once these, or what sets
/// would save, are an eighth of the area's, the rest is counted by marks, if room for them was reserved.
pub fn count(search: &mut Search, area: &[u8]) -> u64
    requires { (e : Re) × (fold : Bool) × Runs search.old e nothing fold }
    ensures kept { (l r : Re) (fold : Bool) → Runs search.old l r fold → Runs search.new l r fold }
    ensures counted { (e : Re) (fold : Bool) → Runs search.old e nothing fold
        → (ms : List Found) × IsRun fold e area.now 0 ms × (result ≡ length ms) }
{
    let mut at = Progress { count: 0, place: 0 };
    let mut again = expected(search, area);
    while at.place < area.len() {
        if again > area.len() / 8 && search.is_reserved(area.len()) {
            return search.count_on(area, at);
        }
        let before = at.place;
        at = count_next(search, area, at);
        again = again.saturating_add(burden(search, area.len(), before, at.place));
    }
    at.count
}
