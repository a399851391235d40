//! A search for two expressions, one after the other.
ghost use Rattle.std.specs.Prelude.{◌<◌, false, IfSome, length};
ghost use Rattle.pm_match.specs.Labels.{InRange};
ghost use Rattle.pm_match.specs.Starts.{AreStarts};
ghost use Rattle.pm_match.specs.Cache.{AreReady};
ghost use Rattle.pm_match.specs.Anywhere.{IsSound, IsAnywhere};

use crate::any_match::{is_match, is_match_within};
use crate::anywhere::{Anywhere, before_all};
use crate::automata::{Automata, Room};
use crate::build::build;
use crate::cache::{Cache, least_start};
use crate::find::{Match, find, find_within};
use crate::labels::no_labels;
use crate::marks::{Marks, Progress, count_rest, reaches};
use crate::spare::{VERY_LONG, is_needed, reserved_marks, spare_anywhere, spare_cache, tables};
use pm_bytes::Memory;
use pm_regex::Op;
use std::alloc::Global;

/// How long an area is if pieces of it show whether a count by sets of states saves more than it takes.
const BUSY: usize = 4096;

/// How long an area is if a pass from its end may save more than it takes.
const LARGE: usize = 16384;

/// How many of its first bytes show whether it does.
const SAMPLE: usize = 1024;

/// How many pieces of an area show how many labels a search has, or how many places it visits.
const PIECES: usize = 16;

/// How many bytes each has for the labels.
const PIECE: usize = 128;

/// How many places of a piece are visited at most where the tables rule out all that they can: its first, and its last
/// ones.
const BORDERS: usize = 8;

/// How many bytes each has for the places.
const SHORT: usize = 64;

/// How many bytes for each state an area must have to pay for sets of states.
const STATE: usize = 32;

/// How many states a large automaton has: as many as that of a list of some fifteen words.
const MANY: usize = 256;

/// How many bytes for each state of a large automaton an area must have to pay for a pass from the front.
const FEWER: usize = 32;

/// How many places of a long area are searched for any match before something is made that makes a search quicker.
const FRONT: usize = 256;

/// How many labels a place has where they cost more than sets of states.
const CROWD: usize = 3;

/// The piece of this number and size, of pieces at equal distances from the area's front on.
fn piece_of(area: &[u8], number: usize, size: usize) -> &[u8] {
    let start = (area.len() / PIECES).saturating_mul(number);
    if area.len() < size || start > area.len() - size {
        return &area[..0];
    }
    &area[start..start + size]
}

/// Two automata, and the room to search by them.
#[derive(Drop)]
pub struct Search {
    alloc: Global,
    automata: Automata,
    room: Room,
    /// Room to count by marks, once it was asked for.
    marks: Option<Box<Marks>>,
    /// Sets for a pass from the end, once one was worth it.
    cache: Option<Box<Cache>>,
    /// Sets for a pass from the front that tells whether anything matches, once one was worth it.
    anywhere: Option<Box<Anywhere>>,
}

impl Search {
    ghost use Rattle.std.specs.Prelude.{◌≡◌, ◌≤◌, ℕ, Bool, true, false, List, Option, Some, None, length};
    ghost use Rattle.std.specs.Prelude.{IfOk, IsTrue, IsFalse};
    ghost use Rattle.pm_regex.specs.Re.{Re, nothing};
    ghost use Rattle.pm_regex.specs.declared.found.Found.{Found};
    ghost use Rattle.pm_match.specs.declared.find.Match.{Match};
    ghost use Rattle.pm_regex.specs.Found.{IsMatch, IsRun};
    ghost use Rattle.pm_match.specs.Checkpoints.{CountsTo};
    ghost use Rattle.pm_regex.specs.Postfix.{Spells};
    ghost use Rattle.pm_match.specs.Search.{Runs, IsReserved};
    ghost use Rattle.pm_match.specs.Finding.{IsFirst};

    /// The search for two lists of operators, of which the second is after the first.
    pub fn of(alloc: Global, left: &[Op], right: &[Op], fold: bool) -> Result<Search, Memory>
        requires left_spells { (e : Re) × Spells left.now e }
        requires right_spells { (e : Re) × Spells right.now e }
        ensures { IfOk result (λ search. (l r : Re) → Spells left.now l → Spells right.now r → Runs search l r fold) }
    {
        let left = build(alloc, left, fold)?;
        let right = build(alloc, right, fold)?;
        let left_labels = no_labels(alloc, left.steps.len())?;
        let left_next = no_labels(alloc, left.steps.len())?;
        let right_labels = no_labels(alloc, right.steps.len())?;
        let right_next = no_labels(alloc, right.steps.len())?;
        let automata = Automata {
            starts: None,
            left,
            right,
        };
        let room = Room {
            left: left_labels,
            left_next,
            right: right_labels,
            right_next,
            last: 0,
            visits: 0,
            labels: 0,
        };
        Ok(Search {
            alloc,
            automata,
            room,
            marks: None,
            cache: None,
            anywhere: None,
        })
    }

    /// Makes the tables, where the area is long enough to pay for them.
    fn prepare(&mut self, area: &[u8])
        requires { (l : Re) × (r : Re) × (fold : Bool) × Runs self.old l r fold }
        ensures kept { (l r : Re) (fold : Bool) → Runs self.old l r fold → Runs self.new l r fold }
        ensures marks { self.new.marks ≡ self.old.marks }
    {
        if is_needed(&self.automata.starts, area.len()) {
            let is_very_long = area.len() >= VERY_LONG;
            self.automata.starts = tables(
                self.alloc,
                &self.automata.left,
                &mut self.room,
                is_very_long,
            );
        }
    }

    /// The first match from a place on.
    pub fn first(&mut self, area: &[u8], from: usize) -> Option<Match>
        requires runs { (l : Re) × (r : Re) × (fold : Bool) × Runs self.old l r fold }
        requires from { from ≤ length area.now }
        ensures kept { (l r : Re) (fold : Bool) → Runs self.old l r fold → Runs self.new l r fold }
        ensures first { (l r : Re) (fold : Bool) → Runs self.old l r fold → IsFirst fold l r area.now from result }
    {
        self.prepare(area);
        find(&self.automata, &mut self.room, area, from)
    }

    /// The first match from a place on, where it is found by a visit of so many places at most.
    pub fn first_within(&mut self, area: &[u8], from: usize, most: usize) -> Option<Option<Match>>
        requires runs { (l : Re) × (r : Re) × (fold : Bool) × Runs self.old l r fold }
        requires from { from ≤ length area.now }
        ensures kept { (l r : Re) (fold : Bool) → Runs self.old l r fold → Runs self.new l r fold }
        ensures marks { self.new.marks ≡ self.old.marks }
        ensures first { (found : Option Match) → result ≡ Some found → (l r : Re) (fold : Bool)
            → Runs self.old l r fold → IsFirst fold l r area.now from found }
    {
        self.prepare(area);
        find_within(&self.automata, &mut self.room, area, from, most)
    }

    /// How many places searches of short pieces from all over the area visit.
    fn visits_of(&mut self, area: &[u8]) -> usize
        requires { (l : Re) × (r : Re) × (fold : Bool) × Runs self.old l r fold }
        ensures { (l r : Re) (fold : Bool) → Runs self.old l r fold → Runs self.new l r fold }
    {
        self.prepare(area);
        let mut visits: usize = 0;
        for number in 0..PIECES {
            let _found = self.first(piece_of(area, number, SHORT), 0);
            visits = visits.saturating_add(self.room.visits);
        }
        visits
    }

    /// Whether a count by sets of states is likely to be faster than one by labels: the area is long beside the
    /// automaton, and searches of pieces of it visit most of their places.
    pub fn is_busy(&mut self, area: &[u8]) -> bool
        requires { (l : Re) × (r : Re) × (fold : Bool) × Runs self.old l r fold }
        ensures { (l r : Re) (fold : Bool) → Runs self.old l r fold → Runs self.new l r fold }
    {
        if area.len() < BUSY || !self.is_small(area.len()) {
            return false;
        }
        self.visits_of(area) > PIECES * SHORT / 2
    }

    /// Whether a pass over sets of states is likely to be faster than a search by labels: the area is long beside the
    /// automaton, and a search of so many of its first bytes visits most of them.
    fn is_dense(&mut self, area: &[u8], first: usize) -> bool
        requires { (l : Re) × (r : Re) × (fold : Bool) × Runs self.old l r fold }
        ensures { (l r : Re) (fold : Bool) → Runs self.old l r fold → Runs self.new l r fold }
    {
        if area.len() < first || !self.is_small(area.len()) {
            return false;
        }
        self.prepare(area);
        let _found = self.first(&area[..first], 0);
        self.visits() > first / 2
    }

    /// Whether a pass from the end is worth it: a search by labels visits most bytes, and ends in none of the first
    /// ones. So the pass costs little beside a search that ends early.
    fn is_worth(&mut self, area: &[u8]) -> bool
        requires { (l : Re) × (r : Re) × (fold : Bool) × Runs self.old l r fold }
        ensures { (l r : Re) (fold : Bool) → Runs self.old l r fold → Runs self.new l r fold }
    {
        if area.len() < LARGE {
            return false;
        }
        if !self.is_dense(area, SAMPLE) {
            return false;
        }
        let first = area.len() / 32;
        let _found = self.first(&area[..first], 0);
        self.room.last >= first
    }

    /// Makes the sets for a pass from the end.
    fn prepare_cache(&mut self)
        requires { (l : Re) × (r : Re) × (fold : Bool) × Runs self.old l r fold }
        ensures { (l r : Re) (fold : Bool) → Runs self.old l r fold → Runs self.new l r fold }
    {
        if self.cache.is_none() {
            self.cache = spare_cache(self.alloc, &self.automata.left);
        }
    }

    /// A place before which no match begins.
    fn before_all(&mut self, area: &[u8]) -> usize
        requires { (l : Re) × (r : Re) × (fold : Bool) × Runs self.old l r fold }
        ensures kept { (l r : Re) (fold : Bool) → Runs self.old l r fold → Runs self.new l r fold }
        ensures within { result ≤ length area.now }
        ensures none { (l r : Re) (fold : Bool) → Runs self.old l r fold
            → (s c j : ℕ) → IsMatch fold l r area.now 0 s c j → result ≤ s }
    {
        match &mut self.cache {
            None => 0,
            Some(cache) => least_start(cache, &self.automata.left, area),
        }
    }

    /// How many labels of the left part a search of pieces from all over the area has at all of their places.
    fn labels_of(&mut self, area: &[u8]) -> usize
        requires { (l : Re) × (r : Re) × (fold : Bool) × Runs self.old l r fold }
        ensures { (l r : Re) (fold : Bool) → Runs self.old l r fold → Runs self.new l r fold }
    {
        self.prepare(area);
        let mut labels: usize = 0;
        for number in 0..PIECES {
            let _found = self.first(piece_of(area, number, PIECE), 0);
            if self.room.visits > BORDERS {
                labels = labels.saturating_add(self.room.labels);
            }
        }
        labels
    }

    /// Whether a pass from the front is worth it: a large automaton, for which the area is long enough, has many labels
    /// at the places of pieces of it.
    fn is_crowded(&mut self, area: &[u8]) -> bool
        requires { (l : Re) × (r : Re) × (fold : Bool) × Runs self.old l r fold }
        ensures kept { (l r : Re) (fold : Bool) → Runs self.old l r fold → Runs self.new l r fold }
        ensures front { IsTrue result → 0 < length area.now }
    {
        let size = self.automata.left.steps.len();
        if area.len() < VERY_LONG || size < MANY || area.len() / FEWER < size {
            return false;
        }
        self.labels_of(area) / (PIECES * PIECE) >= CROWD
    }

    /// Makes the sets for a pass from the front.
    fn prepare_anywhere(&mut self)
        requires { (l : Re) × (r : Re) × (fold : Bool) × Runs self.old l r fold }
        ensures { (l r : Re) (fold : Bool) → Runs self.old l r fold → Runs self.new l r fold }
    {
        if self.anywhere.is_none() {
            self.anywhere = spare_anywhere(self.alloc, &self.automata.left);
        }
    }

    /// A place before which no match begins, by a pass from the front.
    fn before_first(&mut self, area: &[u8]) -> usize
        requires { (l : Re) × (r : Re) × (fold : Bool) × Runs self.old l r fold }
        ensures kept { (l r : Re) (fold : Bool) → Runs self.old l r fold → Runs self.new l r fold }
        ensures within { result ≤ length area.now }
        ensures none { (l r : Re) (fold : Bool) → Runs self.old l r fold
            → (s c j : ℕ) → IsMatch fold l r area.now 0 s c j → result ≤ s }
    {
        match &mut self.anywhere {
            None => 0,
            Some(anywhere) => before_all(anywhere, area),
        }
    }

    /// A place before which no match begins, where a pass over sets of states is worth it.
    fn begin_of(&mut self, area: &[u8]) -> usize
        requires { (l : Re) × (r : Re) × (fold : Bool) × Runs self.old l r fold }
        ensures kept { (l r : Re) (fold : Bool) → Runs self.old l r fold → Runs self.new l r fold }
        ensures within { result ≤ length area.now }
        ensures none { (l r : Re) (fold : Bool) → Runs self.old l r fold
            → (s c j : ℕ) → IsMatch fold l r area.now 0 s c j → result ≤ s }
    {
        if self.is_crowded(area) {
            self.prepare_anywhere();
            return self.before_first(area);
        }
        if self.is_worth(area) {
            self.prepare_cache();
            return self.before_all(area);
        }
        0
    }

    /// The first match in the area.
    pub fn first_of_all(&mut self, area: &[u8]) -> Option<Match>
        requires { (l : Re) × (r : Re) × (fold : Bool) × Runs self.old l r fold }
        ensures kept { (l r : Re) (fold : Bool) → Runs self.old l r fold → Runs self.new l r fold }
        ensures first { (l r : Re) (fold : Bool) → Runs self.old l r fold → IsFirst fold l r area.now 0 result }
    {
        let from = self.begin_of(area);
        self.first(area, from)
    }

    /// Whether there is a match, where the first places of a long area show it.
    fn is_match_at_front(&mut self, area: &[u8]) -> Option<bool>
        requires { (l : Re) × (r : Re) × (fold : Bool) × Runs self.old l r fold }
        ensures kept { (l r : Re) (fold : Bool) → Runs self.old l r fold → Runs self.new l r fold }
        ensures some { result ≡ Some true → (l r : Re) (fold : Bool) → Runs self.old l r fold
            → IsFirst fold l r area.now 0 None → ⊥ }
        ensures none { result ≡ Some false → (l r : Re) (fold : Bool) → Runs self.old l r fold
            → IsFirst fold l r area.now 0 None }
    {
        if area.len() < BUSY {
            return None;
        }
        is_match_within(&self.automata, &mut self.room, area, 0, FRONT)
    }

    /// Whether there is a match, by a search that is made ready for the whole area.
    fn is_match_in_all(&mut self, area: &[u8]) -> bool
        requires { (l : Re) × (r : Re) × (fold : Bool) × Runs self.old l r fold }
        ensures kept { (l r : Re) (fold : Bool) → Runs self.old l r fold → Runs self.new l r fold }
        ensures some { IsTrue result → (l r : Re) (fold : Bool) → Runs self.old l r fold
            → IsFirst fold l r area.now 0 None → ⊥ }
        ensures none { IsFalse result → (l r : Re) (fold : Bool) → Runs self.old l r fold
            → IsFirst fold l r area.now 0 None }
    {
        let from = self.begin_of(area);
        self.prepare(area);
        is_match(&self.automata, &mut self.room, area, from)
    }

    /// Whether there is a match in the area.
    pub fn is_match(&mut self, area: &[u8]) -> bool
        requires { (l : Re) × (r : Re) × (fold : Bool) × Runs self.old l r fold }
        ensures kept { (l r : Re) (fold : Bool) → Runs self.old l r fold → Runs self.new l r fold }
        ensures some { IsTrue result → (l r : Re) (fold : Bool) → Runs self.old l r fold
            → IsFirst fold l r area.now 0 None → ⊥ }
        ensures none { IsFalse result → (l r : Re) (fold : Bool) → Runs self.old l r fold
            → IsFirst fold l r area.now 0 None }
    {
        match self.is_match_at_front(area) {
            None => self.is_match_in_all(area),
            Some(is_match) => is_match,
        }
    }

    /// Whether there is room to count by marks in an area of this length.
    pub fn is_reserved(&self, length: usize) -> bool
        ensures { IsTrue result → IsReserved self.now length }
    {
        match &self.marks {
            None => false,
            Some(marks) => reaches(marks, length),
        }
    }

    /// Makes room to count by marks in an area of this length.
    pub fn reserve(&mut self, length: usize) -> Result<(), Memory>
        ensures kept { (l r : Re) (fold : Bool) → Runs self.old l r fold → Runs self.new l r fold }
    {
        if !self.is_reserved(length) {
            let marks = reserved_marks(self.alloc, &self.automata.left, length)?;
            self.marks = Some(marks);
        }
        Ok(())
    }

    /// How many matches of the left part there are, those before a place being counted already; the right part is to
    /// match nothing.
    pub fn count_on(&mut self, area: &[u8], from: Progress) -> u64
        requires runs { (e : Re) × (fold : Bool) × Runs self.old e nothing fold }
        requires few { from.count ≤ from.place }
        requires within { from.place ≤ length area.now }
        requires reserved { IsReserved self.old (length area.now) }
        ensures kept { (l r : Re) (fold : Bool) → Runs self.old l r fold → Runs self.new l r fold }
        ensures few { result ≤ length area.now }
        ensures counted { (e : Re) (fold : Bool) → Runs self.old e nothing fold
            → CountsTo fold e area.now 0 from.count from.place
            → (ms : List Found) × IsRun fold e area.now 0 ms × (result ≡ length ms) }
    {
        match &mut self.marks {
            None => from.count,
            Some(marks) => count_rest(&self.automata.left, marks, area, from),
        }
    }

    /// The last place that the last search visited.
    pub fn last(&self) -> usize {
        self.room.last
    }

    /// How many places the last search visited.
    pub fn visits(&self) -> usize {
        self.room.visits
    }

    /// Whether the automaton of the left part is small beside an area of this length, so that sets of its states pay.
    pub fn is_small(&self, length: usize) -> bool {
        length / STATE >= self.automata.left.steps.len()
    }
}
