//! How the programs of a run are answered, by the journal of the run before it.
ghost use Rattle.std.specs.Prelude.{◌≡◌, ◌++◌, IfOk, IfSome, OnOk, option_copied};
ghost use Rattle.explain_run.specs.Programs.{program_at};
ghost use Rattle.explain_run.specs.Scripts.{part_at, part_by, is_next, was_started, IsAgain, kept, started_after};
ghost use Rattle.explain_run.specs.Scripts.{same_programs, same_acts};

use crate::past::Past;
use crate::programs::{program_at, runs};
use pm_bytes::Memory;
use pm_host::Command;
use pm_journal::{Act, Entry};
use std::alloc::Global;

/// Who answers a program: the host below, or the real one, which starts it; or it has its earlier answer again.
#[derive(Clone, Copy)]
pub(crate) enum Part {
    Below,
    Real,
    Again,
}

/// The journal of the run before, the places of the programs that were started, and the place of the one that is
/// started next.
#[derive(Clone, Copy)]
pub struct Script<'a> {
    pub entries: &'a [Entry],
    pub started: &'a [usize],
    pub next: Option<usize>,
}

impl<'a> Script<'a> {
    /// Who answers the program at this place.
    pub(crate) fn part_at(
        &self,
        alloc: Global,
        place: usize,
        command: &Command,
        want: bool,
    ) -> Result<Part, Memory>
        ensures { IfOk result (λ part. part
            ≡ part_at self.now.entries.now self.now.started.now self.now.next place command.now want) }
    {
        match program_at(self.entries, place) {
            None => Ok(Part::Below),
            Some(entry) => {
                if runs(alloc, &entry.act, command, want)? {
                    Ok(part_by(self.started, self.next, place))
                } else {
                    Ok(Part::Below)
                }
            }
        }
    }

    /// The program at this place as it was; none if it wasn't started.
    pub(crate) fn past_at(&self, alloc: Global, place: usize) -> Result<Option<Past>, Memory>
        ensures { IfOk result (λ past. IfSome past (IsAgain (program_at self.now.entries.now place))) }
    {
        match program_at(self.entries, place) {
            None => Ok(None),
            Some(entry) => Past::new(alloc, &entry.reply),
        }
    }
}

fn part_by(started: &[usize], next: Option<usize>, place: usize) -> Part
    ensures { result ≡ part_by started.now next place }
{
    if is_next(next, place) {
        Part::Real
    } else if was_started(started, place) {
        Part::Again
    } else {
        Part::Below
    }
}

fn is_next(next: Option<usize>, place: usize) -> bool
    ensures { result ≡ is_next next place }
{
    match next {
        None => false,
        Some(next) => next == place,
    }
}

/// Whether the program at this place is one of those that were started.
pub fn was_started(started: &[usize], place: usize) -> bool
    ensures { result ≡ was_started started.now place }
{
    started.iter().any(|one| *one == place)
}

/// The places of the programs that were started, once that at the place `next` was: those at which both journals, the
/// one before that and the one after, have the same program.
pub fn started_after(
    alloc: Global,
    old: &[Entry],
    new: &[Entry],
    started: &[usize],
    next: usize,
) -> Result<Vec<usize>, Memory>
    ensures { IfOk result (λ places. places.items ≡ started_after old.now new.now started.now next) }
{
    let mut places = Vec::new(alloc);
    for place in started {
        keep(alloc, old, new, *place, &mut places)?;
    }
    keep(alloc, old, new, next, &mut places)?;
    Ok(places)
}

fn keep(
    alloc: Global,
    old: &[Entry],
    new: &[Entry],
    place: usize,
    places: &mut Vec<usize>,
) -> Result<(), Memory>
    ensures { OnOk result (places.new.items ≡ places.old.items ++ kept old.now new.now place) }
{
    if same_programs(alloc, program_at(old, place), program_at(new, place))? {
        places.push(place)?;
    }
    Ok(())
}

fn same_programs(alloc: Global, old: Option<&Entry>, new: Option<&Entry>) -> Result<bool, Memory>
    ensures { IfOk result (λ same. same ≡ same_programs (option_copied old.entry) (option_copied new.entry)) }
{
    match (old, new) {
        (Some(old), Some(new)) => same_acts(alloc, &old.act, &new.act),
        _ => Ok(false),
    }
}

fn same_acts(alloc: Global, act: &Act, other: &Act) -> Result<bool, Memory>
    ensures { IfOk result (λ same. same ≡ same_acts act.now other.now) }
{
    match act {
        Act::Run { command, want, .. } => runs(alloc, other, command, *want),
        _ => Ok(false),
    }
}
