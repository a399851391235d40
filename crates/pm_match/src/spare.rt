//! What makes a search quicker, and is made once an area is long enough to pay for it. Where there is no memory for it
//! the search goes on without.
ghost use Rattle.std.specs.Prelude.{◌≡◌, ◌<◌, false, IfOk, IfSome, length, vec_len};
ghost use Rattle.pm_match.specs.Labels.{InRange};
ghost use Rattle.pm_match.specs.Starts.{AreStarts};
ghost use Rattle.pm_match.specs.Cache.{AreReady};
ghost use Rattle.pm_match.specs.Checkpoints.{HasRoom};
ghost use Rattle.pm_match.specs.Anywhere.{IsSound, IsAnywhere};

use crate::anywhere::{Anywhere, make_anywhere};
use crate::automata::Room;
use crate::build::Program;
use crate::cache::{Cache, make_cache};
use crate::marks::{Marks, make_marks};
use crate::order::order_of;
use crate::starts::Starts;
use crate::tables::{Ends, starts_of};
use pm_bytes::Memory;
use std::alloc::Global;

/// How long an area is where tables save more than it takes to make them.
const LONG: usize = 256;

/// How long an area is if the tables of later bytes, and rows, save more than it takes to make them.
pub const VERY_LONG: usize = 16384;

/// The length of areas that the cache of a search for the first match has room for sets by.
const REACH: usize = 16384;

/// Whether tables are still to be made.
pub fn is_needed(starts: &Option<Starts>, size: usize) -> bool {
    match starts {
        None => size >= LONG,
        Some(tables) => size >= VERY_LONG && !tables.is_whole,
    }
}

/// The tables of the automaton of a left part, by labels of its room. Where there is no memory for them the search goes
/// on without.
pub fn tables(
    alloc: Global,
    program: &Program,
    room: &mut Room,
    is_very_long: bool,
) -> Option<Starts>
    requires range { InRange program.now.steps.items }
    requires entry { program.now.entry < length program.now.steps.items }
    requires exit { program.now.exit < length program.now.steps.items }
    requires same_len { vec_len room.old.left.of ≡ length program.now.steps.items }
    requires same_next { vec_len room.old.left_next.of ≡ length program.now.steps.items }
    ensures starts { AreStarts program.now.steps.items program.now.entry program.now.exit result }
    ensures left { vec_len room.new.left.of ≡ length program.now.steps.items }
    ensures next { vec_len room.new.left_next.of ≡ length program.now.steps.items }
    ensures right { room.new.right ≡ room.old.right }
    ensures right_next { room.new.right_next ≡ room.old.right_next }
{
    match starts_of(
        alloc,
        &program.steps,
        Ends {
            entry: program.entry,
            exit: program.exit,
        },
        room,
        is_very_long,
    ) {
        Err(_) => None,
        Ok(starts) => Some(starts),
    }
}

/// An empty cache for passes from the end.
fn empty_cache(alloc: Global, program: &Program) -> Option<Cache>
    ensures { IfSome result (AreReady false program.now.steps.items program.now.exit) }
{
    let order = match order_of(alloc, &program.steps) {
        Err(_) => return None,
        Ok(order) => order,
    };
    match make_cache(alloc, program.steps.len(), REACH, order) {
        Err(_) => None,
        Ok(cache) => Some(cache),
    }
}

/// An empty cache for passes from the end. Where there is no memory for it the search goes on without.
pub fn spare_cache(alloc: Global, program: &Program) -> Option<Box<Cache>>
    ensures { IfSome result (λ cache. AreReady false program.now.steps.items program.now.exit cache.value) }
{
    match empty_cache(alloc, program) {
        None => None,
        Some(cache) => Box::new(alloc, cache).ok(),
    }
}

/// An empty cache for passes from the front. Where there is no memory for it the search goes on without.
pub fn spare_anywhere(alloc: Global, program: &Program) -> Option<Box<Anywhere>>
    requires { IsSound program.now }
    ensures { IfSome result (λ anywhere. IsAnywhere program.now anywhere.value) }
{
    match make_anywhere(alloc, program) {
        Err(_) => None,
        Ok(anywhere) => Box::new(alloc, anywhere).ok(),
    }
}

/// Room to count by marks in areas of up to this length.
fn marks_for(alloc: Global, program: &Program, reach: usize) -> Result<Marks, Memory>
    ensures room { IfOk result (HasRoom program.now.steps.items program.now.entry program.now.exit) }
    ensures reach { IfOk result (λ marks. marks.reach ≡ reach) }
{
    let order = order_of(alloc, &program.steps)?;
    let marks = make_marks(alloc, program.steps.len(), reach, order)?;
    Ok(marks)
}

/// Room to count by marks in areas of up to this length.
pub fn reserved_marks(alloc: Global, program: &Program, reach: usize) -> Result<Box<Marks>, Memory>
    ensures room { IfOk result (λ marks.
        HasRoom program.now.steps.items program.now.entry program.now.exit marks.value) }
    ensures reach { IfOk result (λ marks. marks.value.reach ≡ reach) }
{
    let marks = marks_for(alloc, program, reach)?;
    let marks = Box::new(alloc, marks)?;
    Ok(marks)
}
